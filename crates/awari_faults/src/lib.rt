//! What is told of a refusal: its number, which has a name and a sentence, its fields, and the refusal inside it.
//! All forms of a refusal are made of this. No call takes memory.
//!
//! The sentence of a number, without the zero byte with which C ends a text, in
//! `crates/awari_faults/src/meanings.rt`:
//!
//!     pub fn sentence(answer: u8) -> &'static [u8]
//!         ensures { result.now ≡ sentence answer }
//!     {
//!         let ended = ended_sentence(answer);
//!         &ended[..ended.len() - 1]
//!     }
#![tactic(auto)]

mod meanings;
mod refusals;

pub use meanings::{ended_sentence, name_of, sentence, sentence_of_limit};
pub use refusals::{Field, Fields, Inside, Reason, Refusal, Value};
