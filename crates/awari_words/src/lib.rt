//! What the words ask for that the program is called with.
//!
//! [`joined`] joins values that begin with a hyphen to their options. [`understand`] reads the words by `clap`, and gives what they name or the text that `clap` prints.
//! [`request_of`] gives the [`Request`] that this is. The help texts stand here too.
//!
//! The words of a move are read, in `crates/awari_cli_tests/src/examples.rt`:
//!
//!     fn words_ask_for_a_move(rt: HostRuntime) -> Result<(), Fail> {
//!         let words = ["awari", "move", "0,0,0,0,0,1/1,0,1,0,0,0", "5"];
//!         let matches = understand(rt.alloc(), words.as_slice())?;
//!         let Some(Request::Move { board, pit }) = request_of(&matches) else {
//!             return Err(Fail::new("another request"));
//!         };
//!         expect_equal(&rt, pit, board, "0,0,0,0,0,1/1,0,1,0,0,0");
//!         Ok(())
//!     }
#![tactic(auto)]

mod commands;
mod helps;
mod joining;
mod laws;
mod making;
mod requests;

pub use joining::joined;
pub use laws::worked_words;
pub use requests::{BuildQuery, Question, Request, request_of, understand};
