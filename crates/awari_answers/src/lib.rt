//! What the commands have in common that build nothing and change no folder: why one gives no answer, how
//! an answer or a refusal is printed, as text, JSON or CSV, and what the error stream is told beside it. The
//! status of a command is 0 if it is done, and 1 if it was refused or the writer gave a fault.
//!
//! A level in one line, in `crates/awari_answers/src/telling.rt`:
//!
//!     pub fn line_of_level(level: &Level) -> LevelLine
//!         ensures { IsToldOf level.now result }
//!     {
//!         LevelLine {
//!             level: level.number(),
//!             boards: size(level.number()),
//!             counts: level.counts(),
//!             limit: level.limit(),
//!         }
//!     }
#![tactic(auto)]

mod asked;
mod hints;
mod json;
mod levels;
mod printing;
mod remarking;
mod streams;
mod telling;
mod watching;

pub use asked::{Asked, NoAnswer, ask_folder};
pub use hints::{refuse_folder, tell_answer};
pub use json::{refuse_as, refuse_level};
pub use levels::load_levels;
pub use printing::{print, print_bytes, print_members, refuse, status_of};
pub use remarking::{Answers, Remarks};
pub use streams::Streams;
pub use telling::{LevelLine, Summary, hex_of, line_of_level};
pub use watching::load_watched;
