//! The commands of the program `awari` that answer what is asked of one board: a move, a judgement, its
//! place in its level, how many plays there are, and what the levels in a folder say of it. Each prints to
//! a writer that is lent to it, and gives the status that the program ends with. [`run_serve_unverified`]
//! answers many such requests by what the files say, read where they lie.
//!
//! What the levels in a folder say of a board, printed, in `crates/awari_command_tests/src/plain.rt`:
//!
//!     pub(crate) fn asked(
//!         rt: &(impl AllocGlobal + Threads + Clock + Wait + Sync + Send + Clone + Drop + 'static),
//!         folder: &mut MemoryFolder,
//!         board: &str,
//!         output: &mut Vec<u8>,
//!     ) -> u8 {
//!         let query = AskQuery {
//!             board,
//!             json: false,
//!             unverified: false,
//!         };
//!         run_ask(rt, rt.alloc(), folder, query, output)
//!     }
#![tactic(auto)]

mod asking;
mod asks;
mod counting;
mod files;
mod judgements;
mod lines;
mod memo;
mod opening;
mod places;
mod playing;
mod plies;
mod refusals;
mod serving;
mod sums;
mod unsaid;
mod worths;

pub use asks::run_ask;
pub use counting::{plays_from, run_plays};
pub use judgements::{Judgement, judge};
pub use lines::run_line;
pub use places::{Place, board_at, place_of, run_board, run_rank};
pub use playing::{Played, play_on};
pub use serving::run_serve_unverified;
pub use sums::PlayCounts;
pub use unsaid::Unsaid;
pub use worths::run_moves;
