//! Boards looked up in the files of a folder where they lie, with no level read whole and none verified.
//!
//! [`open_levels`] looks at the headers and the lengths of the files, and [`entry`] reads the six bytes
//! that stand for a board. What is answered is what the files say, whether that is right or not. If
//! `verify` says yes to the files, it is the truth: [`right_files_say_their_shelf`] says so. Whoever looks at
//! many boards of a level has the levels in memory, by [`read_levels`].
//!
//! The entry of a board, looked up in a folder, in `crates/awari_file_tests/src/plain.rt`:
//!
//!     pub(crate) fn look_up(folder: &mut impl Folder, board: Board) -> Result<Entry, FolderFault> {
//!         let levels = open_levels(folder, HIGHEST_LEVEL)?.levels;
//!         if board.stones() >= levels {
//!             return Err(FolderFault::Below { level: levels });
//!         }
//!         entry(folder, levels, &board)
//!     }
#![tactic(auto)]

mod entries;
mod files;
mod judging;
mod kept;
mod laws;
mod lines;
mod opening;
mod plies;
mod runs;
mod said;
mod weighing;

pub use entries::entry;
pub use files::Files;
pub use kept::Run;
pub use laws::{right_files_are_opened, right_files_say_their_shelf};
pub use lines::{best_line, longest_line};
pub use opening::{Opened, limit_in_header, open_levels};
pub use plies::line_plies;
pub use runs::entry_in_run;
pub use said::{Said, read_levels};
pub use weighing::weigh;
