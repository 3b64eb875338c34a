//! The commands of the program `awari` that answer what is asked of whole levels: whether a folder is right,
//! its text, and the boards of a level in lists. Each prints to a writer that is lent to it, and gives the status
//! that the program ends with.
//!
//! The line of each right level, printed, in `crates/awari_levels/src/verifying.rt`:
//!
//!     fn print_levels<W: Write>(shelf: &Shelf, writer: &mut W) -> bool
//!         ensures { result ≡ true → IsShelf shelf.now × Appends (W.contents writer.old) (W.contents writer.new) (right_lines shelf.now) }
//!     {
//!         for level in 0..shelf.levels() {
//!             let limit = shelf.level(level).limit();
//!             if !print(writer, &RightLevel { level, limit }) {
//!                 return false;
//!             }
//!         }
//!         true
//!     }
#![tactic(auto)]

mod asked;
mod batches;
mod boards;
mod listing;
mod segments;
mod texts;
mod verifying;
mod walks;
mod wanted;
mod wishes;

pub use boards::{run_all_boards, run_boards, wanted_of};
pub use texts::run_text;
pub use verifying::run_verify;
pub use wanted::Wanted;
