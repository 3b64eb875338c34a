//! What a table says of a board, as texts: its entry, and what each of its moves is worth, as lines or as
//! JSON. The commands and the service print the same ones, each made in place, which takes no memory.
//!
//! The moves of a board in one of two forms, in `crates/awari_boards/src/worths.rt`:
//!
//!     fn print_worths<W: Write>(board: &Board, weighed: &Weighed, json: bool, writer: &mut W) -> bool
//!         ensures { result ≡ true → Appends (W.contents writer.old) (W.contents writer.new) (shown_worths json board.now weighed.now) }
//!     {
//!         if json {
//!             let line = weighed_json(board, weighed);
//!             return print_bytes(writer, line.as_slice());
//!         }
//!         print_bytes(writer, weighed_text(weighed).as_slice())
//!     }
#![tactic(auto)]

mod json;
mod moves;
mod refusals;

pub use json::{entry_json, entry_members, refusal_json, weighed_json};
pub use moves::weighed_text;
pub use refusals::push_reason;
