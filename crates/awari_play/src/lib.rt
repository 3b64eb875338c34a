//! Plans by the values and distances of a table, and play by the plans of a table.
//!
//! [`best_line`] plays both sides up to the outcome, and [`move_worths`] says what each legal move is worth.
//! [`weigh`] also says what replies a move leaves. [`longest_line`] lets the losing side hold out, and
//! [`line_plies`] tells a line ply by ply. [`planned_image`] gives a level its plans, and [`least`] brings its
//! distances down to the least ones first. None of it needs what builds a level.
//!
//! These go by a shelf. By any other [`Table`], whose boards may be refused, go [`best_line_by`],
//! [`longest_line_by`], [`line_plies_by`] and [`weigh_by`]: those of a shelf are these, with no refusal.
//!
//! The moves of a line and its outcome, as a test expects them, in
//! `crates/awari_owner_tests/src/best_lines.rt`:
//!
//!     fn expect_line(
//!         rt: &impl Abort,
//!         alloc: Global,
//!         shelf: &Shelf,
//!         (text, moves, outcome): (&str, &[u8], i16),
//!     ) -> Result<(), Fail> {
//!         let board = Board::parse(text.as_bytes())?;
//!         let line = best_line(alloc, shelf, board, shelf.limit())?;
//!         expect_equal(rt, text, line.moves.as_slice(), moves);
//!         expect_equal(rt, text, line.outcome, outcome);
//!         Ok(())
//!     }
#![tactic(auto)]

mod laws;
mod lines;
mod longest;
mod lookups;
mod lowering;
mod plans;
mod plies;
mod replies;
mod weighing;
mod worths;

pub use laws::{lowest_levels_are_one, lowest_plans_stay};
pub use lines::{Line, LineFault, best_line, best_line_by, play_pit};
pub use longest::{longest_line, longest_line_by};
pub use lookups::{Judged, Table, Unplayed};
pub use lowering::least;
pub use plans::planned_image;
pub use plies::{LinePlies, Ply, Repeat, line_plies, line_plies_by};
pub use replies::Replies;
pub use weighing::{Weighed, WeighedMove, weigh, weigh_by};
pub use worths::{MoveWorth, move_worths, reached, worth_of};
