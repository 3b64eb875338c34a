//! Quiet moves backward: the boards and pits whose quiet move gives a board.
//!
//! [`Unmoves::of`] lists them, and `specs/Predecessors.antt` defines the list. [`PackedUnmoves::of`] lists
//! those of a packed board in two parts, which is what the builder uses. Nothing in this crate takes
//! memory.
//!
//! Twelve quiet moves of pit 0 lead to one board, in `crates/awari_tests/src/predecessors.rt`:
//!
//!     fn sowings_of_one_to_twelve_stones_are_taken_back(rt: HostRuntime) {
//!         let board = Board::new([1, 1, 1, 1, 1, 1, 0, 2, 1, 1, 1, 1]);
//!         let mut unmoves = Unmoves::of(&board);
//!         let first = Board::new([1; 12]);
//!         expect_equal(&rt, "first", unmoves.next(), Some((first, 0)));
//!         let second = Board::new([2, 1, 0, 1, 1, 1, 1, 1, 1, 1, 1, 1]);
//!         expect_equal(&rt, "second", unmoves.next(), Some((second, 0)));
//!         let last = Board::new([12, 0, 0, 0, 0, 0, 0, 0, 0, 0, 0, 0]);
//!         expect_equal(&rt, "last", unmoves.last(), Some((last, 0)));
//!         expect_equal(&rt, "count", Unmoves::of(&board).count(), 12);
//!     }
#![tactic(auto)]

mod far;
mod own;
mod packed_unmoves;
mod search;
mod steps;
mod unmoves;

pub use far::FarUnmoves;
pub use own::OwnUnmoves;
pub use packed_unmoves::PackedUnmoves;
pub use unmoves::Unmoves;
