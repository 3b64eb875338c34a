//! Packed boards: boards of at most 24 stones, each in one number.
//!
//! Five bits hold a pit, pit 11 in the lowest, so the numbers are in the order of the boards. A move is
//! one addition from a table and half a turn, and a rank is six look-ups. Use it in loops over whole
//! levels; elsewhere `awari_board` and `awari_rank` say the same. No call takes memory.
//!
//! Each legal move of each board of two stones, played both ways, in
//! `crates/awari_tests/src/examples.rt`:
//!
//!     fn packed_boards_move_as_boards_do(rt: HostRuntime) {
//!         for rank in 0..size(2) {
//!             let packed = PackedBoard::unrank(2, rank);
//!             for pit in 0..6u8 {
//!                 if packed.legal(pit) {
//!                     let moved = packed.play(pit);
//!                     let captured = moved.captured;
//!                     let board = moved.board.board();
//!                     let played = packed.board().play(pit);
//!                     expect_equal(&rt, rank, played, Ok(Moved { board, captured }));
//!                 }
//!             }
//!         }
//!     }
#![tactic(auto)]

mod boards;
mod captures;
mod laws;
mod pairs;
mod ranks;
mod scattering;
mod successors;
mod taking_back;
mod words;

pub use boards::{PackedBoard, PackedMove};
pub use laws::worked_examples;
