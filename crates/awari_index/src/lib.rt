//! The boards of a level by rank, with no search.
//!
//! Boards with the same pits 0 to 5 are a run: one after the other in rank, they have all fillings of
//! pits 6 to 11 with the stones that are left. So a board is the first of its run, joined with a
//! filling from a table that all runs share. An [`Index`] has both tables. They take less than 25
//! bytes for each way to lay the stones of the level in seven pits, 15 MB for 24 stones. It gives boards
//! of one run together too, as a [`Stretch`].
//!
//! Each board of three stones, in `crates/awari_tests/src/examples.rt`:
//!
//!     fn an_index_has_each_board_of_three_stones(rt: HostRuntime) -> Result<(), Fail> {
//!         let index = Index::of(rt.alloc(), 3)?;
//!         for rank in 0..size(3) {
//!             let board = index.board(rank).board();
//!             expect_equal(&rt, rank, board, unrank(3, rank));
//!         }
//!         Ok(())
//!     }
#![tactic(auto)]

mod index;
mod runs;
mod tails;

pub use index::{Index, Stretch};
