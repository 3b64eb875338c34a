//! Plays of the game: the moves from a position, what they captured, and the outcome once there is one.
//!
//! A [`Game`] keeps where its play stands, and takes no memory. A play without captures comes to its
//! outcome after more plies than the limit that the caller gives.
//!
//! Eight quiet moves end this play, and the first mover has two stones more, in
//! `crates/awari_tests/src/examples.rt`:
//!
//!     fn a_play_has_its_outcome(rt: HostRuntime) -> Result<(), Fail> {
//!         let mut game = Game::start(Board::parse(b"1,0,0,0,0,0/0,0,1,0,0,0")?);
//!         for pit in [0, 2, 1, 3, 2, 4, 3, 5u8] {
//!             expect_equal(&rt, pit, game.outcome(9), None);
//!             game.step(pit)?;
//!         }
//!         expect_equal(&rt, "the end", game.outcome(9), Some(2));
//!         Ok(())
//!     }
#![tactic(auto)]

mod games;
mod laws;

pub use games::Game;
pub use laws::worked_examples;
