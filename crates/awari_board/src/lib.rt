//! The rules of Awari: positions, moves and the end of play.
//!
//! A [`Board`] is a position as the player to move sees it. [`Board::play`] sows, captures and turns
//! the board to the other player. If no move is legal, [`Board::end`] says what the mover gains.
//! `docs/RULES.md` has the rules with pictures, and `specs/Rules.antt` defines them; every contract
//! here goes by those definitions. Nothing in this crate takes memory.
//!
//! A test plays a pit on a board that a text spells, in `crates/awari_tests/src/moves.rt`:
//!
//!     fn expect_played(
//!         rt: &impl Abort,
//!         (case, before, pit, after, captured): &(&str, &str, u8, &str, u8),
//!     ) -> Result<(), BoardFault> {
//!         let before = Board::parse(before.as_bytes())?;
//!         let board = Board::parse(after.as_bytes())?;
//!         let captured = *captured;
//!         expect_equal(rt, case, before.play(*pit), Ok(Moved { board, captured }));
//!         expect_equal(
//!             rt,
//!             case,
//!             board.stones(),
//!             before.stones().saturating_sub(captured),
//!         );
//!         Ok(())
//!     }
#![tactic(auto)]

mod boards;
mod captures;
mod laws;
mod moves;
mod sides;
mod sowing;
mod text;

pub use boards::Board;
pub use captures::capture;
pub use laws::{
    moves_keep_boards, one_board_fault_is_due, one_fault_is_due, tests_decide, worked_examples,
};
pub use moves::{MoveFault, Moved};
pub use sides::{SIDE, turned};
pub use text::BoardFault;
