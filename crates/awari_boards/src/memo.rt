//! What was counted of boards: however many plays lead to a board, those that go on from it are counted once.

ghost use Rattle.std.specs.Prelude.{ℕ, IfSome};
ghost use Rattle.awari_boards.specs.Plays.{AreCounts};

use crate::sums::PlayCounts;
use awari_board::Board;
use std::alloc::{AllocError, Global};
use std::collections::HashMap;
use std::marker::Model;

/// The pits of a board, and how many plies are to come.
type Standing = ([u8; 12], u8);

/// The plays from boards that were counted. Contracts see how many these are.
#[derive(Drop)]
pub(crate) struct Memo {
    counts: HashMap<Standing, PlayCounts>,
}

impl Model for Memo {
    ghost use Rattle.std.specs.Prelude.{ℕ};
    ghost use Rattle.std.specs.HashMap.{hash_map_len};
    ghost use Rattle.awari_boards.specs.Memo.{AreCounted};

    ghost Value = { ℕ };

    ghost view = { λ m. hash_map_len m.counts };

    ghost invariant = { λ m. AreCounted m.counts };
}

impl Memo {
    /// Nothing was counted. It takes no memory.
    pub(crate) fn new(alloc: Global) -> Memo {
        Memo {
            counts: HashMap::new(alloc),
        }
    }

    /// The plays of this many plies from the board, if they were counted.
    pub(crate) fn known(&self, board: &Board, plies: u8) -> Option<PlayCounts>
        ensures { IfSome result (λ counts. (before : ℕ) → AreCounts plies before board.now counts) }
    {
        self.counts.get(&(board.pits(), plies)).copied()
    }

    /// Keeps what was counted. It takes memory for a board that is new.
    pub(crate) fn keep(
        &mut self,
        board: &Board,
        plies: u8,
        counts: PlayCounts,
    ) -> Result<(), AllocError>
        requires { (before : ℕ) → AreCounts plies before board.now counts }
    {
        self.counts.insert((board.pits(), plies), counts)?;
        Ok(())
    }
}
