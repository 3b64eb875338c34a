//! The predecessors of a board, as an iterator.

ghost use Rattle.std.specs.Prelude.{◌≤◌, length};
ghost use Rattle.std.specs.Iterator.{YieldsFirst, item_count};
ghost use Rattle.awari_unmove.specs.Predecessors.{IsPredecessors};

use crate::search::next_unmove;
use awari_board::{Board, turned};
use std::marker::Model;

/// The boards and pits whose quiet move gives a board, each once, by pits ascending and then by the
/// stones sown. A grand slam captures nothing, so it is among them. Contracts see it as the list of
/// what is still to come.
#[derive(Drop)]
pub struct Unmoves {
    /// The board as the player before saw it.
    back: [u8; 12],
    pit: u8,
    /// How many stones are taken back into `pit`.
    stones: u8,
    /// `back` with those stones taken back.
    left: [u8; 12],
}

impl Model for Unmoves {
    ghost use Rattle.std.specs.Prelude.{List, ℕ};
    ghost use Rattle.awari_unmove.specs.Undoing.{IsUndoing, unmoves_after};

    ghost Value = { List (List ℕ × ℕ) };

    ghost view = { λ u. unmoves_after u.back u.pit u.stones };

    ghost invariant = { λ u. IsUndoing u.back u.pit u.stones u.left };
}

impl Unmoves {
    /// The quiet moves that lead to `board`. It takes no memory. It tries only what can have been a
    /// sowing: pits that are empty now, and as many stones as can be taken back.
    pub fn of(board: &Board) -> Self
        ensures predecessors { IsPredecessors board.now result }
        ensures few { length result ≤ 288 }
    {
        let back = turned(&board.pits());
        Unmoves {
            back,
            pit: 0,
            stones: 0,
            left: back,
        }
    }
}

impl Iterator for Unmoves {
    type Item = (Board, u8);

    ghost next_gives = { YieldsFirst (λ u. u) };

    ghost remaining = { item_count (λ u. u) };

    fn next(&mut self) -> Option<(Board, u8)> {
        next_unmove(&self.back, &mut self.pit, &mut self.stones, &mut self.left)
    }
}
