//! The predecessors of a packed board, as two iterators.

ghost use Rattle.std.specs.Prelude.{◌≤◌, ◌++◌, length};
ghost use Rattle.awari_unmove.specs.Predecessors.{IsPredecessors};

use crate::far::{FarUnmoves, far_of};
use crate::own::{OwnUnmoves, own_of};
use crate::steps::held_pits;
use awari_packed::PackedBoard;

/// The quiet moves that lead to a board of at most 24 stones, packed, in the order of
/// [`Unmoves`](crate::Unmoves): first those that end on their player's own side, and then the others.
#[derive(Drop)]
pub struct PackedUnmoves {
    pub own: OwnUnmoves,
    pub far: FarUnmoves,
}

impl PackedUnmoves {
    /// The quiet moves that lead to `board`. It takes no memory.
    #[inline(always)]
    pub fn of(board: &PackedBoard) -> Self
        ensures predecessors { IsPredecessors board.now (result.own ++ result.far) }
        ensures few_own { length result.own ≤ 6 }
        ensures few_far { length result.far ≤ 48 }
    {
        let back = board.turned();
        let held = held_pits(board);
        let own = own_of(board, back, held);
        let far = far_of(board, back, held);
        PackedUnmoves { own, far }
    }
}
