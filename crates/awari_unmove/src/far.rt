//! The predecessors of a packed board whose move went on to the other side, stone by stone.
//!
//! The last empty pit of the own side is the only one that they can have come from. The pit that the next
//! stone had fallen into is kept, so that nothing is divided.

ghost use Rattle.std.specs.Prelude.{◌≡◌, ℕ, ◌+◌, ◌<◌, ◌≤◌, ◌∷◌, [], length, slice_index, MatchOption};
ghost use Rattle.std.specs.Iterator.{YieldsFirst, item_count};
ghost use Rattle.awari_board.specs.Rules.{IsBoard, landing, turned};
ghost use Rattle.awari_unmove.specs.Predecessors.{IsFarPredecessors};
ghost use Rattle.awari_unmove.specs.Steps.{has_bit, holds};
ghost use Rattle.awari_unmove.specs.Undoing.{IsUndoingFrom, unmoves_from};

use crate::steps::last_origin;
use awari_board::SIDE;
use awari_packed::PackedBoard;
use std::marker::Model;

/// The quiet moves that lead to a board of at most 24 stones, packed, and go on to the other side. It
/// gives the boards before the move, each once and with the pit, by the stones sown.
/// [`OwnUnmoves`](crate::OwnUnmoves) gives the others, which come before them. Contracts see it as the
/// list of what is still to come.
#[derive(Drop)]
pub struct FarUnmoves {
    /// The board as the player before saw it.
    back: PackedBoard,
    pit: u8,
    /// How many stones are taken back into `pit`.
    stones: u8,
    /// The pit that the next stone to be taken back had fallen into.
    last: u8,
    /// `back` with those stones taken back.
    left: PackedBoard,
}

impl Model for FarUnmoves {
    ghost use Rattle.std.specs.Prelude.{List, ℕ};
    ghost use Rattle.awari_unmove.specs.Undoing.{IsUndoingFrom, unmoves_from};

    ghost Value = { List (List ℕ × ℕ) };

    ghost view = { λ u. unmoves_from u.back u.pit u.stones };

    ghost invariant = { λ u. IsUndoingFrom u.back u.pit u.stones u.last u.left };
}

/// The quiet moves that lead to `board`, of which `back` is the position turned and `held` the pits that
/// hold stones, and go on to the other side.
#[inline(always)]
pub fn far_of(board: &PackedBoard, back: PackedBoard, held: u8) -> FarUnmoves
    requires board { IsBoard board.now }
    requires back { back ≡ turned board.now }
    requires few { held < 64 }
    requires bits { (i : ℕ) → i < 6 → has_bit held i ≡ holds board.now (6 + i) }
    ensures predecessors { IsFarPredecessors board.now result }
    ensures few { length result ≤ 48 }
{
    let pit = last_origin(held);
    FarUnmoves {
        back,
        pit,
        stones: 5 - pit,
        last: SIDE,
        left: back.taken_back(pit, 5),
    }
}

impl Iterator for FarUnmoves {
    type Item = (PackedBoard, u8);

    ghost next_gives = { YieldsFirst (λ u. u) };

    ghost remaining = { item_count (λ u. u) };

    #[inline(always)]
    fn next(&mut self) -> Option<(PackedBoard, u8)> {
        next_far(
            &self.back,
            self.pit,
            &mut self.stones,
            &mut self.last,
            &mut self.left,
        )
    }
}

/// Goes on to the next quiet move backward from `pit`, if there is one. It ends once the pit that the
/// next stone had fallen into is empty, so that no more can be taken back.
#[inline(always)]
fn next_far(
    back: &PackedBoard,
    pit: u8,
    stones: &mut u8,
    last: &mut u8,
    left: &mut PackedBoard,
) -> Option<(PackedBoard, u8)>
    requires { IsUndoingFrom back.now pit stones.old last.old left.old }
    ensures undoing { IsUndoingFrom back.now pit stones.new last.new left.new }
    ensures given { MatchOption result
        ((unmoves_from back.now pit stones.old ≡ []) × (unmoves_from back.now pit stones.new ≡ []))
        (λ pair. unmoves_from back.now pit stones.old ≡ pair ∷ unmoves_from back.now pit stones.new) }
{
    if back.pit(pit) > 0 {
        return None;
    }
    while left.pit(*last) > 0 {
        if let Some(found) = take_back(back, pit, stones, last, left) {
            return Some(found);
        }
    }
    None
}

/// Takes one more stone back into the empty pit. Gives the board that is reached, if its move is
/// quiet.
#[inline(always)]
fn take_back(
    back: &PackedBoard,
    pit: u8,
    stones: &mut u8,
    last: &mut u8,
    left: &mut PackedBoard,
) -> Option<(PackedBoard, u8)>
    requires undoing { IsUndoingFrom back.now pit stones.old last.old left.old }
    requires empty { slice_index back.now pit ≡ 0 }
    requires held { 0 < slice_index left.old last.old }
    ensures undoing { IsUndoingFrom back.now pit stones.new last.new left.new }
    ensures more { stones.new ≡ stones.old + 1 }
    ensures given { MatchOption result
        (unmoves_from back.now pit stones.old ≡ unmoves_from back.now pit stones.new)
        (λ pair. unmoves_from back.now pit stones.old ≡ pair ∷ unmoves_from back.now pit stones.new) }
{
    let from = *last;
    *left = left.with_stone_moved(from, pit);
    *stones += 1;
    *last = after(from, pit);
    let board = *left;
    if back.captures_nothing(from) {
        Some((board, pit))
    } else {
        None
    }
}

/// Where the next stone of a sowing from `origin` falls after one that fell into `pit`: a pit
/// further on, and past the origin.
#[inline(always)]
fn after(pit: u8, origin: u8) -> u8
    requires own { origin < 6 }
    requires on_board { pit < 12 }
    ensures { (k : ℕ) → pit ≡ landing origin (k + 1) → result ≡ landing origin (k + 2) }
{
    let next = if pit == 11 { 0 } else { pit + 1 };
    if next == origin { next + 1 } else { next }
}
