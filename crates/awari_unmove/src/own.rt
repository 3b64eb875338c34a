//! The predecessors of a packed board whose move ended on its player's own side.

ghost use Rattle.std.specs.Prelude.{◌≡◌, ℕ, ◌+◌, ◌<◌, ◌≤◌, ◌∷◌, [], length, MatchOption};
ghost use Rattle.std.specs.Iterator.{YieldsFirst, item_count};
ghost use Rattle.awari_board.specs.Rules.{IsBoard, turned};
ghost use Rattle.awari_unmove.specs.Predecessors.{IsOwnPredecessors};
ghost use Rattle.awari_unmove.specs.Steps.{IsOwnSearch, has_bit, holds, own_unmoves};

use crate::steps::own_steps;
use awari_board::SIDE;
use awari_packed::PackedBoard;
use std::marker::Model;

/// The quiet moves that lead to a board of at most 24 stones, packed, and end on their player's own
/// side. It gives the boards before the move, each once and with the pit, by pits ascending and then
/// by the stones sown. [`FarUnmoves`](crate::FarUnmoves) gives the others, which come after them.
/// Contracts see it as the list of what is still to come.
#[derive(Drop)]
pub struct OwnUnmoves {
    /// The board as the player before saw it.
    back: PackedBoard,
    /// The moves that are still to come, by their origins and ends.
    steps: u32,
    /// The pit from which on they end.
    from: u8,
}

impl Model for OwnUnmoves {
    ghost use Rattle.std.specs.Prelude.{List, ℕ};
    ghost use Rattle.awari_unmove.specs.Steps.{IsOwnSearch, own_unmoves};

    ghost Value = { List (List ℕ × ℕ) };

    ghost view = { λ u. own_unmoves u.back u.from };

    ghost invariant = { λ u. IsOwnSearch u.back u.steps u.from };
}

/// The quiet moves that lead to `board`, of which `back` is the position turned and `held` the pits that
/// hold stones, and end on their player's own side.
#[inline(always)]
pub fn own_of(board: &PackedBoard, back: PackedBoard, held: u8) -> OwnUnmoves
    requires board { IsBoard board.now }
    requires back { back ≡ turned board.now }
    requires few { held < 64 }
    requires bits { (i : ℕ) → i < 6 → has_bit held i ≡ holds board.now (6 + i) }
    ensures predecessors { IsOwnPredecessors board.now result }
    ensures few { length result ≤ 6 }
{
    if back.other_stones() == 0 {
        // A move that stays on the own side is illegal then.
        return OwnUnmoves {
            back,
            steps: 0,
            from: SIDE,
        };
    }
    OwnUnmoves {
        back,
        steps: own_steps(held),
        from: 0,
    }
}

impl Iterator for OwnUnmoves {
    type Item = (PackedBoard, u8);

    ghost next_gives = { YieldsFirst (λ u. u) };

    ghost remaining = { item_count (λ u. u) };

    #[inline(always)]
    fn next(&mut self) -> Option<(PackedBoard, u8)> {
        next_own(&self.back, &mut self.steps, &mut self.from)
    }
}

/// Goes on to the next quiet move backward that ends on the own side, if there is one.
#[inline(always)]
fn next_own(back: &PackedBoard, steps: &mut u32, from: &mut u8) -> Option<(PackedBoard, u8)>
    requires { IsOwnSearch back.now steps.old from.old }
    ensures search { IsOwnSearch back.now steps.new from.new }
    ensures given { MatchOption result
        ((own_unmoves back.now from.old ≡ []) × (own_unmoves back.now from.new ≡ []))
        (λ pair. own_unmoves back.now from.old ≡ pair ∷ own_unmoves back.now from.new) }
{
    if *steps == 0 {
        return None;
    }
    let step = (*steps % 64) as u8;
    *steps /= 64;
    let origin = step / 8;
    let end = step % 8;
    *from = end + 1;
    Some((back.taken_back(origin, end), origin))
}
