//! The boards of a level, one after the other.

ghost use Rattle.std.specs.Prelude.{◌≡◌, ◌+◌, ◌≤◌, ◌↔◌, sum, IsNone, IfSome};
ghost use Rattle.awari_board.specs.Rules.{IsBoard};
ghost use Rattle.awari_rank.specs.Rank.{rank_of, size_of};
ghost use Rattle.awari_rank.specs.Held.{IsLastHeld};
ghost use Rattle.awari_rank.specs.declared.counts.TheConstants.{MOST_STONES};

use awari_board::Board;

/// The board of the next rank among those with as many stones, or none if this is the last.
/// Condition: the board has at most `MOST_STONES` stones.
///
/// It computes no rank and takes no memory. From the last pit that holds stones, one goes to the pit
/// before it, which makes the board larger. The others go to the last pit, which makes it larger by
/// as little as possible.
pub fn successor(board: &Board) -> Option<Board>
    requires { sum board.now ≤ MOST_STONES }
    ensures last { IsNone result ↔ (rank_of board.now + 1 ≡ size_of (sum board.now)) }
    ensures board { IfSome result (λ b. IsBoard b) }
    ensures stones { IfSome result (λ b. sum b ≡ sum board.now) }
    ensures rank { IfSome result (λ b. rank_of b ≡ rank_of board.now + 1) }
{
    let mut pits = board.pits();
    let held = last_held(&pits);
    if held == 0 {
        return None;
    }
    let stones = pits[held];
    pits[held] = 0;
    pits[held - 1] += 1;
    pits[11] = stones - 1;
    Some(Board::new(pits))
}

/// The last pit that holds stones, or pit 0 if none does.
fn last_held(pits: &[u8; 12]) -> usize
    ensures { IsLastHeld pits.now result }
{
    let mut pit = 11;
    while pit > 0 && pits[pit] == 0 {
        pit -= 1;
    }
    pit
}
