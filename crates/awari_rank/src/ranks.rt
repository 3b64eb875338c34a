//! The boards of a level, numbered in lexicographic order.

ghost use Rattle.std.specs.Prelude.{◌≡◌, ℕ, ◌+◌, ◌-◌, ◌<◌, ◌≤◌, List, sum};
ghost use Rattle.awari_board.specs.Rules.{IsBoard};
ghost use Rattle.awari_rank.specs.Tuples.{choose, fewer};
ghost use Rattle.awari_rank.specs.Rank.{rank_of, size_of};
ghost use Rattle.awari_rank.specs.declared.counts.TheConstants.{MOST_STONES};

use crate::counts::fewer_after;
use awari_board::Board;

/// The number of boards with this many stones, at most `MOST_STONES`. It is one look-up in a table.
pub fn size(stones: u8) -> u32
    requires { stones ≤ MOST_STONES }
    ensures boards { result ≡ size_of stones }
    ensures binomial { result ≡ choose (stones + 11) 11 }
    ensures some { 0 < result }

    // The ranks of the boards are the numbers below the size: none is above, and none is left out.
    ensures below { (p : List ℕ) → IsBoard p → sum p ≡ stones → rank_of p < size_of stones }
    ensures onto { (r : ℕ) → r < size_of stones
        → (p : List ℕ) × IsBoard p × (sum p ≡ stones) × (rank_of p ≡ r) }
{
    fewer_after(0, stones + 1)
}

/// The number of boards with as many stones that come before this one, in lexicographic order of
/// the stones in their pits, pit 0 first. The board has at most `MOST_STONES` stones.
///
/// It takes no memory, and one look-up in a table a pit.
#[tactic(auto, using(crate::proofs::Ranking::ranks))]
pub fn rank(board: &Board) -> u32
    requires { sum board.now ≤ MOST_STONES }
    ensures rank { result ≡ rank_of board.now }
    ensures below { result < size_of (sum board.now) }
{
    let mut right = board.stones();
    let boards = size(right);
    let mut larger = 0;
    for pit in 0..11 {
        right -= board.pit(pit);
        larger += fewer_after(pit, right);
    }
    boards - 1 - larger
}

/// The board of this rank among those with this many stones. Conditions: at most `MOST_STONES` stones,
/// and a rank below the number of such boards.
///
/// It takes no memory, and no more steps than there are stones and pits.
pub fn unrank(stones: u8, rank: u32) -> Board
    requires few { stones ≤ MOST_STONES }
    requires in_range { rank < size_of stones }
    ensures board { IsBoard result }
    ensures stones { sum result ≡ stones }
    ensures rank { rank_of result ≡ rank }
    ensures only { (b : List ℕ) → IsBoard b → sum b ≡ stones → rank_of b ≡ rank → b ≡ result }
{
    let mut larger = size(stones) - 1 - rank;
    let mut left = stones;
    let mut pits = [0; 12];
    for pit in 0..11 {
        let right = most_right(pit, left, larger);
        larger -= fewer_after(pit, right);
        pits[pit as usize] = left - right;
        left = right;
    }
    pits[11] = left;
    Board::new(pits)
}

/// The most stones, up to `limit`, that may lie after `pit` in a board with `larger` larger ones:
/// with one more there, more boards would be larger.
#[tactic(auto, using(crate::proofs::Counting::total_none))]
fn most_right(pit: u8, limit: u8, larger: u32) -> u8
    requires pit { pit < 11 }
    requires few { limit ≤ MOST_STONES }
    ensures limit { result ≤ limit }
    ensures fits { fewer (11 - pit) result ≤ larger }
    ensures most { result < limit → larger < fewer (11 - pit) (result + 1) }
{
    let mut right = limit;
    while fewer_after(pit, right) > larger {
        right -= 1;
    }
    right
}
