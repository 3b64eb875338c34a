//! The rank of a board, by six look-ups.

ghost use Rattle.std.specs.Prelude.{◌≡◌};
ghost use Rattle.awari_rank.specs.Rank.{rank_of};
ghost use Rattle.awari_packed.specs.Packed.{IsPacking, pits_of};

use crate::pairs::{level, two_pits};
use crate::words::right_sums;

/// The number of boards with as many stones that come before this one.
#[inline(always)]
pub fn rank(bits: u64) -> u32
    requires { IsPacking bits }
    ensures { result ≡ rank_of (pits_of bits) }
{
    let sums = right_sums(bits);
    let boards = level(sums);
    let boards = boards - two_pits(sums, 0);
    let boards = boards - two_pits(sums, 1);
    let boards = boards - two_pits(sums, 2);
    let boards = boards - two_pits(sums, 3);
    boards - two_pits(sums, 4)
}
