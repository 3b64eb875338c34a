//! The boards of a level, one after the other.

ghost use Rattle.std.specs.Prelude.{◌≡◌, ◌+◌, ◌-◌, ◌/◌, ◌%◌, ◌^◌, ◌<◌, ◌≤◌, sum};
ghost use Rattle.awari_rank.specs.Held.{IsLastHeld};
ghost use Rattle.awari_rank.specs.Rank.{rank_of, size_of};
ghost use Rattle.awari_packed.specs.Packed.{IsPacking, pits_of};

/// How many numbers the pits after pit 0 have.
pub const REST: u64 = 36028797018963968;

/// The number of the board of the next rank. Condition: some pit after pit 0 holds stones.
#[inline(always)]
pub fn next(bits: u64) -> u64
    requires packing { IsPacking bits }
    requires some { 0 < bits % 2 ^ 55 }
    ensures packing { IsPacking result }
    ensures stones { sum (pits_of result) ≡ sum (pits_of bits) }
    ensures rank { rank_of (pits_of result) ≡ rank_of (pits_of bits) + 1 }
    ensures before { rank_of (pits_of bits) + 1 < size_of (sum (pits_of bits)) }
{
    let place = last_place(bits);
    let stones = (bits >> place) % 32;
    bits - (stones << place) + (1 << (place + 5)) + (stones - 1)
}

/// How many bits lie after those of the last pit that holds stones.
#[inline(always)]
fn last_place(bits: u64) -> u32
    requires packing { IsPacking bits }
    requires some { 0 < bits % 2 ^ 55 }
    ensures pits { result % 5 ≡ 0 }
    ensures few { result ≤ 50 }
    ensures last { IsLastHeld (pits_of bits) (11 - result / 5) }
{
    // A pit has five bits.
    bits.trailing_zeros() / 5 * 5
}
