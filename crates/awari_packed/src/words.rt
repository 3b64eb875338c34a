//! The number of a board.

ghost use Rattle.std.specs.Prelude.{◌≡◌, ◌≢◌, ℕ, ◌+◌, ◌-◌, ◌<◌, ◌≤◌, ◌++◌, slice_index, slice_set, sum, take, drop};
ghost use Rattle.awari_board.specs.Rules.{sown, turned};
ghost use Rattle.awari_packed.specs.Packed.{IsPacking, IsPackOf, pits_of};

use crate::scattering::scattered;
use awari_board::Board;

/// The stones in pit `i`.
#[inline(always)]
pub fn pit(bits: u64, i: u8) -> u8
    requires { i < 12 }
    ensures { result ≡ slice_index (pits_of bits) i }
{
    ((bits >> (55 - 5 * i)) % 32) as u8
}

/// The number with pit `i`, which holds this many stones, emptied.
#[inline(always)]
pub fn without(bits: u64, i: u8, stones: u8) -> u64
    requires packing { IsPacking bits }
    requires pit { i < 12 }
    requires stones { stones ≡ slice_index (pits_of bits) i }
    ensures { IsPackOf result (slice_set (pits_of bits) i 0) }
{
    bits - (u64::from(stones) << (55 - 5 * i))
}

/// The number with a stone moved from pit `from`, which holds some, to pit `to`.
#[inline(always)]
pub fn with_stone_moved(bits: u64, from: u8, to: u8) -> u64
    requires packing { IsPacking bits }
    requires from { from < 12 }
    requires to { to < 12 }
    requires two { to ≢ from }
    requires held { 0 < slice_index (pits_of bits) from }
    ensures { IsPackOf result (slice_set (slice_set (pits_of bits) from (slice_index (pits_of bits) from - 1)) to (slice_index (pits_of bits) to + 1)) }
{
    bits - (1 << (55 - 5 * from)) + (1 << (55 - 5 * to))
}

/// The number after the stones of pit `origin`, this many, are sown. It is one addition.
#[inline(always)]
pub fn sow(bits: u64, origin: u8, stones: u8) -> u64
    requires packing { IsPacking bits }
    requires pit { origin < 6 }
    requires stones { stones ≡ slice_index (pits_of bits) origin }
    ensures { IsPackOf result (sown (pits_of bits) origin) }
{
    without(bits, origin, stones) + scattered(origin, stones)
}

/// How many numbers six pits have.
const HALF: u64 = 1073741824;

/// Twelve ones in base 32.
const ONES: u64 = 37191016277640225;

/// The number of the board as the other player sees it.
#[inline(always)]
pub fn turned(bits: u64) -> u64
    requires { IsPacking bits }
    ensures { IsPackOf result (turned (pits_of bits)) }
{
    ((bits % HALF) << 30) + (bits >> 30)
}

/// The number with pits 0 to 5 of `bits` and pits 6 to 11 of `other`.
#[inline(always)]
pub fn joined(bits: u64, other: u64) -> u64
    requires packing { IsPacking bits × IsPacking other }
    requires few { sum (take 6 (pits_of bits) ++ drop 6 (pits_of other)) ≤ 24 }
    ensures { IsPackOf result (take 6 (pits_of bits) ++ drop 6 (pits_of other)) }
{
    bits - bits % HALF + other % HALF
}

/// The number that has in each pit the sum of the stones from that pit on.
#[inline(always)]
pub fn right_sums(bits: u64) -> u64
    requires { IsPacking bits }
    ensures sums { (i : ℕ) → i < 12 → slice_index (pits_of result) i ≡ sum (drop i (pits_of bits)) }
    ensures few { (i : ℕ) → i < 12 → slice_index (pits_of result) i ≤ 24 }
{
    bits.wrapping_mul(ONES)
}

/// The number of a board.
pub fn packed_to(board: &Board) -> u64
    requires { sum board.now ≤ 24 }
    ensures { IsPackOf result board.now }
{
    let pits = board.pits();
    let mut bits: u64 = 0;
    for pit in 0..12 {
        bits = bits * 32 + u64::from(pits[pit]);
    }
    bits
}
