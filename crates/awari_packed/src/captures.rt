//! Capturing, pit by pit backward.

ghost use Rattle.std.specs.Prelude.{◌≡◌, ◌<◌, ◌↔◌, [], false, length, sum};
ghost use Rattle.awari_board.specs.Rules.{captured_pits, captured_stones, emptied, is_takeable, other_stones, run};
ghost use Rattle.awari_packed.specs.Packed.{IsPacking, pits_of};

use crate::words::{pit, right_sums, without};
use awari_board::SIDE;

/// The stones in the opponent's pits.
#[inline(always)]
pub fn other_stones(bits: u64) -> u8
    requires { IsPacking bits }
    ensures { result ≡ other_stones (pits_of bits) }
{
    pit(right_sums(bits), 6)
}

/// Captures after a sowing: empties the opponent's pits of two or three stones from `last` backward.
/// Gives the number of what is left, and the stones that were taken.
#[inline(always)]
pub fn capture(bits: u64, last: u8) -> (u64, u8)
    requires packing { IsPacking bits }
    requires on_board { last < 12 }
    ensures packing { IsPacking result.0 }
    ensures stones { result.1 ≡ captured_stones (pits_of bits) last }
    ensures emptied { pits_of result.0 ≡ emptied (pits_of bits) last (captured_pits (pits_of bits) last) }
{
    if !ends_a_run(bits, last) {
        return (bits, 0);
    }
    let (left, captured) = take_run(bits, last);
    if captured == other_stones(bits) {
        return (bits, 0);
    }
    (left, captured)
}

/// Whether the last stone fell into an opponent's pit that can be captured, as most don't.
#[inline(always)]
fn ends_a_run(bits: u64, last: u8) -> bool
    requires { last < 12 }
    ensures { (result ≡ false) ↔ (run (pits_of bits) last ≡ []) }
{
    if last < SIDE {
        return false;
    }
    is_takeable(pit(bits, last))
}

/// Empties the opponent's pits of two or three stones from `last` backward, and gives their stones.
fn take_run(bits: u64, last: u8) -> (u64, u8)
    requires packing { IsPacking bits }
    requires on_board { last < 12 }
    ensures packing { IsPacking result.0 }
    ensures taken { result.1 ≡ sum (run (pits_of bits) last) }
    ensures emptied { pits_of result.0 ≡ emptied (pits_of bits) last (length (run (pits_of bits) last)) }
{
    let mut left = bits;
    let mut taken: u8 = 0;
    let mut end = last + 1;
    while end > SIDE && is_takeable(pit(left, end - 1)) {
        end -= 1;
        let stones = pit(left, end);
        left = without(left, end, stones);
        taken += stones;
    }
    (left, taken)
}

/// Whether a pit with this many stones can be captured.
#[inline(always)]
fn is_takeable(stones: u8) -> bool
    ensures { result ≡ is_takeable stones }
{
    stones == 2 || stones == 3
}
