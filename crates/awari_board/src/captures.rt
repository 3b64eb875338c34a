//! Capturing, pit by pit backward.

ghost use Rattle.std.specs.Prelude.{◌≡◌, ◌+◌, ◌<◌, ◌≤◌, ◌↔◌, [], false, length, sum};
ghost use Rattle.awari_board.specs.Rules.{captured_pits, captured_stones, emptied, is_takeable, run};

use crate::sides::{SIDE, other_stones};

/// Captures after a sowing: empties the opponent's pits of two or three stones from `last` backward,
/// and gives how many stones those were. A grand slam, which would leave the opponent no stones,
/// takes nothing. Conditions: `last` is below 12, and there are at most 48 stones in all.
pub fn capture(pits: &mut [u8; 12], last: u8) -> u8
    requires on_board { last < 12 }
    requires few { sum pits.old ≤ 48 }
    ensures stones { result ≡ captured_stones pits.old last }
    ensures emptied { pits.new ≡ emptied pits.old last (captured_pits pits.old last) }
    ensures kept { sum pits.new + result ≡ sum pits.old }
{
    if !ends_a_run(pits, last) {
        return 0;
    }
    let mut left = *pits;
    let captured = take_run(&mut left, last);
    if captured == other_stones(pits) {
        return 0;
    }
    *pits = left;
    captured
}

/// Whether the last stone fell into an opponent's pit that can be captured, as most don't.
fn ends_a_run(pits: &[u8; 12], last: u8) -> bool
    requires { last < 12 }
    ensures { (result ≡ false) ↔ (run pits.now last ≡ []) }
{
    if last < SIDE {
        return false;
    }
    is_takeable(pits[last as usize])
}

/// Empties the opponent's pits of two or three stones from `last` backward, and gives their stones.
fn take_run(pits: &mut [u8; 12], last: u8) -> u8
    requires on_board { last < 12 }
    requires few { sum pits.old ≤ 48 }
    ensures taken { result ≡ sum (run pits.old last) }
    ensures emptied { pits.new ≡ emptied pits.old last (length (run pits.old last)) }
    ensures kept { sum pits.new + result ≡ sum pits.old }
{
    let mut taken = 0;
    let mut end = last + 1;
    while end > SIDE && is_takeable(pits[end as usize - 1]) {
        end -= 1;
        taken += pits[end as usize];
        pits[end as usize] = 0;
    }
    taken
}

/// Whether a pit with this many stones can be captured.
fn is_takeable(stones: u8) -> bool
    ensures { result ≡ is_takeable stones }
{
    stones == 2 || stones == 3
}
