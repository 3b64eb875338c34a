//! The search for quiet moves backward: stone by stone taken back into a pit, and pit by pit.

ghost use Rattle.std.specs.Prelude.{◌≡◌, ℕ, ◌+◌, ◌<◌, ◌≤◌, ◌↔◌, ◌∷◌, [], IsTrue, true, false, None, ◌*◌, sum, MatchOption};
ghost use Rattle.awari_board.specs.Rules.{IsLegal, captured_stones, landing};
ghost use Rattle.awari_unmove.specs.Undoing.{IsUndoing, TakesBack, unmove, unmoves_after};

use awari_board::{Board, SIDE, capture};

/// Goes on to the next quiet move backward, if there is one.
pub fn next_unmove(
    back: &[u8; 12],
    pit: &mut u8,
    stones: &mut u8,
    left: &mut [u8; 12],
) -> Option<(Board, u8)>
    requires { IsUndoing back.now pit.old stones.old left.old }
    ensures undoing { IsUndoing back.now pit.new stones.new left.new }
    ensures given { MatchOption result
        ((unmoves_after back.now pit.old stones.old ≡ []) × (unmoves_after back.now pit.new stones.new ≡ []))
        (λ pair. unmoves_after back.now pit.old stones.old ≡ pair ∷ unmoves_after back.now pit.new stones.new) }
{
    while *pit < SIDE {
        if let Some(found) = step(back, pit, stones, left) {
            return Some(found);
        }
    }
    None
}

/// Takes one more stone back into the pit, or goes on to the next pit. Gives the board that is
/// reached, if its move is quiet.
fn step(back: &[u8; 12], pit: &mut u8, stones: &mut u8, left: &mut [u8; 12]) -> Option<(Board, u8)>
    requires own { pit.old < 6 }
    requires undoing { IsUndoing back.now pit.old stones.old left.old }
    ensures undoing { IsUndoing back.now pit.new stones.new left.new }
    ensures further { 49 * pit.old + stones.old < 49 * pit.new + stones.new }
    ensures given { MatchOption result
        (unmoves_after back.now pit.old stones.old ≡ unmoves_after back.now pit.new stones.new)
        (λ pair. unmoves_after back.now pit.old stones.old ≡ pair ∷ unmoves_after back.now pit.new stones.new) }
{
    let origin = *pit;
    if !take_back(back, origin, stones, left) {
        *pit += 1;
        *stones = 0;
        *left = *back;
        return None;
    }
    let board = Board::new(*left);
    if is_quiet(back, &board, origin, landing(origin, *stones)) {
        Some((board, origin))
    } else {
        None
    }
}

/// Takes one more stone back into pit `origin`. False if none can be taken back. Either the pit holds
/// stones now, while one that was just played is empty, or the pit that the stone fell into is empty.
fn take_back(back: &[u8; 12], origin: u8, stones: &mut u8, left: &mut [u8; 12]) -> bool
    requires own { origin < 6 }
    requires undoing { IsUndoing back.now origin stones.old left.old }
    ensures taken { result ≡ true → TakesBack back.now origin stones.old stones.new left.new }
    ensures stuck { result ≡ false → (k : ℕ) → stones.old < k → unmove back.now origin k ≡ None }
{
    if back[origin as usize] > 0 {
        return false;
    }
    let last = landing(origin, *stones + 1);
    if left[last as usize] == 0 {
        return false;
    }
    left[last as usize] -= 1;
    left[origin as usize] += 1;
    *stones += 1;
    true
}

/// Where stone `stone` of a sowing from `origin` falls.
#[inline(always)]
fn landing(origin: u8, stone: u8) -> u8
    requires own { origin < 6 }
    requires first { 1 ≤ stone }
    ensures pit { result ≡ landing origin stone }
    ensures on_board { result < 12 }
{
    // Most sowings end before they come round, so that these tests are faster than divisions.
    let passed = if stone > 11 {
        (stone - 1) % 11
    } else {
        stone - 1
    };
    let place = origin + 1 + passed;
    if place < 12 { place } else { place - 12 }
}

/// Whether the move of pit `origin` that sows to `back` and ends in pit `last` is legal and quiet.
fn is_quiet(back: &[u8; 12], board: &Board, origin: u8, last: u8) -> bool
    requires on_board { last < 12 }
    requires few { sum back.now ≤ 48 }
    ensures { IsTrue result ↔ (IsLegal board.now origin × (captured_stones back.now last ≡ 0)) }
{
    board.legal(origin) && captures_nothing(back, last)
}

/// Whether a sowing that gives `back` and ends in pit `last` captures nothing.
fn captures_nothing(back: &[u8; 12], last: u8) -> bool
    requires on_board { last < 12 }
    requires few { sum back.now ≤ 48 }
    ensures { IsTrue result ↔ (captured_stones back.now last ≡ 0) }
{
    let mut left = *back;
    capture(&mut left, last) == 0
}
