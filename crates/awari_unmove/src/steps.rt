//! Which sowings ended on their player's own side, by tables of the pits that hold stones.
//!
//! The pits that hold stones come from all over the level in turn, so that no processor foresees a test of
//! each. One look-up gives all ends at once.

ghost use Rattle.std.specs.Prelude.{◌≡◌, ℕ, ◌+◌, ◌<◌, ◌==◌};
ghost use Rattle.awari_unmove.specs.Steps.{has_bit, holds, origin_of, steps_from};

use awari_packed::PackedBoard;

/// At the bits of the pits that hold stones, the sowings that end there, as digits in base 64, the first of
/// them lowest. Each is eight times the origin, and the end.
static STEPS: [u32; 64] = [
    0, 0, 1, 0, 10, 10, 129, 0, 19, 19, 1217, 19, 714, 714, 12417, 0, 28, 28, 1793, 28, 1802, 1802,
    114817, 28, 1299, 1299, 83137, 1299, 49866, 49866, 1060993, 0, 37, 37, 2369, 37, 2378, 2378,
    151681, 37, 2387, 2387, 152769, 2387, 152266, 152266, 9711745, 37, 1884, 1884, 120577, 1884,
    120586, 120586, 7716993, 1884, 87315, 87315, 5588161, 87315, 3457738, 3457738, 84947073, 0,
];

/// At the bits of the pits that hold stones, the last empty pit, or 0 if there is none.
static LAST_ORIGIN: [u8; 64] = [
    5, 5, 5, 5, 5, 5, 5, 5, 5, 5, 5, 5, 5, 5, 5, 5, 5, 5, 5, 5, 5, 5, 5, 5, 5, 5, 5, 5, 5, 5, 5, 5,
    4, 4, 4, 4, 4, 4, 4, 4, 4, 4, 4, 4, 4, 4, 4, 4, 3, 3, 3, 3, 3, 3, 3, 3, 2, 2, 2, 2, 1, 1, 0, 0,
];

/// The pits that hold stones on the side of the player before, who is the opponent now, as the bits of a
/// number, that of the first pit the lowest.
#[inline(always)]
pub fn held_pits(board: &PackedBoard) -> u8
    ensures few { result < 64 }
    ensures bits { (i : ℕ) → i < 6 → has_bit result i ≡ holds board.now (6 + i) }
{
    held(board, 6)
        + 2 * held(board, 7)
        + 4 * held(board, 8)
        + 8 * held(board, 9)
        + 16 * held(board, 10)
        + 32 * held(board, 11)
}

/// 1 for a pit that holds stones, else 0.
#[inline(always)]
fn held(board: &PackedBoard, pit: u8) -> u8
    requires { pit < 12 }
    ensures few { result < 2 }
    ensures held { (result == 1) ≡ holds board.now pit }
{
    u8::from(board.pit(pit) > 0)
}

/// The sowings that can have ended in these pits, which hold stones, as digits in base 64.
#[inline(always)]
pub fn own_steps(held: u8) -> u32
    requires { held < 64 }
    ensures { result ≡ steps_from (has_bit held) 0 6 }
{
    STEPS[held as usize]
}

/// The last empty pit of the side, of which these pits hold stones, or 0 if there is none.
#[inline(always)]
pub fn last_origin(held: u8) -> u8
    requires { held < 64 }
    ensures { result ≡ origin_of (has_bit held) 6 }
{
    LAST_ORIGIN[held as usize]
}
