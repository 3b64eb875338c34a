//! Which gain each board of a block awaits: that whose opening may settle it.
//!
//! This is noted once, a byte a board, before any gain is open. The opening of a gain goes over these
//! bytes, and reads the cells of the few boards that may await it.

ghost use Rattle.std.specs.Prelude.{◌≡◌, ◌≢◌, ℕ, ◌+◌, ◌<◌, ◌≤◌, false, All, IfNone, IfOk, IfSome, length, slice_index_or};
ghost use Rattle.awari_block.specs.Awaited.{NoneAwait, TellAwaited};
ghost use Rattle.awari_block.specs.Blocks.{no_cell};
ghost use Rattle.awari_block.specs.Cells.{AwaitsNone, FitsBy};

use crate::cells::Cell;
use std::alloc::{AllocError, Global};

/// What a board awaits if no opening settles it. No gain is so great.
pub const NO_GAIN: u8 = 255;

/// How many boards are asked together whether one of them awaits a gain.
const STRETCH: usize = 64;

/// For each of these boards of a level the gain whose opening may settle it, with no gain open, or
/// [`NO_GAIN`]. It takes a byte a board, and is refused only if memory runs out. Conditions: the level
/// has at most 24 stones, and each cell fits it.
pub fn awaited_gains(alloc: Global, level: u8, cells: &[Cell]) -> Result<Vec<u8>, AllocError>
    requires low { level ≤ 24 }
    requires fit { All (λ c. FitsBy c.mark level (level + 1) c.score c.dist) cells.now }
    ensures told { IfOk result (λ awaits. TellAwaited level cells.now awaits.items) }
    ensures none { IfOk result (λ awaits. (k : ℕ) → k < length cells.now → AwaitsNone (slice_index_or cells.now k no_cell) level → slice_index_or awaits.items k 0 ≡ NO_GAIN) }
{
    let mut awaits = vec![in alloc; NO_GAIN; cells.len()]?;
    for index in 0..cells.len() {
        awaits[index] = cells[index].awaited_gain(level).unwrap_or(NO_GAIN);
    }
    Ok(awaits)
}

/// The index of the first board from this one on that awaits the gain, none if no board does.
pub fn next_awaiting(gain: u8, awaits: &[u8], from: usize) -> Option<usize>
    ensures some { IfSome result (λ index. (from ≤ index) × (index < length awaits.now) × NoneAwait gain awaits.now from index) }
    ensures awaits { IfSome result (λ index. slice_index_or awaits.now index 0 ≡ gain) }
    ensures none { IfNone result (NoneAwait gain awaits.now from (length awaits.now)) }
{
    let mut index = from;
    while index < awaits.len() {
        let boards = passed_over(gain, awaits, index);
        if boards == 0 {
            return Some(index);
        }
        index += boards;
    }
    None
}

/// How many boards from this one on are known not to await the gain: a stretch, one or none.
#[inline(always)]
fn passed_over(gain: u8, awaits: &[u8], index: usize) -> usize
    requires inside { index < length awaits.now }
    ensures few { result ≤ STRETCH }
    ensures others { NoneAwait gain awaits.now index (index + result) }
    ensures here { result ≡ 0 → slice_index_or awaits.now index 0 ≡ gain }
{
    if index % STRETCH == 0 {
        let end = awaits.len().min(index + STRETCH);
        if !is_among(gain, &awaits[index..end]) {
            return STRETCH;
        }
    }
    usize::from(awaits[index] != gain)
}

/// Whether the gain is among these. There is no branch for a byte, so processors compare many at once.
fn is_among(gain: u8, awaits: &[u8]) -> bool
    ensures { (result ≡ false) → All (λ awaited. awaited ≢ gain) awaits.now }
{
    let mut found = false;
    for awaited in awaits {
        found |= *awaited == gain;
    }
    found
}
