//! Fresh boards are taken from the segments, to tell their notes.

ghost use Rattle.std.specs.Prelude.{◌≡◌, ◌++◌, ◌<◌, ◌≤◌, ◌↔◌, ◌+◌, [], ℕ, List, All, IsTrue, OnOk, length};
ghost use Rattle.awari_segments.specs.Taken.{TakesFrom, TakesOf};
ghost use Rattle.awari_segments.specs.Each.{IsPast, PassesFirst};

use crate::chunks::Chunk;
use crate::halts::Halt;
use crate::segments::Segment;
use awari_block::{Kind, Stake};

/// Moves fresh boards of the open wave from the segments into the chunk, until it has this many. True if
/// it passed over segments, so that boards of the wave may be left. Refused as `Unfit` if a segment has
/// other than this stake, and as `Memory`; then the level is lost.
pub fn take_boards(
    stake: Stake,
    most: usize,
    segments: &mut [Segment],
    chunk: &mut Chunk,
) -> Result<bool, Halt>
    ensures takes { OnOk result (TakesFrom stake segments.old segments.new chunk.new.lost.items chunk.new.won.items) }
    ensures first { OnOk result (1 ≤ most → PassesFirst stake.wave segments.old segments.new) }
{
    chunk.lost.clear();
    chunk.won.clear();
    for k in 0..segments.len() {
        if chunk.lost.len().saturating_add(chunk.won.len()) >= most {
            return Ok(true);
        }
        take_of(stake, &mut segments[k], chunk)?;
    }
    Ok(false)
}

/// Moves those of one segment, so that no fresh board of the wave is left in it.
fn take_of(stake: Stake, segment: &mut Segment, chunk: &mut Chunk) -> Result<(), Halt>
    ensures takes { OnOk result ((lost won : List ℕ) × (chunk.new.lost.items ≡ chunk.old.lost.items ++ lost) × (chunk.new.won.items ≡ chunk.old.won.items ++ won)
        × TakesOf stake segment.old segment.new lost won) }
    ensures past { OnOk result (IsPast stake.wave segment.new) }
    ensures none { OnOk result (IsPast stake.wave segment.old → (chunk.new.lost.items ≡ chunk.old.lost.items) × (chunk.new.won.items ≡ chunk.old.won.items)) }
{
    if !is_same(segment.stake(), stake) {
        return Err(Halt::Unfit);
    }
    segment.give(Kind::Lost, &mut chunk.lost)?;
    segment.give(Kind::Won, &mut chunk.won)?;
    Ok(())
}

/// Whether all these ranks are below this one.
pub fn are_below(ranks: &[u32], end: u32) -> bool
    ensures { IsTrue result ↔ All (λ rank. rank < end) ranks.now }
{
    for rank in ranks {
        if *rank >= end {
            return false;
        }
    }
    true
}

/// Whether these are one.
pub fn is_same(one: Stake, other: Stake) -> bool
    ensures { IsTrue result ↔ (one ≡ other) }
{
    one.level == other.level && one.gain == other.gain && one.wave == other.wave
}
