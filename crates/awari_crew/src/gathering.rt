//! What members brought home is put together again.

ghost use Rattle.std.specs.Prelude.{◌≡◌, ◌<◌, ◌≤◌, ◌^◌, ◌/◌, ℕ, ℤ, List, All, IfOk, IsTrue, true, map, length};
ghost use Rattle.std.specs.List.{flat_map};
ghost use Rattle.awari_block.specs.Part.{IsClosed};
ghost use Rattle.awari_heard.specs.Level.{AreHeard, AreWhole};
ghost use Rattle.awari_crew.specs.Gathered.{AreAligned};
ghost use Rattle.awari_crew.specs.Homes.{AreHome, brought, ends_of};
ghost use Rattle.awari_lines.specs.Rings.{IsGrid};

use crate::homes::Home;
use crate::letters::Letter;
use awari_block::ClosedPart;
use awari_lines::{Ends, settle};
use awari_rank::{ranks_tell_boards_apart, size};
use awari_segments::{Halt, Segment, closed_all, due_from};
use std::alloc::Global;

/// The closed parts of the level that these members built, in order of rank. Refused as `Unfit` if a letter
/// was not heard, a gain is not closed, or the segments are not those of the level, and as `Memory`.
pub(crate) fn gather(
    alloc: Global,
    level: u8,
    log: u32,
    homes: Vec<Home>,
) -> Result<Vec<ClosedPart>, Halt>
    requires low { level ≤ 24 }
    requires log { log < 32 }
    requires grid { IsGrid (map ends_of homes.items) }
    ensures whole { IfOk result (λ parts. AreWhole level parts.items) }
    ensures closed { IfOk result (λ parts. All IsClosed parts.items) }
    ensures heard { IfOk result (λ parts. (value : List ℕ → ℤ) → AreHome value level (2 ^ log) homes.items → AreHeard value parts.items) }
{
    ranks_tell_boards_apart();
    let (mut ends, mut segments) = unpacked(alloc, homes)?;
    if !settle(ends.as_mut_slice()) {
        return Err(Halt::Unfit);
    }
    segments.sort_unstable_by_key(|segment: &Segment| segment.block().0);
    if !are_blocks(level, log, segments.as_slice()) || !are_closed(segments.as_slice()) {
        return Err(Halt::Unfit);
    }
    let parts = closed_all(alloc, segments)?;
    Ok(parts)
}

/// The ends and the segments of all members.
fn unpacked(alloc: Global, homes: Vec<Home>) -> Result<(Vec<Ends<Letter>>, Vec<Segment>), Halt>
    ensures ends { IfOk result (λ all. all.0.items ≡ map ends_of homes.items) }
    ensures segments { IfOk result (λ all. all.1.items ≡ flat_map brought homes.items) }
{
    let mut ends = Vec::with_capacity(alloc, homes.len())?;
    let mut segments = Vec::new(alloc);
    for mut home in homes {
        ends.push(home.ends)?;
        segments.append(&mut home.segments)?;
    }
    Ok((ends, segments))
}

/// Whether these are all boards of the level, one segment after the other, each of 2 to the power `log`
/// boards at most.
fn are_blocks(level: u8, log: u32, segments: &[Segment]) -> bool
    requires low { level ≤ 24 }
    requires log { log < 32 }
    ensures whole { IsTrue result → AreWhole level segments.now }
    ensures aligned { IsTrue result → AreAligned (2 ^ log) segments.now }
{
    let mut low: u32 = 0;
    for segment in segments {
        let (start, end) = segment.block();
        if segment.stake().level != level || start != low || !is_aligned(log, start, end) {
            return false;
        }
        low = end;
    }
    low == size(level)
}

/// Whether a segment begins at a multiple of 2 to this power, and has no more boards.
fn is_aligned(log: u32, start: u32, end: u32) -> bool
    requires log { log < 32 }
    ensures { IsTrue result → (rank : ℕ) → start ≤ rank → rank < end → rank / 2 ^ log ≡ start / 2 ^ log }
{
    end <= start || (end - 1) >> log == start >> log
}

/// Whether gain 1 is open in all of them, and no board is fresh.
fn are_closed(segments: &[Segment]) -> bool
    ensures { IsTrue result → All IsClosed segments.now }
{
    for segment in segments {
        if segment.stake().gain != 1 || due_from(segment, 0).is_some() {
            return false;
        }
    }
    true
}
