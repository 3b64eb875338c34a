//! A segment: a block of the boards of a level, with the fresh ones in lists by distance.

ghost use Rattle.std.specs.Prelude.{◌≡◌, ◌<◌, All, IfOk};
ghost use Rattle.awari_block.specs.Part.{IsClosed};

use crate::by_distance::ByDistance;
use awari_block::{Boards, ClosedPart};
use std::alloc::{AllocError, Global};

/// A level with this many boards is cut into a few large segments: enough for four threads.
const LARGE: u32 = 12 << 22;

/// The boards of a level from one rank up to, not including, another, and which of them are fresh, in
/// lists by distance.
pub type Segment = Boards<ByDistance>;

/// These segments, each closed.
pub fn closed_all(alloc: Global, segments: Vec<Segment>) -> Result<Vec<ClosedPart>, AllocError>
    requires { All IsClosed segments.items }
    ensures { IfOk result (λ parts. parts.items ≡ segments.items) }
{
    let mut parts = Vec::with_capacity(alloc, segments.len())?;
    for segment in segments {
        parts.push(segment.close())?;
    }
    Ok(parts)
}

/// The power of two that a segment has of boards, if a level has so many: few enough to share them
/// out among threads, and enough that a list for each segment costs little. A list that is not empty
/// costs the same misses of the cache, however short it is.
///
/// A large level has segments of 32 MB of cells. The C library gives so large a piece back to the
/// system once it is dropped, so entries need no more memory than cells did.
pub fn log_of(boards: u32) -> u32
    ensures { result < 32 }
{
    if boards >= LARGE {
        return 22;
    }
    (boards / 48).max(1).ilog2().clamp(12, 18)
}
