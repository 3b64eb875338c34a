//! Which distance is due: the least of a fresh board.

ghost use Rattle.std.specs.Prelude.{◌≡◌, ◌≤◌, [], All, IfNone, IfSome, IsTrue};
ghost use Rattle.awari_block.specs.Blocks.{due_dist};
ghost use Rattle.awari_block.specs.Boards.{HasFresh};
ghost use Rattle.awari_segments.specs.Each.{AreFrom, NoneAreFresh, HasDue};

use crate::segments::Segment;
use awari_block::nearer;

/// The least distance of a fresh board of the segment, none if no board is fresh. Condition: no fresh
/// board is nearer than `from`.
pub fn due_from(segment: &Segment, from: u32) -> Option<u32>
    requires far { All (λ f. from ≤ due_dist f) segment.now.fresh }
    ensures none { IfNone result (segment.now.fresh ≡ []) }
    ensures least { IfSome result (λ dist. All (λ f. dist ≤ due_dist f) segment.now.fresh) }
    ensures some { IfSome result (λ dist. (from ≤ dist) × HasFresh segment.now dist) }
{
    let fresh = segment.fresh();
    nearer(fresh.lost.first_from(from), fresh.won.first_from(from))
}

/// Whether all fresh boards of the segment are as far as this, or farther.
pub fn are_from(segment: &Segment, dist: u32) -> bool
    ensures { IsTrue result → All (λ f. dist ≤ due_dist f) segment.now.fresh }
{
    let wave = segment.wave();
    let fresh = segment.fresh();
    fresh.lost.are_empty_to(wave, dist) && fresh.won.are_empty_to(wave, dist)
}

/// The least distance of a fresh board of these segments, none if no board is fresh.
pub fn nearest(segments: &[Segment]) -> Option<u32>
    ensures none { IfNone result (NoneAreFresh segments.now) }
    ensures least { IfSome result (λ dist. AreFrom dist segments.now) }
    ensures some { IfSome result (λ dist. HasDue dist segments.now) }
{
    let mut least = None;
    for segment in segments {
        least = nearer(least, due_from(segment, segment.wave()));
    }
    least
}
