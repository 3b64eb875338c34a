//! Which of two distances is due.

ghost use Rattle.std.specs.Prelude.{◌≡◌};
ghost use Rattle.awari_block.specs.Blocks.{nearer_of};

/// The nearer of two distances, if there is one.
#[inline(always)]
pub fn nearer(one: Option<u32>, other: Option<u32>) -> Option<u32>
    ensures { result ≡ nearer_of one other }
{
    match (one, other) {
        (Some(a), Some(b)) => Some(a.min(b)),
        (Some(a), None) => Some(a),
        (None, b) => b,
    }
}
