//! The next gain or a farther wave is opened in all segments.

ghost use Rattle.std.specs.Prelude.{◌≡◌, OnOk};
ghost use Rattle.awari_block.specs.Each.{EachTo};
ghost use Rattle.awari_segments.specs.Each.{OpensGain, OpensWave};

use crate::dues::{are_from, due_from};
use crate::halts::Halt;
use crate::segments::Segment;

/// Opens this gain in all segments, the next smaller one. Refused as `Unfit` if it is not the next of
/// one, or a board of it is fresh, and as `Memory` if there was no room for the boards that it settles;
/// then the level is lost.
pub fn open_gain(gain: u8, segments: &mut [Segment]) -> Result<(), Halt>
    ensures { OnOk result (EachTo (OpensGain gain) segments.old segments.new) }
{
    for k in 0..segments.len() {
        open_gain_of(gain, &mut segments[k])?;
    }
    Ok(())
}

/// Opens this gain in one of them.
fn open_gain_of(gain: u8, segment: &mut Segment) -> Result<(), Halt>
    ensures { OnOk result (OpensGain gain segment.old segment.new) }
{
    let fresh = due_from(segment, 0).is_some();
    if fresh || gain == 0 || segment.stake().gain - 1 != gain {
        return Err(Halt::Unfit);
    }
    segment.open_gain(gain)?;
    Ok(())
}

/// Opens the wave of this distance in all segments. Refused as `Unfit` if it is not farther than that
/// of one, or a board is fresh that is nearer; then the level is lost.
pub fn open_wave(dist: u32, segments: &mut [Segment]) -> Result<(), Halt>
    ensures { OnOk result (EachTo (OpensWave dist) segments.old segments.new) }
{
    for k in 0..segments.len() {
        open_wave_of(dist, &mut segments[k])?;
    }
    Ok(())
}

/// Opens it in one of them.
fn open_wave_of(dist: u32, segment: &mut Segment) -> Result<(), Halt>
    ensures { OnOk result (OpensWave dist segment.old segment.new) }
{
    if segment.wave() >= dist || !are_from(segment, dist) {
        return Err(Halt::Unfit);
    }
    segment.open_wave(dist);
    Ok(())
}
