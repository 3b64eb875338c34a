//! How a part hears a batch of another owner.

ghost use Rattle.std.specs.Prelude.{OnOk, IfErr};
ghost use Rattle.awari_owner.specs.Sound.{RefusesNote, TakesNotes};

use crate::faults::OwnerFault;
use crate::parts::Part;
use crate::queues::Batch;

/// Hears all notes of a batch of another owner, in order, up to one that is refused. It takes no
/// memory.
pub fn take_batch(part: &mut Part, batch: &Batch) -> Result<(), OwnerFault>
    ensures taken { OnOk result (TakesNotes batch.now.items part.old part.new) }
    ensures refused { IfErr result (RefusesNote batch.now.items part.old part.new) }
{
    for note in batch.as_slice() {
        part.take(*note)?;
    }
    Ok(())
}
