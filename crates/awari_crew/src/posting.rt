//! Letters are sent to all other members, and looked for from each.

ghost use Rattle.std.specs.Prelude.{◌≡◌, ◌<◌, IfOk, IfSome, None, Ok, OnOk};
ghost use Rattle.std.specs.Arc.{arc_value};
ghost use Rattle.awari_crew.specs.Members.{Receives, SendsAll};
ghost use Rattle.awari_crew.specs.Posting.{SendsTo};
ghost use Rattle.awari_segments.specs.Tellings.{telling_of};
ghost use Rattle.awari_lines.specs.Rings.{IsOther, SameHistory, owners_of};

use crate::letters::{Head, Letter};
use awari_block::Stake;
use awari_lines::Ends;
use awari_segments::{Halt, Row};
use std::sync::Arc;

/// Sends a letter with this head and row to each other member. Refused as `Unfit` if a ring is full, and
/// as `Memory`; then the level is lost.
pub fn send_all(
    ends: &mut Ends<Letter>,
    head: Head,
    stake: Stake,
    row: &Arc<Row>,
) -> Result<(), Halt>
    ensures { OnOk result (SendsAll (telling_of stake (arc_value row.now)) ends.old ends.new) }
{
    for place in 0..ends.owners() {
        send_at(ends, place, head, stake, row)?;
    }
    Ok(())
}

/// Sends it to the member of this number, if it is another.
fn send_at(
    ends: &mut Ends<Letter>,
    place: usize,
    head: Head,
    stake: Stake,
    row: &Arc<Row>,
) -> Result<(), Halt>
    requires { place < owners_of ends.old }
    ensures { OnOk result (SendsTo place (telling_of stake (arc_value row.now)) ends.old ends.new) }
{
    match u8::try_from(place) {
        Ok(other) if other == ends.owner() => Ok(()),
        Ok(other) => {
            let row = Arc::try_clone(row)?;
            match ends.push(other, Letter { head, stake, row }) {
                Ok(()) => Ok(()),
                Err(_) => Err(Halt::Unfit),
            }
        }
        Err(_) => Err(Halt::Unfit),
    }
}

/// Looks for the next letter of another member. Refused as `Unfit` if none waits and that member left.
pub fn look_for_letter(ends: &mut Ends<Letter>, from: u8) -> Result<Option<Letter>, Halt>
    requires { IsOther ends.old from }
    ensures some { IfOk result (λ found. IfSome found (λ letter. Receives from letter ends.old ends.new)) }
    ensures none { result ≡ Ok None → SameHistory ends.old ends.new }
{
    if let Some(letter) = ends.pop(from) {
        return Ok(Some(letter));
    }
    if ends.is_left(from) {
        return Err(Halt::Unfit);
    }
    Ok(None)
}
