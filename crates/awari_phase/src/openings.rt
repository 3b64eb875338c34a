//! The next gain, or the next distance, opened in all parts.

ghost use Rattle.std.specs.Prelude.{◌≡◌, ◌≤◌, All, []};
ghost use Rattle.awari_block.specs.Each.{EachTo};
ghost use Rattle.awari_lines.specs.Rings.{IsGrid};
ghost use Rattle.awari_block.specs.Blocks.{due_dist};
ghost use Rattle.awari_phase.specs.Owners.{AllGrown, AreIdle, AreReceived, AreSent, OpensNext, JoinsWave, StayFinished, StayTogether, all_ends};
ghost use Rattle.awari_phase.specs.declared.owners.Owner.{Owner as AnOwner};

use crate::owners::Owner;
use rayon::prelude::*;
use std::thread::Threads;

/// Opens the next smaller gain in each part, several parts at a time, at distance 0. Conditions: no
/// board is fresh, nothing is to be sent or waits on a ring, and the open gain is at least 2. It takes
/// memory for threads alone. If no thread can be started, it opens the parts one after the other.
pub fn open_gain<R: Threads + Sync>(rt: &R, owners: &mut [Owner])
    requires idle { AreIdle owners.old }
    requires sent { AreSent owners.old }
    requires received { AreReceived owners.old }
    requires greater { All (λ (o : AnOwner). 2 ≤ o.part.gain) owners.old }
    ensures finished { StayFinished owners.old owners.new }
    ensures each { EachTo OpensNext owners.old owners.new }
{
    par_for_each_mut(
        rt,
        owners,
        |_place: usize, owner: &mut Owner|
            requires { (owner.old.part.fresh ≡ []) × (2 ≤ owner.old.part.gain) }
            ensures { OpensNext owner.old owner.new }
        { open_next(owner) },
    );
}

/// Opens the next smaller gain in the part.
fn open_next(owner: &mut Owner)
    requires idle { owner.old.part.fresh ≡ [] }
    requires greater { 2 ≤ owner.old.part.gain }
    ensures { OpensNext owner.old owner.new }
{
    let gain = owner.part.gain() - 1;
    owner.part.open_gain(gain);
}

/// Opens this distance in each part, unless it is open there.
pub(crate) fn open_waves(owners: &mut [Owner], dist: u32)
    requires grid { IsGrid (all_ends owners.old) }
    requires sent { AreSent owners.old }
    requires received { AreReceived owners.old }
    requires nearest { All (λ (o : AnOwner). All (λ f. dist ≤ due_dist f) o.part.fresh) owners.old }
    ensures grown { AllGrown owners.old owners.new }
    ensures together { StayTogether owners.old owners.new }
{
    open_each(owners, dist);
}

/// Opens this distance in one part after the other.
fn open_each(owners: &mut [Owner], dist: u32)
    requires sent { AreSent owners.old }
    requires nearest { All (λ (o : AnOwner). All (λ f. dist ≤ due_dist f) o.part.fresh) owners.old }
    ensures { EachTo (JoinsWave dist) owners.old owners.new }
{
    for i in 0..owners.len() {
        open_wave(&mut owners[i], dist);
    }
}

/// Opens this distance in the part, unless it is open.
fn open_wave(owner: &mut Owner, dist: u32)
    requires sent { All (λ q. q ≡ []) owner.old.outboxes.queues }
    requires nearest { All (λ f. dist ≤ due_dist f) owner.old.part.fresh }
    ensures { JoinsWave dist owner.old owner.new }
{
    if owner.part.wave() < dist {
        owner.part.open_wave(dist);
    }
}
