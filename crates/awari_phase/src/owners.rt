//! One owner, with all that its worker works on.
//!
//! How to think of it. During a round an owner is alone in its thread: it sees its part, its outboxes
//! and its own ends of the rings, and nothing of the others. So each contract here speaks of one
//! owner. `Kept` says that an owner that was sound stays so over the batches that it took and gave.
//! These are lists that only grow, whatever the others do meanwhile. `Swept` says that it took,
//! spread and sent, or knows of nothing to take, to spread or to send, or of no room. Whether the
//! lists of two owners fit together is looked at later, by `settle_owners`, once all ends are in one
//! thread again.
//!
//! A sweep never waits. It passes over a ring with nothing on it, and if a ring is full it leaves the
//! batch in the outbox. A step that is refused stops the worker, and the owner carries the fault
//! until all threads are joined.

ghost use Rattle.std.specs.Prelude.{◌≡◌, ◌≤◌, length};
ghost use Rattle.awari_lines.specs.Rings.{owners_of};
ghost use Rattle.awari_owner.specs.Spread.{IsPartOf};

use crate::gates::Gate;
use awari_lines::Ends;
use awari_owner::{Batch, Outboxes, OwnerFault, Part, take_batch};

/// The most boards that a sweep spreads.
pub const MOST_SPREADS: u32 = 64;

/// One owner: its part of the level, its ends of the rings, and what it has still to send.
#[derive(Drop)]
pub struct Owner {
    /// Its block of the level's boards, and what is known of them.
    pub part: Part,
    /// Its ends of the rings to the other owners.
    pub ends: Ends<Batch>,
    /// The notes that it has still to send.
    pub outboxes: Outboxes,
    /// Why its worker stopped in the last round, if a step was refused.
    pub(crate) fault: Option<OwnerFault>,
    ghost queues: { length outboxes.queues ≡ owners_of ends },
    ghost numbered: { outboxes.owner ≡ ends.owner },
    ghost part_of: { IsPartOf part outboxes },
    ghost few: { owners_of ends ≤ 16 },
}

impl Owner {
    ghost use Rattle.std.specs.Prelude.{◌≡◌, ◌+◌, ◌<◌, ◌≤◌, ℕ, None, Ok, Some, IfErr, OnOk, false, true};
    ghost use Rattle.awari_lines.specs.Rings.{IsOther, owners_of};
    ghost use Rattle.awari_block.specs.Part.{IsLeastDue, unspread};
    ghost use Rattle.awari_phase.specs.Owners.{AreOfOne, HasSent, HasSpread, HasTaken, Kept, Swept};
    ghost use Rattle.awari_phase.specs.Steps.{SendsAt, TakesAt, TakesNothing};
    ghost use Rattle.awari_phase.specs.Stops.{HasWorked, Stopped};

    /// The owner of this part of a level, with these ends of its rings to the others and these
    /// outboxes. Condition: all three are those of one owner, one of as many.
    pub fn new(part: Part, ends: Ends<Batch>, outboxes: Outboxes) -> Owner
        requires { AreOfOne part ends outboxes }
        ensures part { result.part ≡ part }
        ensures ends { result.ends ≡ ends }
        ensures outboxes { result.outboxes ≡ outboxes }
        ensures fault { result.fault ≡ None }
    {
        // For the proof: there are at most 16 owners.
        outboxes.is_empty();
        Owner {
            part,
            ends,
            outboxes,
            fault: None,
        }
    }

    /// Takes at most one batch from another owner. True if there was one.
    fn take_from(&mut self, from: u8) -> Result<bool, OwnerFault>
        requires { IsOther self.old.ends from }
        ensures kept { OnOk result (Kept self.old self.new) }
        ensures took { OnOk result (TakesAt self.old self.new from) }
        ensures stopped { IfErr result (Stopped self.old self.new) }
    {
        let Some(batch) = self.ends.pop(from) else {
            return Ok(false);
        };
        take_batch(&mut self.part, &batch)?;
        Ok(true)
    }

    /// Sends at most one batch to another owner. True if one went.
    fn send_to(&mut self, to: u8) -> bool
        requires { IsOther self.old.ends to }
        ensures kept { Kept self.old self.new }
        ensures sent { SendsAt self.old self.new to }
    {
        let Some(batch) = self.outboxes.front(to) else {
            return false;
        };
        match self.ends.push(to, batch) {
            Ok(()) => {
                self.outboxes.drop_front(to);
                true
            }
            Err(_) => false,
        }
    }

    /// Takes at most one batch from the owner of this number, if it is another.
    #[tactic(auto, using(crate::proofs::Stopping::stopping))]
    fn take_at(&mut self, place: usize) -> Result<bool, OwnerFault>
        requires { place < owners_of self.old.ends }
        ensures kept { OnOk result (Kept self.old self.new) }
        ensures took { OnOk result (TakesAt self.old self.new place) }
        ensures stopped { IfErr result (Stopped self.old self.new) }
    {
        match u8::try_from(place) {
            Ok(other) if other != self.ends.owner() => self.take_from(other),
            _ => Ok(false),
        }
    }

    /// Sends at most one batch to the owner of this number, if it is another.
    #[tactic(auto, using(crate::proofs::Keeping::keeping))]
    fn send_at(&mut self, place: usize) -> bool
        requires { place < owners_of self.old.ends }
        ensures kept { Kept self.old self.new }
        ensures sent { SendsAt self.old self.new place }
    {
        match u8::try_from(place) {
            Ok(other) if other != self.ends.owner() => self.send_to(other),
            _ => false,
        }
    }

    /// Spreads at most one board. True if there was one.
    fn spread(&mut self) -> Result<bool, OwnerFault>
        ensures kept { OnOk result (Kept self.old self.new) }
        ensures ends { OnOk result (self.new.ends ≡ self.old.ends) }
        ensures fewer { result ≡ Ok true → unspread self.new.part + 1 ≡ unspread self.old.part }
        ensures none { result ≡ Ok false → IsLeastDue self.new.part (Some self.new.part.wave) → ⊥ }
        ensures stopped { IfErr result (Stopped self.old self.new) }
    {
        let done = self.part.spread_one(&mut self.outboxes)?;
        Ok(done)
    }

    /// Takes at most one batch from each other owner. True if there was one.
    #[tactic(auto, using(crate::proofs::Stopping::stopping))]
    fn take_each(&mut self) -> Result<bool, OwnerFault>
        ensures kept { OnOk result (Kept self.old self.new) }
        ensures took { OnOk result ((j : ℕ) → IsOther self.old.ends j → HasTaken self.old self.new j) }
        ensures stopped { IfErr result (Stopped self.old self.new) }
    {
        let owners = self.ends.owners();
        let mut busy = false;
        for place in 0..owners {
            let came = self.take_at(place)?;
            busy = busy || came;
        }
        Ok(busy)
    }

    /// Spreads at most 64 boards. True if there was one.
    #[tactic(auto, using(crate::proofs::Stopping::stopping))]
    fn spread_some(&mut self) -> Result<bool, OwnerFault>
        ensures kept { OnOk result (Kept self.old self.new) }
        ensures ends { OnOk result (self.new.ends ≡ self.old.ends) }
        ensures spread { OnOk result (HasSpread self.old self.new) }
        ensures stopped { IfErr result (Stopped self.old self.new) }
    {
        for spread in 0..MOST_SPREADS {
            if !self.spread()? {
                return Ok(spread > 0);
            }
        }
        Ok(true)
    }

    /// Sends at most one batch to each other owner. True if one went.
    #[tactic(auto, using(crate::proofs::Keeping::keeping))]
    fn send_each(&mut self) -> bool
        ensures kept { Kept self.old self.new }
        ensures part { self.new.part ≡ self.old.part }
        ensures received { TakesNothing self.old self.new }
        ensures sent { (j : ℕ) → IsOther self.old.ends j → HasSent self.old self.new j }
    {
        let owners = self.ends.owners();
        let mut busy = false;
        for place in 0..owners {
            let went = self.send_at(place);
            busy = busy || went;
        }
        busy
    }

    /// Takes at most one batch from each other owner, spreads at most 64 boards, and sends at most
    /// one batch to each other owner. True if it did anything.
    #[tactic(auto, using(crate::proofs::Stopping::stopping))]
    fn sweep(&mut self) -> Result<bool, OwnerFault>
        ensures kept { OnOk result (Kept self.old self.new) }
        ensures swept { OnOk result (Swept self.old self.new) }
        ensures stopped { IfErr result (Stopped self.old self.new) }
    {
        let came = self.take_each()?;
        let spread = self.spread_some()?;
        let went = self.send_each();
        Ok(came || spread || went)
    }

    /// Sweeps until a sweep finds nothing to do, at most this many times.
    #[tactic(auto, using(crate::proofs::Stopping::stopping))]
    fn sweeps<G: Gate>(&mut self, gate: &G, most: u32) -> Result<(), OwnerFault>
        requires { 1 ≤ most }
        ensures kept { OnOk result (Kept self.old self.new) }
        ensures swept { OnOk result (Swept self.old self.new) }
        ensures stopped { IfErr result (Stopped self.old self.new) }
    {
        for _ in 0..most {
            gate.enter(self.ends.owner());
            if !self.sweep()? {
                break;
            }
        }
        Ok(())
    }

    /// Sweeps until a sweep finds nothing to do, at most this many times, and keeps the fault that
    /// came, if one did.
    #[tactic(auto, using(crate::proofs::Stopping::stopping))]
    pub(crate) fn work<G: Gate>(&mut self, gate: &G, most: u32)
        requires { 1 ≤ most }
        ensures { HasWorked self.old self.new }
    {
        let swept = self.sweeps(gate, most);
        self.fault = swept.err();
    }
}
