//! What an owner sends by.

ghost use Rattle.std.specs.Prelude.{◌≡◌, ◌≤◌, ◌<◌, ◌-◌, ◌↔◌, [], ℕ, Some, OnErr, IfOk, IfErr, IfSome, IfNone, IsTrue, length, vec_len, All, replicate, true, false, slice_index_or};
ghost use Rattle.awari_block.specs.Part.{IsLeastDue};
ghost use Rattle.awari_owner.specs.Sound.{IsSpreadFault, SameStake, SpreadsFirst};
ghost use Rattle.awari_owner.specs.Spread.{IsPartOf};
ghost use Rattle.awari_core.specs.Core.{CanSend, IsLinked, IsSilent, MovesBatch, PopsBatch, Sender as SenderView, ring_to, no_sender};

use crate::rings::Ring;
use awari_owner::{Batch, Outboxes, OwnerFault, Part};
use std::alloc::{AllocError, Global};
use std::marker::Model;

/// An owner's outboxes, and its rings to all owners.
#[derive(Drop)]
pub struct Sender {
    outboxes: Outboxes,
    rings: Vec<Ring>,
}

impl Model for Sender {
    ghost use Rattle.awari_core.specs.Core.{Sender as SenderView};

    ghost Value = { SenderView };

    ghost view = { λ s. record { outboxes = s.outboxes; rings = s.rings.items } };
}

impl Sender {
    /// The outboxes and rings of this owner, one of `owners`, with nothing to send. Each ring has
    /// room for `room` batches, which is taken here.
    pub fn new(alloc: Global, owners: u8, owner: u8, room: u32) -> Result<Sender, AllocError>
        requires owners { (1 ≤ owners) × (owners ≤ 16) }
        requires owner { owner < owners }
        ensures { IfOk result (λ sender. sender ≡ record { outboxes = record { owner = owner; queues = replicate owners [] }; rings = replicate owners (record { batches = []; room = room }) }) }
    {
        let outboxes = Outboxes::new(alloc, owners, owner)?;
        let mut rings = Vec::with_capacity(alloc, owners as usize)?;
        for _to in 0..owners {
            rings.push(Ring::new(alloc, room)?)?;
        }
        Ok(Sender { outboxes, rings })
    }

    /// Spreads the first fresh board of the owner's part, if its distance is the open one.
    pub fn spread(&mut self, part: &mut Part) -> Result<bool, OwnerFault>
        requires part { IsPartOf part.old self.old.outboxes }
        ensures spread { result ≡ Ok true → SpreadsFirst part.old part.new self.old.outboxes self.new.outboxes }
        ensures none { result ≡ Ok false → (IsLeastDue part.old (Some part.old.wave) → ⊥) × (part.new ≡ part.old) × (self.new ≡ self.old) }
        ensures stays { SameStake part.old part.new × (self.new.rings ≡ self.old.rings) }
        ensures fault { IfErr result (IsSpreadFault part.old (length self.old.outboxes.queues)) }
        ensures err { OnErr result ((part.new ≡ part.old) × (self.new ≡ self.old)) }
    {
        part.spread_one(&mut self.outboxes)
    }

    /// Puts the first batch of the outbox for this owner at the end of the ring to it. False if there
    /// is no batch, or no room on the ring.
    pub fn send(&mut self, to: u8) -> bool
        requires { to < length self.old.rings }
        ensures sent { result ≡ true → MovesBatch self.old self.new to }
        ensures enabled { IsTrue result ↔ CanSend self.old to }
        ensures kept { result ≡ false → self.new ≡ self.old }
    {
        if !self.rings[to as usize].has_room() {
            return false;
        }
        let Some(batch) = self.outboxes.front(to) else {
            return false;
        };
        self.outboxes.drop_front(to);
        self.rings[to as usize].push(batch);
        true
    }

    /// Takes the first batch off the ring to this owner.
    pub fn pop(&mut self, to: u8) -> Option<Batch>
        requires { to < length self.old.rings }
        ensures some { IfSome result (λ batch. PopsBatch batch.items self.old self.new to) }
        ensures none { IfNone result (((ring_to self.old to).batches ≡ []) × (self.new ≡ self.old)) }
    {
        self.rings[to as usize].pop()
    }

    /// Whether nothing waits in the outboxes and on the rings.
    pub fn is_silent(&self) -> bool
        ensures { IsTrue result ↔ IsSilent self.now }
    {
        self.outboxes.is_empty() && self.rings.iter().all(Ring::is_empty)
    }
}

/// Whether nothing waits in the outboxes and on the rings of all these owners.
pub fn are_silent(senders: &[Sender]) -> bool
    ensures { IsTrue result ↔ All IsSilent senders.now }
{
    senders.iter().all(Sender::is_silent)
}

/// The outboxes and rings of this many owners, with nothing to send.
pub fn silent_senders(alloc: Global, owners: u8, room: u32) -> Result<Vec<Sender>, AllocError>
    requires owners { (1 ≤ owners) × (owners ≤ 16) }
    ensures count { IfOk result (λ senders. vec_len senders ≡ owners) }
    ensures silent { IfOk result (λ senders. All IsSilent senders.items) }
    ensures linked { IfOk result (λ senders. (i : ℕ) → i < owners → IsLinked owners room i (slice_index_or senders.items i no_sender)) }
{
    let mut senders = Vec::with_capacity(alloc, owners as usize)?;
    for owner in 0..owners {
        senders.push(Sender::new(alloc, owners, owner, room)?)?;
    }
    Ok(senders)
}
