//! The notes that an owner has still to send.

ghost use Rattle.std.specs.Prelude.{◌≡◌, ◌≢◌, ◌≤◌, ◌<◌, ◌↔◌, ◌∷◌, [], All, List, IfOk, IfSome, IfNone, IsTrue, replicate, slice_set};
ghost use Rattle.awari_owner.specs.Outboxes.{AreOutboxes, IsBatch, Outboxes as OutboxesView, queue_to};
ghost use Rattle.awari_block.specs.declared.notes.Note.{Note as NoteView};

use crate::queues::{Batch, Queue};
use std::alloc::{AllocError, Global};
use std::marker::Model;

/// What an owner has still to send: a queue of batches for each owner. Its own is empty, and each
/// batch has a note.
#[derive(Drop)]
pub struct Outboxes {
    pub(crate) owner: u8,
    pub(crate) queues: Vec<Queue>,
}

impl Model for Outboxes {
    ghost use Rattle.awari_owner.specs.Outboxes.{AreOutboxes, Outboxes as OutboxesView};
    ghost use Rattle.awari_owner.specs.Queues.{batches_of};

    ghost Value = { OutboxesView };

    ghost view = { λ o. record { owner = o.owner; queues = batches_of o.queues.items } };

    ghost invariant = { λ o. AreOutboxes (record { owner = o.owner; queues = batches_of o.queues.items }) };
}

impl Outboxes {
    /// The outboxes of this owner, one of `owners`, with nothing to send. It takes memory for the
    /// queues, and none for batches.
    pub fn new(alloc: Global, owners: u8, owner: u8) -> Result<Outboxes, AllocError>
        requires owners { (1 ≤ owners) × (owners ≤ 16) }
        requires owner { owner < owners }
        ensures { IfOk result (λ o. o ≡ record { owner = owner; queues = replicate owners [] }) }
    {
        let mut queues = Vec::with_capacity(alloc, owners as usize)?;
        for _owner in 0..owners {
            queues.push(Queue::new(alloc))?;
        }
        Ok(Outboxes { owner, queues })
    }

    /// Whether nothing is to be sent. Nothing ever is to the owner itself, and each batch has 1 to 32
    /// notes.
    pub fn is_empty(&self) -> bool
        ensures empty { IsTrue result ↔ All (λ q. q ≡ []) self.now.queues }
        ensures sound { AreOutboxes self.now }
    {
        for queue in &self.queues {
            if !queue.is_empty() {
                return false;
            }
        }
        true
    }

    /// A copy of the first batch that is to be sent to this owner, which has 1 to 32 notes. None if
    /// nothing is to be sent there, or `to` is not the number of another owner.
    pub fn front(&self, to: u8) -> Option<Batch>
        ensures some { IfSome result (λ batch. (rest : List (List NoteView)) × (queue_to self.now to ≡ batch.items ∷ rest)) }
        ensures batch { IfSome result (λ batch. IsBatch batch.items) }
        ensures none { IfNone result (queue_to self.now to ≡ []) }
        ensures other { queue_to self.now self.now.owner ≡ [] }
    {
        self.queues.get(to as usize)?.front()
    }

    /// Drops the first batch that is to be sent to this owner. Condition: there is one.
    pub fn drop_front(&mut self, to: u8)
        requires { queue_to self.old to ≢ [] }
        ensures { (batch : List NoteView) × (rest : List (List NoteView)) × (queue_to self.old to ≡ batch ∷ rest)
            × (self.new ≡ record self.old { queues = slice_set self.old.queues to rest }) }
    {
        self.queues[to as usize].drop_front();
    }
}
