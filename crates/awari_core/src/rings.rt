//! Batches that are on their way from one owner to another.

ghost use Rattle.std.specs.Prelude.{◌≡◌, ◌<◌, ◌∷◌, ◌++◌, [], IfOk, IfSome, IfNone, IsTrue, ◌↔◌, length};
ghost use Rattle.awari_core.specs.Core.{Ring as RingView};

use awari_owner::Batch;
use std::alloc::{AllocError, Global};
use std::collections::VecDeque;
use std::marker::Model;

/// A ring from one owner to another, with room for this many batches.
#[derive(Drop)]
pub struct Ring {
    batches: VecDeque<Batch>,
    room: u32,
}

impl Model for Ring {
    ghost use Rattle.std.specs.Prelude.{◌≤◌, map};
    ghost use Rattle.std.specs.VecDeque.{deque_capacity};
    ghost use Rattle.awari_core.specs.Core.{Ring as RingView};

    ghost Value = { RingView };

    ghost view = { λ l. record { batches = map (λ b. b.items) l.batches.items; room = l.room } };

    ghost invariant = { λ l. l.room ≤ deque_capacity l.batches };
}

impl Ring {
    /// A ring with nothing on it. Its room is taken here.
    pub fn new(alloc: Global, room: u32) -> Result<Ring, AllocError>
        ensures { IfOk result (λ ring. ring ≡ record { batches = []; room = room }) }
    {
        Ok(Ring {
            batches: VecDeque::with_capacity(alloc, room as usize)?,
            room,
        })
    }

    /// Whether nothing is on it.
    pub fn is_empty(&self) -> bool
        ensures { IsTrue result ↔ (self.now.batches ≡ []) }
    {
        self.batches.is_empty()
    }

    /// Whether there is room for a batch.
    pub fn has_room(&self) -> bool
        ensures { IsTrue result ↔ (length self.now.batches < self.now.room) }
    {
        self.batches.len() < self.room as usize
    }

    /// Puts a batch at the end. Condition: there is room for it.
    pub fn push(&mut self, batch: Batch)
        requires { length self.old.batches < self.old.room }
        ensures { self.new ≡ record self.old { batches = self.old.batches ++ batch.items ∷ [] } }
    {
        let Ok(()) = self.batches.push_back(batch) else {
            unreachable!()
        };
    }

    /// Takes the first batch off.
    pub fn pop(&mut self) -> Option<Batch>
        ensures some { IfSome result (λ batch. (self.old.batches ≡ batch.items ∷ self.new.batches) × (self.new.room ≡ self.old.room)) }
        ensures none { IfNone result ((self.old.batches ≡ []) × (self.new ≡ self.old)) }
    {
        self.batches.pop_front()
    }
}
