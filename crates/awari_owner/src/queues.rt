//! Notes in a queue, batch by batch.

ghost use Rattle.std.specs.Prelude.{◌≡◌, ◌≢◌, ◌+◌, ◌<◌, ◌≤◌, ◌↔◌, ◌∷◌, [], ℕ, List, IsTrue, IsOk, IfSome, IfNone, OnOk, vec_len};
ghost use Rattle.awari_owner.specs.Outboxes.{with_note};
ghost use Rattle.awari_owner.specs.Queues.{Queue as QueueView, spare, batches_of, room_in};
ghost use Rattle.awari_block.specs.declared.notes.Note.{Note as NoteView};

use arrayvec::ArrayVec;
use awari_block::Note;
use std::alloc::{AllocError, Global};
use std::collections::VecDeque;
use std::marker::Model;

/// The most notes that are sent at once.
pub const MOST_NOTES: usize = 32;

/// Notes that are sent at once.
pub type Batch = ArrayVec<Note, MOST_NOTES>;

/// How many batches are begun by the spread of a board, at most: it has no more than 288
/// predecessors.
const MOST_BATCHES: usize = 9;

/// Batches that are to be sent to one owner.
#[derive(Drop)]
pub struct Queue {
    batches: VecDeque<Batch>,
}

impl Model for Queue {
    ghost use Rattle.std.specs.Prelude.{map};
    ghost use Rattle.std.specs.VecDeque.{deque_capacity};
    ghost use Rattle.awari_owner.specs.Queues.{Queue as QueueView, room_of};

    ghost Value = { QueueView };

    ghost view = { λ q. record { batches = map (λ b. b.items) q.batches.items; room = room_of (deque_capacity q.batches) (map (λ b. b.items) q.batches.items) } };
}

impl Queue {
    /// A queue with nothing in it.
    pub fn new(alloc: Global) -> Queue
        ensures { result.batches ≡ [] }
    {
        Queue {
            batches: VecDeque::new(alloc),
        }
    }

    /// Whether nothing is in it.
    pub fn is_empty(&self) -> bool
        ensures { IsTrue result ↔ (self.now.batches ≡ []) }
    {
        self.batches.is_empty()
    }

    /// A copy of the first batch.
    pub fn front(&self) -> Option<Batch>
        ensures some { IfSome result (λ batch. (rest : List (List NoteView)) × (self.now.batches ≡ batch.items ∷ rest)) }
        ensures none { IfNone result (self.now.batches ≡ []) }
    {
        let first = self.batches.front()?;
        match Batch::try_from(first.as_slice()) {
            Ok(batch) => Some(batch),
            Err(_) => unreachable!(),
        }
    }

    /// Drops the first batch. Condition: there is one.
    pub fn drop_front(&mut self)
        requires { self.old.batches ≢ [] }
        ensures { (batch : List NoteView) × (self.old.batches ≡ batch ∷ self.new.batches) }
    {
        let Some(_) = self.batches.pop_front() else {
            unreachable!()
        };
    }

    /// Takes room for the notes of one board.
    pub fn reserve(&mut self) -> Result<(), AllocError>
        ensures same { self.new.batches ≡ self.old.batches }
        ensures room { OnOk result (288 ≤ self.new.room) }
    {
        self.batches.reserve(MOST_BATCHES)
    }

    /// Puts a note into the last batch, or into a new one if that is full or there is none.
    /// Condition: there is room.
    pub fn put(&mut self, note: Note)
        requires { 0 < self.old.room }
        ensures notes { self.new.batches ≡ with_note self.old.batches note }
        ensures room { self.new.room + 1 ≡ self.old.room }
    {
        if self.has_open_batch() {
            let last = self.batches.len() - 1;
            self.batches[last].push(note);
            return;
        }
        let mut batch = Batch::new();
        batch.push(note);
        let Ok(()) = self.batches.push_back(batch) else {
            unreachable!()
        };
    }

    /// Whether there is a last batch that is not full.
    fn has_open_batch(&self) -> bool
        ensures { IsTrue result ↔ (0 < spare self.now.batches) }
    {
        match self.batches.back() {
            Some(batch) => !batch.is_full(),
            None => false,
        }
    }
}

/// Takes room for the notes of one board in the queues of all owners but this one.
pub fn reserve_others(queues: &mut Vec<Queue>, owner: u8) -> Result<(), AllocError>
    ensures same { batches_of queues.new.items ≡ batches_of queues.old.items }
    ensures len { vec_len queues.new ≡ vec_len queues.old }
    ensures room { OnOk result ((to : ℕ) → to < vec_len queues.old → to ≢ owner → 288 ≤ room_in queues.new.items to) }
    ensures alone { ((to : ℕ) → to < vec_len queues.old → to ≡ owner) → IsOk result }
{
    for to in 0..queues.len() {
        if to != owner as usize {
            queues[to].reserve()?;
        }
    }
    Ok(())
}
