//! One owner's ends of its rings to the others.

ghost use Rattle.std.specs.Prelude.{◌≤◌, vec_len};

use rtrb::{Consumer, Producer, PushError, RingBuffer};
use std::alloc::{AllocError, Global};

/// The two rings between an owner and another one: the end that sends to it, and the end that
/// receives from it.
#[derive(Drop)]
pub struct RingPair<T> {
    pub(crate) producer: Producer<T>,
    pub(crate) consumer: Consumer<T>,
}

/// One owner's ends of its rings to the other owners, in the order of their numbers.
#[derive(Drop)]
pub struct Ends<T> {
    pub(crate) owner: u8,
    pub(crate) pairs: Vec<RingPair<T>>,
    ghost numbered: { owner ≤ vec_len pairs },
}

impl<T> Ends<T> {
    ghost use Rattle.std.specs.Prelude.{◌≡◌, ◌+◌, ◌<◌, ◌≤◌, ◌++◌, ◌∷◌, [], length, IfOk, IfErr, OnOk, IfSome, IfNone, IsOk, IsSome, IsTrue, ◌↔◌};
    ghost use mathlib.Core.List.{IsPrefix};
    ghost use Rattle.awari_lines.specs.Rings.{IsOther, owners_of, sent_to, received_from, waiting_from, free_to, SendsOnly, TakesOnly, AreLinked, Connected, Looked, IsExact, NothingWaits, SameHistory};

    /// The owner's number.
    pub fn owner(&self) -> u8
        ensures { result ≡ self.now.owner }
    {
        self.owner
    }

    /// How many owners the rings are among.
    pub fn owners(&self) -> usize
        ensures { result ≡ owners_of self.now }
    {
        self.pairs.len() + 1
    }

    /// Sends an item to another owner of the grid, or hands it back if no room is known even after a
    /// look at the ring. If room was known before, it is sent. It takes no memory.
    pub fn push(&mut self, to: u8, item: T) -> Result<(), T>
        requires { IsOther self.old to }
        ensures only { SendsOnly self.old self.new to }
        ensures ok { OnOk result ((sent_to self.new to ≡ sent_to self.old to ++ item ∷ []) × (free_to self.old to ≤ free_to self.new to + 1)) }
        ensures full { IfErr result (λ back. (back ≡ item) × (sent_to self.new to ≡ sent_to self.old to) × (free_to self.new to ≡ 0)) }
        ensures succeeds { 0 < free_to self.old to → IsOk result }
    {
        let place = seat(self.owner, to);
        let pair = &mut self.pairs[place];
        match pair.producer.push(item) {
            Ok(()) => Ok(()),
            Err(PushError::Full(back)) => Err(back),
        }
    }

    /// The next item from another owner of the grid, or None if none is known to wait even after a
    /// look at the ring. What was known before comes next. It takes no memory.
    pub fn pop(&mut self, from: u8) -> Option<T>
        requires { IsOther self.old from }
        ensures only { TakesOnly self.old self.new from }
        ensures some { IfSome result (λ item. (received_from self.new from ≡ received_from self.old from ++ item ∷ []) × IsPrefix (waiting_from self.old from) (item ∷ waiting_from self.new from)) }
        ensures none { IfNone result ((received_from self.new from ≡ received_from self.old from) × (waiting_from self.new from ≡ [])) }
        ensures succeeds { 0 < length (waiting_from self.old from) → IsSome result }
    {
        let place = seat(self.owner, from);
        let pair = &mut self.pairs[place];
        match pair.consumer.pop() {
            Ok(item) => Some(item),
            Err(_) => None,
        }
    }

    /// Whether another owner of the grid dropped its ends. What it sent before may still wait.
    pub fn is_left(&mut self, by: u8) -> bool
        requires { IsOther self.old by }
        ensures same { SameHistory self.old self.new }
    {
        let place = seat(self.owner, by);
        self.pairs[place].consumer.is_abandoned()
    }

    /// Two more rings at the end, to a new owner and from it, with room for `room` items each. Gives
    /// that owner's ends of them. It is refused only if memory runs out.
    pub(crate) fn connect(&mut self, alloc: Global, room: usize) -> Result<RingPair<T>, AllocError>
    where
        T: Drop,
        ensures { IfOk result (λ theirs. Connected room self.old self.new theirs) }
    {
        let (out, theirs_in) = RingBuffer::new(alloc, room)?;
        let (theirs_out, back) = RingBuffer::new(alloc, room)?;
        self.pairs.push(RingPair {
            producer: out,
            consumer: back,
        })?;
        Ok(RingPair {
            producer: theirs_out,
            consumer: theirs_in,
        })
    }

    /// Looks at both rings between two owners of one grid. True if nothing waits on them. It takes no
    /// memory.
    pub fn look_beside(&mut self, other: &mut Ends<T>) -> bool
        requires { AreLinked self.old other.old }
        ensures here { Looked self.old self.new other.old.owner }
        ensures there { Looked other.old other.new self.old.owner }
        ensures exact { IsExact self.new other.new }
        ensures flag { IsTrue result ↔ NothingWaits self.new other.new }
    {
        let place = seat(self.owner, other.owner);
        let their_place = seat(other.owner, self.owner);
        let mine = &mut self.pairs[place];
        mine.look_beside(&mut other.pairs[their_place])
    }
}

impl<T> RingPair<T> {
    ghost use Rattle.std.specs.Prelude.{◌≡◌, ◌++◌, [], Some, IsTrue, ◌↔◌};
    ghost use Rattle.rtrb.specs.Ring.{sent, received, known_items};
    ghost use Rattle.awari_lines.specs.Rings.{PairedOn, PairLooked};

    /// Looks at both rings. True if nothing waits on them.
    fn look_beside(&mut self, other: &mut RingPair<T>) -> bool
        requires { PairedOn (Some self.old) (Some other.old) }
        ensures here { PairLooked self.old self.new }
        ensures there { PairLooked other.old other.new }
        ensures exact_here { received self.new.consumer ++ known_items self.new.consumer ≡ sent other.new.producer }
        ensures exact_there { received other.new.consumer ++ known_items other.new.consumer ≡ sent self.new.producer }
        ensures flag { IsTrue result ↔ ((known_items self.new.consumer ≡ []) × (known_items other.new.consumer ≡ [])) }
    {
        let here = self.consumer.slots_beside(&mut other.producer);
        let there = other.consumer.slots_beside(&mut self.producer);
        here == 0 && there == 0
    }
}

ghost use Rattle.std.specs.Prelude.{◌≡◌, ◌≢◌};
ghost use Rattle.awari_lines.specs.Seats.{seat_of};

/// The place of the rings between an owner and another one.
fn seat(own: u8, other: u8) -> usize
    requires { other ≢ own }
    ensures { result ≡ seat_of own other }
{
    if other < own {
        usize::from(other)
    } else {
        usize::from(other) - 1
    }
}
