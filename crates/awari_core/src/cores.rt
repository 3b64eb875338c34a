//! All owners of a level, which take events one at a time.

ghost use Rattle.std.specs.Prelude.{◌≡◌, ◌+◌, ◌<◌, ◌≤◌, ◌⊎◌, ◌↔◌, ℕ, Some, OnOk, OnErr, IfOk, IfErr, IfSome, IsTrue, length};
ghost use Rattle.awari_table.specs.Shelves.{Consistent};
ghost use Rattle.awari_table.specs.declared.TheConstants.{HIGHEST_LEVEL};
ghost use Rattle.awari_plan.specs.Finished.{IsFinished};
ghost use Rattle.awari_core.specs.Core.{Core as CoreView, Sound, Does, IsEnabled, IsEventFault, IsBetween, DoesSpread, DoesSend, DoesTake, Runs};
ghost use Rattle.awari_core.specs.Core.{IsAllTaken, IsBegun, AreGainsClosed, IsLeastOfAll, IsNewFault, IsAllQuiet, IsScannedCore, IsWaveDone, OpensNextGain, OpensNextWave, owner_part};
ghost use Rattle.awari_core.specs.declared.events.Event.{Event as EventView};
ghost use Rattle.awari_core.specs.declared.faults.CoreFault.{CoreFault};

use crate::events::Event;
use crate::faults::CoreFault;
use crate::laws::{scanned_owners_are_sound, sound_cores_are_told};
use crate::openings::{are_idle, open_gains, open_waves, scanned_parts};
use crate::senders::{Sender, are_silent, silent_senders};
use awari_block::nearer;
use awari_owner::{OwnerFault, Part, coming_notes_are_expected, take_batch};
use awari_pace::{MOST_OWNERS, MOST_ROOM};
use awari_plan::finish;
use awari_table::{HIGHEST_LEVEL, Image, Shelf};
use std::alloc::{AllocError, Global};
use std::marker::Model;

/// How many events of a list were taken, and how many refused.
#[derive(Clone, Copy, Debug, PartialEq, Eq)]
pub struct Ran {
    /// How many were taken.
    pub taken: usize,
    /// How many were refused.
    pub refused: usize,
}

/// All owners of the next level of a shelf, with the rings between them. At any time, what each has
/// given and heard is what was due.
#[derive(Drop)]
pub struct Core {
    shelf: Shelf,
    room: u32,
    gain: u8,
    parts: Vec<Part>,
    senders: Vec<Sender>,
}

impl Model for Core {
    ghost use Rattle.awari_core.specs.Core.{Core as CoreView, Sound};

    ghost Value = { CoreView };

    ghost view = { λ c. record { shelf = c.shelf; room = c.room; gain = c.gain; parts = c.parts.items; senders = c.senders.items } };

    ghost invariant = { λ c. Sound (record { shelf = c.shelf; room = c.room; gain = c.gain; parts = c.parts.items; senders = c.senders.items }) };
}

impl Core {
    /// The owners of the shelf's next level, with nothing under way. The greatest gain is open, which
    /// is the number of stones; at level 0 there is none. Each ring has room for `room` batches. It
    /// takes memory for the parts and the rings, and for a share of the shelf.
    ///
    /// It is refused as the first of these that is due:
    ///
    /// - 35 `Owners`: there are not 1 to 16 owners.
    /// - 36 `Room`: the room is not 1 to 256.
    /// - 37 `TooHigh`: the shelf has all levels.
    /// - 38 `Memory`: memory ran out.
    pub fn new(alloc: Global, shelf: &Shelf, owners: u8, room: u32) -> Result<Core, CoreFault>
        ensures sound { IfOk result Sound }
        ensures begun { IfOk result (IsBegun shelf.now owners room) }
        ensures refused { IfErr result (IsNewFault shelf.now owners room) }
    {
        if !(1..=MOST_OWNERS).contains(&owners) {
            return Err(CoreFault::Owners);
        }
        if !(1..=MOST_ROOM).contains(&room) {
            return Err(CoreFault::Room);
        }
        if shelf.levels() > HIGHEST_LEVEL {
            return Err(CoreFault::TooHigh);
        }
        let mut core = scanned_core(alloc, shelf, owners, room)?;
        core.open_next_gain();
        Ok(core)
    }

    /// Takes an event. It is refused as 34 `NotEnabled` if the event is not enabled, and a Spread as
    /// 38 `Memory` if memory runs out; then nothing changes. A Spread takes memory for notes to other
    /// owners, and a Send or a Take none. No distance reaches the greatest u32.
    pub fn step(&mut self, event: Event) -> Result<(), CoreFault>
        ensures sound { Sound self.new }
        ensures done { OnOk result (Does self.old self.new event) }
        ensures enabled { OnOk result (IsEnabled self.old event) }
        ensures refused { IfErr result (IsEventFault self.old event) }
        ensures err { OnErr result (self.new ≡ self.old) }
    {
        match event {
            Event::Spread(owner) => self.spread(owner),
            Event::Send(from, to) => self.send(from, to),
            Event::Take(from, to) => self.take(from, to),
        }
    }

    /// Takes each event in turn, and counts those that are taken and those that are refused. A
    /// refused one changes nothing. It takes memory as `step` does.
    pub fn run(&mut self, events: &[Event]) -> Ran
        ensures sound { Sound self.new }
        ensures leads { Runs self.old events.now self.new result.taken result.refused }
        ensures all { result.taken + result.refused ≡ length events.now }
    {
        // For the proof: the core is sound.
        let _ = &self.shelf;
        let mut ran = Ran {
            taken: 0,
            refused: 0,
        };
        for event in events {
            match self.step(*event) {
                Ok(()) => ran.taken += 1,
                Err(_) => ran.refused += 1,
            }
        }
        ran
    }

    /// Whether no board is fresh, and nothing waits in outboxes and on rings.
    pub fn quiet(&self) -> bool
        ensures quiet { IsTrue result ↔ IsAllQuiet self.now }
        ensures sound { Sound self.now }
    {
        are_idle(&self.parts) && self.is_all_taken()
    }

    /// The open gain in stones, 0 once all gains are closed.
    pub fn gain(&self) -> u8
        ensures { result ≡ self.now.gain }
    {
        self.gain
    }

    /// The open wave in plies, which is that of each part.
    pub fn wave(&self) -> u32
        ensures { (i : ℕ) → i < length self.now.parts → result ≡ (owner_part self.now i).wave }
    {
        self.parts[0].wave()
    }

    /// Opens the next smaller gain in all parts and gives it, or 0 after gain 1 and once all gains
    /// are closed. Refused as 39 `NotQuiet` if a board is fresh or something is under way, and then
    /// nothing changes. It takes no memory.
    pub fn next_gain(&mut self) -> Result<u8, CoreFault>
        ensures sound { Sound self.new }
        ensures quiet { OnOk result (IsAllQuiet self.old) }
        ensures opened { OnOk result (OpensNextGain self.old self.new) }
        ensures gain { IfOk result (λ gain. gain ≡ self.new.gain) }
        ensures refused { IfErr result (λ fault. (fault ≡ CoreFault.NotQuiet) × (IsAllQuiet self.old → ⊥)) }
        ensures err { OnErr result (self.new ≡ self.old) }
    {
        if !self.quiet() {
            return Err(CoreFault::NotQuiet);
        }
        self.open_next_gain();
        Ok(self.gain)
    }

    /// Opens the least distance of a fresh board in all parts and gives it in plies, or None if no
    /// board is fresh. Refused as 39 `NotQuiet` if a fresh board is of the open wave or something
    /// is under way, and then nothing changes. It takes no memory.
    pub fn next_wave(&mut self) -> Result<Option<u32>, CoreFault>
        ensures sound { Sound self.new }
        ensures done { OnOk result (IsWaveDone self.old) }
        ensures least { IfOk result (IsLeastOfAll self.old) }
        ensures opened { IfOk result (OpensNextWave self.old self.new) }
        ensures refused { IfErr result (λ fault. (fault ≡ CoreFault.NotQuiet) × (IsWaveDone self.old → ⊥)) }
        ensures err { OnErr result (self.new ≡ self.old) }
    {
        if !self.is_all_taken() {
            return Err(CoreFault::NotQuiet);
        }
        let due = self.due();
        if due == Some(self.wave()) {
            return Err(CoreFault::NotQuiet);
        }
        let Some(dist) = due else {
            return Ok(None);
        };
        open_waves(&mut self.parts, dist);
        Ok(Some(dist))
    }

    /// The image of the level, which is consistent over the shelf and has the lowest plans. Refused as
    /// 39 `NotQuiet` until all gains are closed, and as 38 `Memory` if memory runs out. It takes memory
    /// for eight bytes a board.
    pub fn finish(&self, alloc: Global) -> Result<Image, CoreFault>
        ensures consistent { IfOk result (Consistent self.now.shelf) }
        ensures finished { IfOk result (IsFinished self.now.shelf self.now.parts) }
        ensures closed { OnOk result (AreGainsClosed self.now) }
        ensures refused { IfErr result (λ fault. ((fault ≡ CoreFault.NotQuiet) × (AreGainsClosed self.now → ⊥)) ⊎ ((fault ≡ CoreFault.Memory) × AreGainsClosed self.now)) }
    {
        if self.gain != 0 || !self.quiet() {
            return Err(CoreFault::NotQuiet);
        }
        sound_cores_are_told();
        let image = finish(alloc, &self.shelf, &self.parts)?;
        Ok(image)
    }

    /// Spreads the first fresh board of this owner.
    fn spread(&mut self, owner: u8) -> Result<(), CoreFault>
        ensures sound { Sound self.new }
        ensures done { OnOk result (DoesSpread self.old self.new owner) }
        ensures enabled { OnOk result (IsEnabled self.old (EventView.Spread owner)) }
        ensures refused { IfErr result (IsEventFault self.old (EventView.Spread owner)) }
        ensures err { OnErr result (self.new ≡ self.old) }
    {
        if owner as usize >= self.parts.len() {
            return Err(CoreFault::NotEnabled);
        }
        sound_cores_are_told();
        match self.senders[owner as usize].spread(&mut self.parts[owner as usize]) {
            Ok(true) => {}
            Ok(false) => return Err(CoreFault::NotEnabled),
            Err(OwnerFault::Far) => unreachable!(),
            Err(_) => return Err(CoreFault::Memory),
        }
        Ok(())
    }

    /// Puts a batch on the ring between these owners.
    fn send(&mut self, from: u8, to: u8) -> Result<(), CoreFault>
        ensures sound { Sound self.new }
        ensures done { OnOk result (DoesSend self.old self.new from to) }
        ensures enabled { OnOk result (IsEnabled self.old (EventView.Send from to)) }
        ensures refused { IfErr result (IsEventFault self.old (EventView.Send from to)) }
        ensures err { OnErr result (self.new ≡ self.old) }
    {
        if !self.is_between(from, to) {
            return Err(CoreFault::NotEnabled);
        }
        if !self.senders[from as usize].send(to) {
            return Err(CoreFault::NotEnabled);
        }
        Ok(())
    }

    /// Takes a batch off the ring between these owners, which the second hears.
    fn take(&mut self, from: u8, to: u8) -> Result<(), CoreFault>
        ensures sound { Sound self.new }
        ensures done { OnOk result (DoesTake self.old self.new from to) }
        ensures enabled { OnOk result (IsEnabled self.old (EventView.Take from to)) }
        ensures refused { IfErr result (IsEventFault self.old (EventView.Take from to)) }
        ensures err { OnErr result (self.new ≡ self.old) }
    {
        if !self.is_between(from, to) {
            return Err(CoreFault::NotEnabled);
        }
        let Some(batch) = self.senders[from as usize].pop(to) else {
            return Err(CoreFault::NotEnabled);
        };
        coming_notes_are_expected();
        match take_batch(&mut self.parts[to as usize], &batch) {
            Ok(()) => Ok(()),
            Err(_) => unreachable!(),
        }
    }

    /// Whether both owners are there, and are two.
    fn is_between(&self, from: u8, to: u8) -> bool
        ensures { IsTrue result ↔ IsBetween self.now from to }
    {
        (from as usize) < self.parts.len() && (to as usize) < self.parts.len() && from != to
    }

    /// Opens the next smaller gain in all parts, if there is one.
    fn open_next_gain(&mut self)
        requires { IsAllQuiet self.old }
        ensures sound { Sound self.new }
        ensures opened { OpensNextGain self.old self.new }
    {
        if self.gain <= 1 {
            self.gain = 0;
            return;
        }
        let gain = self.gain - 1;
        open_gains(&mut self.parts, gain);
        self.gain = gain;
    }

    /// The least distance of a fresh board in plies, none if no board is fresh.
    fn due(&self) -> Option<u32>
        ensures least { IsLeastOfAll self.now result }
        ensures timely { IfSome result (λ dist. (owner_part self.now 0).wave ≤ dist) }
    {
        let mut least = None;
        for part in &self.parts {
            least = nearer(least, part.due());
        }
        least
    }

    /// Whether nothing waits in outboxes and on rings.
    fn is_all_taken(&self) -> bool
        ensures { IsTrue result ↔ IsAllTaken self.now }
    {
        are_silent(&self.senders)
    }
}

/// A core whose parts were scanned, with no gain open and nothing under way.
fn scanned_core(alloc: Global, shelf: &Shelf, owners: u8, room: u32) -> Result<Core, AllocError>
    requires owners { (1 ≤ owners) × (owners ≤ 16) }
    requires low { length shelf.now ≤ HIGHEST_LEVEL }
    ensures scanned { IfOk result (IsScannedCore shelf.now owners room) }
    ensures sound { IfOk result Sound }
    ensures quiet { IfOk result IsAllQuiet }
{
    let shared = shelf.share()?;
    let parts = scanned_parts(alloc, shelf, owners)?;
    let senders = silent_senders(alloc, owners, room)?;
    scanned_owners_are_sound();
    Ok(Core {
        shelf: shared,
        room,
        gain: shelf.levels() + 1,
        parts,
        senders,
    })
}
