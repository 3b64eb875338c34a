//! A member hears the letters of a turn as they come.

ghost use Rattle.std.specs.Prelude.{◌<◌, OnOk};
ghost use Rattle.awari_crew.specs.Members.{Kept};
ghost use Rattle.awari_lines.specs.Rings.{IsOther, owners_of};

use crate::letters::Head;
use crate::members::Member;
use crate::posting::look_for_letter;
use awari_segments::{Halt, hear_rows};
use std::hint::spin_loop;
use std::thread::{sleep, yield_now};
use std::time::{Clock, Duration, Instant};

/// How often a member looks for letters before it gives its processor away.
const SPINS: u64 = 64;

/// It sleeps once it has waited so many microseconds for the letters of a turn: for an eighth of that time,
/// but for so many microseconds at most.
const YIELDING: u64 = 1000;

const LONGEST_SLEEP: u64 = 800;

/// The letters of a turn, as far as they came.
#[derive(Clone, Copy)]
struct Round {
    /// How those stand together that were heard.
    heads: Head,
    /// A bit for each member that is still awaited.
    awaited: u32,
}

impl Round {
    /// Nobody was heard but the member itself.
    fn begin(own: Head, member: u8, members: usize) -> Round {
        let mut awaited: u32 = 0;
        for place in 0..members {
            awaited |= bit(place);
        }
        Round {
            heads: own,
            awaited: awaited & !bit(usize::from(member)),
        }
    }

    fn is_over(&self) -> bool {
        self.awaited == 0
    }

    fn awaits(&self, place: usize) -> bool {
        self.awaited & bit(place) != 0
    }

    /// The letter of this member has come.
    fn hear(&mut self, place: usize, head: Head) {
        self.heads = self.heads.beside(head);
        self.awaited &= !bit(place);
    }
}

/// The bit of the member of this number. A crew has 16 members at most.
fn bit(place: usize) -> u32 {
    1 << (place % 32)
}

impl Member {
    /// Hears a letter of each other member as they come, and gives how all stand together. It looks
    /// `patience` times at most, gives its processor away in between, and adds up how long. Refused as `Unfit`
    /// if a letter did not come or does not fit.
    pub(crate) fn listen<C: Clock>(&mut self, clock: &C, own: Head) -> Result<Head, Halt>
        ensures { OnOk result (Kept self.old self.new) }
    {
        let mut round = Round::begin(own, self.ends.owner(), self.ends.owners());
        let before = self.waited;
        for looks in 0..self.crew.patience {
            let awaited = round.awaited;
            self.hear_those_here(&mut round)?;
            if round.is_over() {
                return Ok(round.heads);
            }
            if round.awaited == awaited {
                let away = give_way(clock, looks, self.waited.saturating_sub(before));
                self.waited = self.waited.saturating_add(away);
            }
        }
        Err(Halt::Unfit)
    }

    /// Hears the letters of the round that are here.
    fn hear_those_here(&mut self, round: &mut Round) -> Result<(), Halt>
        ensures { OnOk result (Kept self.old self.new) }
    {
        let members = self.ends.owners();
        for place in 0..members {
            if round.awaits(place) {
                self.listen_at(place, round)?;
            }
        }
        Ok(())
    }

    /// Hears the letter of the member of this number, if it is here.
    fn listen_at(&mut self, place: usize, round: &mut Round) -> Result<(), Halt>
        requires { place < owners_of self.old.ends }
        ensures { OnOk result (Kept self.old self.new) }
    {
        match u8::try_from(place) {
            Ok(other) if other != self.ends.owner() => {
                if let Some(head) = self.listen_to(other)? {
                    round.hear(place, head);
                }
                Ok(())
            }
            _ => Err(Halt::Unfit),
        }
    }

    /// Hears the letter of another member, if it is here.
    fn listen_to(&mut self, from: u8) -> Result<Option<Head>, Halt>
        requires { IsOther self.old.ends from }
        ensures { OnOk result (Kept self.old self.new) }
    {
        let found = look_for_letter(&mut self.ends, from)?;
        match found {
            Some(letter) => {
                let segments = self.segments.as_mut_slice();
                hear_rows(self.log, letter.stake, &*letter.row, segments)?;
                Ok(Some(letter.head))
            }
            None => Ok(None),
        }
    }
}

/// Lets the other threads go on, once a member looked so often in vain and waited so long, and gives how long
/// the processor was away. Who yields for ever uses up its share of a busy machine by waiting. There one
/// yield may take milliseconds, so the time counts, and not how often.
fn give_way<C: Clock>(clock: &C, looks: u64, waited: Duration) -> Duration {
    if looks < SPINS {
        spin_loop();
        return Duration::ZERO;
    }
    let begun = Instant::now(clock).ok();
    if waited < Duration::from_micros(YIELDING) {
        yield_now();
    } else {
        sleep(
            clock,
            (waited / 8).min(Duration::from_micros(LONGEST_SLEEP)),
        );
    }
    since(clock, begun)
}

/// How long ago that was; zero if the clock gives no time.
pub(crate) fn since<C: Clock>(clock: &C, begun: Option<Instant>) -> Duration {
    match (begun, Instant::now(clock)) {
        (Some(begun), Ok(now)) => now.saturating_duration_since(begun),
        _ => Duration::ZERO,
    }
}
