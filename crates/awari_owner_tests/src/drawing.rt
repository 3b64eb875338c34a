//! What is drawn by chance.

use awari_core::Event;
use std::alloc::{AllocError, Global};

/// Numbers that are as good as random, and the same in each run.
#[derive(Drop)]
pub(crate) struct Numbers(u64);

/// What each schedule's numbers begin with is so far from what those of the one before began with.
const STRIDE: u64 = 0x9e37_79b9_7f4a_7c15;

impl Numbers {
    ghost use Rattle.std.specs.Prelude.{◌<◌};

    /// Those of this schedule.
    pub(crate) fn of(schedule: u32) -> Numbers {
        Numbers(u64::from(schedule).wrapping_add(1).wrapping_mul(STRIDE))
    }

    /// One from 0 up to, not including, this.
    pub(crate) fn below(&mut self, most: u64) -> u64
        requires { 0 < most }
        ensures { result < most }
    {
        self.0 = self
            .0
            .wrapping_mul(6_364_136_223_846_793_005)
            .wrapping_add(1_442_695_040_888_963_407);
        // The upper half of such a number is the one that looks random.
        (self.0 >> 32) % most
    }

    /// An event of one or two of this many owners.
    fn event(&mut self, owners: u8) -> Event
        requires { 0 < owners }
    {
        let from = self.below(u64::from(owners)) as u8;
        let to = self.below(u64::from(owners)) as u8;
        match self.below(3) {
            0 => Event::Spread(from),
            1 => Event::Send(from, to),
            _ => Event::Take(from, to),
        }
    }

    /// This many events.
    pub(crate) fn events(
        &mut self,
        alloc: Global,
        owners: u8,
        count: usize,
    ) -> Result<Vec<Event>, AllocError>
        requires { 0 < owners }
    {
        let mut events = Vec::with_capacity(alloc, count)?;
        for _event in 0..count {
            events.push(self.event(owners))?;
        }
        Ok(events)
    }
}
