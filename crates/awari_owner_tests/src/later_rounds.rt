//! Owners that work at once in the second round of a gain.

ghost use Rattle.std.specs.Prelude.{⊤};

use crate::expect::expect_equal;
use crate::sweeps::opened_owners;
use awari_heard::{Progress, Stage};
use awari_phase::{Gate, PhaseFault, gain_phase_with_progress};
use std::sync::atomic::{AtomicU64, Ordering};
use std::test::Fail;
use std::thread;

/// How often an owner looks whether the other one has come, at most.
const MOST_TURNS: u32 = 10_000_000;

/// A gate for two owners, which holds each in the second round until the other has entered too. Owners
/// that work one after the other never meet there.
#[derive(Drop)]
struct Meeting {
    rounds: AtomicU64,
    first: AtomicU64,
    second: AtomicU64,
    missed: AtomicU64,
}

impl Meeting {
    fn new() -> Meeting {
        Meeting {
            rounds: AtomicU64::new(0),
            first: AtomicU64::new(0),
            second: AtomicU64::new(0),
            missed: AtomicU64::new(0),
        }
    }

    /// Whether an owner has to wait for the other one.
    fn holds(&self) -> bool {
        self.rounds.load(Ordering::SeqCst) == 1 && self.missed.load(Ordering::SeqCst) == 0
    }

    /// Whether each owner has come, and whether one waited in vain.
    fn met(&self) -> [u64; 3] {
        [
            self.first.load(Ordering::SeqCst),
            self.second.load(Ordering::SeqCst),
            self.missed.load(Ordering::SeqCst),
        ]
    }
}

impl Gate for Meeting {
    fn enter(&self, owner: u8) {
        if !self.holds() {
            return;
        }
        let (own, other) = if owner == 0 {
            (&self.first, &self.second)
        } else {
            (&self.second, &self.first)
        };
        own.store(1, Ordering::SeqCst);
        for _turn in 0..MOST_TURNS {
            if other.load(Ordering::SeqCst) == 1 {
                return;
            }
            thread::yield_now();
        }
        self.missed.store(1, Ordering::SeqCst);
    }
}

/// Tells the gate when a round has ended, and wants two rounds.
#[derive(Drop)]
struct TwoRounds<'a>(&'a Meeting);

impl Progress for TwoRounds<'_> {
    ghost stops = { ⊤ };

    ghost hears = { λ _ _ _. ⊤ };

    fn hear(&mut self, _told: Stage) {
        let _before = self.0.rounds.fetch_add(1, Ordering::SeqCst);
    }

    fn is_wanted(&mut self) -> bool {
        self.0.rounds.load(Ordering::SeqCst) < 2
    }
}

/// Of level 8, 1287 boards have no stone on the mover's side, and are due at distance 0. The two owners
/// spread 64 each in the first round, so the second one has much to do.
#[test]
fn owners_work_at_once_in_the_second_round(rt: HostRuntime) -> Result<(), Fail> {
    let owners = opened_owners(&rt, rt.alloc(), 8, 2)?;
    let gate = Meeting::new();
    let mut progress = TwoRounds(&gate);
    let fault = gain_phase_with_progress(&rt, owners, &gate, 1, &mut progress).err();
    expect_equal(&rt, "rounds", fault, Some(PhaseFault::Stopped));
    expect_equal(&rt, "met", gate.met(), [1, 1, 0]);
    Ok(())
}
