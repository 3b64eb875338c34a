//! Rounds of owners in threads, and paces that are refused.

ghost use Rattle.std.specs.Prelude.{IfOk};
ghost use Rattle.awari_lines.specs.Rings.{IsGrid};
ghost use Rattle.awari_heard.specs.Level.{AreWhole};
ghost use Rattle.awari_phase.specs.Owners.{AllGrown, all_ends, parts_of};

use crate::expect::{expect, expect_equal};
use crate::shelves::{levels_below, one_level};
use awari_build::{BuildFault, Pace, build_level};
use awari_phase::{
    Gate, Open, Owner, PhaseFault, finished_owners_are_right, gain_phase, open_gain, round,
    scanned_owners, settle_owners,
};
use awari_table::Shelf;
use std::alloc::Global;
use std::process::Abort;
use std::sync::Wait;
use std::sync::atomic::{AtomicU64, Ordering};
use std::test::Fail;
use std::thread;
use std::thread::Threads;

/// Three owners of level 1, with room for one batch on each ring and gain 1 open.
pub(crate) fn three_owners<R: Threads + Sync>(rt: &R, alloc: Global) -> Result<Vec<Owner>, Fail>
    ensures grid { IfOk result (λ owners. IsGrid (all_ends owners.items)) }
    ensures whole { IfOk result (λ owners. AreWhole 1 (parts_of owners.items)) }
{
    finished_owners_are_right();
    let shelf = one_level(alloc)?;
    let mut owners = scanned_owners(rt, alloc, &shelf, 3, 1)?;
    open_gain(rt, owners.as_mut_slice());
    Ok(owners)
}

/// One more round, of one sweep.
pub(crate) fn next_round<R: Threads + Wait + Sync>(
    rt: &R,
    owners: Vec<Owner>,
) -> Result<Vec<Owner>, Fail>
    requires { IsGrid (all_ends owners.items) }
    ensures { IfOk result (λ all. AllGrown owners.items all.items) }
{
    let owners = round(rt, owners, &Open, 1)?;
    Ok(owners)
}

/// Two rounds: in the first each owner spreads its boards and sends their notes, and in the second it
/// takes those that came.
pub(crate) fn after_two_rounds<R: Threads + Wait + Sync>(
    rt: &R,
    alloc: Global,
) -> Result<Vec<Owner>, Fail>
    ensures grid { IfOk result (λ owners. IsGrid (all_ends owners.items)) }
    ensures whole { IfOk result (λ owners. AreWhole 1 (parts_of owners.items)) }
{
    let owners = three_owners(rt, alloc)?;
    let owners = next_round(rt, owners)?;
    let owners = next_round(rt, owners)?;
    Ok(owners)
}

/// The distances that are due in the parts, and whether each has something to send.
fn standing(owners: &[Owner]) -> [(Option<u32>, bool); 3] {
    let mut all = [(None, false); 3];
    for (owner, seen) in owners.iter().zip(all.iter_mut()) {
        *seen = (owner.part.due(), owner.outboxes.is_empty());
    }
    all
}

fn expect_standing(rt: &impl Abort, owners: &[Owner], expected: [(Option<u32>, bool); 3]) {
    expect_equal(rt, "standing", standing(owners), expected);
}

#[test]
fn rounds_spread_and_send(rt: HostRuntime) -> Result<(), Fail> {
    let owners = after_two_rounds(&rt, rt.alloc())?;
    let rank_6 = (Some(1), true);
    let rest = (None, true);
    expect_standing(&rt, &owners, [rest, rank_6, rest]);
    let mut owners = gain_phase(&rt, owners, &Open, 1)?;
    expect_standing(&rt, &owners, [rest, rest, rest]);
    expect(&rt, "settled", settle_owners(owners.as_mut_slice()));
    Ok(())
}

/// Owners, room and sweeps, and why building level 0 at this pace is refused.
const REFUSED: [(u8, u32, u32, Option<BuildFault>); 8] = [
    (0, 64, 1000, Some(BuildFault::Owners)),
    (17, 64, 1000, Some(BuildFault::Owners)),
    (17, 0, 1000, Some(BuildFault::Owners)),
    (2, 0, 1000, Some(BuildFault::Pace)),
    (2, 257, 1000, Some(BuildFault::Pace)),
    (2, 64, 0, Some(BuildFault::Pace)),
    (2, 64, 1001, Some(BuildFault::Pace)),
    (16, 256, 1, None),
];

/// What building level 0 at this pace comes to.
fn expect_fault<R: Threads + Wait + Sync + Abort>(
    rt: &R,
    alloc: Global,
    (owners, room, sweeps, fault): (u8, u32, u32, Option<BuildFault>),
) {
    let pace = Pace {
        owners,
        room,
        sweeps,
    };
    let found = build_level(rt, alloc, &Shelf::empty(), pace, &Open).err();
    expect_equal(rt, (owners, room, sweeps), found, fault);
}

#[test]
fn paces_are_refused_in_order(rt: HostRuntime) {
    for refusal in &REFUSED {
        expect_fault(&rt, rt.alloc(), *refusal);
    }
}

#[test]
fn phase_faults_have_their_numbers(rt: HostRuntime) {
    let fault = PhaseFault::NotStarted;
    let numbers = [
        BuildFault::Phase { fault }.number(),
        fault.number(),
        BuildFault::Owners.number(),
        BuildFault::Pace.number(),
    ];
    expect_equal(&rt, "numbers", numbers, [52, 40, 50, 55]);
}

/// How often an owner looks whether the other one has come, at most.
const MOST_TURNS: u32 = 10_000_000;

/// A gate for two owners, which holds the first and second sweep of each until the other has begun as
/// many. Owners that work one after the other never meet there.
#[derive(Drop)]
struct Meeting {
    first: AtomicU64,
    second: AtomicU64,
    missed: AtomicU64,
}

impl Gate for Meeting {
    fn enter(&self, owner: u8) {
        let (own, other) = if owner == 0 {
            (&self.first, &self.second)
        } else {
            (&self.second, &self.first)
        };
        let before = own.fetch_add(1, Ordering::SeqCst);
        if before >= 2 {
            return;
        }
        for _turn in 0..MOST_TURNS {
            if other.load(Ordering::SeqCst) > before {
                return;
            }
            thread::yield_now();
        }
        self.missed.store(1, Ordering::SeqCst);
    }
}

/// Both owners met, twice or more.
fn expect_met(rt: &impl Abort, gate: &Meeting) {
    expect_equal(rt, "missed", gate.missed.load(Ordering::SeqCst), 0);
    expect(rt, "met twice", gate.first.load(Ordering::SeqCst) >= 2);
}

#[test]
fn owners_work_at_once(rt: HostRuntime) -> Result<(), Fail> {
    let shelf = levels_below(rt.alloc(), 2)?;
    let gate = Meeting {
        first: AtomicU64::new(0),
        second: AtomicU64::new(0),
        missed: AtomicU64::new(0),
    };
    let pace = Pace {
        owners: 2,
        room: 64,
        sweeps: 1000,
    };
    let level = build_level(&rt, rt.alloc(), &shelf, pace, &gate)?;
    expect_equal(&rt, "limit", level.limit(), 9);
    expect_met(&rt, &gate);
    Ok(())
}
