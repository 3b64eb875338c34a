//! How often workers sweep, as a gate counts it.

ghost use Rattle.std.specs.Prelude.{IfOk};
ghost use Rattle.awari_lines.specs.Rings.{IsGrid, SamePairs};
ghost use Rattle.awari_phase.specs.Owners.{all_ends};

use crate::expect::{expect, expect_equal};
use crate::notes::NOTE;
use crate::rounds::three_owners;
use crate::shelves::{levels_below, one_level};
use awari_block::Note;
use awari_build::{Pace, build_level};
use awari_owner::{Batch, OwnerFault};
use awari_phase::{Gate, Open, Owner, PhaseFault, gain_phase, open_gain, round, scanned_owners};
use awari_table::Shelf;
use std::alloc::Global;
use std::process::Abort;
use std::sync::Wait;
use std::sync::atomic::{AtomicU64, Ordering};
use std::test::Fail;
use std::thread::Threads;

/// A gate that counts the sweeps of each of three owners.
#[derive(Drop)]
struct Counting {
    first: AtomicU64,
    second: AtomicU64,
    third: AtomicU64,
}

impl Counting {
    fn new() -> Counting {
        Counting {
            first: AtomicU64::new(0),
            second: AtomicU64::new(0),
            third: AtomicU64::new(0),
        }
    }

    /// How often each owner has entered since this was asked before.
    fn sweeps(&self) -> [u64; 3] {
        [
            self.first.swap(0, Ordering::SeqCst),
            self.second.swap(0, Ordering::SeqCst),
            self.third.swap(0, Ordering::SeqCst),
        ]
    }
}

impl Gate for Counting {
    fn enter(&self, owner: u8) {
        let count = match owner {
            0 => &self.first,
            1 => &self.second,
            _ => &self.third,
        };
        let _before = count.fetch_add(1, Ordering::SeqCst);
    }
}

#[test]
fn an_idle_owner_enters_once(rt: HostRuntime) -> Result<(), Fail> {
    let owners = three_owners(&rt, rt.alloc())?;
    let owners = gain_phase(&rt, owners, &Open, 1)?;
    let gate = Counting::new();
    let _owners = round(&rt, owners, &gate, 5)?;
    expect_equal(&rt, "sweeps", gate.sweeps(), [1, 1, 1]);
    Ok(())
}

/// This many owners of this level, with its stones as the open gain.
pub(crate) fn opened_owners<R: Threads + Sync + Abort>(
    rt: &R,
    alloc: Global,
    level: u8,
    owners: u8,
) -> Result<Vec<Owner>, Fail>
    ensures { IfOk result (λ owners. IsGrid (all_ends owners.items)) }
{
    assert!(rt; 1 <= level && level <= 24 && 1 <= owners && owners <= 16);
    let shelf = levels_below(alloc, level)?;
    assert!(rt; shelf.levels() == level);
    let mut all = scanned_owners(rt, alloc, &shelf, owners, 64)?;
    open_gain(rt, all.as_mut_slice());
    Ok(all)
}

/// In a round of at most this many sweeps, the owner of all boards of level 5 makes this many. At
/// distance 0 are the 323 boards that have ended: 252 where the mover has no stone, and 71 where the
/// opponent has none and can get none.
fn expect_sweeps<R: Threads + Wait + Sync + Abort>(
    rt: &R,
    alloc: Global,
    (most, sweeps): (u32, u64),
) -> Result<(), Fail> {
    assert!(rt; 1 <= most && most <= 1000);
    let owners = opened_owners(rt, alloc, 5, 1)?;
    let gate = Counting::new();
    let _owners = round(rt, owners, &gate, most)?;
    expect_equal(rt, most, gate.sweeps(), [sweeps, 0, 0]);
    Ok(())
}

#[test]
fn a_busy_owner_makes_all_its_sweeps(rt: HostRuntime) -> Result<(), Fail> {
    expect_sweeps(&rt, rt.alloc(), (3, 3))?;
    // Six sweeps spread 64 boards each or the last 3, and the seventh finds none.
    expect_sweeps(&rt, rt.alloc(), (10, 7))
}

/// A note for a board of the first owner.
const STRANGER: Note = Note { target: 0, ..NOTE };

/// Fills the ring to the second of three owners, if this is another, with a batch that it refuses.
fn fill_ring(rt: &impl Abort, owner: &mut Owner)
    ensures { SamePairs owner.old.ends owner.new.ends }
{
    assert!(rt; owner.ends.owners() == 3);
    if owner.ends.owner() == 1 {
        return;
    }
    let mut batch = Batch::new();
    batch.push(STRANGER);
    expect(rt, "sent", owner.ends.push(1, batch).is_ok());
}

/// Fills the rings to the second owner.
fn fill_rings(rt: &impl Abort, owners: &mut [Owner])
    requires { IsGrid (all_ends owners.old) }
    ensures { IsGrid (all_ends owners.new) }
{
    for i in 0..owners.len() {
        fill_ring(rt, &mut owners[i]);
    }
}

/// Three owners, the rings to the second of which are full.
fn owners_with_full_rings<R: Threads + Sync + Abort>(
    rt: &R,
    alloc: Global,
) -> Result<Vec<Owner>, Fail>
    ensures { IfOk result (λ owners. IsGrid (all_ends owners.items)) }
{
    let mut owners = three_owners(rt, alloc)?;
    fill_rings(rt, owners.as_mut_slice());
    Ok(owners)
}

/// The third owner spreads its four boards in one sweep, and has a note for the second, who stops at
/// the batch of the first. So the ring stays full, and the second sweep of the third finds nothing
/// that it can do.
#[test]
fn a_full_ring_ends_a_worker(rt: HostRuntime) -> Result<(), Fail> {
    let owners = owners_with_full_rings(&rt, rt.alloc())?;
    let gate = Counting::new();
    let fault = round(&rt, owners, &gate, 5).err();
    let stranger = PhaseFault::BadNote {
        owner: 1,
        fault: OwnerFault::Stranger,
    };
    expect_equal(&rt, "fault", fault, Some(stranger));
    expect_equal(&rt, "sweeps", gate.sweeps(), [2, 1, 2]);
    Ok(())
}

/// One owner builds level 1 at this many sweeps a round, and makes this many in all.
fn expect_sweeps_of_a_build<R: Threads + Wait + Sync + Abort>(
    rt: &R,
    alloc: Global,
    shelf: &Shelf,
    (sweeps, all): (u32, u64),
) -> Result<(), Fail> {
    let pace = Pace {
        owners: 1,
        room: 1,
        sweeps,
    };
    let gate = Counting::new();
    let level = build_level(rt, alloc, shelf, pace, &gate)?;
    expect_equal(rt, "limit", level.limit(), 1);
    expect_equal(rt, sweeps, gate.sweeps(), [all, 0, 0]);
    Ok(())
}

/// Eleven boards are spread at distance 0, and one at distance 1, each time in one sweep. If a round
/// may have more sweeps, a second one finds nothing.
#[test]
fn a_build_keeps_to_its_sweeps(rt: HostRuntime) -> Result<(), Fail> {
    let shelf = one_level(rt.alloc())?;
    expect_sweeps_of_a_build(&rt, rt.alloc(), &shelf, (1, 2))?;
    expect_sweeps_of_a_build(&rt, rt.alloc(), &shelf, (2, 4))?;
    expect_sweeps_of_a_build(&rt, rt.alloc(), &shelf, (1000, 4))
}
