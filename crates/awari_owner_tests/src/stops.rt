//! Builds of levels that are not wanted any more.

use crate::expect::{expect, expect_equal};
use crate::hearing::{Builder, Heard, listened};
use crate::shelves::levels_below;
use crate::told::distances_told;
use awari_build::BuildFault;
use awari_phase::PhaseFault;
use awari_table::Shelf;
use std::alloc::Global;
use std::process::Abort;
use std::sync::Wait;
use std::test::Fail;
use std::thread::Threads;
use std::time::Clock;

/// What is answered if a level is not wanted any more.
const STOPPED: BuildFault = BuildFault::Phase {
    fault: PhaseFault::Stopped,
};

/// A build of a level that is wanted this many times is refused, once it told this.
fn expect_stopped(
    rt: &(impl Abort + Threads + Clock + Wait + Sync + Send + Clone + Drop + 'static),
    alloc: Global,
    shelf: &Shelf,
    builder: Builder,
    (wants, told): (u32, &[Heard]),
) {
    let (fault, found) = listened(rt, alloc, shelf, builder, wants);
    expect_equal(rt, (builder, wants), fault, Some(STOPPED));
    expect_equal(rt, (builder, wants), found.as_slice(), told);
}

/// A builder that tells this is stopped at each of its asks, and nothing comes behind that.
fn expect_stopped_at_each(
    rt: &(impl Abort + Threads + Clock + Wait + Sync + Send + Clone + Drop + 'static),
    alloc: Global,
    shelf: &Shelf,
    builder: Builder,
    told: &[Heard],
) {
    let mut wants: u32 = 0;
    for (place, heard) in told.iter().enumerate() {
        if *heard == Heard::Asked {
            expect_stopped(rt, alloc, shelf, builder, (wants, &told[..place + 1]));
            wants = wants.saturating_add(1);
        }
    }
}

/// The builder is stopped so at level 4, of which it tells each distance.
fn expect_stopped_at_distances(
    rt: &(impl Abort + Threads + Clock + Wait + Sync + Send + Clone + Drop + 'static),
    alloc: Global,
    builder: Builder,
) -> Result<(), Fail> {
    let shelf = levels_below(alloc, 4)?;
    let told = distances_told(alloc, &shelf, (4, 1365))?;
    expect_stopped_at_each(rt, alloc, &shelf, builder, told.as_slice());
    Ok(())
}

#[test]
fn a_build_by_one_part_is_stopped(rt: HostRuntime) -> Result<(), Fail> {
    expect_stopped_at_distances(&rt, rt.alloc(), Builder::Alone)
}

#[test]
fn a_build_by_threads_is_stopped(rt: HostRuntime) -> Result<(), Fail> {
    expect_stopped_at_distances(&rt, rt.alloc(), Builder::Together(1))?;
    expect_stopped_at_distances(&rt, rt.alloc(), Builder::Together(3))
}

/// How often the builder was asked.
fn asks(told: &[Heard]) -> u32 {
    let mut asks: u32 = 0;
    for heard in told {
        if *heard == Heard::Asked {
            asks = asks.saturating_add(1);
        }
    }
    asks
}

/// Three owners, whose rounds differ from build to build, are stopped when they are asked so often.
fn expect_owners_stopped(
    rt: &(impl Abort + Threads + Clock + Wait + Sync + Send + Clone + Drop + 'static),
    alloc: Global,
    shelf: &Shelf,
    wants: u32,
) {
    let (fault, found) = listened(rt, alloc, shelf, Builder::Owners(3), wants);
    expect_equal(rt, wants, fault, Some(STOPPED));
    expect_equal(rt, wants, asks(found.as_slice()), wants.saturating_add(1));
    expect(rt, wants, found.last() == Some(&Heard::Asked));
}

/// One owner's rounds are the same in each build. Each gain of a level has a round at least, and there is
/// an ask before them.
#[test]
fn a_build_by_owners_is_stopped(rt: HostRuntime) -> Result<(), Fail> {
    let shelf = levels_below(rt.alloc(), 4)?;
    let one = Builder::Owners(1);
    let (_fault, told) = listened(&rt, rt.alloc(), &shelf, one, u32::MAX);
    expect_stopped_at_each(&rt, rt.alloc(), &shelf, one, told.as_slice());
    for wants in 0..5u32 {
        expect_owners_stopped(&rt, rt.alloc(), &shelf, wants);
    }
    Ok(())
}

#[test]
fn owners_are_refused_before_anything_is_told(rt: HostRuntime) {
    let builder = Builder::Owners(17);
    let (fault, told) = listened(&rt, rt.alloc(), &Shelf::empty(), builder, 0);
    expect_equal(&rt, "17 owners", fault, Some(BuildFault::Owners));
    expect_equal(&rt, "told", told.len(), 0);
}

#[test]
fn a_stop_has_its_number(rt: HostRuntime) {
    let numbers = (STOPPED.number(), PhaseFault::Stopped.number());
    expect_equal(&rt, "numbers", numbers, (52, 43));
}
