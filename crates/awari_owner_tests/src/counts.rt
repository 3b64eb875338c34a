//! Levels counted: how many boards are won, even and lost, and the limit, as two other programs, which
//! share nothing, have counted them.

use crate::expect::expect_equal;
use crate::shelves::levels_below;
use awari_build::{CrewBuilt, build_alone, build_by_crew, build_together};
use awari_crew::Crew;
use awari_heard::Silent;
use awari_table::{Counts, Level, Shelf};
use std::alloc::Global;
use std::process::Abort;
use std::sync::Arc;
use std::test::Fail;
use std::thread::Threads;
use std::time::Clock;

/// Boards won, even and lost, and the limit, of levels 0 to 13.
pub(crate) const COUNTS: [(u32, u32, u32, u32); 14] = [
    (0, 1, 0, 0),
    (5, 0, 7, 1),
    (24, 13, 41, 9),
    (121, 64, 179, 28),
    (577, 143, 645, 38),
    (2161, 0, 2207, 60),
    (5707, 1545, 5124, 64),
    (14944, 4483, 12397, 63),
    (37806, 8333, 29443, 73),
    (85273, 20449, 62238, 97),
    (157790, 93737, 101189, 87),
    (371898, 93142, 240392, 127),
    (714572, 197753, 439753, 184),
    (1365150, 311700, 819294, 124),
];

pub(crate) fn expect_counts(rt: &impl Abort, level: &Level, counts: (u32, u32, u32, u32)) {
    let Counts { won, even, lost } = level.counts();
    let found = (won, even, lost, level.limit());
    expect_equal(rt, level.number(), found, counts);
}

#[test]
fn one_part_builds_levels_0_to_13(rt: HostRuntime) -> Result<(), Fail> {
    let mut shelf = Shelf::empty();
    for counts in &COUNTS {
        let level = build_alone(rt.alloc(), &shelf)?;
        expect_counts(&rt, &level, *counts);
        shelf.push(Arc::new(rt.alloc(), level)?);
    }
    Ok(())
}

/// Levels 0 to 8, each built by a crew of this many. Level 8 has 18 segments.
fn expect_built_together(
    rt: &(impl Abort + Threads + Clock + Sync + Send + Clone + Drop + 'static),
    alloc: Global,
    members: u8,
) -> Result<(), Fail> {
    let crew = Crew {
        members,
        patience: 1_000_000,
        soon: u64::MAX,
    };
    let mut shelf = Shelf::empty();
    for counts in &COUNTS[..9] {
        let CrewBuilt { level, .. } = build_by_crew(rt, alloc, &shelf, crew, &mut Silent)?;
        expect_counts(rt, &level, *counts);
        shelf.push(Arc::new(alloc, level)?);
    }
    Ok(())
}

#[test]
fn a_crew_of_three_builds_levels_0_to_8(rt: HostRuntime) -> Result<(), Fail> {
    expect_built_together(&rt, rt.alloc(), 3)
}

#[test]
fn one_of_two_threads_builds_level_2(rt: HostRuntime) -> Result<(), Fail> {
    let shelf = levels_below(rt.alloc(), 2)?;
    let level = build_together(&rt, rt.alloc(), &shelf, 2)?;
    expect_counts(&rt, &level, COUNTS[2]);
    Ok(())
}
