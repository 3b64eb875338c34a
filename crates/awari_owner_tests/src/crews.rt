//! A crew builds a level, or leaves it.

use crate::expect::{expect, expect_equal};
use crate::shelves::levels_below;
use awari_build::build_by_crew;
use awari_crew::{Crew, closed_by_crew};
use awari_heard::Silent;
use awari_table::{HIGHEST_LEVEL, Shelf};
use std::alloc::Global;
use std::test::Fail;
use std::thread::Threads;
use std::time::Clock;

#[test]
fn two_members_close_level_0(rt: HostRuntime) -> Result<(), Fail> {
    let crew = Crew {
        members: 2,
        patience: 1_000_000,
        soon: u64::MAX,
    };
    let built = closed_by_crew(&rt, rt.alloc(), &Shelf::empty(), crew, &mut Silent);
    expect(&rt, "closed", matches!(built, Ok(Some(_))));
    Ok(())
}

/// Whether a crew of this many, which look so often for a letter, closes the shelf's next level. If it does, the
/// level does not have to be built otherwise.
fn is_closed_by(
    rt: &(impl Threads + Clock + Send + Clone + Drop + 'static),
    alloc: Global,
    shelf: &Shelf,
    members: u8,
    patience: u64,
) -> bool {
    if shelf.levels() > HIGHEST_LEVEL || members == 0 || members > 16 {
        return false;
    }
    let crew = Crew {
        members,
        patience,
        soon: u64::MAX,
    };
    matches!(
        closed_by_crew(rt, alloc, shelf, crew, &mut Silent),
        Ok(Some(_)),
    )
}

#[test]
fn crews_of_any_size_close_level_6(rt: HostRuntime) -> Result<(), Fail> {
    let shelf = levels_below(rt.alloc(), 6)?;
    for members in [1, 2, 3, 7, 16] {
        let closed = is_closed_by(&rt, rt.alloc(), &shelf, members, 1_000_000);
        expect(&rt, members, closed);
    }
    Ok(())
}

#[test]
fn members_that_never_look_leave_and_the_level_is_built(rt: HostRuntime) -> Result<(), Fail> {
    let shelf = levels_below(rt.alloc(), 3)?;
    expect(&rt, "left", !is_closed_by(&rt, rt.alloc(), &shelf, 2, 0));
    let crew = Crew {
        members: 2,
        patience: 0,
        soon: u64::MAX,
    };
    let built = build_by_crew(&rt, rt.alloc(), &shelf, crew, &mut Silent)?;
    expect_equal(&rt, "lost", built.level.counts().lost, 179);
    expect(&rt, "given up", built.gave_up);
    Ok(())
}
