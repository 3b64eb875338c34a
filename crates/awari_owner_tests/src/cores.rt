//! Levels built by several owners, as lists of events.

use crate::expect::{expect, expect_equal};
use crate::shelves::{levels_below, one_level};
use awari_build::build_alone;
use awari_core::{Core, CoreFault, Event, Ran};
use awari_table::Shelf;
use std::alloc::{AllocError, Global};
use std::process::Abort;
use std::test::Fail;

/// How often a test runs its events, at most.
const MOST_TURNS: u32 = 1_000_000;

/// Each owner spreads, each sends to each other one, and each takes of each other one.
pub(crate) fn all_events(alloc: Global, owners: u8) -> Result<Vec<Event>, AllocError> {
    let mut events = Vec::new(alloc);
    for from in 0..owners {
        events.push(Event::Spread(from))?;
        for to in 0..owners {
            events.push(Event::Send(from, to))?;
            events.push(Event::Take(from, to))?;
        }
    }
    Ok(events)
}

/// Opens the next distance, or the next gain where no board is fresh. It is true once all gains are
/// closed.
fn opens_last(core: &mut Core) -> bool {
    match core.next_wave() {
        Ok(None) => core.next_gain() == Ok(0),
        _ => false,
    }
}

/// Runs these events again and again until all gains are closed.
fn close_by(core: &mut Core, events: &[Event]) -> bool {
    for _turn in 0..MOST_TURNS {
        core.run(events);
        if opens_last(core) {
            return true;
        }
    }
    false
}

/// Whether the core, with all gains closed, gives the level that one part builds.
fn is_level(alloc: Global, shelf: &Shelf, core: &Core) -> Result<bool, Fail> {
    let image = core.finish(alloc)?;
    let level = build_alone(alloc, shelf)?;
    let entries = image.entries.to_vec(alloc)?;
    Ok(image.limit == level.limit() && entries == level.to_vec(alloc)?)
}

/// The core, with all gains closed, gives the level that one part builds.
fn expect_level(rt: &impl Abort, alloc: Global, shelf: &Shelf, core: &Core) -> Result<(), Fail> {
    expect(rt, "the level", is_level(alloc, shelf, core)?);
    Ok(())
}

/// Six boards of the first owner and six of the second, which are all of level 1.
const TWELVE_SPREADS: [Event; 12] = [
    Event::Spread(0),
    Event::Spread(0),
    Event::Spread(0),
    Event::Spread(0),
    Event::Spread(0),
    Event::Spread(0),
    Event::Spread(1),
    Event::Spread(1),
    Event::Spread(1),
    Event::Spread(1),
    Event::Spread(1),
    Event::Spread(1),
];

/// Two owners of level 1 spread what is due at distance 0, 11 boards, and one try is refused.
fn spread_by_two(rt: &impl Abort, core: &mut Core) {
    let ran = Ran {
        taken: 11,
        refused: 1,
    };
    expect_equal(rt, "twelve spreads", core.run(&TWELVE_SPREADS), ran);
}

/// The last board of level 1, which owner 1 has, is spread at distance 1, and all gains are closed.
fn spread_the_last(rt: &impl Abort, core: &mut Core) {
    expect_equal(rt, "gain", core.next_gain(), Err(CoreFault::NotQuiet));
    expect_equal(rt, "wave", core.next_wave(), Ok(Some(1)));
    expect_step(rt, core, Event::Spread(1), Ok(()));
    close(rt, core);
}

/// Closes all gains of a core that is quiet.
fn close(rt: &impl Abort, core: &mut Core) {
    expect_equal(rt, "wave", core.next_wave(), Ok(None));
    expect_equal(rt, "quiet", core.quiet(), true);
    expect_equal(rt, "gain", core.next_gain(), Ok(0));
    expect_equal(rt, "gain again", core.next_gain(), Ok(0));
}

/// Two owners of level 1 have gain 1 open, and are not quiet.
fn expect_not_quiet(rt: &impl Abort, alloc: Global, core: &Core) {
    let standing = (core.gain(), core.wave(), core.quiet());
    expect_equal(rt, "gain, wave and quiet", standing, (1, 0, false));
    let refused = core.finish(alloc).err();
    expect_equal(rt, "finish", refused, Some(CoreFault::NotQuiet));
}

#[test]
fn level_1_is_built_by_two_owners(rt: HostRuntime) -> Result<(), Fail> {
    let shelf = one_level(rt.alloc())?;
    let mut core = Core::new(rt.alloc(), &shelf, 2, 1)?;
    expect_not_quiet(&rt, rt.alloc(), &core);
    spread_by_two(&rt, &mut core);
    spread_the_last(&rt, &mut core);
    expect_level(&rt, rt.alloc(), &shelf, &core)
}

/// Takes an event, or refuses it.
fn expect_step(rt: &impl Abort, core: &mut Core, event: Event, answer: Result<(), CoreFault>) {
    expect_equal(rt, event, core.step(event), answer);
}

/// The third owner spreads its boards, and sends the second the one note that there is for it.
fn send_the_note(rt: &impl Abort, core: &mut Core) {
    expect_step(rt, core, Event::Take(2, 1), Err(CoreFault::NotEnabled));
    for _board in 0..4u8 {
        expect_step(rt, core, Event::Spread(2), Ok(()));
    }
    expect_step(rt, core, Event::Spread(2), Err(CoreFault::NotEnabled));
    expect_step(rt, core, Event::Send(2, 1), Ok(()));
    expect_equal(rt, "wave", core.next_wave(), Err(CoreFault::NotQuiet));
    expect_step(rt, core, Event::Take(2, 1), Ok(()));
    expect_step(rt, core, Event::Take(2, 1), Err(CoreFault::NotEnabled));
}

/// The other two spread what is due at distance 0.
fn spread_the_rest(rt: &impl Abort, core: &mut Core) {
    for _board in 0..4u8 {
        expect_step(rt, core, Event::Spread(0), Ok(()));
    }
    for _board in 0..3u8 {
        expect_step(rt, core, Event::Spread(1), Ok(()));
    }
    expect_step(rt, core, Event::Spread(1), Err(CoreFault::NotEnabled));
}

#[test]
fn a_batch_settles_a_board_of_another_owner(rt: HostRuntime) -> Result<(), Fail> {
    let shelf = one_level(rt.alloc())?;
    let mut core = Core::new(rt.alloc(), &shelf, 3, 1)?;
    send_the_note(&rt, &mut core);
    spread_the_rest(&rt, &mut core);
    spread_the_last(&rt, &mut core);
    expect_level(&rt, rt.alloc(), &shelf, &core)
}

/// Events of three owners that can't be taken.
const NO_EVENTS: [Event; 6] = [
    Event::Spread(3),
    Event::Send(1, 1),
    Event::Take(2, 2),
    Event::Send(0, 3),
    Event::Take(3, 0),
    Event::Send(0, 1),
];

fn expect_none_taken(rt: &impl Abort, core: &mut Core) {
    let refused = Ran {
        taken: 0,
        refused: 6,
    };
    expect_equal(rt, "no events", core.run(&NO_EVENTS), refused);
}

#[test]
fn events_that_are_none_are_refused(rt: HostRuntime) -> Result<(), Fail> {
    let shelf = one_level(rt.alloc())?;
    let mut core = Core::new(rt.alloc(), &shelf, 3, 1)?;
    expect_none_taken(&rt, &mut core);
    Ok(())
}

/// All gains of level 0 are closed from the start.
fn expect_quiet(rt: &impl Abort, core: &Core) {
    expect_equal(rt, "quiet and gain", (core.quiet(), core.gain()), (true, 0));
}

#[test]
fn level_0_is_quiet_at_once(rt: HostRuntime) -> Result<(), Fail> {
    let shelf = Shelf::empty();
    let core = Core::new(rt.alloc(), &shelf, 16, 1)?;
    expect_quiet(&rt, &core);
    expect_level(&rt, rt.alloc(), &shelf, &core)
}

/// No core is made for this many owners and so much room.
fn expect_no_core(rt: &impl Abort, alloc: Global, owners: u8, room: u32, fault: CoreFault) {
    let answer = Core::new(alloc, &Shelf::empty(), owners, room).err();
    expect_equal(rt, (owners, room), answer, Some(fault));
}

#[test]
fn cores_are_refused_in_order(rt: HostRuntime) {
    expect_no_core(&rt, rt.alloc(), 17, 0, CoreFault::Owners);
    expect_no_core(&rt, rt.alloc(), 0, 1, CoreFault::Owners);
    expect_no_core(&rt, rt.alloc(), 2, 0, CoreFault::Room);
    expect_no_core(&rt, rt.alloc(), 2, 257, CoreFault::Room);
}

/// This many owners build the shelf's next level by all events, again and again.
fn expect_built_by(rt: &impl Abort, alloc: Global, shelf: &Shelf, owners: u8) -> Result<(), Fail> {
    let events = all_events(alloc, owners)?;
    let mut core = Core::new(alloc, shelf, owners, 1)?;
    expect_closed(rt, &mut core, &events);
    expect_level(rt, alloc, shelf, &core)
}

pub(crate) fn expect_closed(rt: &impl Abort, core: &mut Core, events: &[Event]) {
    expect(rt, "all gains closed", close_by(core, events));
}

#[test]
fn sixteen_owners_build_level_1_and_6(rt: HostRuntime) -> Result<(), Fail> {
    for count in [1, 6u8] {
        let shelf = levels_below(rt.alloc(), count)?;
        expect_built_by(&rt, rt.alloc(), &shelf, 16)?;
    }
    Ok(())
}

#[test]
fn three_owners_build_level_8_by_events(rt: HostRuntime) -> Result<(), Fail> {
    let shelf = levels_below(rt.alloc(), 8)?;
    expect_built_by(&rt, rt.alloc(), &shelf, 3)
}
