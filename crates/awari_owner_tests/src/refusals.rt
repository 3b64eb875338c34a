//! Calls that take memory, made again where that is refused. Nothing is refused while these run by
//! themselves. The script `tests/refused_growths/run` runs each of them with one growth refused, for
//! each growth in turn: the call's own refusal is expected then, and the same call, made again, goes
//! well. A `?` stands for what is made before the call, whose refusal is no wrong answer.

ghost use Rattle.std.specs.Prelude.{◌≡◌, IfOk, length};
ghost use Rattle.awari_lines.specs.Rings.{IsGrid};
ghost use Rattle.awari_owner.specs.Spread.{IsPartOf};
ghost use Rattle.awari_phase.specs.Owners.{all_ends};

use crate::cores::{all_events, expect_closed};
use crate::expect::{expect, expect_equal};
use crate::parts::open_gain_1;
use crate::rounds::three_owners;
use crate::shelves::{expect_limit, levels_below, one_level};
use awari_build::{BuildFault, Pace, build_level};
use awari_core::{Core, CoreFault, Event};
use awari_owner::{Outboxes, OwnerFault, Part};
use awari_phase::{Open, Owner, PhaseFault, gain_phase, round};
use awari_table::{Entries, Entry, Image, Level, Shelf, TableFault, TableText};
use awari_verify::{VerifyFault, verify_parallel};
use std::alloc::{AllocError, Global};
use std::process::Abort;
use std::sync::Wait;
use std::test::Fail;
use std::thread::Threads;

/// What the call answers at the second time, which is to go well.
fn again<T: Drop, E: Drop>(rt: &impl Abort, case: &str, answer: Result<T, E>) -> Result<T, Fail> {
    match answer {
        Ok(value) => Ok(value),
        Err(_) => {
            expect(rt, case, false);
            Err(Fail::new("refused twice"))
        }
    }
}

/// A shelf that shares the levels.
fn shared(rt: &impl Abort, shelf: &Shelf) -> Result<Shelf, Fail> {
    match shelf.share() {
        Ok(shared) => Ok(shared),
        Err(_) => again(rt, "a shelf", shelf.share()),
    }
}

#[test]
fn a_shelf_is_shared(rt: HostRuntime) -> Result<(), Fail> {
    let shelf = levels_below(rt.alloc(), 2)?;
    expect_limit(&rt, &shared(&rt, &shelf)?, 2, 1);
    Ok(())
}

const LEVEL_0: &[u8] = b"level 0 limit 0\n0 - 0\n";

/// Reads level 0, or is refused, twice then.
fn next_level(rt: &impl Abort, text: &mut TableText<'_>) -> Option<Image> {
    match text.next() {
        Ok(image) => image,
        Err(fault) => {
            expect_equal(rt, "text", fault, TableFault::Memory);
            let repeated = text.next().err();
            expect_equal(rt, "text again", repeated, Some(TableFault::Memory));
            None
        }
    }
}

/// Reads level 0 from the text, from its start again where that is refused.
fn read_level(rt: &impl Abort, alloc: Global) -> Option<Image> {
    match next_level(rt, &mut TableText::new(alloc, LEVEL_0)) {
        Some(image) => Some(image),
        None => next_level(rt, &mut TableText::new(alloc, LEVEL_0)),
    }
}

#[test]
fn a_text_is_read(rt: HostRuntime) {
    let entries = read_level(&rt, rt.alloc()).map_or(0, |image| image.entries.len());
    expect_equal(&rt, "entries", entries, 1);
}

/// The entry of the board with no stones.
const EMPTY_BOARD: Entry = Entry {
    value: 0,
    plan: None,
    dist: 0,
};

fn image_of_level_0(alloc: Global) -> Result<Image, AllocError> {
    Ok(Image {
        level: 0,
        limit: 0,
        entries: Entries::from([EMPTY_BOARD].to_vec(alloc)?),
    })
}

/// Level 0, verified in pieces.
fn verified<R: Threads + Sync + Abort>(rt: &R, alloc: Global) -> Result<Level, Fail> {
    let image = image_of_level_0(alloc)?;
    match verify_parallel(rt, alloc, &Shelf::empty(), image) {
        Ok(level) => Ok(level),
        Err(fault) => {
            expect_equal(rt, "a level", fault, VerifyFault::Memory);
            let image = image_of_level_0(alloc)?;
            let answer = verify_parallel(rt, alloc, &Shelf::empty(), image);
            again(rt, "a level again", answer)
        }
    }
}

#[test]
fn a_level_is_verified_in_pieces(rt: HostRuntime) -> Result<(), Fail> {
    let level = verified(&rt, rt.alloc())?;
    let entries = level.to_vec(rt.alloc())?;
    expect_equal(&rt, "entries", entries.as_slice(), [EMPTY_BOARD].as_slice());
    Ok(())
}

/// The part of the last of three owners.
fn scanned(rt: &impl Abort, alloc: Global, shelf: &Shelf) -> Result<Part, Fail>
    requires { length shelf.now ≡ 1 }
{
    match Part::scan(alloc, shelf, 3, 2) {
        Ok(part) => Ok(part),
        Err(fault) => {
            expect_equal(rt, "a part", fault, OwnerFault::Memory);
            again(rt, "a part again", Part::scan(alloc, shelf, 3, 2))
        }
    }
}

/// The same, scanned in pieces.
fn scanned_in_pieces<R: Threads + Sync + Abort>(
    rt: &R,
    alloc: Global,
    shelf: &Shelf,
) -> Result<Part, Fail>
    requires { length shelf.now ≡ 1 }
{
    match Part::scan_parallel(rt, alloc, shelf, 3, 2) {
        Ok(part) => Ok(part),
        Err(fault) => {
            expect_equal(rt, "pieces", fault, OwnerFault::Memory);
            let answer = Part::scan_parallel(rt, alloc, shelf, 3, 2);
            again(rt, "pieces again", answer)
        }
    }
}

/// The block of the part that is scanned by one thread.
fn expect_scanned(rt: &impl Abort, alloc: Global, shelf: &Shelf) -> Result<(), Fail>
    requires { length shelf.now ≡ 1 }
{
    let part = scanned(rt, alloc, shelf)?;
    expect_equal(rt, "by one thread", part.block(), (8, 12));
    Ok(())
}

/// The block of the part that is scanned in pieces.
fn expect_pieces<R: Threads + Sync + Abort>(
    rt: &R,
    alloc: Global,
    shelf: &Shelf,
) -> Result<(), Fail>
    requires { length shelf.now ≡ 1 }
{
    let part = scanned_in_pieces(rt, alloc, shelf)?;
    expect_equal(rt, "in pieces", part.block(), (8, 12));
    Ok(())
}

#[test]
fn a_part_is_scanned(rt: HostRuntime) -> Result<(), Fail> {
    let shelf = one_level(rt.alloc())?;
    expect_scanned(&rt, rt.alloc(), &shelf)?;
    expect_pieces(&rt, rt.alloc(), &shelf)
}

/// Spreads the first fresh board, once more where that is refused.
fn spread_again(rt: &impl Abort, part: &mut Part, outboxes: &mut Outboxes)
    requires made { IsPartOf part.old outboxes.old }
    ensures made { IsPartOf part.new outboxes.new }
{
    let mut answer = part.spread_one(outboxes);
    if answer == Err(OwnerFault::Memory) {
        answer = part.spread_one(outboxes);
    }
    expect_equal(rt, "a board", answer, Ok(true));
}

/// The four boards of the last of three owners are spread, and there is one note to be sent.
fn spread_four(rt: &impl Abort, part: &mut Part, outboxes: &mut Outboxes)
    requires made { IsPartOf part.old outboxes.old }
{
    for _board in 0..4u8 {
        spread_again(rt, part, outboxes);
    }
    let sent = outboxes.front(1).map_or(0, |batch| batch.as_slice().len());
    expect_equal(rt, "notes", (part.idle(), sent), (true, 1));
}

#[test]
fn boards_are_spread(rt: HostRuntime) -> Result<(), Fail> {
    let shelf = one_level(rt.alloc())?;
    let mut part = Part::scan(rt.alloc(), &shelf, 3, 2)?;
    let mut outboxes = Outboxes::new(rt.alloc(), 3, 2)?;
    open_gain_1(&rt, &mut part, &outboxes);
    spread_four(&rt, &mut part, &mut outboxes);
    Ok(())
}

/// The core of two owners.
fn core_of_two(rt: &impl Abort, alloc: Global, shelf: &Shelf) -> Result<Core, Fail> {
    match Core::new(alloc, shelf, 2, 1) {
        Ok(core) => Ok(core),
        Err(fault) => {
            expect_equal(rt, "a core", fault, CoreFault::Memory);
            again(rt, "a core again", Core::new(alloc, shelf, 2, 1))
        }
    }
}

/// The image of a core with all gains closed.
fn finished(rt: &impl Abort, alloc: Global, core: &Core) -> Result<Image, Fail> {
    match core.finish(alloc) {
        Ok(image) => Ok(image),
        Err(fault) => {
            expect_equal(rt, "an image", fault, CoreFault::Memory);
            again(rt, "an image again", core.finish(alloc))
        }
    }
}

/// The core, with all gains closed, gives level 2.
fn expect_level_2(rt: &impl Abort, alloc: Global, core: &Core) -> Result<(), Fail> {
    let image = finished(rt, alloc, core)?;
    let found = (image.limit, image.entries.len());
    expect_equal(rt, "limit and entries", found, (9, 78));
    Ok(())
}

/// Two owners build level 2 by these events, again and again.
fn expect_built(
    rt: &impl Abort,
    alloc: Global,
    shelf: &Shelf,
    events: &[Event],
) -> Result<(), Fail> {
    let mut core = core_of_two(rt, alloc, shelf)?;
    expect_closed(rt, &mut core, events);
    expect_level_2(rt, alloc, &core)
}

#[test]
fn a_core_builds_level_2(rt: HostRuntime) -> Result<(), Fail> {
    let shelf = levels_below(rt.alloc(), 2)?;
    let events = all_events(rt.alloc(), 2)?;
    expect_built(&rt, rt.alloc(), &shelf, &events)
}

/// Two owners, who take turns often.
const PACE: Pace = Pace {
    owners: 2,
    room: 1,
    sweeps: 1,
};

/// A build may be refused so for want of memory.
fn is_want(fault: BuildFault) -> bool {
    let not_started = BuildFault::Phase {
        fault: PhaseFault::NotStarted,
    };
    fault == BuildFault::Memory || fault == not_started
}

/// The shelf's next level, built by two owners.
fn built<R: Threads + Wait + Sync + Abort>(
    rt: &R,
    alloc: Global,
    shelf: &Shelf,
) -> Result<Level, Fail> {
    match build_level(rt, alloc, shelf, PACE, &Open) {
        Ok(level) => Ok(level),
        Err(fault) => {
            expect(rt, fault, is_want(fault));
            let answer = build_level(rt, alloc, shelf, PACE, &Open);
            again(rt, "a level again", answer)
        }
    }
}

#[test]
fn owners_build_level_2(rt: HostRuntime) -> Result<(), Fail> {
    let shelf = levels_below(rt.alloc(), 2)?;
    let level = built(&rt, rt.alloc(), &shelf)?;
    let found = (level.limit(), level.to_vec(rt.alloc())?.len());
    expect_equal(&rt, "limit and entries", found, (9, 78));
    Ok(())
}

/// A round may be refused so for want of memory.
fn expect_want(rt: &impl Abort, fault: PhaseFault) {
    let is_want = fault == PhaseFault::NotStarted || fault == PhaseFault::Memory;
    expect(rt, fault, is_want);
}

/// A round of one sweep, by owners made anew where it is refused.
fn after_round<R: Threads + Wait + Sync + Abort>(rt: &R, alloc: Global) -> Result<Vec<Owner>, Fail>
    ensures { IfOk result (λ owners. IsGrid (all_ends owners.items)) }
{
    match round(rt, three_owners(rt, alloc)?, &Open, 1) {
        Ok(owners) => Ok(owners),
        Err(fault) => {
            expect_want(rt, fault);
            let answer = round(rt, three_owners(rt, alloc)?, &Open, 1);
            expect(rt, "a round again", answer.is_ok());
            Ok(answer?)
        }
    }
}

/// All rounds of the open gain, by owners made anew where one is refused.
fn after_gain<R: Threads + Wait + Sync + Abort>(rt: &R, alloc: Global) -> Result<Vec<Owner>, Fail> {
    match gain_phase(rt, after_round(rt, alloc)?, &Open, 1) {
        Ok(owners) => Ok(owners),
        Err(fault) => {
            expect_want(rt, fault);
            let answer = gain_phase(rt, after_round(rt, alloc)?, &Open, 1);
            again(rt, "a gain again", answer)
        }
    }
}

/// Nothing is due in any part.
fn expect_none_due(rt: &impl Abort, owners: &[Owner]) {
    let rest = owners.iter().all(|owner| owner.part.due().is_none());
    expect(rt, "none due", rest);
}

#[test]
fn rounds_end(rt: HostRuntime) -> Result<(), Fail> {
    let owners = after_gain(&rt, rt.alloc())?;
    expect_none_due(&rt, &owners);
    Ok(())
}
