//! Levels built by owners who take events by chance, each compared with what one part builds.
//!
//! Each schedule is of the next level above 1 to 4 that are there, of 1 to 16 owners, and of rings with
//! room for 1 to 3 batches. Which events come, and in which order, is drawn as well, and the same in each
//! run.

ghost use Rattle.std.specs.Prelude.{◌<◌, ◌≤◌};

use crate::drawing::Numbers;
use crate::expect::expect_equal;
use awari_build::build_alone;
use awari_core::Core;
use awari_table::{Image, Level, Shelf};
use std::alloc::{AllocError, Global};
use std::io;
use std::sync::Arc;
use std::test::Fail;

/// The greatest number of stones of a level that is built so.
const LEVELS: usize = 4;

/// How many events are drawn before it is looked whether the next distance can be opened.
const LIST_LENGTH: usize = 256;

/// How many such lists a schedule has, at most.
const MOST_LISTS: u32 = 1_000_000;

/// What became of all schedules.
#[derive(Drop)]
struct Outcome {
    /// How many ended in the level that one part builds, by the stones on its boards.
    same: [u32; LEVELS + 1],
    /// How many ended in another one, or not at all.
    other: u32,
    /// How many events were taken.
    taken: u64,
}

/// The levels below one that is to be built, and that one as one part builds it.
#[derive(Drop)]
struct Task {
    shelf: Shelf,
    level: Arc<Level>,
}

/// Draws this many schedules, and compares what each of them ends in.
fn outcome_of(alloc: Global, count: u32) -> io::Result<Outcome> {
    let tasks = tasks(alloc)?;
    let mut outcome = Outcome {
        same: [0; LEVELS + 1],
        other: 0,
        taken: 0,
    };
    for schedule in 0..count {
        draw(alloc, tasks.as_slice(), schedule, &mut outcome)?;
    }
    Ok(outcome)
}

/// The levels from 1 on that are to be built.
fn tasks(alloc: Global) -> io::Result<Vec<Task>> {
    let mut tasks = Vec::with_capacity(alloc, LEVELS)?;
    let mut shelf = Shelf::empty();
    for _stones in 0..=LEVELS {
        let Ok(level) = build_alone(alloc, &shelf) else {
            return Ok(tasks);
        };
        let level = Arc::new(alloc, level)?;
        if shelf.levels() > 0 {
            tasks.push(Task {
                shelf: shelf.share()?,
                level: Arc::try_clone(&level)?,
            })?;
        }
        shelf.push(level);
    }
    Ok(tasks)
}

/// Draws a schedule, and counts what it ends in.
fn draw(alloc: Global, tasks: &[Task], schedule: u32, outcome: &mut Outcome) -> io::Result<()> {
    let mut numbers = Numbers::of(schedule);
    let place = numbers.below(LEVELS as u64) as usize;
    let Some(task) = tasks.get(place) else {
        return Ok(());
    };
    let ended = taken_by_chance(alloc, task, &mut numbers)?;
    count(outcome, place + 1, ended);
    Ok(())
}

/// Counts a schedule of a level with this many stones.
fn count(outcome: &mut Outcome, stones: usize, ended: Option<u64>)
    requires { stones ≤ 4 }
{
    let Some(taken) = ended else {
        outcome.other = outcome.other.saturating_add(1);
        return;
    };
    outcome.same[stones] = outcome.same[stones].saturating_add(1);
    outcome.taken = outcome.taken.wrapping_add(taken);
}

/// How many events were taken, if they ended in the level that one part builds.
fn taken_by_chance(alloc: Global, task: &Task, numbers: &mut Numbers) -> io::Result<Option<u64>> {
    let owners = 1 + numbers.below(16) as u8;
    let room = 1 + numbers.below(3) as u32;
    let Ok(mut core) = Core::new(alloc, &task.shelf, owners, room) else {
        return Ok(None);
    };
    let Some(taken) = close_by_chance(alloc, &mut core, owners, numbers)? else {
        return Ok(None);
    };
    let Ok(image) = core.finish(alloc) else {
        return Ok(None);
    };
    let same = says_the_same(alloc, &image, &task.level)?;
    Ok(same.then_some(taken))
}

/// Runs lists of events until all gains are closed, and counts how many events were taken; none if
/// they never close.
fn close_by_chance(
    alloc: Global,
    core: &mut Core,
    owners: u8,
    numbers: &mut Numbers,
) -> io::Result<Option<u64>>
    requires { 0 < owners }
{
    let mut taken: u64 = 0;
    for _list in 0..MOST_LISTS {
        let events = numbers.events(alloc, owners, LIST_LENGTH)?;
        let ran = core.run(&events);
        taken = taken.wrapping_add(ran.taken as u64);
        if opens_last(core) {
            return Ok(Some(taken));
        }
    }
    Ok(None)
}

/// Opens the next distance, or the next gain if no board is fresh. True once all gains are closed.
fn opens_last(core: &mut Core) -> bool {
    match core.next_wave() {
        Ok(None) => core.next_gain() == Ok(0),
        _ => false,
    }
}

/// Whether the image says what the level does.
fn says_the_same(alloc: Global, image: &Image, level: &Level) -> Result<bool, AllocError> {
    let entries = image.entries.to_vec(alloc)?;
    Ok(image.limit == level.limit() && entries == level.to_vec(alloc)?)
}

#[test]
fn levels_by_chance_are_those_of_one_part(rt: HostRuntime) -> Result<(), Fail> {
    let outcome = outcome_of(rt.alloc(), 100)?;
    expect_equal(&rt, "same", outcome.same, [0, 25, 25, 25, 25]);
    expect_equal(&rt, "other", outcome.other, 0);
    expect_equal(&rt, "events", outcome.taken, 73_577);
    Ok(())
}
