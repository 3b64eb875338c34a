//! What builders tell of how far they are, compared with what the finished level says: a board that is
//! worth a gain is settled at that gain, and spread at its distance. The sizes of levels, and how many
//! boards are settled in all, are those of docs/levels.csv.

use crate::expect::expect_equal;
use crate::hearing::{Builder, Heard, listened};
use crate::shelves::levels_below;
use awari_build::build_alone;
use awari_table::{Entry, Shelf};
use std::alloc::{AllocError, Global};
use std::process::Abort;
use std::sync::Wait;
use std::test::Fail;
use std::thread::Threads;
use std::time::Clock;

/// One more than the greatest distance of levels 0 to 6.
const DISTANCES: usize = 65;

/// How many boards of a level below 7 are worth each gain, on either side, at each distance.
type Tally = [[usize; DISTANCES]; 7];

/// Counts the board of this entry.
fn count(tally: &mut Tally, entry: Entry) {
    let gain = usize::from(entry.value.unsigned_abs());
    let dist = entry.dist as usize;
    if gain < 7 && dist < DISTANCES {
        tally[gain][dist] = tally[gain][dist].saturating_add(1);
    }
}

/// Those of the shelf's next level.
fn tally_of_next(alloc: Global, shelf: &Shelf) -> Result<Tally, Fail> {
    let level = build_alone(alloc, shelf)?;
    let entries = level.to_vec(alloc)?;
    let mut tally = [[0; DISTANCES]; 7];
    for entry in entries.as_slice() {
        count(&mut tally, *entry);
    }
    Ok(tally)
}

/// This many boards more than these.
fn added(boards: usize, row: &[usize; DISTANCES]) -> usize {
    let mut sum = boards;
    for count in row {
        sum = sum.saturating_add(*count);
    }
    sum
}

/// Tells at this gain, and is asked.
fn tell(told: &mut Vec<Heard>, gain: usize, boards: usize) -> Result<(), AllocError> {
    told.push(Heard::Settled(gain, boards))?;
    told.push(Heard::Asked)?;
    Ok(())
}

/// Tells as this gain is opened, and before each distance but 0, how many boards were spread. Gives how
/// many are in the end.
fn tell_distances(
    told: &mut Vec<Heard>,
    gain: usize,
    before: usize,
    row: &[usize; DISTANCES],
) -> Result<usize, AllocError> {
    let mut boards = before;
    tell(told, gain, boards)?;
    for (dist, count) in row.iter().enumerate() {
        if dist > 0 && *count > 0 {
            tell(told, gain, boards)?;
        }
        boards = boards.saturating_add(*count);
    }
    Ok(boards)
}

/// A level with this many stones and boards begins, and is asked for before its scan.
fn begun(alloc: Global, level: usize, boards: usize) -> Result<Vec<Heard>, AllocError> {
    let mut told = Vec::new(alloc);
    told.push(Heard::Begun(level, boards))?;
    told.push(Heard::Asked)?;
    Ok(told)
}

/// What one part and threads together tell of a level with this many stones and boards: each gain and
/// distance.
pub(crate) fn distances_told(
    alloc: Global,
    shelf: &Shelf,
    (level, boards): (usize, usize),
) -> Result<Vec<Heard>, Fail> {
    let tally = tally_of_next(alloc, shelf)?;
    let mut told = begun(alloc, level, boards)?;
    let mut spread = 0;
    for (below, row) in tally.iter().rev().enumerate() {
        let gain = 6usize.saturating_sub(below);
        if 0 < gain && gain <= level {
            spread = tell_distances(&mut told, gain, spread, row)?;
        }
    }
    told.push(Heard::Asked)?;
    told.push(Heard::Planned)?;
    Ok(told)
}

/// What owners tell of it, if only the last round of each gain is kept.
fn gains_told(
    alloc: Global,
    shelf: &Shelf,
    (level, boards): (usize, usize),
) -> Result<Vec<Heard>, Fail> {
    let tally = tally_of_next(alloc, shelf)?;
    let mut told = begun(alloc, level, boards)?;
    let mut spread = 0;
    for (below, row) in tally.iter().rev().enumerate() {
        let gain = 6usize.saturating_sub(below);
        if 0 < gain && gain <= level {
            spread = added(spread, row);
            tell(&mut told, gain, spread)?;
        }
    }
    told.push(Heard::Planned)?;
    Ok(told)
}

/// Whether a round of the same gain was told just before, with no more boards.
fn goes_on(told: &[Heard], heard: Heard) -> bool {
    let len = told.len();
    if len < 2 || told[len - 1] != Heard::Asked {
        return false;
    }
    match (told[len - 2], heard) {
        (Heard::Settled(before, fewer), Heard::Settled(gain, boards)) => {
            before == gain && fewer <= boards
        }
        _ => false,
    }
}

/// What was heard, with only the last round of each gain.
fn last_rounds(alloc: Global, heard: &[Heard]) -> Result<Vec<Heard>, AllocError> {
    let mut told = Vec::new(alloc);
    for heard in heard {
        if goes_on(told.as_slice(), *heard) {
            let _asked = told.pop();
            let _before = told.pop();
        }
        told.push(*heard)?;
    }
    Ok(told)
}

/// The stones, the boards and how many of them are not even, of levels 0, 1 and 6. Level 6 has four
/// segments.
const LEVELS: [(u8, usize, usize); 3] = [(0, 1, 0), (1, 12, 12), (6, 12_376, 10_831)];

/// The builder builds the level above the shelf, and tells each gain and distance of it.
fn expect_distances(
    rt: &(impl Abort + Threads + Clock + Wait + Sync + Send + Clone + Drop + 'static),
    alloc: Global,
    builder: Builder,
    (level, boards): (u8, usize),
) -> Result<(), Fail> {
    let shelf = levels_below(alloc, level)?;
    let told = distances_told(alloc, &shelf, (usize::from(level), boards))?;
    let (fault, found) = listened(rt, alloc, &shelf, builder, u32::MAX);
    expect_equal(rt, builder, fault, None);
    expect_equal(rt, builder, found.as_slice(), told.as_slice());
    Ok(())
}

#[test]
fn one_part_tells_what_the_level_says(rt: HostRuntime) -> Result<(), Fail> {
    for (level, boards, _) in LEVELS {
        expect_distances(&rt, rt.alloc(), Builder::Alone, (level, boards))?;
    }
    Ok(())
}

#[test]
fn threads_tell_what_the_level_says(rt: HostRuntime) -> Result<(), Fail> {
    for (level, boards, _) in LEVELS {
        expect_distances(&rt, rt.alloc(), Builder::Together(1), (level, boards))?;
        expect_distances(&rt, rt.alloc(), Builder::Together(3), (level, boards))?;
    }
    Ok(())
}

/// This many boards are settled in the end.
fn expect_settled(rt: &impl Abort, told: &[Heard], settled: usize) {
    let mut last = 0;
    for heard in told {
        if let Heard::Settled(_, boards) = heard {
            last = *boards;
        }
    }
    expect_equal(rt, "settled", last, settled);
}

/// This many owners build the level, and tell of the last round of each gain how many boards are settled.
fn expect_gains(
    rt: &(impl Abort + Threads + Clock + Wait + Sync + Send + Clone + Drop + 'static),
    alloc: Global,
    owners: u8,
    (level, boards, settled): (u8, usize, usize),
) -> Result<(), Fail> {
    let shelf = levels_below(alloc, level)?;
    let told = gains_told(alloc, &shelf, (usize::from(level), boards))?;
    expect_settled(rt, told.as_slice(), settled);
    let (fault, found) = listened(rt, alloc, &shelf, Builder::Owners(owners), u32::MAX);
    expect_equal(rt, owners, fault, None);
    let found = last_rounds(alloc, found.as_slice())?;
    expect_equal(rt, owners, found.as_slice(), told.as_slice());
    Ok(())
}

#[test]
fn owners_tell_what_the_level_says(rt: HostRuntime) -> Result<(), Fail> {
    for level in LEVELS {
        for owners in [1, 3, 16] {
            expect_gains(&rt, rt.alloc(), owners, level)?;
        }
    }
    Ok(())
}
