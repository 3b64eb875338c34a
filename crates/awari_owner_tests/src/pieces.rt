//! Levels that are verified in pieces, and parts that are scanned in pieces, by several threads.

use crate::expect::{expect, expect_equal};
use crate::shelves::levels_below;
use awari_build::build_alone;
use awari_owner::Part;
use awari_table::{Entries, HIGHEST_LEVEL, Image, Level, Shelf};
use awari_verify::{Rule, VerifyFault, verify, verify_parallel};
use std::alloc::{AllocError, Global};
use std::process::Abort;
use std::test::Fail;
use std::thread::Threads;

/// What the level says, with the value 7 at the boards of these ranks.
fn with_value_7(alloc: Global, level: &Level, ranks: &[usize]) -> Result<Image, AllocError> {
    let mut entries = level.to_vec(alloc)?;
    for rank in ranks {
        if let Some(entry) = entries.get_mut(*rank) {
            entry.value = 7;
        }
    }
    Ok(Image {
        level: level.number(),
        limit: level.limit(),
        entries: Entries::from(entries),
    })
}

/// Why an image is refused by one thread.
fn fault_alone(shelf: &Shelf, image: Image) -> Option<VerifyFault> {
    verify(shelf, image).err()
}

/// Why it is refused by several.
fn fault_in_pieces<R: Threads + Sync>(
    rt: &R,
    alloc: Global,
    shelf: &Shelf,
    image: Image,
) -> Option<VerifyFault> {
    verify_parallel(rt, alloc, shelf, image).err()
}

/// One thread and several have this against the level with the value 7 at these ranks.
fn expect_fault<R: Threads + Sync + Abort>(
    rt: &R,
    alloc: Global,
    shelf: &Shelf,
    level: &Level,
    ranks: &[usize],
    fault: Option<VerifyFault>,
) -> Result<(), Fail> {
    let image = with_value_7(alloc, level, ranks)?;
    expect_equal(rt, "by one", fault_alone(shelf, image), fault);
    let image = with_value_7(alloc, level, ranks)?;
    let found = fault_in_pieces(rt, alloc, shelf, image);
    expect_equal(rt, "by several", found, fault);
    Ok(())
}

#[test]
fn pieces_are_verified_as_one_level(rt: HostRuntime) -> Result<(), Fail> {
    let shelf = levels_below(rt.alloc(), 6)?;
    let level = build_alone(rt.alloc(), &shelf)?;
    expect_fault(&rt, rt.alloc(), &shelf, &level, &[], None)?;
    let first = Some(VerifyFault::Refused {
        rank: 100,
        rule: Rule::V1,
    });
    expect_fault(&rt, rt.alloc(), &shelf, &level, &[12_000, 100], first)
}

#[test]
fn a_level_of_another_number_is_refused_by_several(rt: HostRuntime) -> Result<(), Fail> {
    let shelf = levels_below(rt.alloc(), 3)?;
    let level = build_alone(rt.alloc(), &Shelf::empty())?;
    let wrong_level = Some(VerifyFault::WrongLevel);
    expect_fault(&rt, rt.alloc(), &shelf, &level, &[], wrong_level)
}

/// Whether the part that is scanned by several threads has the same block as that of one, and the
/// same boards are settled once the first gain is open.
fn is_scanned_alike<R: Threads + Sync>(
    rt: &R,
    alloc: Global,
    shelf: &Shelf,
    owner: u8,
) -> Result<bool, Fail> {
    if owner >= 3 || shelf.levels() > HIGHEST_LEVEL {
        return Ok(false);
    }
    let mut alone = Part::scan(alloc, shelf, 3, owner)?;
    let mut pieces = Part::scan_parallel(rt, alloc, shelf, 3, owner)?;
    open_first_gain(&mut alone);
    open_first_gain(&mut pieces);
    Ok(alone.block() == pieces.block() && settles_alike(&alone, &pieces))
}

fn open_first_gain(part: &mut Part) {
    if part.gain() > 1 && part.idle() {
        part.open_gain(part.gain() - 1);
    }
}

/// Whether each board of the block is settled alike in both.
fn settles_alike(one: &Part, other: &Part) -> bool {
    let (start, end) = one.block();
    let (from, to) = other.block();
    (start..end).all(|rank| from <= rank && rank < to && one.settled(rank) == other.settled(rank))
}

#[test]
fn parts_are_scanned_in_pieces(rt: HostRuntime) -> Result<(), Fail> {
    let shelf = levels_below(rt.alloc(), 6)?;
    for owner in 0..3u8 {
        expect(
            &rt,
            owner,
            is_scanned_alike(&rt, rt.alloc(), &shelf, owner)?,
        );
    }
    Ok(())
}
