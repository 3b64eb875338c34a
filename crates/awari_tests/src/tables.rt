//! Images that no text and no file spells, put to the verifier, and entries kept as a vector.

use crate::expect::expect_equal;
use awari_table::{Entries, Entry, Image, Shelf};
use awari_verify::{Rule, VerifyFault, verify};
use std::alloc::Global;
use std::process::Abort;
use std::sync::Arc;
use std::test::Fail;

fn entry(value: i8, plan: Option<u8>, dist: u32) -> Entry {
    Entry { value, plan, dist }
}

fn image(alloc: Global, level: u8, limit: u32, entries: &[Entry]) -> Result<Image, Fail> {
    Ok(Image {
        level,
        limit,
        entries: Entries::from(entries.to_vec(alloc)?),
    })
}

/// The entries of the twelve boards with one stone, from pit 11 down to pit 0.
fn level_1() -> [Entry; 12] {
    let lost = entry(-1, None, 0);
    let won = entry(1, None, 0);
    let mut entries = [won; 12];
    for rank in 0..6usize {
        entries[rank] = lost;
    }
    // The stone of pit 5 goes over to the opponent.
    entries[6] = entry(-1, Some(5), 1);
    entries
}

#[test]
fn keeps_a_vector_as_entries(rt: HostRuntime) -> Result<(), Fail> {
    let mut given = level_1().to_vec(rt.alloc())?;
    given.reserve(88)?;
    let room = given.capacity();
    let entries = Entries::from(given);
    expect_level_1(&rt, &entries);
    let vector = entries.into_vec(rt.alloc())?;
    expect_equal(&rt, "a vector", vector.as_slice(), level_1().as_slice());
    // It is the one that was given: a copy has no room for more.
    expect_equal(&rt, "room", vector.capacity(), room);
    Ok(())
}

/// The entries are those of level 1.
fn expect_level_1(rt: &impl Abort, entries: &Entries) {
    let size = (entries.is_empty(), entries.len());
    expect_equal(rt, "size", size, (false, 12));
    assert!(rt; entries.len() > 6);
    expect_equal(rt, "rank 6", entries.at(6), entry(-1, Some(5), 1));
}

/// The shelf of level 0.
fn one_level(alloc: Global) -> Result<Shelf, Fail> {
    let mut shelf = Shelf::empty();
    let entries = [entry(0, None, 0)];
    let level = verify(&shelf, image(alloc, 0, 0, &entries)?)?;
    shelf.push(Arc::new(alloc, level)?);
    Ok(shelf)
}

/// The verifier has this against the image.
fn expect_fault(rt: &impl Abort, shelf: &Shelf, wrong: Image, fault: VerifyFault) {
    let found = verify(shelf, wrong).err();
    expect_equal(rt, fault, found, Some(fault));
}

#[test]
fn a_level_without_entries_is_refused(rt: HostRuntime) -> Result<(), Fail> {
    let wrong = image(rt.alloc(), 0, 0, &[])?;
    expect_fault(&rt, &Shelf::empty(), wrong, VerifyFault::WrongSize);
    expect_equal(&rt, "number", VerifyFault::WrongSize.number(), 21);
    Ok(())
}

#[test]
fn a_level_above_the_highest_is_refused(rt: HostRuntime) -> Result<(), Fail> {
    let shelf = one_level(rt.alloc())?;
    for level in [24, 25, 255u8] {
        let wrong = image(rt.alloc(), level, 0, &[])?;
        expect_fault(&rt, &shelf, wrong, VerifyFault::WrongLevel);
    }
    Ok(())
}

#[test]
fn a_plan_that_is_no_pit_is_refused(rt: HostRuntime) -> Result<(), Fail> {
    let shelf = one_level(rt.alloc())?;
    let mut entries = level_1();
    entries[6] = entry(-1, Some(6), 1);
    let wrong = image(rt.alloc(), 1, 1, &entries)?;
    let fault = VerifyFault::Refused {
        rank: 6,
        rule: Rule::V1,
    };
    expect_fault(&rt, &shelf, wrong, fault);
    Ok(())
}
