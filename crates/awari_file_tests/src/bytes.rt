//! The file of a level with each of its bytes changed, and cut at each of its places.

use crate::expect::expect_equal;
use crate::levels::{changed, digest_in, right_file, right_shelf};
use crate::plain::{compare, level_of, read};
use awari_file::FileFault;
use awari_table::{Counted, Level};
use std::alloc::Global;
use std::process::Abort;
use std::test::Fail;

/// The number of the refusal, 0 for none.
fn fault_of(alloc: Global, bytes: &[u8]) -> u8 {
    let mut reader = Counted::new(bytes);
    match read(alloc, &mut reader) {
        Ok(_) => 0,
        Err(fault) => fault.number(),
    }
}

/// Reads the file with this byte at this place, which has this fault.
fn expect_fault(
    rt: &impl Abort,
    alloc: Global,
    file: &[u8],
    (place, byte): (usize, u8),
    fault: u8,
) -> Result<(), Fail> {
    let bytes = changed(alloc, file, place, byte)?;
    expect_equal(rt, place, fault_of(alloc, &bytes), fault);
    Ok(())
}

/// The fault of a file of which one bit of the byte at this place is turned.
fn fault_at(place: usize, byte: u8, length: usize) -> u8 {
    let is_plan = place >= 52 && place % 6 == 5 && place < length.saturating_sub(32);
    match place {
        0..=3 => 61,
        4 | 5 | 7 => 62,
        6 | 8..=15 => 64,
        _ if is_plan && byte == 255 => 65,
        _ => 66,
    }
}

/// Cuts the file at this place.
fn expect_cut(rt: &impl Abort, alloc: Global, file: &[u8], place: usize) -> Result<(), Fail> {
    let cut = file.get(..place).ok_or("a place in the file")?;
    expect_equal(rt, place, fault_of(alloc, cut), 60);
    Ok(())
}

/// Cuts the file at each place, and turns a bit of each byte.
fn expect_each_fault(rt: &impl Abort, alloc: Global, file: &[u8]) -> Result<(), Fail> {
    for (place, byte) in file.iter().enumerate() {
        expect_cut(rt, alloc, file, place)?;
        let fault = fault_at(place, *byte, file.len());
        expect_fault(rt, alloc, file, (place, byte ^ 1), fault)?;
    }
    Ok(())
}

#[test]
fn every_cut_and_every_changed_byte_is_met(rt: HostRuntime) -> Result<(), Fail> {
    for number in 1..3u8 {
        let file = right_file(rt.alloc(), number)?;
        expect_each_fault(&rt, rt.alloc(), &file)?;
    }
    Ok(())
}

/// What these bytes are beside the file of a level: the digest of that, or none.
fn compared(level: &Level, below: [u8; 32], bytes: &[u8]) -> Result<Option<[u8; 32]>, FileFault> {
    compare(level, below, &mut Counted::new(bytes))
}

/// Each changed, missing or further byte makes the file another one.
fn expect_others(rt: &impl Abort, alloc: Global, level: &Level, file: &[u8]) -> Result<(), Fail> {
    let below = digest_in(&right_file(alloc, 1)?);
    for (place, byte) in file.iter().enumerate() {
        let other = changed(alloc, file, place, byte ^ 1)?;
        expect_equal(rt, place, compared(level, below, &other), Ok(None));
        let cut = file.get(..place).ok_or("a place in the file")?;
        expect_equal(rt, place, compared(level, below, cut), Ok(None));
    }
    let mut longer = file.to_vec(alloc)?;
    longer.push(0)?;
    expect_equal(rt, "a byte more", compared(level, below, &longer), Ok(None));
    Ok(())
}

#[test]
fn a_file_is_told_from_each_other(rt: HostRuntime) -> Result<(), Fail> {
    let shelf = right_shelf(rt.alloc())?;
    let file = right_file(rt.alloc(), 2)?;
    let level = level_of(&shelf, 2)?;
    let below = digest_in(&right_file(rt.alloc(), 1)?);
    expect_equal(
        &rt,
        "the file",
        compared(level, below, &file),
        Ok(Some(digest_in(&file))),
    );
    expect_equal(
        &rt,
        "over another",
        compared(level, [0; 32], &file),
        Ok(None),
    );
    expect_others(&rt, rt.alloc(), level, &file)
}
