//! Levels that one thread builds in slices, a few boards at a time.

ghost use Rattle.std.specs.Prelude.{◌≤◌, length};
ghost use Rattle.awari_table.specs.declared.TheConstants.{HIGHEST_LEVEL};

use crate::counts::{COUNTS, expect_counts};
use crate::shelves::one_level;
use awari_segments::{Halt, SlicedLevel, spread_slices};
use awari_table::{Image, Shelf};
use awari_verify::verify;
use std::alloc::Global;
use std::process::Abort;
use std::sync::Arc;
use std::test::Fail;

/// The shelf's next level after this many slices of that many boards, none if it is not settled then.
fn image_after(
    alloc: Global,
    shelf: &Shelf,
    slices: u32,
    boards: usize,
) -> Result<Option<Image>, Halt>
    requires { length shelf.now ≤ HIGHEST_LEVEL }
{
    let draft = SlicedLevel::begin(alloc, shelf)?;
    let after = spread_slices(draft, slices, boards)?;
    if !after.is_settled() {
        return Ok(None);
    }
    let image = after.finish(alloc, shelf)?;
    Ok(Some(image))
}

/// Levels 0 to 6, each built in slices of this many boards, verified and counted.
fn expect_built_in_slices(rt: &impl Abort, alloc: Global, boards: usize) -> Result<(), Fail> {
    let mut shelf = Shelf::empty();
    for counts in &COUNTS[..7] {
        assert!(rt; shelf.levels() < 7);
        let image = image_after(alloc, &shelf, 20_000, boards)?;
        assert!(rt; image.is_some());
        if let Some(image) = image {
            let level = verify(&shelf, image)?;
            expect_counts(rt, &level, *counts);
            shelf.push(Arc::new(alloc, level)?);
        }
    }
    Ok(())
}

#[test]
fn slices_of_one_board_build_levels_0_to_6(rt: HostRuntime) -> Result<(), Fail> {
    expect_built_in_slices(&rt, rt.alloc(), 1)
}

#[test]
fn slices_of_1000_boards_build_levels_0_to_6(rt: HostRuntime) -> Result<(), Fail> {
    expect_built_in_slices(&rt, rt.alloc(), 1000)
}

#[test]
fn one_slice_does_not_settle_level_1(rt: HostRuntime) -> Result<(), Fail> {
    let shelf = one_level(rt.alloc())?;
    let early = image_after(rt.alloc(), &shelf, 1, 1)?;
    assert!(&rt; early.is_none());
    Ok(())
}
