//! The rings among owners, as they are made.

use crate::expect::{expect, expect_equal};
use awari_lines::{Ends, grid, settle};
use awari_owner::Batch;
use std::alloc::Global;
use std::process::Abort;
use std::test::Fail;

/// The ends are those of this many owners, in the order of their numbers.
fn expect_ends(rt: &impl Abort, all: &[Ends<Batch>], owners: usize) {
    expect_equal(rt, "owners", all.len(), owners);
    for (number, ends) in all.iter().enumerate() {
        let found = (usize::from(ends.owner()), ends.owners());
        expect_equal(rt, "number and owners", found, (number, owners));
    }
}

/// Nothing comes to the first of three owners from the others.
fn expect_nothing_comes(rt: &impl Abort, ends: &mut Ends<Batch>) {
    assert!(rt; ends.owner() == 0 && ends.owners() == 3);
    expect(rt, "from 1", ends.pop(1).is_none());
    expect(rt, "from 2", ends.pop(2).is_none());
}

/// The ends of one owner alone, who has no rings.
fn expect_one(rt: &impl Abort, alloc: Global) -> Result<(), Fail> {
    let mut all = grid(alloc, 1, 256)?;
    expect_ends(rt, &all, 1);
    expect(rt, "settled", settle(all.as_mut_slice()));
    Ok(())
}

/// The ends of three owners, with nothing on the rings.
fn expect_three(rt: &impl Abort, alloc: Global) -> Result<(), Fail> {
    let mut all = grid(alloc, 3, 1)?;
    expect_ends(rt, &all, 3);
    expect(rt, "settled", settle(all.as_mut_slice()));
    expect_nothing_comes(rt, &mut all[0]);
    Ok(())
}

#[test]
fn owners_get_their_ends(rt: HostRuntime) -> Result<(), Fail> {
    expect_one(&rt, rt.alloc())?;
    expect_three(&rt, rt.alloc())
}

/// What the first of two owners sends is there for the second at once, and then there is room again at
/// once. For that each has to look at the other's end of the ring.
fn expect_passed(rt: &impl Abort, one: &mut Ends<Batch>, other: &mut Ends<Batch>) {
    assert!(rt; one.owner() == 0 && one.owners() == 2);
    assert!(rt; other.owner() == 1 && other.owners() == 2);
    expect(rt, "sent", one.push(1, Batch::new()).is_ok());
    expect(rt, "full", one.push(1, Batch::new()).is_err());
    expect(rt, "taken", other.pop(0).is_some());
    expect(rt, "empty", other.pop(0).is_none());
}

#[test]
fn rings_are_looked_at(rt: HostRuntime) -> Result<(), Fail> {
    let mut all = grid(rt.alloc(), 2, 1)?;
    assert!(rt; all.len() == 2);
    let (front, back) = all.as_mut_slice().split_at_mut(1);
    expect_passed(&rt, &mut front[0], &mut back[0]);
    expect_passed(&rt, &mut front[0], &mut back[0]);
    Ok(())
}

/// A list that owns memory comes as it was sent.
fn expect_list_passed(
    rt: &impl Abort,
    alloc: Global,
    one: &mut Ends<Vec<u32>>,
    other: &mut Ends<Vec<u32>>,
) -> Result<(), Fail> {
    assert!(rt; one.owner() == 0 && one.owners() == 2);
    assert!(rt; other.owner() == 1 && other.owners() == 2);
    let sent = one.push(1, vec![in alloc; 7, 8]?);
    expect(rt, "sent", sent.is_ok());
    let taken = other.pop(0).unwrap_or(Vec::new(alloc));
    expect_equal(rt, "taken", taken.as_slice(), [7, 8].as_slice());
    Ok(())
}

#[test]
fn a_list_goes_over_a_ring(rt: HostRuntime) -> Result<(), Fail> {
    let mut all = grid(rt.alloc(), 2, 1)?;
    assert!(rt; all.len() == 2);
    let (front, back) = all.as_mut_slice().split_at_mut(1);
    expect_list_passed(&rt, rt.alloc(), &mut front[0], &mut back[0])
}
