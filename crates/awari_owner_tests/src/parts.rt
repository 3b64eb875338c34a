//! Parts scanned for any number of owners, and one that has the whole of level 1.

ghost use Rattle.std.specs.Prelude.{◌≡◌};
ghost use Rattle.awari_owner.specs.Spread.{IsPartOf};

use crate::expect::expect_equal;
use crate::shelves::one_level;
use awari_owner::{Outboxes, Part};
use awari_table::Shelf;
use std::alloc::Global;
use std::process::Abort;
use std::test::Fail;

/// The block of this owner of level 1, one of this many.
fn expect_block(
    rt: &impl Abort,
    alloc: Global,
    shelf: &Shelf,
    (owners, owner): (u8, u8),
    block: (u32, u32),
) -> Result<(), Fail> {
    assert!(rt; shelf.levels() == 1 && owner < owners && owners <= 16);
    let part = Part::scan(alloc, shelf, owners, owner)?;
    expect_equal(rt, (owners, owner), part.block(), block);
    Ok(())
}

#[test]
fn shares_out_the_boards(rt: HostRuntime) -> Result<(), Fail> {
    let shelf = one_level(rt.alloc())?;
    for owner in 0..16u8 {
        let start = u32::from(owner).min(12);
        let end = u32::from(owner).wrapping_add(1).min(12);
        expect_block(&rt, rt.alloc(), &shelf, (16, owner), (start, end))?;
    }
    expect_block(&rt, rt.alloc(), &shelf, (5, 4), (12, 12))?;
    Ok(())
}

/// Opens gain 1, at which boards of level 1 are due at distance 0.
pub(crate) fn open_gain_1(rt: &impl Abort, part: &mut Part, outboxes: &Outboxes)
    requires made { IsPartOf part.old outboxes.now }
    ensures made { IsPartOf part.new outboxes.now }
    ensures wave { part.new.wave ≡ 0 }
{
    assert!(rt; part.gain() == 2 && part.idle());
    part.open_gain(1);
    let standing = (part.gain(), part.wave(), part.due());
    expect_equal(rt, "gain, wave and due", standing, (1, 0, Some(0)));
}

/// Spreads the first fresh board, which is of the open wave.
pub(crate) fn spread_next(rt: &impl Abort, part: &mut Part, outboxes: &mut Outboxes)
    requires made { IsPartOf part.old outboxes.old }
    ensures made { IsPartOf part.new outboxes.new }
    ensures wave { part.new.wave ≡ part.old.wave }
{
    expect_equal(rt, "a board", part.spread_one(outboxes), Ok(true));
}

/// No board is due at the open wave.
pub(crate) fn expect_none_due(rt: &impl Abort, part: &mut Part, outboxes: &mut Outboxes)
    requires made { IsPartOf part.old outboxes.old }
    ensures made { IsPartOf part.new outboxes.new }
    ensures wave { part.new.wave ≡ part.old.wave }
{
    expect_equal(rt, "no board", part.spread_one(outboxes), Ok(false));
}

/// Eleven of the twelve boards are spread at distance 0.
fn spread_eleven(rt: &impl Abort, part: &mut Part, outboxes: &mut Outboxes)
    requires made { IsPartOf part.old outboxes.old }
    requires wave { part.old.wave ≡ 0 }
    ensures made { IsPartOf part.new outboxes.new }
    ensures wave { part.new.wave ≡ 0 }
{
    for _board in 0..11u8 {
        spread_next(rt, part, outboxes);
    }
    expect_none_due(rt, part, outboxes);
}

/// The last one is spread at distance 1.
fn spread_the_last(rt: &impl Abort, part: &mut Part, outboxes: &mut Outboxes)
    requires made { IsPartOf part.old outboxes.old }
    requires wave { part.old.wave ≡ 0 }
{
    assert!(rt; part.due() == Some(1));
    part.open_wave(1);
    expect_equal(rt, "wave", part.wave(), 1);
    spread_next(rt, part, outboxes);
}

/// Nothing is due, and nothing to be sent.
fn expect_at_rest(rt: &impl Abort, part: &Part, outboxes: &Outboxes) {
    let standing = (part.due(), part.idle(), outboxes.is_empty());
    expect_equal(rt, "due, idle and empty", standing, (None, true, true));
}

/// The part has all of level 1, and the board of rank 6 is lost in one ply.
fn expect_level_1(rt: &impl Abort, part: &Part) {
    assert!(rt; part.block() == (0, 12));
    expect_equal(rt, "rank 6", part.settled(6), Some((-1, 1)));
}

#[test]
fn settles_level_1(rt: HostRuntime) -> Result<(), Fail> {
    let shelf = one_level(rt.alloc())?;
    let mut part = Part::scan(rt.alloc(), &shelf, 1, 0)?;
    let mut outboxes = Outboxes::new(rt.alloc(), 1, 0)?;
    open_gain_1(&rt, &mut part, &outboxes);
    spread_eleven(&rt, &mut part, &mut outboxes);
    spread_the_last(&rt, &mut part, &mut outboxes);
    expect_at_rest(&rt, &part, &outboxes);
    expect_level_1(&rt, &part);
    Ok(())
}
