//! Three owners of level 1 at the end of gain 1, taken apart into their parts and the ends of their
//! rings.

ghost use Rattle.std.specs.Prelude.{◌≡◌, All, IfOk, length};
ghost use Rattle.awari_lines.specs.Rings.{IsGrid};
ghost use Rattle.awari_block.specs.Part.{IsClosed};
ghost use Rattle.awari_heard.specs.Level.{AreWhole};
ghost use Rattle.awari_phase.specs.Owners.{AllGrown, JoinsWave, all_ends, parts_of};

use crate::expect::{expect, expect_equal};
use crate::rounds::{after_two_rounds, next_round};
use crate::shelves::one_level;
use awari_lines::{Ends, settle};
use awari_owner::{Batch, Part};
use awari_phase::Owner;
use awari_plan::finish;
use awari_table::{Entry, Image, Shelf};
use std::alloc::{AllocError, Global};
use std::process::Abort;
use std::sync::Wait;
use std::test::Fail;
use std::thread::Threads;

/// Opens distance 1 in the part of the owner, who has nothing to send.
fn open_wave_1(rt: &impl Abort, owner: &mut Owner)
    ensures { JoinsWave 1 owner.old owner.new }
{
    assert!(rt; owner.outboxes.is_empty());
    assert!(rt; owner.part.wave() == 0 && owner.part.due() != Some(0));
    owner.part.open_wave(1);
}

/// Opens distance 1 in each part.
fn open_waves_1(rt: &impl Abort, owners: &mut [Owner])
    requires { IsGrid (all_ends owners.old) }
    ensures { AllGrown owners.old owners.new }
{
    for i in 0..owners.len() {
        open_wave_1(rt, &mut owners[i]);
    }
}

/// A third round, with distance 1 open.
fn after_three_rounds<R: Threads + Wait + Sync + Abort>(
    rt: &R,
    alloc: Global,
) -> Result<Vec<Owner>, Fail>
    ensures grid { IfOk result (λ owners. IsGrid (all_ends owners.items)) }
    ensures whole { IfOk result (λ owners. AreWhole 1 (parts_of owners.items)) }
{
    let mut owners = after_two_rounds(rt, alloc)?;
    open_waves_1(rt, owners.as_mut_slice());
    let owners = next_round(rt, owners)?;
    Ok(owners)
}

/// No part has a fresh board, and nothing is to be sent.
fn expect_at_rest(rt: &impl Abort, owners: &[Owner]) {
    for owner in owners {
        let standing = (owner.part.idle(), owner.outboxes.is_empty());
        expect_equal(rt, "idle and empty", standing, (true, true));
    }
}

/// The parts of owners, and their ends of the rings, both in the order of the owners.
#[derive(Drop)]
struct Apart {
    parts: Vec<Part>,
    ends: Vec<Ends<Batch>>,
}

fn taken_apart(alloc: Global, owners: Vec<Owner>) -> Result<Apart, AllocError>
    ensures parts { IfOk result (λ apart. apart.parts.items ≡ parts_of owners.items) }
    ensures ends { IfOk result (λ apart. apart.ends.items ≡ all_ends owners.items) }
{
    let mut parts = Vec::with_capacity(alloc, owners.len())?;
    let mut ends = Vec::with_capacity(alloc, owners.len())?;
    for owner in owners {
        parts.push(owner.part)?;
        ends.push(owner.ends)?;
    }
    Ok(Apart { parts, ends })
}

/// Gain 1 is open in each part, and no board is fresh.
pub(crate) fn expect_closed(rt: &impl Abort, parts: &[Part])
    ensures { All IsClosed parts.now }
{
    for part in parts {
        assert!(rt; part.gain() == 1 && part.idle());
    }
}

/// The entries of the twelve boards with one stone, from pit 11 down to pit 0.
fn level_1() -> [Entry; 12] {
    let lost = Entry {
        value: -1,
        plan: None,
        dist: 0,
    };
    let won = Entry { value: 1, ..lost };
    let mut entries = [won; 12];
    for rank in 0..6usize {
        entries[rank] = lost;
    }
    // The stone of pit 5 goes over to the opponent.
    entries[6] = Entry {
        plan: Some(5),
        dist: 1,
        ..lost
    };
    entries
}

/// The image is that of level 1.
fn expect_level_1(rt: &impl Abort, alloc: Global, image: &Image) -> Result<(), AllocError> {
    expect_equal(rt, "level and limit", (image.level, image.limit), (1, 1));
    let entries = image.entries.to_vec(alloc)?;
    expect_equal(rt, "entries", entries.as_slice(), level_1().as_slice());
    Ok(())
}

/// Nothing is on the rings, and the parts make level 1.
fn expect_finished(
    rt: &impl Abort,
    alloc: Global,
    shelf: &Shelf,
    owners: Vec<Owner>,
) -> Result<(), Fail>
    requires level { length shelf.now ≡ 1 }
    requires grid { IsGrid (all_ends owners.items) }
    requires whole { AreWhole 1 (parts_of owners.items) }
{
    let Apart { parts, mut ends } = taken_apart(alloc, owners)?;
    expect(rt, "settled", settle(ends.as_mut_slice()));
    expect_closed(rt, &parts);
    expect_level_1(rt, alloc, &finish(alloc, shelf, &parts)?)?;
    Ok(())
}

#[test]
fn three_rounds_end_a_gain(rt: HostRuntime) -> Result<(), Fail> {
    let shelf = one_level(rt.alloc())?;
    let owners = after_three_rounds(&rt, rt.alloc())?;
    expect_at_rest(&rt, &owners);
    expect_finished(&rt, rt.alloc(), &shelf, owners)
}
