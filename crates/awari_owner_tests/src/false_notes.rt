//! Levels of which one part took a false note. Each part spreads all that it settles, and hears no other
//! note. What is finished then is no right level, but its plans are those that its values make.

ghost use Rattle.std.specs.Prelude.{◌≤◌, ℕ, IfOk, length};
ghost use Rattle.awari_heard.specs.Level.{AreWhole};
ghost use Rattle.awari_owner.specs.Owners.{IsShare};
ghost use Rattle.awari_owner.specs.Spread.{IsPartOf};

use crate::apart::expect_closed;
use crate::expect::expect_equal;
use crate::notes::NOTE;
use crate::shelves::levels_below;
use awari_block::{Kind, Note};
use awari_owner::{Outboxes, Part};
use awari_plan::finish;
use awari_table::{Entry, Image, Shelf};
use std::alloc::Global;
use std::process::Abort;
use std::test::Fail;

/// Opens the next smaller gain.
fn open_next_gain(rt: &impl Abort, part: &mut Part, outboxes: &Outboxes)
    requires made { IsPartOf part.old outboxes.now }
    ensures made { IsPartOf part.new outboxes.now }
    ensures share { (n owners i : ℕ) → IsShare n owners i part.old → IsShare n owners i part.new }
{
    let gain = part.gain();
    assert!(rt; gain > 1 && part.idle());
    part.open_gain(gain - 1);
}

/// The part takes the note, if the board that it is for is in its block. The note's distance is opened
/// first, if no board is fresh.
fn take_own(rt: &impl Abort, part: &mut Part, outboxes: &Outboxes, note: Note)
    requires made { IsPartOf part.old outboxes.now }
    ensures made { IsPartOf part.new outboxes.now }
    ensures share { (n owners i : ℕ) → IsShare n owners i part.old → IsShare n owners i part.new }
{
    let (start, end) = part.block();
    if start <= note.target && note.target < end {
        if part.wave() < note.dist && part.idle() {
            part.open_wave(note.dist);
        }
        expect_equal(rt, note, part.take(note), Ok(()));
    }
}

/// Spreads the nearest fresh board, and says whether there was one.
fn spread_nearest(rt: &impl Abort, part: &mut Part, outboxes: &mut Outboxes) -> bool
    requires made { IsPartOf part.old outboxes.old }
    ensures made { IsPartOf part.new outboxes.new }
    ensures share { (n owners i : ℕ) → IsShare n owners i part.old → IsShare n owners i part.new }
{
    let Some(dist) = part.due() else {
        return false;
    };
    if part.wave() < dist {
        part.open_wave(dist);
    }
    expect_equal(rt, "a board", part.spread_one(outboxes), Ok(true));
    true
}

/// Spreads all fresh boards of a level of at most 364, and those that become fresh by that.
fn spread_all(rt: &impl Abort, part: &mut Part, outboxes: &mut Outboxes)
    requires made { IsPartOf part.old outboxes.old }
    ensures made { IsPartOf part.new outboxes.new }
    ensures share { (n owners i : ℕ) → IsShare n owners i part.old → IsShare n owners i part.new }
{
    for _board in 0..365u16 {
        if !spread_nearest(rt, part, outboxes) {
            return;
        }
    }
}

/// Closes all gains of the part. It takes the note, if that is for its block, once the greatest is open.
fn close(rt: &impl Abort, part: &mut Part, outboxes: &mut Outboxes, note: Note)
    requires made { IsPartOf part.old outboxes.old }
    ensures share { (n owners i : ℕ) → IsShare n owners i part.old → IsShare n owners i part.new }
{
    open_next_gain(rt, part, outboxes);
    take_own(rt, part, outboxes, note);
    spread_all(rt, part, outboxes);
    for _gain in 0..24u8 {
        if part.gain() == 1 {
            return;
        }
        open_next_gain(rt, part, outboxes);
        spread_all(rt, part, outboxes);
    }
}

/// The closed parts of this many owners, one of which takes the note.
fn closed_parts(
    rt: &impl Abort,
    alloc: Global,
    shelf: &Shelf,
    owners: u8,
    note: Note,
) -> Result<Vec<Part>, Fail>
    requires owners { (1 ≤ owners) × (owners ≤ 16) }
    requires low { length shelf.now ≤ 24 }
    ensures { IfOk result (λ parts. AreWhole (length shelf.now) parts.items) }
{
    let mut parts = Vec::with_capacity(alloc, owners as usize)?;
    for owner in 0..owners {
        let mut part = Part::scan(alloc, shelf, owners, owner)?;
        let mut outboxes = Outboxes::new(alloc, owners, owner)?;
        close(rt, &mut part, &mut outboxes, note);
        parts.push(part)?;
    }
    Ok(parts)
}

/// What is finished of the next level with this many levels, if one of this many owners takes the note.
fn finished(
    rt: &impl Abort,
    alloc: Global,
    (levels, owners): (u8, u8),
    note: Note,
) -> Result<Image, Fail> {
    let shelf = levels_below(alloc, levels)?;
    assert!(rt; shelf.levels() <= 24 && 1 <= owners && owners <= 16);
    let parts = closed_parts(rt, alloc, &shelf, owners, note)?;
    expect_closed(rt, &parts);
    let image = finish(alloc, &shelf, &parts)?;
    Ok(image)
}

/// The board of this rank has this entry.
fn expect_entry(rt: &impl Abort, image: &Image, rank: u32, entry: Entry) {
    assert!(rt; (rank as usize) < image.entries.len());
    expect_equal(rt, rank, image.entries.at(rank as usize), entry);
}

/// The board of this rank is worth 0.
fn expect_even(rt: &impl Abort, image: &Image, rank: u32) {
    assert!(rt; (rank as usize) < image.entries.len());
    expect_equal(rt, rank, image.entries.value(rank as usize), 0);
}

/// The note says that pit 5 of the board of rank 6, its one move, leads to a lost board. But that board,
/// of rank 11, is won.
#[test]
fn no_plan_serves_a_false_win(rt: HostRuntime) -> Result<(), Fail> {
    let lost = Note {
        kind: Kind::Lost,
        ..NOTE
    };
    let image = finished(&rt, rt.alloc(), (1, 3), lost)?;
    let won = Entry {
        value: 1,
        plan: None,
        dist: 1,
    };
    expect_entry(&rt, &image, 6, won);
    expect_equal(&rt, "limit", image.limit, 1);
    Ok(())
}

/// The board of rank 202 is `0,0,1,1,0,0/0,0,0,0,1,0`. Its pits 2 and 3 lead to the first owner's boards
/// of ranks 89 and 91, which nobody settles. The note says that pit 2 leads to a won board, so the cell
/// keeps pit 3 alone. But pit 2 serves too.
#[test]
fn a_plan_serves_though_a_note_denies_it(rt: HostRuntime) -> Result<(), Fail> {
    let denied = Note {
        level: 3,
        target: 202,
        pit: 2,
        kind: Kind::Won,
        gain: 3,
        dist: 0,
    };
    let image = finished(&rt, rt.alloc(), (3, 2), denied)?;
    let even = Entry {
        value: 0,
        plan: Some(2),
        dist: 0,
    };
    expect_even(&rt, &image, 89);
    expect_even(&rt, &image, 91);
    expect_entry(&rt, &image, 202, even);
    Ok(())
}

/// The board of rank 6, which alone is the seventh owner's, hears that its pit leads to a board that is won
/// in 9000 plies. So it is lost in 9001, which no short entry has room for.
#[test]
fn far_boards_are_finished(rt: HostRuntime) -> Result<(), Fail> {
    let far = Note { dist: 9000, ..NOTE };
    let image = finished(&rt, rt.alloc(), (1, 12), far)?;
    let lost = Entry {
        value: -1,
        plan: Some(5),
        dist: 9001,
    };
    expect_entry(&rt, &image, 6, lost);
    expect_equal(&rt, "limit", image.limit, 9001);
    Ok(())
}
