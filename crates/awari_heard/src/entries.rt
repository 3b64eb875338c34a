//! The image of a level, of what its closed parts have settled.

ghost use Rattle.std.specs.Prelude.{◌≡◌, ◌≤◌, [], IfOk, List, OnOk, length};
ghost use Rattle.awari_heard.specs.Level.{AreWhole};
ghost use Rattle.awari_block.specs.Part.{Part};
ghost use Rattle.awari_block.specs.Cells.{view_of};
ghost use Rattle.awari_block.specs.Pits.{IsLowestIn};
ghost use Rattle.awari_heard.specs.Kept.{HasKept, IsKept};
ghost use Rattle.awari_heard.specs.Filling.{PushesBlock, PutsBlocks};
ghost use Rattle.awari_table.specs.declared.TheConstants.{HIGHEST_LEVEL};

use awari_block::{Cell, ClosedPart, Mark, Pits};
use awari_rank::size;
use awari_table::{Entries, Entry, Image, Shelf};
use std::alloc::{AllocError, Global};

/// The image of the shelf's next level, of parts that are given up. Each is closed, as its type says.
/// A settled board has its value and distance, any other 0 and 0. A plan is the lowest pit that the
/// board's cell keeps, and no move is looked at. The limit is the greatest distance.
///
/// Conditions: the shelf has at most `HIGHEST_LEVEL` levels, and the parts are all blocks of its next
/// level in order. It takes memory for three bytes a board, or eight if a distance is above 8191, and
/// is refused only if that runs out. A part is dropped once its entries are made, so at most eleven
/// bytes a board are held: eight of a cell and three of an entry.
pub fn finish_closed(
    alloc: Global,
    shelf: &Shelf,
    parts: Vec<ClosedPart>,
) -> Result<Image, AllocError>
    requires low { length shelf.now ≤ HIGHEST_LEVEL }
    requires whole { AreWhole (length shelf.now) parts.items }
    ensures kept { IfOk result (IsKept shelf.now parts.items) }
{
    let boards = size(shelf.levels()) as usize;
    let entries = closed_entries(alloc, boards, parts)?;
    let image = kept_image(shelf, entries);
    Ok(image)
}

/// The image of the shelf's next level that has these entries, those of all its blocks.
pub fn kept_image(shelf: &Shelf, entries: Entries) -> Image
    requires low { length shelf.now ≤ HIGHEST_LEVEL }
    ensures { (parts : List Part) → AreWhole (length shelf.now) parts → PutsBlocks parts [] entries → IsKept shelf.now parts result }
{
    Image {
        level: shelf.levels(),
        limit: entries.greatest_dist(),
        entries,
    }
}

/// The entries of closed parts, with room for this many boards. Each part is dropped before the next is
/// begun.
pub(crate) fn closed_entries(
    alloc: Global,
    room: usize,
    parts: Vec<ClosedPart>,
) -> Result<Entries, AllocError>
    ensures { IfOk result (PutsBlocks parts.items []) }
{
    let mut entries = Entries::with_capacity(alloc, room)?;
    for closed in parts {
        push_block(alloc, &mut entries, closed.cells())?;
    }
    Ok(entries)
}

/// Puts the entries of the boards with these cells behind those that are there.
pub fn push_block(alloc: Global, entries: &mut Entries, cells: &[Cell]) -> Result<(), AllocError>
    ensures { OnOk result (PushesBlock cells.now entries.old entries.new (length cells.now)) }
{
    for k in 0..cells.len() {
        let cell = cells[k];
        entries.push(alloc, entry_of(cell))?;
    }
    Ok(())
}

/// The entry of a board with this cell, once all gains are closed.
#[inline(always)]
pub fn entry_of(cell: Cell) -> Entry
    ensures { HasKept (view_of cell) result }
{
    match cell.mark {
        Mark::Settled => entry(cell.score, cell.plans, cell.dist),
        Mark::Capturing if cell.score == 0 => entry(0, cell.left.with_all(cell.plans), 0),
        Mark::Capturing | Mark::Quiet | Mark::Noted => entry(0, cell.left, 0),
        Mark::Ended => Entry::NONE,
    }
}

/// The entry of this value and distance, in which these pits serve.
#[inline(always)]
fn entry(value: i8, plans: Pits, dist: u32) -> Entry
    ensures { (result.value ≡ value) × (result.dist ≡ dist) × IsLowestIn plans result.plan }
{
    Entry {
        value,
        plan: plans.lowest(),
        dist,
    }
}
