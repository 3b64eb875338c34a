//! The image of a level, made by many threads.

ghost use Rattle.std.specs.Prelude.{◌≤◌, [], IfOk, length};
ghost use Rattle.std.specs.Thread.{IsSync};
ghost use Rattle.awari_heard.specs.Level.{AreWhole};
ghost use Rattle.awari_heard.specs.Kept.{IsKept};
ghost use Rattle.awari_heard.specs.Filling.{PutsBlocks};
ghost use Rattle.awari_table.specs.declared.TheConstants.{HIGHEST_LEVEL};

use crate::entries::{closed_entries, kept_image};
use awari_block::ClosedPart;
use awari_rank::size;
use awari_table::{Entries, Image, Shelf};
use rayon::join;
use std::alloc::{AllocError, Global};
use std::thread::Threads;

/// Answers what [`finish_closed`](crate::finish_closed) does. This many threads at most, but at least
/// one, each make the entries of a share of the parts, and start once. It also takes memory for three
/// bytes a board of all shares but the first.
pub fn finish_parallel<R: Threads + Sync>(
    rt: &R,
    alloc: Global,
    shelf: &Shelf,
    parts: Vec<ClosedPart>,
    threads: usize,
) -> Result<Image, AllocError>
    requires low { length shelf.now ≤ HIGHEST_LEVEL }
    requires whole { AreWhole (length shelf.now) parts.items }
    ensures kept { IfOk result (IsKept shelf.now parts.items) }
{
    let boards = size(shelf.levels()) as usize;
    let entries = entries_in_shares(rt, alloc, boards, parts, threads)?;
    let image = kept_image(shelf, entries);
    Ok(image)
}

/// The entries of these parts, with room for this many boards. A thread makes those of the last share, and
/// one fewer those of the shares before it.
#[cycle(shares)]
fn entries_in_shares<R: Threads + Sync>(
    rt: &R,
    alloc: Global,
    room: usize,
    parts: Vec<ClosedPart>,
    threads: usize,
) -> Result<Entries, AllocError>
    ensures { IfOk result (PutsBlocks parts.items []) }
{
    if threads < 2 {
        return closed_entries(alloc, room, parts);
    }
    let fewer = threads - 1;
    let share = parts.len() / threads;
    let mut first = parts;
    let last = first.split_off(first.len() - share)?;
    let boards = boards_of(last.as_slice());
    let (first_done, last_done) = join(
        rt,
        || -> Result<Entries, AllocError>
            requires { IsSync R.row }
            ensures { IfOk result (PutsBlocks first.items []) }
        { entries_in_shares(rt, alloc, room, first, fewer) },
        || -> Result<Entries, AllocError>
            ensures { IfOk result (PutsBlocks last.items []) }
        { closed_entries(alloc, boards, last) },
    );
    let mut entries = first_done?;
    entries.join(alloc, &last_done?)?;
    Ok(entries)
}

/// How many boards these parts have.
fn boards_of(parts: &[ClosedPart]) -> usize {
    let mut boards = 0usize;
    for part in parts {
        boards = boards.saturating_add(part.cells().len());
    }
    boards
}
