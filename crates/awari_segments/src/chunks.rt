//! The notes of a chunk of boards are found, and laid into a row.

ghost use Rattle.std.specs.Prelude.{◌≡◌, ◌^◌, ◌<◌, [], OnOk};
ghost use Rattle.awari_segments.specs.Lists.{list_at};
ghost use Rattle.awari_segments.specs.Segments.{CanFind, FindsFor};

use crate::finding::find;
use crate::lists::Lists;
use crate::rows::Row;
use awari_index::Index;
use awari_scan::MOST_PREDECESSORS;
use std::alloc::{AllocError, Global};

/// The ranks of boards that are spread at once, the lost and the won ones.
#[derive(Drop)]
pub struct Chunk {
    pub lost: Vec<u32>,
    pub won: Vec<u32>,
}

impl Chunk {
    /// No boards yet.
    pub fn new(alloc: Global) -> Chunk
        ensures { (result.lost.items ≡ []) × (result.won.items ≡ []) }
    {
        Chunk {
            lost: Vec::new(alloc),
            won: Vec::new(alloc),
        }
    }
}

/// What a search goes by: the boards of the level by rank, and how many boards a segment has, as a
/// power of two.
#[derive(Clone, Copy)]
pub struct Finder<'a> {
    pub index: &'a Index,
    pub log: u32,
}

/// Finds the notes of these boards for the row, which is emptied first.
pub fn find_row(
    finder: Finder<'_>,
    lost: &[u32],
    won: &[u32],
    row: &mut Row,
) -> Result<(), AllocError>
    requires lost { CanFind finder.index.now (2 ^ finder.log) lost.now }
    requires won { CanFind finder.index.now (2 ^ finder.log) won.now }
    requires log { finder.log < 32 }
    ensures lost { OnOk result (FindsFor finder.entry.index.now (2 ^ finder.entry.log) lost.now (list_at row.new.lost)) }
    ensures won { OnOk result (FindsFor finder.entry.index.now (2 ^ finder.entry.log) won.now (list_at row.new.won)) }
{
    find_lists(finder, lost, &mut row.lost)?;
    find_lists(finder, won, &mut row.won)?;
    Ok(())
}

/// Finds the notes of these boards for the lists of one kind.
fn find_lists(finder: Finder<'_>, ranks: &[u32], lists: &mut Lists) -> Result<(), AllocError>
    requires can { CanFind finder.index.now (2 ^ finder.log) ranks.now }
    requires log { finder.log < 32 }
    ensures { OnOk result (FindsFor finder.entry.index.now (2 ^ finder.entry.log) ranks.now (list_at lists.new)) }
{
    lists.clear();
    let mut targets = [0; MOST_PREDECESSORS];
    find(finder.index, finder.log, ranks, &mut targets, lists)?;
    Ok(())
}
