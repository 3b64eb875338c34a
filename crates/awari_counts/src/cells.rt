//! How many boards of a level have each pair of numbers: of a level in memory by threads, else by its file.

ghost use Rattle.std.specs.Prelude.{◌≡◌, ◌<◌, ◌≤◌, ◌+◌, ◌^◌, ℕ, List, None, Some, IfErr, IfOk, length, slice_index_or, sum, vec_len};
ghost use Rattle.awari_facts.specs.Sources.{SaysBy, images_of, levels_of};
ghost use Rattle.awari_folder.specs.State.{Unchanged};
ghost use Rattle.awari_rank.specs.Rank.{size_of};
ghost use Rattle.awari_rank.specs.Tuples.{tuples};
ghost use Rattle.awari_table.specs.declared.TheConstants.{HIGHEST_LEVEL};
ghost use Rattle.awari_table.specs.declared.images.Image.{Image};
ghost use Rattle.awari_counts.specs.declared.cells.Start.{Start as AStart};
ghost use Rattle.awari_counts.specs.Tables.{AreCellsFrom, AreTabled, CountsSegment, HasBoards, IsCellAt, IsHeldCountFault, IsOwn, IsSized, IsTableFault, cells_of};

use crate::tables::{CellTable, cell_at, count_cell, count_own, new_counts, wrong_limit};
use awari_facts::{Levels, Seen, Source, entry_on, levels_in, number_of};
use awari_folder::{Folder, FolderFault};
use awari_rank::size;
use rayon::prelude::*;
use std::alloc::Global;
use std::thread::Threads;

/// How many boards are looked at before they are counted.
const SEGMENT: u32 = 65536;

/// Where a segment begins.
#[derive(Clone, Copy)]
struct Start {
    /// What is counted.
    table: CellTable,
    /// The rank of its first board.
    first: u32,
}

/// The cell of the board of a rank. There is none if a number is none that its column may have. Conditions:
/// the level is there, and has that many boards; the cells fit in memory.
fn cell_on(levels: Levels<'_>, table: CellTable, rank: u32) -> Option<usize>
    requires level { table.level < length (images_of levels) }
    requires rank { rank < size_of table.level }
    requires cells { cells_of table < 2 ^ 64 }
    ensures { IsCellAt (images_of levels.entry) table rank result }
{
    // For the proof: there are at most 25 levels.
    let _levels = levels_in(levels);
    let level = table.level;
    let entry = entry_on(levels, level, rank);
    let seen = Seen { level, rank, entry };
    let first = number_of(levels, table.pair.first, &seen);
    let second = number_of(levels, table.pair.second, &seen);
    cell_at(table, first, second)
}

/// Finds the cells of the boards of a segment, by as many threads as there are processors. Conditions: the
/// level is there, and has that many boards; the cells fit in memory.
fn find_cells<T: Threads + Sync>(
    rt: &T,
    levels: Levels<'_>,
    start: Start,
    found: &mut [Option<usize>],
)
    requires boards { HasBoards (images_of levels) start (length found.old) }
    requires cells { cells_of start.table < 2 ^ 64 }
    ensures long { length found.new ≡ length found.old }
    ensures cells { AreCellsFrom (images_of levels.entry) start.table start.first found.new }
{
    let Start { table, first } = start;
    par_for_each_mut(
        rt,
        found,
        |place: usize, cell: &mut Option<usize>|
            requires level { table.level < length (images_of levels) }
            requires rank { first + place < size_of table.level }
            requires fits { first + place < 4294967296 }
            requires cells { cells_of table < 2 ^ 64 }
            ensures { IsCellAt (images_of levels.entry) table (first + place) cell.new }
        { *cell = cell_on(levels, table, first + place as u32) },
    );
}

/// Counts the boards of these cells, and says whether each has one. Conditions: the table has the cells, and
/// there is room to count.
fn count_found(counts: &mut Vec<u32>, found: &[Option<usize>]) -> bool
    requires inside { (k cell : ℕ) → k < length found.now → slice_index_or found.now k None ≡ Some cell → cell < vec_len counts.old }
    requires few { sum counts.old.items + length found.now ≤ 4294967295 }
    ensures long { vec_len counts.new ≡ vec_len counts.old }
    ensures few { sum counts.new.items ≤ sum counts.old.items + length found.now }
    ensures counted { (images : List Image) (start : AStart) → AreCellsFrom images start.table start.first found.now → CountsSegment result images start (length found.now) counts.old.items counts.new.items }
{
    for place in 0..found.len() {
        let Some(cell) = found[place] else {
            return false;
        };
        count_cell(counts, cell);
    }
    true
}

/// Counts the boards of a segment, and says whether each has a cell. Conditions as for [`find_cells`]; the
/// table has all cells, and no more boards than the ranks before the segment were counted.
fn count_segment<T: Threads + Sync>(
    rt: &T,
    levels: Levels<'_>,
    start: Start,
    found: &mut [Option<usize>],
    counts: &mut Vec<u32>,
) -> bool
    requires boards { HasBoards (images_of levels) start (length found.old) }
    requires long { vec_len counts.old ≡ cells_of start.table }
    requires few { sum counts.old.items ≤ start.first }
    ensures long { vec_len counts.new ≡ cells_of start.table }
    ensures few { sum counts.new.items ≤ start.first + length found.old }
    ensures counted { CountsSegment result (images_of levels.entry) start (length found.old) counts.old.items counts.new.items }
{
    find_cells(rt, levels, start, found);
    count_found(counts, found)
}

/// How many boards of a level are in each cell. Condition: the level is there. It takes memory for
/// four bytes a cell, and for a segment of boards. It is refused as 84 if that is not there, and as 83 with V7
/// if a distance is above the limit. By the level's own limit none is.
pub(crate) fn count_on<T: Threads + Sync>(
    rt: &T,
    alloc: Global,
    levels: Levels<'_>,
    table: CellTable,
) -> Result<Vec<u32>, FolderFault>
    requires { table.level < length (images_of levels) }
    ensures long { IfOk result (λ counts. vec_len counts ≡ cells_of table) }
    ensures few { IfOk result (λ counts. sum counts.items ≤ 4294967295) }
    ensures counted { IfOk result (λ counts. AreTabled (images_of levels.entry) table (tuples 12 table.level) counts.items) }
    ensures fault { IfErr result (IsHeldCountFault (images_of levels.entry) table) }
{
    // For the proof: there are at most 25 levels.
    let _levels = levels_in(levels);
    let boards = size(table.level);
    let mut counts = match new_counts(alloc, table) {
        Ok(counts) => counts,
        Err(fault) => return Err(fault),
    };
    let Ok(mut found) = vec![in alloc; None::<usize>; SEGMENT as usize] else {
        return Err(FolderFault::Memory);
    };
    let mut first = 0;
    while first < boards {
        let many = (boards - first).min(SEGMENT);
        found.truncate(many as usize);
        let start = Start { table, first };
        if !count_segment(rt, levels, start, found.as_mut_slice(), &mut counts) {
            return Err(wrong_limit(table.level));
        }
        first += many;
    }
    Ok(counts)
}

/// How many boards of a level are in each cell, by where its entries are read: [`count_on`] by levels in memory,
/// [`count_own`] by its file. Conditions: the source has the level, and an entry and the rules say both numbers. It
/// takes memory and is refused as they are.
pub(crate) fn count_by_source<T: Threads + Sync, F: Folder>(
    rt: &T,
    alloc: Global,
    source: Source<'_>,
    folder: &mut F,
    table: CellTable,
) -> Result<Vec<u32>, FolderFault>
    requires own { IsOwn table.pair }
    requires level { table.level < levels_of source }
    requires low { table.level ≤ HIGHEST_LEVEL }
    ensures long { IfOk result (λ counts. vec_len counts ≡ cells_of table) }
    ensures few { IfOk result (λ counts. sum counts.items ≤ 4294967295) }
    ensures counted { (images : List Image) → SaysBy source.entry (F.state folder.old).stands images → IfOk result (λ counts. AreTabled images table (tuples 12 table.level) counts.items) }
    ensures sized { (images : List Image) → SaysBy source.entry (F.state folder.old).stands images → IfOk result (λ counts. IsSized images table.level) }
    ensures same { Unchanged (F.state folder.old) (F.state folder.new) }
    ensures fault { IfErr result (IsTableFault source.entry (F.state folder.old).stands table) }
{
    match source {
        Source::Memory(levels) => count_on(rt, alloc, levels, table),
        Source::Files(_) => count_own(alloc, folder, table),
    }
}
