//! How many boards of a level have each pair of numbers of two columns.

ghost use Rattle.std.specs.Prelude.{◌≡◌, ◌<◌, ◌≤◌, ◌+◌, ◌^◌, ℕ, List, IfErr, IfOk, IfSome, IsNone, OnErr, slice_index, slice_set, sum, vec_len};
ghost use Rattle.awari_facts.specs.Numbers.{IsAt};
ghost use Rattle.awari_folder.specs.State.{Unchanged};
ghost use Rattle.awari_places.specs.Places.{Says};
ghost use Rattle.awari_rank.specs.Rank.{size_of};
ghost use Rattle.awari_rank.specs.Tuples.{tuples};
ghost use Rattle.awari_table.specs.declared.TheConstants.{HIGHEST_LEVEL};
ghost use Rattle.awari_table.specs.declared.images.Image.{Image};
ghost use Rattle.awari_counts.specs.Tables.{AreTabled, IsCell, IsCellOf, IsCountFault, IsOwn, IsSized, cells_of, wrong_limit};

use crate::ranges::{place_of, width_of};
use awari_facts::{Seen, own_number};
use awari_folder::{Folder, FolderFault};
use awari_places::{Run, entry_in_run};
use awari_queries::Pair;
use awari_rank::size;
use awari_verify::{Rule, VerifyFault};
use std::alloc::Global;

/// What is counted: the boards of a level, by two columns, where no distance is above the limit.
#[derive(Clone, Copy)]
pub(crate) struct CellTable {
    /// The level.
    pub(crate) level: u8,
    /// The columns.
    pub(crate) pair: Pair,
    /// The limit.
    pub(crate) limit: u32,
}

/// What is counted of a level with this limit. It is refused as 83 with V7 if the limit is above the number of
/// boards: a distance is below that. Condition: the level is at most 24.
pub(crate) fn table_of(level: u8, pair: Pair, limit: u32) -> Result<CellTable, FolderFault>
    requires { level ≤ HIGHEST_LEVEL }
    ensures table { IfOk result (λ table. table ≡ record { level = level; pair = pair; limit = limit }) }
    ensures few { IfOk result (λ table. limit ≤ size_of level) }
    ensures fault { IfErr result (λ fault. (fault ≡ wrong_limit level) × (size_of level < limit)) }
{
    if limit > size(level) {
        return Err(wrong_limit(level));
    }
    Ok(CellTable { level, pair, limit })
}

/// No board in any of so many cells. It takes memory for four bytes a cell, and is refused as 84 if that is not
/// there.
pub(crate) fn new_row(alloc: Global, cells: usize) -> Result<Vec<u32>, FolderFault>
    ensures long { IfOk result (λ counts. vec_len counts ≡ cells) }
    ensures zeros { IfOk result (λ counts. (k : ℕ) → slice_index counts.items k ≡ 0) }
    ensures fault { IfErr result (λ fault. fault ≡ FolderFault.Memory) }
{
    match vec![in alloc; 0u32; cells] {
        Ok(counts) => Ok(counts),
        Err(_) => Err(FolderFault::Memory),
    }
}

/// No board in any cell of a table, likewise.
pub(crate) fn new_counts(alloc: Global, table: CellTable) -> Result<Vec<u32>, FolderFault>
    ensures long { IfOk result (λ counts. vec_len counts ≡ cells_of table) }
    ensures zeros { IfOk result (λ counts. (k : ℕ) → slice_index counts.items k ≡ 0) }
    ensures fault { IfErr result (λ fault. fault ≡ FolderFault.Memory) }
{
    let rows = width_of(table.pair.first, table.limit);
    let columns = width_of(table.pair.second, table.limit);
    match rows.checked_mul(columns) {
        Some(cells) => new_row(alloc, cells),
        None => Err(FolderFault::Memory),
    }
}

/// The cell of two numbers. There is none if one of them is none that its column may have. Condition: the
/// cells fit in memory.
pub(crate) fn cell_at(table: CellTable, first: i64, second: i64) -> Option<usize>
    requires { cells_of table < 2 ^ 64 }
    ensures inside { IfSome result (λ cell. cell < cells_of table) }
    ensures cell { IfSome result (IsCell table first second) }
    ensures none { IsNone result → (cell : ℕ) → IsCell table first second cell → ⊥ }
{
    let row = place_of(table.pair.first, table.limit, first)?;
    let column = place_of(table.pair.second, table.limit, second)?;
    Some(row * width_of(table.pair.second, table.limit) + column)
}

/// The cell of a board, if its entry and the rules say both numbers. It is refused as 83 with V7 if a number is
/// none that its column may have, as a distance above the limit is. Conditions: the level is at most 24, and has
/// that many boards; the cells fit in memory.
fn own_cell(table: CellTable, seen: &Seen) -> Result<usize, FolderFault>
    requires own { IsOwn table.pair }
    requires level { seen.now.level ≤ HIGHEST_LEVEL }
    requires rank { seen.now.rank < size_of seen.now.level }
    requires cells { cells_of table < 2 ^ 64 }
    ensures inside { IfOk result (λ cell. cell < cells_of table) }
    ensures cell { (images : List Image) (board : List ℕ) → IsAt images seen.now.level seen.now.rank board seen.now.entry → IfOk result (IsCellOf images table board) }
    ensures none { (images : List Image) (board : List ℕ) → IsAt images seen.now.level seen.now.rank board seen.now.entry → OnErr result ((cell : ℕ) → IsCellOf images table board cell → ⊥) }
    ensures fault { IfErr result (λ fault. fault ≡ wrong_limit table.level) }
{
    let Some(first) = own_number(table.pair.first, seen) else {
        unreachable!()
    };
    let Some(second) = own_number(table.pair.second, seen) else {
        unreachable!()
    };
    match cell_at(table, first, second) {
        Some(cell) => Ok(cell),
        None => Err(wrong_limit(table.level)),
    }
}

/// One board more in a cell. Conditions: the cell is there, and fewer than 2^32 - 1 boards were counted.
pub(crate) fn count_cell(counts: &mut Vec<u32>, cell: usize)
    requires inside { cell < vec_len counts.old }
    requires few { sum counts.old.items < 4294967295 }
    ensures long { vec_len counts.new ≡ vec_len counts.old }
    ensures more { counts.new.items ≡ slice_set counts.old.items cell (slice_index counts.old.items cell + 1) }
    ensures all { sum counts.new.items ≡ sum counts.old.items + 1 }
{
    counts[cell] += 1;
}

/// How many boards of a level are in each cell, by its file where it lies. Conditions: an entry and the rules say
/// both numbers, and the level is at most 24. It takes memory for four bytes a cell, and is refused as 84 if that
/// is not there. It is refused as 83 with V7 if a distance is above the limit, and as
/// [`entry_in_run`] is.
pub(crate) fn count_own<F: Folder>(
    alloc: Global,
    folder: &mut F,
    table: CellTable,
) -> Result<Vec<u32>, FolderFault>
    requires own { IsOwn table.pair }
    requires level { table.level ≤ HIGHEST_LEVEL }
    ensures long { IfOk result (λ counts. vec_len counts ≡ cells_of table) }
    ensures few { IfOk result (λ counts. sum counts.items ≤ 4294967295) }
    ensures counted { (levels : ℕ) (images : List Image) → Says (F.state folder.old).stands levels images → table.level < levels
        → IfOk result (λ counts. AreTabled images table (tuples 12 table.level) counts.items) }
    ensures sized { (levels : ℕ) (images : List Image) → Says (F.state folder.old).stands levels images → table.level < levels → IfOk result (λ counts. IsSized images table.level) }
    ensures same { Unchanged (F.state folder.old) (F.state folder.new) }
    ensures fault { IfErr result (IsCountFault table (F.state folder.old).stands) }
{
    let level = table.level;
    let mut counts = new_counts(alloc, table)?;
    let mut run = Run::new();
    for rank in 0..size(level) {
        let entry = entry_in_run(folder, &mut run, level, rank)?;
        let cell = own_cell(table, &Seen { level, rank, entry })?;
        count_cell(&mut counts, cell);
    }
    Ok(counts)
}

/// The refusal of a level that has a distance above its limit: 83 with V7.
pub(crate) fn wrong_limit(level: u8) -> FolderFault
    ensures { result ≡ wrong_limit level }
{
    FolderFault::Verify {
        level,
        fault: VerifyFault::Refused {
            rank: 0,
            rule: Rule::V7,
        },
    }
}
