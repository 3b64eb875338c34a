//! How many boards of a level have each value, each sign and each distance: the sums of the table of both.

ghost use Rattle.std.specs.Prelude.{◌≡◌, ◌<◌, ◌≤◌, ◌+◌, ◌*◌, ℕ, List, IfErr, IfOk, IsSomeAnd, length, slice_get, sum};
ghost use Rattle.awari_folder.specs.State.{Unchanged};
ghost use Rattle.awari_table.specs.declared.TheConstants.{HIGHEST_LEVEL};
ghost use Rattle.awari_table.specs.declared.images.Image.{Image};
ghost use Rattle.awari_facts.specs.Sources.{SaysBy, levels_of};
ghost use Rattle.awari_counts.specs.Sums.{AreLanesOf, AreSharesOf, AreSumsIn, AreSumsOf, IsLaneOf, lane_sum};
ghost use Rattle.awari_counts.specs.Tallies.{AreWide, IsTallied, IsTallyFault, values_table};

use crate::cells::count_by_source;
use crate::ranges::width_of;
use crate::tables::{CellTable, new_row, wrong_limit};
use awari_facts::Source;
use awari_folder::{Folder, FolderFault};
use awari_queries::Column;
use awari_table::Counts;
use std::alloc::Global;
use std::thread::Threads;

/// Cells that are summed: the first one, how far the next is, and how many there are.
#[derive(Clone, Copy)]
struct Lane {
    first: usize,
    step: usize,
    cells: usize,
}

/// Lanes side by side: how many there are, how far the next is, and the cells of each.
#[derive(Clone, Copy)]
struct Lanes {
    many: usize,
    apart: usize,
    step: usize,
    cells: usize,
}

/// How many boards have what was counted of them.
#[derive(Drop)]
pub(crate) struct Tally {
    /// Those that are won, even and lost.
    pub(crate) counts: Counts,
    /// Those of each value, by its place.
    pub(crate) values: Vec<u32>,
    /// Those of each distance up to a limit.
    pub(crate) distances: Vec<u32>,
}

/// The sum of a lane. Conditions: its cells are there, and their sum has 32 bits.
fn add_up(counts: &[u32], lane: Lane) -> u32
    requires { IsLaneOf counts.now lane }
    ensures { result ≡ lane_sum counts.now lane }
{
    let mut boards = 0;
    for cell in 0..lane.cells {
        boards += counts[lane.first + cell * lane.step];
    }
    boards
}

/// The sum of each lane. Conditions as for [`add_up`]; no lane is empty. It takes memory for four bytes a lane, and
/// is refused as 84 if that is not there.
fn sums_of(alloc: Global, counts: &[u32], lanes: Lanes) -> Result<Vec<u32>, FolderFault>
    requires { AreLanesOf counts.now lanes }
    ensures sums { IfOk result (λ sums. AreSumsOf counts.now lanes sums.items) }
    ensures fault { IfErr result (λ fault. fault ≡ FolderFault.Memory) }
{
    let mut sums = new_row(alloc, lanes.many)?;
    for place in 0..lanes.many {
        let lane = Lane {
            first: place * lanes.apart,
            step: lanes.step,
            cells: lanes.cells,
        };
        sums[place] = add_up(counts, lane);
    }
    Ok(sums)
}

/// How many boards are won, even and lost, by how many have each value. Condition: these are those of the values
/// from -128 to 127, and fewer than 2^32 in all.
fn shares_of(values: &[u32]) -> Counts
    requires long { length values.now ≡ 256 }
    requires few { sum values.now ≤ 4294967295 }
    ensures { AreSharesOf values.now result }
{
    let above = Lane {
        first: 129,
        step: 1,
        cells: 127,
    };
    let below = Lane {
        first: 0,
        step: 1,
        cells: 128,
    };
    Counts {
        won: add_up(values, above),
        even: values[128],
        lost: add_up(values, below),
    }
}

/// The sums of a table of all values and of the distances up to a limit. Condition: these are its cells, with fewer
/// than 2^32 boards in all. It takes memory for four bytes a value and a distance, and is refused as 84 if that is
/// not there.
fn tally_of(alloc: Global, counts: &[u32], limit: u32) -> Result<Tally, FolderFault>
    requires long { length counts.now ≡ 256 * (limit + 1) }
    requires few { sum counts.now ≤ 4294967295 }
    ensures sums { IfOk result (AreSumsIn limit counts.now) }
    ensures fault { IfErr result (λ fault. fault ≡ FolderFault.Memory) }
{
    let rows = width_of(Column::Value, limit);
    let columns = width_of(Column::Distance, limit);
    let across = Lanes {
        many: rows,
        apart: columns,
        step: 1,
        cells: columns,
    };
    let down = Lanes {
        many: columns,
        apart: 1,
        step: columns,
        cells: rows,
    };
    let values = sums_of(alloc, counts, across)?;
    let distances = sums_of(alloc, counts, down)?;
    Ok(Tally {
        counts: shares_of(values.as_slice()),
        values,
        distances,
    })
}

/// The boards of a level, counted up to a limit. Conditions: the source has the level, and the table is that of
/// values and distances. It takes memory as [`count_by_source`] does, and for four bytes a value and a distance. It
/// is refused as [`count_by_source`] is, and as 83 with V7 if the limit is not the greatest distance.
pub(crate) fn tally_level<T: Threads + Sync, F: Folder>(
    rt: &T,
    alloc: Global,
    source: Source<'_>,
    folder: &mut F,
    table: CellTable,
) -> Result<Tally, FolderFault>
    requires table { table ≡ values_table table.level table.limit }
    requires level { table.level < levels_of source }
    requires low { table.level ≤ HIGHEST_LEVEL }
    ensures wide { IfOk result (AreWide table.limit) }
    ensures tallied { (images : List Image) → SaysBy source.entry (F.state folder.old).stands images
        → IfOk result (λ tally. IsSomeAnd (slice_get images table.level) (IsTallied table.level table.limit tally)) }
    ensures same { Unchanged (F.state folder.old) (F.state folder.new) }
    ensures fault { IfErr result (IsTallyFault source.entry (F.state folder.old).stands table) }
{
    let counts = count_by_source(rt, alloc, source, folder, table)?;
    let tally = tally_of(alloc, counts.as_slice(), table.limit)?;
    if tally.distances[table.limit as usize] == 0 {
        return Err(wrong_limit(table.level));
    }
    Ok(tally)
}
