//! The boards of a block, scanned by as many threads as there are processors.

ghost use Rattle.std.specs.Prelude.{◌≡◌, ◌+◌, IfOk, length, vec_len};
ghost use Rattle.std.specs.Thread.{IsSync};
ghost use Rattle.awari_table.specs.Images.{table_of};
ghost use Rattle.awari_block.specs.Shares.{IsBlockOf};
ghost use Rattle.awari_scan.specs.Scan.{AreScanned, CanScan, CanValue};

use crate::runs::{scan_cells, unscanned_cells};
use awari_block::{Block, Cell};
use awari_index::Index;
use awari_table::Shelf;
use rayon::{current_num_threads, join_mut};
use std::alloc::{AllocError, Global};
use std::thread::Threads;

/// Into how many pieces a block is cut at most.
const MOST_PIECES: usize = 64;

/// Fewer boards than these are not worth a thread.
const LEAST_PIECE: usize = 4096;

/// Gives what [`scanned_cells`](crate::runs::scanned_cells) does for the boards of this block, by as many
/// threads as there are processors.
pub fn scanned_cells_parallel<R: Threads + Sync>(
    rt: &R,
    alloc: Global,
    shelf: &Shelf,
    index: &Index,
    block: Block,
) -> Result<Vec<Cell>, AllocError>
    requires values { CanValue (table_of shelf.now).value (length shelf.now) }
    requires level { index.now ≡ length shelf.now }
    requires block { IsBlockOf (length shelf.now) block }
    ensures size { IfOk result (λ cells. block.start + vec_len cells ≡ block.end) }
    ensures scanned { IfOk result (λ cells. AreScanned (table_of shelf.now).value (length shelf.now) block.start block.end cells.items) }
{
    let mut cells = unscanned_cells(alloc, (block.end - block.start) as usize)?;

    // Two pieces a processor, since some boards take longer than others.
    let pieces = current_num_threads(rt).min(MOST_PIECES / 2) * 2;
    let scan = Scan { shelf, index };
    scan_pieces(rt, scan, block.start, pieces, cells.as_mut_slice());
    Ok(cells)
}

/// What a scan goes by.
#[derive(Clone, Copy)]
struct Scan<'a> {
    shelf: &'a Shelf,
    index: &'a Index,
}

/// Scans the boards from rank `first` on, one for each cell, in at most this many pieces, side by side.
#[cycle(halves)]
fn scan_pieces<R: Threads + Sync>(
    rt: &R,
    scan: Scan<'_>,
    first: u32,
    pieces: usize,
    cells: &mut [Cell],
)
    requires { CanScan (table_of scan.shelf.now).value (length scan.shelf.now) scan.index.now first (length cells.old) }
    ensures size { length cells.new ≡ length cells.old }
    ensures scanned { AreScanned (table_of scan.entry.shelf.now).value (length scan.entry.shelf.now) first (first + length cells.old) cells.new }
{
    if pieces < 2 || cells.len() < LEAST_PIECE {
        scan_cells(scan.shelf, scan.index, first, cells);
        return;
    }
    let pieces = pieces / 2;
    let half = cells.len() / 2;
    let middle = first + half as u32;
    let (low, high) = cells.split_at_mut(half);
    join_mut(
        rt,
        &mut ||
            requires { IsSync R.row × CanScan (table_of scan.shelf.now).value (length scan.shelf.now) scan.index.now first (length low.now) }
            ensures size { length low.exit.now ≡ length low.entry.now }
            ensures scanned { AreScanned (table_of scan.entry.shelf.now).value (length scan.entry.shelf.now) first (first + length low.entry.now) low.exit.now }
        { scan_pieces(rt, scan, first, pieces, low) },
        &mut ||
            requires { IsSync R.row × CanScan (table_of scan.shelf.now).value (length scan.shelf.now) scan.index.now middle (length high.now) }
            ensures size { length high.exit.now ≡ length high.entry.now }
            ensures scanned { AreScanned (table_of scan.entry.shelf.now).value (length scan.entry.shelf.now) middle (middle + length high.entry.now) high.exit.now }
        { scan_pieces(rt, scan, middle, pieces, high) },
    );
}
