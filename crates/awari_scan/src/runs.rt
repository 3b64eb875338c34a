//! The cells of a level's boards before they hear any note, run by run.
//!
//! The boards of a run have the same pits 0 to 5, so that all of them may play the same pits. If the
//! sowing from such a pit ends on the mover's side, it is a quiet move of each of them. So only the
//! other pits are played board by board.

ghost use Rattle.std.specs.Prelude.{◌≡◌, ◌<◌, ◌≤◌, ◌+◌, ℕ, List, IfOk, length, sum, take, vec_len};
ghost use Rattle.awari_board.specs.Rules.{IsBoard};
ghost use Rattle.awari_rank.specs.Rank.{size_of};
ghost use Rattle.awari_table.specs.Images.{table_of};
ghost use Rattle.awari_table.specs.declared.TheConstants.{HIGHEST_LEVEL};
ghost use Rattle.awari_scan.specs.Scan.{AreMovesBelow, AreScanned, CanScan, CanValue, IsOutlook, IsScannedCell};

use crate::outlooks::{Outlook, cell_of, see_capture, see_quiet};
use awari_block::{Cell, Pits};
use awari_index::Index;
use awari_packed::PackedBoard;
use awari_rank::ranks_tell_boards_apart;
use awari_table::{Shelf, boards_are_right};
use std::alloc::{AllocError, Global};

/// The legal pits of the boards of a run: those whose sowing ends on the mover's side, and those whose
/// sowing ends on the opponent's.
#[derive(Clone, Copy)]
struct RunMoves {
    near: Pits,
    far: Pits,
}

/// The cells of the boards of the shelf's next level from rank `start` up to, not including, rank
/// `end`, none of which has heard a note. No gain is open. It takes memory for eight bytes a board, and
/// is refused only if that runs out. Conditions: the shelf has at most `HIGHEST_LEVEL` levels, the
/// index is that of its next level, and the ranks are in order and within the level.
pub fn scanned_cells(
    alloc: Global,
    shelf: &Shelf,
    index: &Index,
    start: u32,
    end: u32,
) -> Result<Vec<Cell>, AllocError>
    requires low { length shelf.now ≤ HIGHEST_LEVEL }
    requires level { index.now ≡ length shelf.now }
    requires order { start ≤ end }
    requires within { end ≤ size_of (length shelf.now) }
    ensures size { IfOk result (λ cells. start + vec_len cells ≡ end) }
    ensures scanned { IfOk result (λ cells. AreScanned (table_of shelf.now).value (length shelf.now) start end cells.items) }
{
    boards_are_right();
    let _level = shelf.levels();
    let mut cells = unscanned_cells(alloc, (end - start) as usize)?;
    scan_cells(shelf, index, start, cells.as_mut_slice());
    Ok(cells)
}

/// Room for the cells of this many boards.
pub fn unscanned_cells(alloc: Global, boards: usize) -> Result<Vec<Cell>, AllocError>
    ensures { IfOk result (λ cells. vec_len cells ≡ boards) }
{
    vec![in alloc; Cell::of_end(0); boards]
}

/// Scans the boards from rank `start` on, one for each cell.
pub fn scan_cells(shelf: &Shelf, index: &Index, start: u32, cells: &mut [Cell])
    requires { CanScan (table_of shelf.now).value (length shelf.now) index.now start (length cells.old) }
    ensures size { length cells.new ≡ length cells.old }
    ensures scanned { AreScanned (table_of shelf.now).value (length shelf.now) start (start + length cells.old) cells.new }
{
    let end = start + cells.len() as u32;
    let mut rank = start;
    while rank < end {
        rank = scan_run(shelf, index, start, rank, cells);
    }
}

/// Scans the boards of one run from rank `rank` on, as far as there are cells, the first of which is
/// that of rank `start`. Gives the rank after them.
fn scan_run(shelf: &Shelf, index: &Index, start: u32, rank: u32, cells: &mut [Cell]) -> u32
    requires can { CanScan (table_of shelf.now).value (length shelf.now) index.now start (length cells.old) }
    requires inside { (start ≤ rank) × (rank < start + length cells.old) }
    ensures farther { (rank < result) × (result ≤ start + length cells.old) }
    ensures size { length cells.new ≡ length cells.old }
    ensures scanned { AreScanned (table_of shelf.now).value (length shelf.now) start rank cells.old
        → AreScanned (table_of shelf.now).value (length shelf.now) start result cells.new }
{
    ranks_tell_boards_apart();
    let place = (rank - start) as usize;
    let stretch = index.stretch(rank, start + cells.len() as u32);
    let moves = moves_of(&stretch.head);
    for k in 0..stretch.tails.len() {
        let tail = stretch.tails[k];
        let board = stretch.head.joined(&tail);
        cells[place + k] = scanned(shelf, &moves, &board);
    }
    rank + stretch.tails.len() as u32
}

/// The moves of the boards of a run of which this is one.
fn moves_of(head: &PackedBoard) -> RunMoves
    ensures { (p : List ℕ) → take 6 p ≡ take 6 head.now → sum p ≡ sum head.now → AreMovesBelow p 6 result.near result.far }
{
    let mut moves = RunMoves {
        near: Pits::NONE,
        far: Pits::NONE,
    };
    for pit in 0..6u8 {
        moves = with_move(moves, head, pit);
    }
    moves
}

/// These moves, and that from one pit more if it is legal.
fn with_move(moves: RunMoves, head: &PackedBoard, pit: u8) -> RunMoves
    requires { pit < 6 }
    ensures { (p : List ℕ) → take 6 p ≡ take 6 head.now → sum p ≡ sum head.now → AreMovesBelow p pit moves.near moves.far
        → AreMovesBelow p (pit + 1) result.near result.far }
{
    if !head.legal(pit) {
        return moves;
    }
    if head.last_pit(pit) < 6 {
        return RunMoves {
            near: moves.near.with(pit),
            ..moves
        };
    }
    RunMoves {
        far: moves.far.with(pit),
        ..moves
    }
}

/// The cell of a board of the shelf's next level that has these moves.
///
/// The six pits are written out as plain numbers. So the processor predicts the tests of each pit
/// apart, and the shifts of its move are constants. This works only if what they call is inlined into
/// each of them.
fn scanned(shelf: &Shelf, moves: &RunMoves, board: &PackedBoard) -> Cell
    requires board { IsBoard board.now }
    requires stones { sum board.now ≡ length shelf.now }
    requires values { CanValue (table_of shelf.now).value (length shelf.now) }
    requires moves { AreMovesBelow board.now 6 moves.now.near moves.now.far }
    ensures { IsScannedCell (table_of shelf.now).value board.now result }
{
    let mut seen = Outlook {
        quiet: Pits::NONE,
        plans: Pits::NONE,
        best: None,
    };
    see_pit(&mut seen, shelf, moves, board, 0);
    see_pit(&mut seen, shelf, moves, board, 1);
    see_pit(&mut seen, shelf, moves, board, 2);
    see_pit(&mut seen, shelf, moves, board, 3);
    see_pit(&mut seen, shelf, moves, board, 4);
    see_pit(&mut seen, shelf, moves, board, 5);
    cell_of(board, seen)
}

/// Adds one pit to the outlook, in place. If the outlook were handed on by value from pit to pit, it
/// would be written anew each time.
#[inline(always)]
fn see_pit(seen: &mut Outlook, shelf: &Shelf, moves: &RunMoves, board: &PackedBoard, pit: u8)
    requires stones { sum board.now ≡ length shelf.now }
    requires values { CanValue (table_of shelf.now).value (length shelf.now) }
    requires moves { AreMovesBelow board.now 6 moves.now.near moves.now.far }
    requires own { pit < 6 }
    requires seen { IsOutlook (table_of shelf.now).value board.now pit seen.old.quiet seen.old.best seen.old.plans }
    ensures { IsOutlook (table_of shelf.now).value board.now (pit + 1) seen.new.quiet seen.new.best seen.new.plans }
{
    if moves.near.has(pit) {
        see_quiet(seen, pit);
        return;
    }
    if !moves.far.has(pit) {
        return;
    }
    let moved = board.play(pit);
    if moved.captured == 0 {
        see_quiet(seen, pit);
        return;
    }
    see_capture(seen, shelf, pit, &moved);
}
