//! The notes that the boards of a chunk give, laid into a list for each block. No cell is read or written.

ghost use Rattle.std.specs.Prelude.{◌≡◌, ◌+◌, ◌/◌, ◌^◌, ◌<◌, ◌≤◌, ◌∷◌, [], All, OnOk, length, sum};
ghost use Rattle.awari_board.specs.Rules.{IsBoard};
ghost use Rattle.awari_rank.specs.Rank.{rank_of, size_of};
ghost use Rattle.awari_segments.specs.Ahead.{AreBoards};
ghost use Rattle.awari_segments.specs.Lists.{with_put};
ghost use Rattle.awari_segments.specs.Segments.{Finds};

use crate::lists::Lists;
use awari_board::moves_keep_boards;
use awari_index::Index;
use awari_packed::PackedBoard;
use awari_scan::find_all;
use std::alloc::AllocError;

/// How many boards are looked up at a time. Processors wait for fewer reads than this at a time.
const AHEAD: usize = 32;

/// Lays the notes for the predecessors of these boards into the list of each block, if a block has 2
/// to the power `log` of boards. What is found of one board goes through `targets`. Refused only if
/// memory runs out.
pub fn find(
    index: &Index,
    log: u32,
    ranks: &[u32],
    targets: &mut [u32],
    lists: &mut Lists,
) -> Result<(), AllocError>
    requires ranks { All (λ rank. rank < size_of index.now) ranks.now }
    requires low { index.now ≤ 24 }
    requires log { log < 32 }
    requires places { 288 ≤ length targets.old }
    ensures found { OnOk result (Finds index.now (2 ^ log) ranks.now lists.old lists.new) }
    ensures targets { length targets.new ≡ length targets.old }
{
    let mut start: usize = 0;
    while start < ranks.len() {
        let end = ranks.len().min(start + AHEAD);
        find_batch(index, log, &ranks[start..end], targets, lists)?;
        start = end;
    }
    Ok(())
}

/// Lays the notes for the predecessors of a few boards. All of them are looked up before the first is
/// searched: what the index has of one is seldom in the cache, and so the waits for memory overlap.
fn find_batch(
    index: &Index,
    log: u32,
    ranks: &[u32],
    targets: &mut [u32],
    lists: &mut Lists,
) -> Result<(), AllocError>
    requires few { (1 ≤ length ranks.now) × (length ranks.now ≤ AHEAD) }
    requires ranks { All (λ rank. rank < size_of index.now) ranks.now }
    requires low { index.now ≤ 24 }
    requires log { log < 32 }
    requires places { 288 ≤ length targets.old }
    ensures found { OnOk result (Finds index.now (2 ^ log) ranks.now lists.old lists.new) }
    ensures targets { length targets.new ≡ length targets.old }
{
    let boards = boards_of(index, ranks);
    for k in 0..ranks.len() {
        let board = boards[k];
        find_of(log, &board, targets, lists)?;
    }
    Ok(())
}

/// The boards of these ranks, and others behind them.
#[inline(always)]
fn boards_of(index: &Index, ranks: &[u32]) -> [PackedBoard; AHEAD]
    requires few { (1 ≤ length ranks.now) × (length ranks.now ≤ AHEAD) }
    requires ranks { All (λ rank. rank < size_of index.now) ranks.now }
    ensures { AreBoards index.now ranks.now result }
{
    let mut boards = [index.board(ranks[0]); AHEAD];
    for k in 0..ranks.len() {
        boards[k] = index.board(ranks[k]);
    }
    boards
}

/// Lays the notes for the predecessors of this board.
fn find_of(
    log: u32,
    board: &PackedBoard,
    targets: &mut [u32],
    lists: &mut Lists,
) -> Result<(), AllocError>
    requires board { IsBoard board.now }
    requires low { sum board.now ≤ 24 }
    requires log { log < 32 }
    requires places { 288 ≤ length targets.old }
    ensures found { OnOk result (Finds (sum board.now) (2 ^ log) (rank_of board.now ∷ []) lists.old lists.new) }
    ensures targets { length targets.new ≡ length targets.old }
{
    moves_keep_boards();
    let count = find_all(board, targets);
    for k in 0..count {
        lay(log, targets[k], lists)?;
    }
    Ok(())
}

/// Lays the note of this code.
#[inline(always)]
fn lay(log: u32, code: u32, lists: &mut Lists) -> Result<(), AllocError>
    requires log { log < 32 }
    ensures { OnOk result (lists.new ≡ with_put lists.old (code / 8 / 2 ^ log) code) }
{
    lists.put((code / 8) >> log, code)
}
