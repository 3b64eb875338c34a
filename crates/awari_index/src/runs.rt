//! The runs of a level.

ghost use Rattle.std.specs.Prelude.{◌≡◌, ◌+◌, ◌<◌, ◌≤◌, IfNone, IfOk, IfSome, length, sum, drop, slice_index_or};
ghost use Rattle.awari_board.specs.Rules.{IsBoard};
ghost use Rattle.awari_rank.specs.Rank.{rank_of, size_of};
ghost use Rattle.awari_index.specs.Runs.{AreAllTails, AreRuns, IsHead, fillings, first_of, no_run};

use crate::tails::Tails;
use awari_packed::PackedBoard;
use std::alloc::{AllocError, Global};

/// The boards with some pits 0 to 5: the first of them, its rank, and the stones in pits 6 to 11. The
/// first has these all in pit 11.
#[derive(Clone, Copy)]
pub struct Run {
    pub board: PackedBoard,
    pub start: u32,
    pub stones: u8,
}

/// The runs of this level, in order of rank.
pub fn runs_of(alloc: Global, level: u8, tails: &Tails) -> Result<Vec<Run>, AllocError>
    requires low { level ≤ 24 }
    requires tails { AreAllTails (level + 1) tails.now.starts.items tails.now.boards.items }
    ensures { IfOk result (λ runs. AreRuns level tails.now.starts.items runs.items (size_of level)) }
{
    let mut runs = Vec::new(alloc);
    let mut head = Some(run_from(PackedBoard::unrank(level, 0)));
    while let Some(run) = head {
        runs.push(run)?;
        head = next_run(&run, tails);
    }
    Ok(runs)
}

/// The run that begins with this board.
fn run_from(board: PackedBoard) -> Run
    ensures { result ≡ record { board = board; start = rank_of board; stones = slice_index_or board 11 0 } }
{
    Run {
        board,
        start: board.rank(),
        stones: board.pit(11),
    }
}

/// The run after this one, none if this is the last.
fn next_run(run: &Run, tails: &Tails) -> Option<Run>
    requires low { sum run.now.board ≤ 24 }
    requires head { IsHead (sum run.now.board) run.now }
    requires tails { AreAllTails (sum run.now.board + 1) tails.now.starts.items tails.now.boards.items }
    ensures some { IfSome result (λ next. IsHead (sum run.now.board) next × (next.start ≡ run.now.start + fillings tails.now.starts.items run.now.stones)) }
    ensures none { IfNone result (run.now.start + fillings tails.now.starts.items run.now.stones ≡ size_of (sum run.now.board)) }
{
    let last = tails.starts[run.stones as usize + 1] - 1;
    let board = run.board.joined(&tails.boards[last]);
    match board.successor() {
        Some(next) => Some(run_from(next)),
        None => None,
    }
}

/// The run of this rank, from run `from` on, which begins there or earlier.
#[inline(always)]
pub fn run_of(runs: &[Run], from: usize, rank: u32) -> usize
    requires from { from < length runs.now }
    requires start { (slice_index_or runs.now from no_run).start ≤ rank }
    ensures inside { result < length runs.now }
    ensures begun { (slice_index_or runs.now result no_run).start ≤ rank }
    ensures last { result + 1 < length runs.now → rank < (slice_index_or runs.now (result + 1) no_run).start }
{
    let mut run = from;
    while run + 1 < runs.len() && runs[run + 1].start <= rank {
        run += 1;
    }
    run
}
