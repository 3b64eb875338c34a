//! The tables, and a board by its rank.

ghost use Rattle.std.specs.Prelude.{◌≡◌, ◌<◌, ◌≤◌, ◌+◌, ◌⊎◌, IfOk, length, sum, slice_index_or};
ghost use Rattle.awari_board.specs.Rules.{IsBoard};
ghost use Rattle.awari_rank.specs.Rank.{rank_of, size_of};
ghost use Rattle.awari_index.specs.Runs.{AreWindows, EndsRun, IsStretch, no_run};

use crate::runs::{Run, run_of, runs_of};
use crate::tails::Tails;
use awari_packed::PackedBoard;
use awari_rank::size;
use std::alloc::{AllocError, Global};
use std::marker::Model;

/// How many ranks have a window together.
pub const WIDTH: u32 = 128;

/// The boards of a level by rank. Contracts see its level.
#[derive(Drop)]
pub struct Index {
    level: u8,
    tails: Tails,
    runs: Vec<Run>,
    /// For each window of ranks the run of its first.
    windows: Vec<usize>,
}

impl Model for Index {
    ghost use Rattle.std.specs.Prelude.{ℕ};
    ghost use Rattle.awari_index.specs.IndexFields.{IsIndex};

    ghost Value = { ℕ };

    ghost view = { λ a. a.level };

    ghost invariant = { IsIndex };
}

/// Boards of one run, one after the other in rank: each is the head joined with one of the tails.
#[derive(Clone, Copy)]
pub struct Stretch<'a> {
    /// A board of the run. Its pits 0 to 5 are those of all boards of the stretch.
    pub head: PackedBoard,
    /// For each board of the stretch a board that has its pits 6 to 11, in order of rank.
    pub tails: &'a [PackedBoard],
}

impl Index {
    /// The boards of this level. Condition: at most 24 stones. It is refused only if memory runs out.
    pub fn of(alloc: Global, level: u8) -> Result<Index, AllocError>
        requires { level ≤ 24 }
        ensures { IfOk result (λ index. index ≡ level) }
    {
        let tails = Tails::of(alloc, level)?;
        let runs = runs_of(alloc, level, &tails)?;
        let windows = windows_of(alloc, size(level), runs.as_slice())?;
        Ok(Index {
            level,
            tails,
            runs,
            windows,
        })
    }

    /// The board of this rank. Condition: the rank is below the number of boards of the level.
    #[inline(always)]
    pub fn board(&self, rank: u32) -> PackedBoard
        requires { rank < size_of self.now }
        ensures board { IsBoard result }
        ensures stones { sum result ≡ self.now }
        ensures rank { rank_of result ≡ rank }
    {
        let from = self.windows[(rank / WIDTH) as usize];
        let run = self.runs[run_of(self.runs.as_slice(), from, rank)];
        let start = self.tails.starts[run.stones as usize];
        let tail = self.tails.boards[start + (rank - run.start) as usize];
        run.board.joined(&tail)
    }

    /// The boards of one run from rank `rank` on, up to the end of the run or to rank `end`, which is
    /// not among them. Conditions: `rank` is below `end`, and `end` is at most the number of boards of
    /// the level.
    pub fn stretch(&self, rank: u32, end: u32) -> Stretch<'_>
        requires order { rank < end }
        requires within { end ≤ size_of self.now }
        ensures boards { IsStretch self.now rank result.head result.tails.now }
        ensures within { rank + length result.tails.now ≤ end }
        ensures last { (rank + length result.tails.now ≡ end) ⊎ EndsRun result.tails.now }
    {
        let from = self.windows[(rank / WIDTH) as usize];
        let run = self.runs[run_of(self.runs.as_slice(), from, rank)];
        let place = (rank - run.start) as usize;
        Stretch {
            head: run.board,
            tails: self.tails.from(run.stones, place, (end - rank) as usize),
        }
    }
}

/// For each window of ranks below `size` the run of its first.
fn windows_of(alloc: Global, size: u32, runs: &[Run]) -> Result<Vec<usize>, AllocError>
    requires some { 0 < length runs.now }
    requires first { (slice_index_or runs.now 0 no_run).start ≡ 0 }
    ensures { IfOk result (λ windows. AreWindows WIDTH size runs.now windows.items) }
{
    let mut windows = Vec::new(alloc);
    let mut run = 0;
    for window in 0..size.div_ceil(WIDTH) {
        run = run_of(runs, run, window * WIDTH);
        windows.push(run)?;
    }
    Ok(windows)
}
