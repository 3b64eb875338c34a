//! The fillings of pits 6 to 11.

ghost use Rattle.std.specs.Prelude.{◌≡◌, ℕ, ◌+◌, ◌-◌, ◌<◌, ◌≤◌, ◌++◌, min, IfOk, OnOk, length, slice_index_or};
ghost use Rattle.awari_rank.specs.Fillings.{last_of, none};
ghost use Rattle.awari_rank.specs.Rank.{size_of};
ghost use Rattle.awari_index.specs.Runs.{AreAllTails, AreTailsAt, IsBoardAt, PushesTails, board_in, fillings};

use awari_board::Board;
use awari_packed::PackedBoard;
use std::alloc::{AllocError, Global};

/// For each number of stones all boards that have them in pits 6 to 11, in order of rank, and where
/// they begin.
#[derive(Drop)]
pub struct Tails {
    pub boards: Vec<PackedBoard>,
    pub starts: Vec<usize>,
}

impl Tails {
    /// The fillings of 0 to `most` stones.
    pub fn of(alloc: Global, most: u8) -> Result<Tails, AllocError>
        requires { most ≤ 24 }
        ensures { IfOk result (λ tails. AreAllTails (most + 1) tails.starts.items tails.boards.items) }
    {
        let mut boards = Vec::new(alloc);
        let mut starts = Vec::new(alloc);
        starts.push(0)?;
        for stones in 0..most + 1 {
            push_tails(&mut boards, stones)?;
            starts.push(boards.len())?;
        }
        Ok(Tails { boards, starts })
    }

    /// The fillings of this many stones from number `from` on, at most `most` of them.
    pub fn from(&self, stones: u8, from: usize, most: usize) -> &[PackedBoard]
        requires all { AreTailsAt stones self.now.starts.items self.now.boards.items }
        requires from { from < fillings self.now.starts.items stones }
        ensures count { length result.now ≡ min most (fillings self.now.starts.items stones - from) }
        ensures each { (j : ℕ) → j < length result.now → board_in result.now j ≡ board_in self.now.boards.items (slice_index_or self.now.starts.items stones 0 + from + j) }
    {
        let low = self.starts[stones as usize] + from;
        let left = self.starts[stones as usize + 1] - low;
        &self.boards.as_slice()[low..low + most.min(left)]
    }
}

/// Puts the fillings of this many stones behind the others.
fn push_tails(boards: &mut Vec<PackedBoard>, stones: u8) -> Result<(), AllocError>
    requires { stones ≤ 24 }
    ensures { OnOk result (PushesTails stones boards.old.items boards.new.items) }
{
    let last = last_tail(stones).rank();
    let mut board = PackedBoard::unrank(stones, 0);
    for _rank in 0..last {
        boards.push(board)?;
        board = next(&board);
    }
    boards.push(board)?;
    Ok(())
}

/// The board of the next rank, or this one if it is the last of its level.
fn next(board: &PackedBoard) -> PackedBoard
    ensures { (n r : ℕ) → IsBoardAt n r board.now → r + 1 < size_of n → IsBoardAt n (r + 1) result }
{
    match board.successor() {
        Some(next) => next,
        None => *board,
    }
}

/// The last filling: all stones lie in pit 6.
fn last_tail(stones: u8) -> PackedBoard
    requires { stones ≤ 24 }
    ensures { result ≡ none ++ last_of stones }
{
    PackedBoard::new(&Board::new([0, 0, 0, 0, 0, 0, stones, 0, 0, 0, 0, 0]))
}
