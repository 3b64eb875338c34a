//! The command `plays`: how many plays of a length there are from a board.

ghost use Rattle.std.specs.Prelude.{◌≡◌, ◌≤◌, IfOk, IfErr};
ghost use Rattle.awari_boards.specs.Plays.{AreCounts, IsCounted, IsNotCounted, IsUncounted, PrintsPlays};

use crate::memo::Memo;
use crate::sums::PlayCounts;
use awari_answers::{NoAnswer, Remarks, print, refuse, status_of};
use awari_board::Board;
use std::alloc::Global;

/// The play of no ply, of which the ply before captured this many stones and left this board.
fn last_of(captured: u8, board: &Board) -> PlayCounts
    ensures { AreCounts 0 captured board.now result }
{
    PlayCounts {
        plays: 1,
        captures: u64::from(captured > 0),
        ends: u64::from(board.end().is_some()),
    }
}

/// The plays of this many plies from the board. The ply before captured this many stones.
fn counts_after(
    memo: &mut Memo,
    captured: u8,
    board: &Board,
    plies: u8,
) -> Result<PlayCounts, NoAnswer>
    ensures counted { IfOk result (AreCounts plies captured board.now) }
    ensures fault { IfErr result (IsUncounted plies captured board.now) }
{
    if plies == 0 {
        return Ok(last_of(captured, board));
    }
    if let Some(counts) = memo.known(board, plies) {
        return Ok(counts);
    }
    let mut counts = PlayCounts::NONE;
    for pit in 0..6u8 {
        let Ok(moved) = board.play(pit) else {
            continue;
        };
        let after = match counts_after(memo, moved.captured, &moved.board, plies - 1) {
            Ok(after) => after,
            Err(fault) => return Err(fault),
        };
        let Some(sum) = counts.plus(after) else {
            return Err(NoAnswer::Overflow);
        };
        counts = sum;
    }
    // Before the last ply there are the most boards, and each is soon counted again.
    if plies > 1 {
        memo.keep(board, plies, counts)?;
    }
    Ok(counts)
}

/// How many plays of this many plies there are from the board that `text` spells. A text that is not a
/// board is refused as [`Board::parse`] refuses it, 2^64 plays or more as 94, and want of memory as 84. It takes
/// memory for each board that plays reach before their last two plies, and with each ply some five times as long.
pub fn plays_from(alloc: Global, text: &[u8], plies: u8) -> Result<PlayCounts, NoAnswer>
    ensures counted { IfOk result (IsCounted text.now plies) }
    ensures fault { IfErr result (IsNotCounted text.now plies) }
{
    let board = Board::parse(text)?;
    counts_after(&mut Memo::new(alloc), 0, &board, plies)
}

/// Prints how many plays of this many plies there are from a board, or the refusal.
pub fn run_plays<W: Remarks>(alloc: Global, board: &str, plies: u8, writer: &mut W) -> u8
    ensures status { result ≤ 1 }
    ensures counted { result ≡ 0 → PrintsPlays board.now plies (W.contents writer.old) (W.contents writer.new) }
{
    match plays_from(alloc, board.as_bytes(), plies) {
        Ok(counts) => status_of(print(writer, &counts)),
        Err(fault) => refuse(writer, fault.refusal()),
    }
}
