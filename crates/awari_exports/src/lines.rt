//! A line of play, as far as there is room for it.

ghost use Rattle.std.specs.Prelude.{◌≡◌, ◌≢◌, ◌≤◌, ◌↔◌, ◌+◌, ◌++◌, IfErr, IfOk, Err, drop, length, sum, take};
ghost use Rattle.awari_table.specs.Images.{entry_of, greatest_limit, table_of};
ghost use Rattle.awari_theory.specs.Truth.{TellsTruth};
ghost use Rattle.awari_play.specs.BestLine.{IsBestLine};
ghost use Rattle.awari_play.specs.LineFault.{IsDue};
ghost use Rattle.awari_exports.specs.Boards.{IsAnswerWithRoom};
ghost use Rattle.awari_exports.specs.Owned.{held_in, levels_in};
ghost use Rattle.awari_exports.specs.Told.{TellsLine};

use crate::answers::NOT_YET;
use crate::handles::{Handle, put, take};
use awari_board::{Board, BoardFault};
use awari_folder::FolderFault;
use awari_play::{Line, LineFault, best_line};
use awari_table::Shelf;
use awari_theory::shelves_tell_the_truth;
use std::alloc::Global;

/// The line of play by the plans of both sides, up to its first outcome, and 0; or 3 or 59 as
/// `awari_probe` answers, or 84 if memory runs out. As much of the line is written as there is room for;
/// `moves` is how many it has. It takes a byte a move, and gives it back.
#[unsafe(no_mangle)]
pub extern "C" fn awari_line(
    handle: &mut Handle,
    alloc: Global,
    pits: &[u8; 12],
    out: &mut [u8],
    moves: &mut usize,
) -> u8
    ensures answer { IsAnswerWithRoom (sum pits.now) (length (levels_in handle.old.is_open handle.old.held)) result }
    ensures line { result ≡ 0 → TellsLine (levels_in handle.old.is_open handle.old.held) pits.now out.old out.new moves.new }
    // What the levels say of each of their boards is the truth.
    ensures meaning { result ≡ 0 → TellsTruth (levels_in handle.old.is_open handle.old.held) }
    ensures untouched { result ≢ 0 → (out.new ≡ out.old) × (moves.new ≡ moves.old) }
    ensures kept { held_in handle.new.is_open handle.new.held ≡ held_in handle.old.is_open handle.old.held }
{
    let Ok(board) = Board::of(*pits) else {
        return BoardFault::TooMany.number();
    };
    let Some(held) = take(handle, alloc) else {
        return NOT_YET;
    };
    shelves_tell_the_truth();
    let _levels = held.shelf().levels();
    let found = line_of(alloc, held.shelf(), board);
    put(handle, held);
    match found {
        Ok(line) => {
            *moves = line.moves.len();
            copy_to(out, line.moves.as_slice());
            0
        }
        Err(LineFault::NotYet { .. }) => NOT_YET,
        Err(LineFault::Memory) => FolderFault::Memory.number(),
    }
}

/// The line of play from the board by the plans of both sides. It ends by the limit of the levels up to
/// the board's, so levels above do not change it.
fn line_of(alloc: Global, shelf: &Shelf, board: Board) -> Result<Line, LineFault>
    ensures line { IfOk result (λ line. IsBestLine (table_of shelf.now) (greatest_limit (take (sum board + 1) shelf.now)) board line.moves.items line.outcome) }
    ensures value { IfOk result (λ line. line.outcome ≡ (entry_of shelf.now board).value) }
    ensures not_yet { (result ≡ Err (LineFault.NotYet (length shelf.now))) ↔ (length shelf.now ≤ sum board) }
    ensures fault { IfErr result (IsDue (length shelf.now) (sum board)) }
{
    let levels = shelf.levels();
    let stones = board.stones();
    if stones >= levels {
        return Err(LineFault::NotYet { levels });
    }
    let limit = limit_below(shelf, stones + 1);
    best_line(alloc, shelf, board, limit)
}

/// The greatest limit of the levels below this number, of which there are as many.
fn limit_below(shelf: &Shelf, levels: u8) -> u32
    requires { levels ≤ length shelf.now }
    ensures { result ≡ greatest_limit (take levels shelf.now) }
{
    let mut limit = 0;
    for number in 0..levels {
        limit = limit.max(shelf.level(number).limit());
    }
    limit
}

/// Writes the bytes from the start on, as far as there is room.
pub(crate) fn copy_to(room: &mut [u8], bytes: &[u8])
    ensures { room.new ≡ take (length room.old) bytes.now ++ drop (length bytes.now) room.old }
{
    let count = room.len().min(bytes.len());
    let (written, _) = room.split_at_mut(count);
    let (fitting, _) = bytes.split_at(count);
    written.copy_from_slice(fitting);
}
