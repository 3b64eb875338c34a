//! The longest line of play.

ghost use Rattle.std.specs.Prelude.{◌≡◌, ◌≢◌, length, sum};
ghost use Rattle.awari_theory.specs.Truth.{TellsTruth};
ghost use Rattle.awari_exports.specs.Boards.{IsAnswerWithRoom};
ghost use Rattle.awari_exports.specs.Owned.{held_in, levels_in};
ghost use Rattle.awari_exports.specs.Told.{TellsLongestLine};

use crate::answers::NOT_YET;
use crate::handles::{Handle, put, take};
use crate::lines::copy_to;
use awari_board::{Board, BoardFault};
use awari_folder::FolderFault;
use awari_play::{LineFault, longest_line};
use awari_theory::shelves_tell_the_truth;
use std::alloc::Global;

/// The line in which the side that the board favours plays by the plans, and the other holds out as long as
/// it can. It answers, writes and takes memory as `awari_line` does.
#[unsafe(no_mangle)]
pub extern "C" fn awari_longest_line(
    handle: &mut Handle,
    alloc: Global,
    pits: &[u8; 12],
    out: &mut [u8],
    moves: &mut usize,
) -> u8
    ensures answer { IsAnswerWithRoom (sum pits.now) (length (levels_in handle.old.is_open handle.old.held)) result }
    ensures line { result ≡ 0 → TellsLongestLine (levels_in handle.old.is_open handle.old.held) pits.now out.old out.new moves.new }
    // What the levels say of each of their boards is the truth.
    ensures meaning { result ≡ 0 → TellsTruth (levels_in handle.old.is_open handle.old.held) }
    ensures untouched { result ≢ 0 → (out.new ≡ out.old) × (moves.new ≡ moves.old) }
    ensures kept { held_in handle.new.is_open handle.new.held ≡ held_in handle.old.is_open handle.old.held }
{
    let Ok(board) = Board::of(*pits) else {
        return BoardFault::TooMany.number();
    };
    let Some(held) = take(handle, alloc) else {
        return NOT_YET;
    };
    shelves_tell_the_truth();
    let _levels = held.shelf().levels();
    let found = longest_line(alloc, held.shelf(), board);
    put(handle, held);
    match found {
        Ok(line) => {
            *moves = line.len();
            copy_to(out, line.as_slice());
            0
        }
        Err(LineFault::NotYet { .. }) => NOT_YET,
        Err(LineFault::Memory) => FolderFault::Memory.number(),
    }
}
