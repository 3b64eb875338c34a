//! Many boards in one call.

ghost use Rattle.std.specs.Prelude.{◌≡◌, ◌≢◌, ◌≤◌, ◌<◌, ◌++◌, List, ℕ, IfErr, IfOk, Some, drop, length, map, min, slice_get, sum, take, [], ⊤};
ghost use Rattle.awari_table.specs.Images.{entry_of};
ghost use Rattle.awari_theory.specs.Truth.{TellsTruth};
ghost use Rattle.awari_exports.specs.Boards.{IsAnswer};
ghost use Rattle.awari_exports.specs.Owned.{held_in, levels_in};
ghost use Rattle.awari_exports.specs.Told.{told_entries, told_entry, IsTold};

use crate::answers::{PlainEntry, told_entry};
use crate::handles::{Handle, put, take};
use awari_board::Board;
use awari_table::Shelf;
use awari_theory::shelves_tell_the_truth;
use std::alloc::Global;

/// What the levels say of many boards, in order, up to the first that is refused: 0 if there is none, else
/// 3 or 59 as `awari_probe` answers for that board. `told` is how many are told, as many as there is room
/// for at most. It takes no memory.
#[unsafe(no_mangle)]
pub extern "C" fn awari_probe_many(
    handle: &mut Handle,
    alloc: Global,
    boards: &[[u8; 12]],
    out: &mut [PlainEntry],
    told: &mut usize,
) -> u8
    ensures told { IsTold (levels_in handle.old.is_open handle.old.held) boards.now (length out.old) told.new result }
    ensures entries { out.new ≡ told_entries (levels_in handle.old.is_open handle.old.held) (take told.new boards.now) ++ drop told.new out.old }
    // What the levels say of each of their boards is the truth.
    ensures meaning { TellsTruth (levels_in handle.old.is_open handle.old.held) }
    ensures kept { held_in handle.new.is_open handle.new.held ≡ held_in handle.old.is_open handle.old.held }
{
    shelves_tell_the_truth();
    let (answer, count) = match take(handle, alloc) {
        Some(held) => {
            let found = tell_each(held.shelf(), boards, out);
            put(handle, held);
            found
        }
        None => tell_each(&Shelf::empty(), boards, out),
    };
    *told = count;
    answer
}

/// What the shelf says of the boards, up to the first that is refused: its answer, or 0, and how many are
/// told.
fn tell_each(shelf: &Shelf, boards: &[[u8; 12]], out: &mut [PlainEntry]) -> (u8, usize)
    ensures told { IsTold shelf.now boards.now (length out.old) result.1 result.0 }
    ensures entries { out.new ≡ told_entries shelf.now (take result.1 boards.now) ++ drop result.1 out.old }
    ensures meaning { TellsTruth shelf.now }
{
    shelves_tell_the_truth();
    let _levels = shelf.levels();
    let count = boards.len().min(out.len());
    for place in 0..count {
        match told_by(shelf, &boards[place]) {
            Ok(entry) => out[place] = entry,
            Err(answer) => return (answer, place),
        }
    }
    (0, count)
}

/// What the shelf says of a board, or the answer that refuses it.
fn told_by(shelf: &Shelf, pits: &[u8; 12]) -> Result<PlainEntry, u8>
    ensures entry { IfOk result (λ entry. entry ≡ told_entry (entry_of shelf.now pits.now)) }
    ensures known { IfOk result (λ _. sum pits.now < length shelf.now) }
    ensures refused { IfErr result (λ answer. (answer ≢ 0) × IsAnswer (sum pits.now) (length shelf.now) answer) }
{
    let board = Board::of(*pits).map_err(|fault| fault.number())?;
    let entry = shelf.entry(&board).map_err(|fault| fault.number())?;
    Ok(told_entry(entry))
}
