//! What a program calls with a handle. A parameter of type `Global` takes no bytes: nothing is passed for it.

ghost use Rattle.std.specs.Prelude.{◌≡◌, ◌≢◌, ◌<◌, ◌≤◌, None, ℕ, false, length, sum, slice_index_or};
ghost use Rattle.awari_table.specs.Images.{entry_of, table_of};
ghost use Rattle.awari_theory.specs.Truth.{TellsTruth};
ghost use Rattle.awari_folder.specs.NextFile.{IsNextFile};
ghost use Rattle.awari_exports.specs.Boards.{IsAnswer};
ghost use Rattle.awari_exports.specs.Told.{told_entry, IsRefusal, TellsCounts, TellsMove};
ghost use Rattle.awari_exports.specs.declared.answers.PlainMove.{PlainMove as AMove};
ghost use Rattle.awari_exports.specs.Owned.{held_in, stored_in, levels_in, digest_in, draft_in, candidate_in};

use crate::answers::{
    NOT_YET, PlainEntry, PlainFault, PlainMove, told_entry, told_fault, told_moves,
};
use crate::handles::{Handle, put, take};
use crate::held::Held;
use crate::storing::{add_first, add_to, shared_levels};
use crate::telling::{PlainCounts, told_counts};
use awari_board::{Board, BoardFault};
use awari_folder::FolderFault;
use awari_packed::PackedBoard;
use awari_theory::shelves_tell_the_truth;
use std::alloc::Global;

/// Puts the next level on the levels behind the handle, if these bytes are its file, and answers 0.
/// A level that was begun or read is given up then. Otherwise the handle stays as it is, closed if it was, and the
/// number of the refusal is answered, 80, 81, 83, 84 or 86, with more of it in `fault`.
#[unsafe(no_mangle)]
pub extern "C" fn awari_add_level(
    handle: &mut Handle,
    alloc: Global,
    bytes: &[u8],
    fault: &mut PlainFault,
) -> u8
    ensures ok { result ≡ 0 → IsNextFile (levels_in handle.old.is_open handle.old.held) (digest_in handle.old.is_open handle.old.held) bytes.now (levels_in handle.new.is_open handle.new.held) (digest_in handle.new.is_open handle.new.held) }
    // What the levels say of each of their boards is the truth: following their plans secures the
    // value, soon, the value is what the board is worth, and the distance is the least.
    ensures meaning { result ≡ 0 → TellsTruth (levels_in handle.new.is_open handle.new.held) }
    ensures refused { result ≢ 0 → IsRefusal (levels_in handle.old.is_open handle.old.held) (digest_in handle.old.is_open handle.old.held) bytes.now result fault.new }
    ensures kept { result ≢ 0 → held_in handle.new.is_open handle.new.held ≡ held_in handle.old.is_open handle.old.held }
{
    let added = match take(handle, alloc) {
        Some(held) => add_to(handle, alloc, held, bytes),
        None => add_first(handle, alloc, bytes),
    };
    match added {
        Ok(()) => 0,
        Err(refusal) => {
            *fault = told_fault(refusal);
            refusal.number()
        }
    }
}

/// How many levels there are behind the handle.
#[unsafe(no_mangle)]
pub extern "C" fn awari_levels(handle: &mut Handle, alloc: Global) -> u8
    ensures levels { result ≡ length (levels_in handle.old.is_open handle.old.held) }
    ensures kept { held_in handle.new.is_open handle.new.held ≡ held_in handle.old.is_open handle.old.held }
{
    let Some(held) = take(handle, alloc) else {
        return 0;
    };
    let levels = held.shelf().levels();
    put(handle, held);
    levels
}

/// What the levels say of a board, and 0; or 3 if it has more than 48 stones, or 59 if it has as many as
/// there are levels or more. It takes no memory.
#[unsafe(no_mangle)]
pub extern "C" fn awari_probe(
    handle: &mut Handle,
    alloc: Global,
    pits: &[u8; 12],
    out: &mut PlainEntry,
) -> u8
    ensures answer { IsAnswer (sum pits.now) (length (levels_in handle.old.is_open handle.old.held)) result }
    ensures entry { result ≡ 0 → out.new ≡ told_entry (entry_of (levels_in handle.old.is_open handle.old.held) pits.now) }
    // What the levels say of each of their boards is the truth.
    ensures meaning { result ≡ 0 → TellsTruth (levels_in handle.old.is_open handle.old.held) }
    ensures untouched { result ≢ 0 → out.new ≡ out.old }
    ensures kept { held_in handle.new.is_open handle.new.held ≡ held_in handle.old.is_open handle.old.held }
{
    let Ok(board) = Board::of(*pits) else {
        return BoardFault::TooMany.number();
    };
    let Some(held) = take(handle, alloc) else {
        return NOT_YET;
    };
    shelves_tell_the_truth();
    let _levels = held.shelf().levels();
    let found = held.shelf().entry(&board);
    put(handle, held);
    match found {
        Ok(entry) => {
            *out = told_entry(entry);
            0
        }
        Err(fault) => fault.number(),
    }
}

/// The value of a board alone, and 0; or 3 or 59 as `awari_probe` answers. Neither plan nor distance is
/// read. It takes no memory.
#[unsafe(no_mangle)]
pub extern "C" fn awari_probe_value(
    handle: &mut Handle,
    alloc: Global,
    pits: &[u8; 12],
    value: &mut i8,
) -> u8
    ensures answer { IsAnswer (sum pits.now) (length (levels_in handle.old.is_open handle.old.held)) result }
    ensures value { result ≡ 0 → value.new ≡ (entry_of (levels_in handle.old.is_open handle.old.held) pits.now).value }
    // What the levels say of each of their boards is the truth.
    ensures meaning { result ≡ 0 → TellsTruth (levels_in handle.old.is_open handle.old.held) }
    ensures untouched { result ≢ 0 → value.new ≡ value.old }
    ensures kept { held_in handle.new.is_open handle.new.held ≡ held_in handle.old.is_open handle.old.held }
{
    let Ok(board) = Board::of(*pits) else {
        return BoardFault::TooMany.number();
    };
    let Some(held) = take(handle, alloc) else {
        return NOT_YET;
    };
    let stones = board.stones();
    if stones >= held.shelf().levels() {
        put(handle, held);
        return NOT_YET;
    }
    shelves_tell_the_truth();
    let found = held.shelf().value_below(&PackedBoard::new(&board), stones);
    put(handle, held);
    *value = found;
    0
}

/// What each pit of a board is worth, and 0; or 3 or 59 as `awari_probe` answers. It takes no memory.
#[unsafe(no_mangle)]
pub extern "C" fn awari_probe_moves(
    handle: &mut Handle,
    alloc: Global,
    pits: &[u8; 12],
    out: &mut [PlainMove; 6],
) -> u8
    ensures answer { IsAnswer (sum pits.now) (length (levels_in handle.old.is_open handle.old.held)) result }
    // What the levels say of each of their boards is the truth.
    ensures meaning { result ≡ 0 → TellsTruth (levels_in handle.old.is_open handle.old.held) }
    ensures moves { result ≡ 0 → (pit : ℕ) (d : AMove) → pit < 6 → TellsMove (table_of (levels_in handle.old.is_open handle.old.held)) pits.now pit (slice_index_or out.new pit d) }
    ensures untouched { result ≢ 0 → out.new ≡ out.old }
    ensures kept { held_in handle.new.is_open handle.new.held ≡ held_in handle.old.is_open handle.old.held }
{
    let Ok(board) = Board::of(*pits) else {
        return BoardFault::TooMany.number();
    };
    let Some(held) = take(handle, alloc) else {
        return NOT_YET;
    };
    if board.stones() >= held.shelf().levels() {
        put(handle, held);
        return NOT_YET;
    }
    shelves_tell_the_truth();
    let moves = told_moves(held.shelf(), &board);
    put(handle, held);
    *out = moves;
    0
}

/// How many boards of a level are won, even and lost for the mover, and the greatest distance of its
/// boards, and 0; or 59 if it is not behind the handle. It takes no memory.
#[unsafe(no_mangle)]
pub extern "C" fn awari_counts(
    handle: &mut Handle,
    alloc: Global,
    level: u8,
    out: &mut PlainCounts,
) -> u8
    ensures counts { level < length (levels_in handle.old.is_open handle.old.held)
        → (result ≡ 0) × TellsCounts (levels_in handle.old.is_open handle.old.held) level out.new }
    ensures none { length (levels_in handle.old.is_open handle.old.held) ≤ level → (result ≡ 59) × (out.new ≡ out.old) }
    // What the levels say of each of their boards is the truth.
    ensures meaning { result ≡ 0 → TellsTruth (levels_in handle.old.is_open handle.old.held) }
    ensures kept { held_in handle.new.is_open handle.new.held ≡ held_in handle.old.is_open handle.old.held }
{
    let Some(held) = take(handle, alloc) else {
        return NOT_YET;
    };
    if level >= held.shelf().levels() {
        put(handle, held);
        return NOT_YET;
    }
    shelves_tell_the_truth();
    *out = told_counts(held.shelf(), level);
    put(handle, held);
    0
}

/// Lets `to` have the levels of `from` too, with no copy of them, and answers 0; or 84 if memory runs
/// out, and `to` is closed then. What `to` held before is given back. A level that was begun stays with `from`;
/// one that was read is shared, with what was looked at of it.
#[unsafe(no_mangle)]
pub extern "C" fn awari_share_with(from: &mut Handle, to: &mut Handle, alloc: Global) -> u8
    ensures shared { result ≡ 0 → stored_in to.new.is_open to.new.held ≡ stored_in from.old.is_open from.old.held }
    ensures none { draft_in to.new.is_open to.new.held ≡ None }
    ensures read { result ≡ 0 → candidate_in to.new.is_open to.new.held ≡ candidate_in from.old.is_open from.old.held }
    ensures kept { held_in from.new.is_open from.new.held ≡ held_in from.old.is_open from.old.held }
    ensures refused { result ≢ 0 → (result ≡ 84) × (to.new.is_open ≡ false) }
{
    let _ = take(to, alloc);
    let Some(held) = take(from, alloc) else {
        return 0;
    };
    let shared = shared_levels(&held, alloc);
    put(from, held);
    match shared {
        Some(shared) => {
            put(to, shared);
            0
        }
        None => FolderFault::Memory.number(),
    }
}

/// Gives back what the handle holds, if it is open. It is closed then.
#[unsafe(no_mangle)]
pub extern "C" fn awari_close(handle: &mut Handle, alloc: Global)
    ensures { handle.new.is_open ≡ false }
{
    let _ = take(handle, alloc);
}
