//! What reads the next level's file, and verifies it in parts, which threads of the caller may share.

ghost use Rattle.std.specs.Prelude.{◌≡◌, ◌≢◌, List, ℕ, None, IsSomeAnd};
ghost use Rattle.awari_theory.specs.Truth.{TellsTruth};
ghost use Rattle.awari_folder.specs.Candidates.{IsReadFrom, IsUntouched};
ghost use Rattle.awari_folder.specs.NextFile.{IsNextFile};
ghost use Rattle.awari_exports.specs.Held.{AreOne, IsReadIn, JoinsIn, LooksIn};
ghost use Rattle.awari_exports.specs.Owned.{candidate_in, digest_in, draft_in, held_in, levels_in, stored_in};
ghost use Rattle.awari_exports.specs.Told.{IsRefusal};

use crate::answers::{NOT_YET, PlainFault, told_fault};
use crate::handles::{Handle, put, take};
use crate::storing::{read_first, read_to};
use std::alloc::Global;

/// Reads the file of the next level from these bytes, in place of one that was read, and answers 0. Nothing
/// of it is verified yet. Otherwise the handle stays as it is, closed if it was, and the number of the refusal
/// is answered as by `awari_add_level`, but never 83. It takes memory for three bytes a board, which the level
/// keeps.
#[unsafe(no_mangle)]
pub extern "C" fn awari_read_level(
    handle: &mut Handle,
    alloc: Global,
    bytes: &[u8],
    fault: &mut PlainFault,
) -> u8
    ensures read { result ≡ 0 → IsSomeAnd (candidate_in handle.new.is_open handle.new.held) (λ c. IsReadFrom c bytes.now × IsUntouched c) }
    ensures rest { (levels_in handle.new.is_open handle.new.held ≡ levels_in handle.old.is_open handle.old.held)
        × (digest_in handle.new.is_open handle.new.held ≡ digest_in handle.old.is_open handle.old.held) × (draft_in handle.new.is_open handle.new.held ≡ draft_in handle.old.is_open handle.old.held) }
    ensures refused { result ≢ 0 → IsRefusal (levels_in handle.old.is_open handle.old.held) (digest_in handle.old.is_open handle.old.held) bytes.now result fault.new }
    ensures kept { result ≢ 0 → held_in handle.new.is_open handle.new.held ≡ held_in handle.old.is_open handle.old.held }
{
    let read = match take(handle, alloc) {
        Some(held) => read_to(handle, alloc, held, bytes),
        None => read_first(handle, alloc, bytes),
    };
    match read {
        Ok(()) => 0,
        Err(refusal) => {
            *fault = told_fault(refusal);
            refusal.number()
        }
    }
}

/// Looks at a part of the file that was read, and answers 0; or 59 if none was, or 93 if there is no such part.
/// Part 0 is its digest, and parts 1 to 1600 are its boards. It takes no memory.
#[unsafe(no_mangle)]
pub extern "C" fn awari_look(handle: &mut Handle, alloc: Global, part: u32) -> u8
    ensures looks { LooksIn (candidate_in handle.old.is_open handle.old.held) part (candidate_in handle.new.is_open handle.new.held) result }
    ensures rest { (stored_in handle.new.is_open handle.new.held ≡ stored_in handle.old.is_open handle.old.held) × (draft_in handle.new.is_open handle.new.held ≡ draft_in handle.old.is_open handle.old.held) }
{
    let Some(mut held) = take(handle, alloc) else {
        return NOT_YET;
    };
    let answer = held.look(part);
    put(handle, held);
    answer
}

/// Lets `to` know what `from` looked at of the same file, and answers 0; or 59 if not both have read a file
/// that ends in the same digest. It takes no memory.
///
/// Condition: if both end in the same digest, they are one file, over the same levels. So it is of handles that
/// `awari_share_with` made of one, and of others if no two files have the same SHA-256.
#[unsafe(no_mangle)]
pub extern "C" fn awari_join_with(from: &mut Handle, to: &mut Handle, alloc: Global) -> u8
    requires one { AreOne (levels_in from.old.is_open from.old.held) (candidate_in from.old.is_open from.old.held) (levels_in to.old.is_open to.old.held) (candidate_in to.old.is_open to.old.held) }
    ensures joins { JoinsIn (candidate_in to.old.is_open to.old.held) (candidate_in from.old.is_open from.old.held) (candidate_in to.new.is_open to.new.held) result }
    ensures rest { (stored_in to.new.is_open to.new.held ≡ stored_in to.old.is_open to.old.held) × (draft_in to.new.is_open to.new.held ≡ draft_in to.old.is_open to.old.held) }
    ensures kept { held_in from.new.is_open from.new.held ≡ held_in from.old.is_open from.old.held }
{
    let Some(theirs) = take(from, alloc) else {
        return NOT_YET;
    };
    let Some(mut own) = take(to, alloc) else {
        put(from, theirs);
        return NOT_YET;
    };
    let answer = own.join(&theirs);
    put(from, theirs);
    put(to, own);
    answer
}

/// Puts the level on that was read, if it is right, and answers 0. It looks at each part that nobody looked
/// at. Otherwise the levels stay as they are, and the number of the refusal is answered, 81, 83 or 84, with
/// more of it in `fault`; or 59 if none was read. In each case it is read no more, and a level that was begun is
/// given up after 0. It takes memory for three bytes a board if another handle has read it too.
#[unsafe(no_mangle)]
pub extern "C" fn awari_accept(handle: &mut Handle, alloc: Global, fault: &mut PlainFault) -> u8
    ensures ok { result ≡ 0 → (bytes : List ℕ) → IsReadIn (candidate_in handle.old.is_open handle.old.held) bytes
        → IsNextFile (levels_in handle.old.is_open handle.old.held) (digest_in handle.old.is_open handle.old.held) bytes (levels_in handle.new.is_open handle.new.held) (digest_in handle.new.is_open handle.new.held) }
    // What the levels say of each of their boards is the truth: following their plans secures the
    // value, soon, the value is what the board is worth, and the distance is the least.
    ensures meaning { result ≡ 0 → TellsTruth (levels_in handle.new.is_open handle.new.held) }
    ensures refused { result ≢ 0 → (bytes : List ℕ) → IsReadIn (candidate_in handle.old.is_open handle.old.held) bytes
        → IsRefusal (levels_in handle.old.is_open handle.old.held) (digest_in handle.old.is_open handle.old.held) bytes result fault.new }
    ensures kept { result ≢ 0 → (stored_in handle.new.is_open handle.new.held ≡ stored_in handle.old.is_open handle.old.held) × (draft_in handle.new.is_open handle.new.held ≡ draft_in handle.old.is_open handle.old.held) }
    ensures none { candidate_in handle.old.is_open handle.old.held ≡ None → result ≡ 59 }
    ensures gone { candidate_in handle.new.is_open handle.new.held ≡ None }
{
    let Some(mut held) = take(handle, alloc) else {
        return NOT_YET;
    };
    if !held.has_read() {
        put(handle, held);
        return NOT_YET;
    }
    let accepted = held.accept(alloc);
    put(handle, held);
    match accepted {
        Ok(()) => 0,
        Err(refusal) => {
            *fault = told_fault(refusal);
            refusal.number()
        }
    }
}
