//! What builds the next level, a slice at a time.

ghost use Rattle.std.specs.Prelude.{◌≡◌, ◌≢◌, None, IfSome, length};
ghost use Rattle.sha2.specs.Sha256.{sha256};
ghost use Rattle.awari_theory.specs.Truth.{TellsTruth};
ghost use Rattle.awari_play.specs.Least.{HasLowestPlans};
ghost use Rattle.awari_file.specs.FileText.{HasFile, body_text, file_len, file_text};
ghost use Rattle.awari_folder.specs.NextFile.{IsNextFile};
ghost use Rattle.awari_exports.specs.Held.{Begins, Finishes, IsRightNext, PutsOn, Spreads};
ghost use Rattle.awari_exports.specs.Owned.{candidate_in, digest_in, draft_in, levels_in};

use crate::answers::NOT_YET;
use crate::handles::{Handle, put, take};
use crate::held::{Held, NO_MEMORY};
use crate::telling::PlainDraft;
use awari_file::{FileFault, write_level};
use awari_play::lowest_plans_stay;
use awari_table::{Counted, Level};
use std::alloc::Global;
use std::sync::Arc;

/// Begins the next level of those behind the handle, in place of one that was begun, and answers 0; or 51
/// if there are all levels, or 53 if memory runs out. It takes memory for nine bytes a board.
#[unsafe(no_mangle)]
pub extern "C" fn awari_begin(handle: &mut Handle, alloc: Global) -> u8
    ensures begins { Begins (levels_in handle.old.is_open handle.old.held) (draft_in handle.old.is_open handle.old.held) (draft_in handle.new.is_open handle.new.held) result }
    ensures levels { levels_in handle.new.is_open handle.new.held ≡ levels_in handle.old.is_open handle.old.held }
    ensures digest { digest_in handle.new.is_open handle.new.held ≡ digest_in handle.old.is_open handle.old.held }
    ensures read { candidate_in handle.new.is_open handle.new.held ≡ candidate_in handle.old.is_open handle.old.held }
{
    let taken = match take(handle, alloc) {
        Some(held) => Ok(held),
        None => Box::new(alloc, Held::empty()),
    };
    let Ok(mut held) = taken else {
        return NO_MEMORY;
    };
    let answer = held.begin(alloc);
    put(handle, held);
    answer
}

/// Builds a slice of the level that was begun, says in `out` how far it is, and answers 0: it spreads boards
/// of one distance, about this many, or opens the next gain. It answers 59 if no level was begun, and 53 if
/// memory runs out; then the level is lost.
#[unsafe(no_mangle)]
pub extern "C" fn awari_spread(
    handle: &mut Handle,
    alloc: Global,
    boards: usize,
    out: &mut PlainDraft,
) -> u8
    ensures spreads { Spreads (draft_in handle.old.is_open handle.old.held) (draft_in handle.new.is_open handle.new.held) out.new result }
    ensures levels { levels_in handle.new.is_open handle.new.held ≡ levels_in handle.old.is_open handle.old.held }
    ensures digest { digest_in handle.new.is_open handle.new.held ≡ digest_in handle.old.is_open handle.old.held }
    ensures read { candidate_in handle.new.is_open handle.new.held ≡ candidate_in handle.old.is_open handle.old.held }
    ensures untouched { result ≢ 0 → out.new ≡ out.old }
{
    let Some(mut held) = take(handle, alloc) else {
        return NOT_YET;
    };
    let answer = held.spread(boards, out);
    put(handle, held);
    answer
}

/// Puts the level that was begun on the levels behind the handle, writes its file to `file`, and answers 0.
/// It answers 59 if no level was begun or not all its gains are closed, 70 if `file` is not as long as the
/// level's file, and 53 if memory runs out; then the level is lost. It takes memory for three bytes a board,
/// which the level keeps, and for a copy of the file.
#[unsafe(no_mangle)]
pub extern "C" fn awari_finish(handle: &mut Handle, alloc: Global, file: &mut [u8]) -> u8
    ensures finishes { Finishes (levels_in handle.old.is_open handle.old.held) (draft_in handle.old.is_open handle.old.held) (draft_in handle.new.is_open handle.new.held) (length file.old) result }
    // What was built is the next level, and the bytes are its file.
    ensures ok { result ≡ 0 → IsNextFile (levels_in handle.old.is_open handle.old.held) (digest_in handle.old.is_open handle.old.held) file.new (levels_in handle.new.is_open handle.new.held) (digest_in handle.new.is_open handle.new.held) }
    // What the levels say of each of their boards is the truth.
    ensures meaning { result ≡ 0 → TellsTruth (levels_in handle.new.is_open handle.new.held) }
    // Its plans are the lowest, so there is one level that it may be.
    ensures planned { result ≡ 0 → HasLowestPlans (levels_in handle.old.is_open handle.old.held) → HasLowestPlans (levels_in handle.new.is_open handle.new.held) }
    ensures kept { result ≢ 0 → (levels_in handle.new.is_open handle.new.held ≡ levels_in handle.old.is_open handle.old.held) × (digest_in handle.new.is_open handle.new.held ≡ digest_in handle.old.is_open handle.old.held)
        × (candidate_in handle.new.is_open handle.new.held ≡ candidate_in handle.old.is_open handle.old.held) }
    ensures untouched { result ≢ 0 → file.new ≡ file.old }
{
    let Some(mut held) = take(handle, alloc) else {
        return NOT_YET;
    };
    let answer = finish_in(&mut held, alloc, file);
    put(handle, held);
    answer
}

/// Puts the level that was begun on top, and writes its file, as `awari_finish` does.
fn finish_in(held: &mut Held, alloc: Global, file: &mut [u8]) -> u8
    ensures finishes { Finishes held.old.stored.shelf held.old.draft held.new.draft (length file.old) result }
    ensures puts_on { PutsOn held.old.stored held.new.stored result file.old file.new }
    ensures read { result ≢ 0 → held.new.candidate ≡ held.old.candidate }
{
    if !held.is_settled() {
        return NOT_YET;
    }
    if file.len() as u64 != held.next_len() {
        return FileFault::Write.number();
    }
    match held.finish(alloc) {
        Some(level) => keep(held, alloc, level, file),
        None => NO_MEMORY,
    }
}

/// Puts the next level on top and writes its file, and answers 0; or 53 if memory runs out.
fn keep(held: &mut Held, alloc: Global, level: Level, file: &mut [u8]) -> u8
    requires next { IsRightNext held.old.stored.shelf level }
    requires none { held.old.draft ≡ None }
    requires room { length file.old ≡ file_len (length held.old.stored.shelf) }
    ensures puts_on { PutsOn held.old.stored held.new.stored result file.old file.new }
    ensures refused { result ≢ 0 → (result ≡ 53) × (held.new.candidate ≡ held.old.candidate) }
    ensures none { held.new.draft ≡ None }
{
    // Ghost: the plans stay the lowest.
    lowest_plans_stay();
    let below = held.digest();
    let Some(written) = file_of(alloc, &level, below, file.len()) else {
        return NO_MEMORY;
    };
    let Ok(level) = Arc::new(alloc, level) else {
        return NO_MEMORY;
    };
    file.copy_from_slice(written.bytes.as_slice());
    held.put_on(level, written.digest);
    0
}

/// The file of a level.
#[derive(Drop)]
struct LevelFile {
    bytes: Vec<u8>,
    /// The digest that it ends in.
    digest: [u8; 32],
}

/// The file of a level over the one that ends in `below`, none if memory runs out. It is written into room
/// for as many bytes as `room` says, which grows if that is too few.
fn file_of(alloc: Global, level: &Level, below: [u8; 32], room: usize) -> Option<LevelFile>
    ensures { IfSome result (λ it. HasFile 2 level.now below × (it.bytes.items ≡ file_text 2 level.now below) × (it.digest ≡ sha256 (body_text 2 level.now below))) }
{
    let mut writer = Counted::new(Vec::with_capacity(alloc, room).ok()?);
    let digest = write_level(level, below, &mut writer).ok()?;
    let bytes = writer.into_inner();
    Some(LevelFile { bytes, digest })
}
