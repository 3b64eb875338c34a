//! The entries of a level in order of rank, read many at once.

ghost use Rattle.std.specs.Prelude.{◌≡◌, ◌<◌, ◌≤◌, ◌+◌, ◌*◌, ℕ, List, Option, Some, IfErr, IfOk, IfSome, IsNone, IsSomeAnd, OnErr, OnOk, drop, length, slice_index_or, take};
ghost use Rattle.awari_file.specs.Reading.{entry_of as entry_of_six};
ghost use Rattle.awari_file.specs.declared.faults.FileFault.TheVariants as file_fault;
ghost use Rattle.awari_folder.specs.FolderFault.{Names};
ghost use Rattle.awari_folder.specs.State.{Unchanged};
ghost use Rattle.awari_rank.specs.Rank.{size_of};
ghost use Rattle.awari_table.specs.Images.{no_entry};
ghost use Rattle.awari_table.specs.declared.TheConstants.{HIGHEST_LEVEL};
ghost use Rattle.awari_table.specs.declared.images.Image.{Image};
ghost use Rattle.awari_places.specs.Faults.{IsFaultFrom};
ghost use Rattle.awari_places.specs.Places.{Says, entry_or_none};
ghost use Rattle.awari_places.specs.Runs.{AreEntriesOf, HasNoEntry, IsEntryAt, IsFormFault, IsKept, IsLengthFault, IsRunOf};

use crate::kept::{RUN_LEN, Run};
use awari_file::{ENTRY_LEN, FileFault, entry_at, entry_place};
use awari_folder::{Folder, FolderFault, Refusal};
use awari_rank::size;
use awari_table::Entry;

/// The bytes of a run.
const RUN_BYTES: usize = 12288;

const _: () = prove!(RUN_BYTES == RUN_LEN * ENTRY_LEN);

/// The entry of a rank of a level, as the six bytes at its place say it. Whoever asks for ranks in order,
/// with the same run, has the file read once. Condition: the run is new, or was filled for this level. It
/// takes memory for a name, and is refused as [`entry`](crate::entry) is of this rank or of one of those that
/// are read with it.
pub fn entry_in_run<F: Folder>(
    folder: &mut F,
    run: &mut Run,
    level: u8,
    rank: u32,
) -> Result<Entry, FolderFault>
    requires level { level ≤ HIGHEST_LEVEL }
    requires rank { rank < size_of level }
    ensures entry { (levels : ℕ) (images : List Image) → Says (F.state folder.old).stands levels images → level < levels → IsRunOf images level run.old → IfOk result (IsEntryAt images level rank) }
    ensures run { (levels : ℕ) (images : List Image) → Says (F.state folder.old).stands levels images → level < levels → IsRunOf images level run.old → IsRunOf images level run.new }
    ensures same { Unchanged (F.state folder.old) (F.state folder.new) }
    ensures named { IfErr result (Names level) }
    ensures fault { IfErr result (IsFaultFrom level rank ((F.state folder.old).stands level)) }
{
    match kept(run, rank) {
        Some(entry) => return Ok(entry),
        None => {}
    }
    match fill(folder, run, level, rank) {
        Ok(()) => Ok(run.entries[0]),
        Err(fault) => Err(fault),
    }
}

/// The entry of this rank, if the run has it.
fn kept(run: &Run, rank: u32) -> Option<Entry>
    ensures { IfSome result (IsKept run.now rank) }
{
    if rank < run.first {
        return None;
    }
    let place = (rank - run.first) as usize;
    if place >= run.count {
        return None;
    }
    Some(run.entries[place])
}

/// Fills the run with the entries of a level from this rank on.
fn fill<F: Folder>(folder: &mut F, run: &mut Run, level: u8, rank: u32) -> Result<(), FolderFault>
    requires level { level ≤ HIGHEST_LEVEL }
    requires rank { rank < size_of level }
    ensures run { (levels : ℕ) (images : List Image) → Says (F.state folder.old).stands levels images → level < levels → IsRunOf images level run.new }
    ensures filled { OnOk result ((run.new.first ≡ rank) × (0 < run.new.count)) }
    ensures same { Unchanged (F.state folder.old) (F.state folder.new) }
    ensures named { IfErr result (Names level) }
    ensures fault { IfErr result (IsFaultFrom level rank ((F.state folder.old).stands level)) }
{
    let count = (size(level) - rank).min(RUN_LEN as u32) as usize;
    let place = entry_place(rank);
    let mut bytes = [0; RUN_BYTES];
    let room = &mut bytes[..count * ENTRY_LEN];
    run.first = rank;
    run.count = 0;
    let found = match folder.read_at(level, place, room) {
        Ok(size) => size,
        Err(Refusal::Refused) => return Err(FolderFault::Open { level }),
        Err(Refusal::Memory) => return Err(FolderFault::Memory),
    };
    match fault_of_length(found, place + room.len() as u64) {
        Some(fault) => return Err(FolderFault::File { level, fault }),
        None => {}
    }
    match split(run, room) {
        Ok(()) => Ok(()),
        Err(fault) => Err(FolderFault::File { level, fault }),
    }
}

/// The fault of a file that has this many bytes, or is gone, if it was to have this many.
fn fault_of_length(size: Option<u64>, whole: u64) -> Option<FileFault>
    ensures none { IsNone result → IsSomeAnd size (λ n. whole ≤ n) }
    ensures fault { IfSome result (IsLengthFault size whole) }
{
    match size {
        None => Some(FileFault::Read),
        Some(size) if size < whole => Some(FileFault::Truncated),
        Some(_) => None,
    }
}

/// Fills the run with the entries that these bytes spell, six bytes each, up to the first that is none.
fn split(run: &mut Run, bytes: &[u8]) -> Result<(), FileFault>
    requires bytes { (6 ≤ length bytes.now) × (length bytes.now ≤ RUN_BYTES) }
    requires empty { run.old.count ≡ 0 }
    ensures first { run.new.first ≡ run.old.first }
    ensures entries { AreEntriesOf bytes.now run.new }
    ensures some { OnOk result (0 < run.new.count) }
    ensures fault { IfErr result (IsFormFault bytes.now) }
{
    for place in 0..bytes.len() / ENTRY_LEN {
        run.entries[place] = entry_of_place(bytes, place)?;
        run.count = place + 1;
    }
    Ok(())
}

/// The entry that the six bytes at this place spell.
fn entry_of_place(bytes: &[u8], place: usize) -> Result<Entry, FileFault>
    requires { 6 * place + 6 ≤ length bytes.now }
    ensures entry { IfOk result (λ e. e ≡ entry_or_none (entry_of_six (take 6 (drop (6 * place) bytes.now)))) }
    ensures told { IfErr result (λ fault. fault ≡ file_fault.EntryForm) }
    ensures none { OnErr result (HasNoEntry bytes.now place) }
{
    match entry_at(&bytes[ENTRY_LEN * place..], FileFault::Truncated) {
        Ok((entry, _)) => Ok(entry),
        Err(_) => Err(FileFault::EntryForm),
    }
}
