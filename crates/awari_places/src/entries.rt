//! The entry of a board, read at its place.

ghost use Rattle.std.specs.Prelude.{◌≡◌, ◌<◌, ◌≤◌, ◌^◌, ℕ, List, Option, Some, IfOk, IfErr, IsSomeAnd, drop, length, sum, take};
ghost use Rattle.awari_file.specs.Reading.{entry_of as entry_of_six};
ghost use Rattle.awari_folder.specs.Contents.{IsOfFile, Reads};
ghost use Rattle.awari_folder.specs.FolderFault.{Names};
ghost use Rattle.awari_folder.specs.State.{OnlyReads};
ghost use Rattle.awari_rank.specs.Rank.{rank_of, size_of};
ghost use Rattle.awari_table.specs.Images.{entry_of};
ghost use Rattle.awari_table.specs.declared.TheConstants.{HIGHEST_LEVEL};
ghost use Rattle.awari_table.specs.declared.images.Image.{Image};
ghost use Rattle.awari_places.specs.Faults.{IsEntryFault, IsFileFaultAt, IsRefusedAt};
ghost use Rattle.awari_places.specs.Places.{IsLevelOf, Says, entry_in, entry_or_none};

use awari_board::Board;
use awari_file::{ENTRY_LEN, FileFault, entry_at, entry_place};
use awari_folder::{Folder, FolderFault, Refusal};
use awari_rank::rank;
use awari_table::Entry;

/// The entry of a board, as the six bytes at its place say it. Condition: the board's level is one of
/// the `levels` that [`open_levels`](crate::open_levels) found. It takes memory for a name.
///
/// It is refused as 82 if the file does not open, and as 84 if there was no room for its name. If the
/// file has gone since, it is 81 with 68; if it has become too short, 81 with 60; if the bytes are no
/// entry, 81 with 65.
pub fn entry<F: Folder>(folder: &mut F, levels: u8, board: &Board) -> Result<Entry, FolderFault>
    requires { IsLevelOf levels (sum board.now) }
    ensures entry { (images : List Image) → Says (F.state folder.old).stands levels images → IfOk result (λ e. e ≡ entry_of images board.now) }
    ensures reads { OnlyReads result (F.state folder.old) (F.state folder.new) }
    ensures named { IfErr result (Names (sum board.now)) }
    ensures fault { IfErr result (IsRefusedAt (F.state folder.old).stands board.now) }
{
    entry_of_rank(folder, board.stones(), rank(board))
}

/// The entry of a rank of a level.
fn entry_of_rank<F: Folder>(folder: &mut F, level: u8, rank: u32) -> Result<Entry, FolderFault>
    requires { level ≤ HIGHEST_LEVEL }
    ensures entry { (name : Option (List ℕ)) → (F.state folder.old).stands level ≡ Some name → IfOk result (λ e. IsSomeAnd name (λ bytes. e ≡ entry_in bytes rank)) }
    ensures reads { OnlyReads result (F.state folder.old) (F.state folder.new) }
    ensures named { IfErr result (Names level) }
    ensures fault { IfErr result (IsEntryFault level rank ((F.state folder.old).stands level)) }
{
    let place = entry_place(rank);
    let mut bytes = [0; ENTRY_LEN];
    match folder.read_at(level, place, &mut bytes) {
        Ok(size) => read_entry(level, place, size, &bytes),
        Err(Refusal::Refused) => Err(FolderFault::Open { level }),
        Err(Refusal::Memory) => Err(FolderFault::Memory),
    }
}

/// The entry that these bytes say, which were read at a place of a level's file with this many bytes.
fn read_entry(level: u8, place: u64, size: Option<u64>, bytes: &[u8]) -> Result<Entry, FolderFault>
    requires whole { length bytes.now ≡ 6 }
    requires low { place < 2 ^ 63 }
    ensures entry { (name : Option (List ℕ)) → Reads (Some name) place bytes.now size
        → IfOk result (λ e. IsSomeAnd name (λ all. e ≡ entry_or_none (entry_of_six (take 6 (drop place all))))) }
    ensures named { IfErr result (Names level) }
    ensures of_file { IfErr result IsOfFile }
    ensures fault { (known : Option (Option (List ℕ))) → Reads known place bytes.now size → IfErr result (IsFileFaultAt level place known) }
{
    let fault = match size {
        None => FileFault::Read,
        Some(size) if size < place + ENTRY_LEN as u64 => FileFault::Truncated,
        Some(_) => match entry_at(bytes, FileFault::Truncated) {
            Ok((entry, _)) => return Ok(entry),
            Err(_) => FileFault::EntryForm,
        },
    };
    Err(FolderFault::File { level, fault })
}
