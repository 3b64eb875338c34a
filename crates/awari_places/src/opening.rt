//! The levels whose files are there, by their headers and lengths.

ghost use Rattle.std.specs.Prelude.{◌≡◌, ◌<◌, ◌≤◌, ◌+◌, ℕ, List, Option, Some, IfErr, IfOk, IsSomeAnd, MatchResult, max, slice_get};
ghost use Rattle.awari_table.specs.declared.TheConstants.{HIGHEST_LEVEL};
ghost use Rattle.awari_folder.specs.Contents.{AreNames, IsOfFile};
ghost use Rattle.awari_folder.specs.State.{OnlyReads, Unchanged};
ghost use Rattle.awari_table.specs.declared.images.Image.{Image};
ghost use Rattle.awari_places.specs.Faults.{IsLimitFault};
ghost use Rattle.awari_places.specs.Opening.{AreFramed, IsFrame, IsFrameFault, IsOpenFault, framed_of, limit_by};
ghost use Rattle.awari_places.specs.Places.{Says};

use awari_file::{FileFault, HEADER_LEN, Header, OLD_VERSION, file_len, header_of};
use awari_folder::{Folder, FolderFault, Refusal};
use awari_rank::size;
use awari_verify::{Rule, VerifyFault};

/// The levels of a folder whose files are there.
#[derive(Clone, Copy, Debug, PartialEq, Eq)]
pub struct Opened {
    /// How many there are. They are numbered from 0.
    pub levels: u8,
    /// The greatest limit that their headers say, in plies; 0 if there is no level.
    pub limit: u32,
}

/// The levels of a folder with at most `most` stones, up to the first that has no file. Condition: `most`
/// is at most `HIGHEST_LEVEL`. It reads the header of each file and looks at its length, and nothing of
/// its entries. So it answers at once at any level, and takes memory for names alone.
///
/// The files are taken in turn, and each is refused as the first of these that is due:
///
/// - 82: it is there and does not open.
/// - 81: it does not begin as the file of a level, or has another length.
/// - 86: it is of version 1.
/// - 83: it is the file of another level, or its limit is above the number of the level's boards.
///
/// It is refused as 84 if there was no room for a name.
pub fn open_levels<F: Folder>(folder: &mut F, most: u8) -> Result<Opened, FolderFault>
    requires { most ≤ HIGHEST_LEVEL }
    ensures exact { (names : ℕ → Option (List ℕ)) → AreNames (F.state folder.old).stands names
        → MatchResult result (AreFramed most names) (IsOpenFault most names) }
    ensures few { IfOk result (λ opened. opened.levels ≤ most + 1) }
    ensures reads { OnlyReads result (F.state folder.old) (F.state folder.new) }
{
    let mut opened = Opened {
        levels: 0,
        limit: 0,
    };
    for level in 0..=most {
        match frame_of(folder, level) {
            Ok(Some(limit)) => opened = with_level(opened, limit),
            Ok(None) => break,
            Err(fault) => return Err(fault),
        }
    }
    Ok(opened)
}

/// The same, with one level more.
fn with_level(opened: Opened, limit: u32) -> Opened
    requires { opened.levels ≤ 24 }
    ensures levels { result.levels ≡ opened.levels + 1 }
    ensures limit { result.limit ≡ max opened.limit limit }
{
    Opened {
        levels: opened.levels + 1,
        limit: opened.limit.max(limit),
    }
}

/// The limit in the header of a level's file. It takes memory for a name. It is refused as
/// [`open_levels`] is of this file, and as 81 with 68 if there is no file.
pub fn limit_in_header<F: Folder>(folder: &mut F, level: u8) -> Result<u32, FolderFault>
    requires { level ≤ HIGHEST_LEVEL }
    ensures limit { (levels : ℕ) (images : List Image) → Says (F.state folder.old).stands levels images → level < levels
        → IfOk result (λ limit. IsSomeAnd (slice_get images level) (λ image. limit ≡ image.limit)) }
    ensures same { Unchanged (F.state folder.old) (F.state folder.new) }
    ensures fault { (name : Option (List ℕ)) → (F.state folder.old).stands level ≡ Some name → IfErr result (IsLimitFault level name) }
{
    match frame_of(folder, level) {
        Ok(Some(limit)) => Ok(limit),
        Ok(None) => Err(FolderFault::File {
            level,
            fault: FileFault::Read,
        }),
        Err(fault) => Err(fault),
    }
}

/// The limit in the header of a level's file, or none if there is no file.
fn frame_of<F: Folder>(folder: &mut F, level: u8) -> Result<Option<u32>, FolderFault>
    requires { level ≤ HIGHEST_LEVEL }
    ensures exact { (name : Option (List ℕ)) → (F.state folder.old).stands level ≡ Some name
        → MatchResult result (IsFrame level name) (IsFrameFault level name) }
    ensures reads { OnlyReads result (F.state folder.old) (F.state folder.new) }
{
    let mut front = [0; HEADER_LEN];
    match folder.read_at(level, 0, &mut front) {
        Ok(Some(size)) => match judge(level, size, &front) {
            Ok(limit) => Ok(Some(limit)),
            Err(fault) => Err(fault),
        },
        Ok(None) => Ok(None),
        Err(Refusal::Refused) => Err(FolderFault::Open { level }),
        Err(Refusal::Memory) => Err(FolderFault::Memory),
    }
}

/// The limit in the header of a level's file that has this many bytes.
fn judge(level: u8, size: u64, front: &[u8]) -> Result<u32, FolderFault>
    requires { level ≤ HIGHEST_LEVEL }
    ensures exact { result ≡ framed_of level size front.now }
    ensures of_file { IfErr result IsOfFile }
{
    let file = |fault| Err(FolderFault::File { level, fault });
    if size < HEADER_LEN as u64 {
        return file(FileFault::Truncated);
    }
    let header = match header_of(front, FileFault::Truncated) {
        Ok((header, _)) => header,
        Err(fault) => return file(fault),
    };
    if header.version == OLD_VERSION {
        return Err(FolderFault::Old { level });
    }
    let whole = file_len(header.level);
    if size < whole {
        return file(FileFault::Truncated);
    }
    if size > whole {
        return file(FileFault::Trailing);
    }
    limit_by(level, header)
}

/// The limit that this header of a level's file says. It is refused as 83: with 20 if the header is that of
/// another level, and with V7 if the limit is above the number of boards, which no distance is.
fn limit_by(level: u8, header: Header) -> Result<u32, FolderFault>
    requires { level ≤ HIGHEST_LEVEL }
    ensures exact { result ≡ limit_by level header }
    ensures of_file { IfErr result IsOfFile }
{
    if header.level != level {
        let fault = VerifyFault::WrongLevel;
        return Err(FolderFault::Verify { level, fault });
    }
    if header.limit > size(level) {
        let fault = VerifyFault::Refused {
            rank: 0,
            rule: Rule::V7,
        };
        return Err(FolderFault::Verify { level, fault });
    }
    Ok(header.limit)
}
