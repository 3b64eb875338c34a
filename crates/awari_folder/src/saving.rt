//! A level as a file in a folder.

ghost use Rattle.std.specs.Prelude.{◌≡◌, [], Some, IfOk, IfErr, OnOk, OnErr};
ghost use Rattle.awari_file.specs.FileText.{file_text};
ghost use Rattle.awari_folder.specs.FolderFault.{IsSaveFault};
ghost use Rattle.awari_folder.specs.Contents.{Same, Becomes, IsWhole, TellsRefusal};
ghost use Rattle.awari_folder.specs.State.{IsOwnDigest, IsOwnFile, MayName, Outcome};

use crate::calls::{Draft, Folder, Refusal};
use crate::faults::FolderFault;
use awari_file::{FileFault, write_level};
use awari_table::{Counted, Level};

/// Saves a level into a folder, and gives the digest of its file. `below` is the digest of the file
/// of the level below, zeros for level 0. It takes memory for names; want of it is 84.
///
/// A file of that level is replaced as a whole: the new one is written beside it, brought to the
/// disk, and takes its name. After a refusal an old file is as it was:
///
/// - 82: the folder refuses to make the file or to give it its name. It may not exist, or another
///   builder may have locked it.
/// - 81 with 70: the file could not be written, or brought to the disk.
pub fn save<F: Folder>(
    folder: &mut F,
    level: &Level,
    below: [u8; 32],
) -> Result<[u8; 32], FolderFault>
    // A crash at any moment leaves the level's name what it might have left before, or the level's file, whole.
    ensures outcome { Outcome level.now below (IsOwnFile level.now below) result (F.state folder.old) (F.state folder.new) }
    // It is 82, or 81 with 70, or 84.
    ensures told { IfErr result (IsSaveFault level.now.level) }
    // No draft is left.
    ensures ok { OnOk result ((F.state folder.new).is_clear level.now.level) }
{
    let number = level.number();
    let new = match folder.create(number) {
        Ok(new) => new,
        Err(Refusal::Refused) => return Err(FolderFault::Open { level: number }),
        Err(Refusal::Memory) => return Err(FolderFault::Memory),
    };
    let saved = put_in_place(folder, level, below, new);
    if saved.is_err() {
        // What was written of the new file is of no use. If it cannot be removed, that is no further
        // fault.
        let _ = folder.remove_new(number);
    }
    saved
}

/// Writes the file of a level into a new one, which is empty, and gives it the level's name.
fn put_in_place<F: Folder>(
    folder: &mut F,
    level: &Level,
    below: [u8; 32],
    new: F::New,
) -> Result<[u8; 32], FolderFault>
    ensures digest { IfOk result (IsOwnDigest level.now below) }
    ensures told { IfErr result (IsSaveFault level.now.level) }
    ensures named { OnOk result ((F.state folder.new).is_clear level.now.level
        × (F.New.contents new ≡ Some [] → Becomes ((F.state folder.old).stands level.now.level) ((F.state folder.new).stands level.now.level) (Some (file_text 2 level.now below)))) }
    ensures err { OnErr result (Same (F.state folder.old).stands (F.state folder.new).stands) }
    ensures leaves { MayName level.now.level (λ left. F.New.contents new ≡ Some [] → left ≡ Some (file_text 2 level.now below)) (F.state folder.old) (F.state folder.new)
        × ((F.state folder.new).stuck ≡ (F.state folder.old).stuck) }
    ensures refused { TellsRefusal result (F.state folder.old).refusals (F.state folder.new).refusals }
{
    let number = level.number();
    let written = match write_whole(level, below, new) {
        Ok(written) => written,
        Err(fault) => {
            return Err(FolderFault::File {
                level: number,
                fault,
            });
        }
    };
    let digest = written.digest;
    match folder.replace(number, written.new) {
        Ok(()) => Ok(digest),
        Err(Refusal::Refused) => Err(FolderFault::Open { level: number }),
        Err(Refusal::Memory) => Err(FolderFault::Memory),
    }
}

/// A file that was written and brought to the disk.
#[derive(Drop)]
struct Written<D> {
    new: D,
    /// The digest that it ends in.
    digest: [u8; 32],
}

/// Writes the file of a level into one that is empty, and brings it to the disk.
fn write_whole<D: Draft + Drop>(
    level: &Level,
    below: [u8; 32],
    new: D,
) -> Result<Written<D>, FileFault>
    ensures digest { IfOk result (λ done. IsOwnDigest level.now below done.digest) }
    ensures whole { IfOk result (λ done. D.contents new ≡ Some [] → IsWhole (D.contents done.new) (D.kept done.new) (file_text 2 level.now below)) }
    ensures fault { IfErr result (λ fault. fault ≡ FileFault.Write) }
{
    let mut writer = Counted::new(new);
    let digest = write_level(level, below, &mut writer)?;
    let mut new = writer.into_inner();
    match new.sync() {
        Ok(()) => Ok(Written { new, digest }),
        Err(_) => Err(FileFault::Write),
    }
}
