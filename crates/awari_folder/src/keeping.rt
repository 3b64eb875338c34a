//! A level as a file in a folder, in place of none.

ghost use Rattle.std.specs.Prelude.{◌≡◌, Some, IfOk, IfErr, IfSome, OnOk};
ghost use Rattle.awari_streams.specs.Counted.{faults_of, inner_of};
ghost use Rattle.awari_file.specs.FileText.{file_text};
ghost use Rattle.awari_folder.specs.FolderFault.{Names};
ghost use Rattle.awari_folder.specs.Contents.{KeepsFiles};
ghost use Rattle.awari_folder.specs.Keeping.{IsComparedFault, IsFreeFor, IsKeepFault};
ghost use Rattle.awari_folder.specs.State.{IsOwnDigest, IsOwnIfFree, Outcome};

use crate::calls::{Folder, Refusal};
use crate::faults::FolderFault;
use crate::saving::save;
use awari_file::compare_level;
use awari_table::{Counted, Level};
use std::io::Read;

/// Saves a level as [`save`](crate::save) does, but replaces no file, and gives the digest of the
/// level's. A file that has the name stays. If it is what would be written, byte for byte, it counts
/// as saved; else the level is refused as 85.
///
/// It is refused as 82 also if the file that has the name does not open, and as 81 with 68 if it is
/// not read. The other refusals are those of `save`. It takes memory for names; want of it is 84.
pub fn save_or_keep<F: Folder>(
    folder: &mut F,
    level: &Level,
    below: [u8; 32],
) -> Result<[u8; 32], FolderFault>
    // A crash at any moment leaves the level's name what it might have left before, or the level's file, whole, if it had none.
    ensures outcome { Outcome level.now below (IsOwnIfFree level.now below) result (F.state folder.old) (F.state folder.new) }
    ensures named { IfErr result (Names level.now.level) }
    // It is refused as 85 only if another file has the name, and saved only if none has.
    ensures fault { IfSome ((F.state folder.old).stands level.now.level) (λ name. IfErr result (IsKeepFault level.now.level (file_text 2 level.now below) name)) }
    ensures free { OnOk result (IfSome ((F.state folder.old).stands level.now.level) (IsFreeFor (file_text 2 level.now below))) }
    // Each file stays that was there.
    ensures kept { KeepsFiles (F.state folder.old).stands (F.state folder.new).stands }
{
    let number = level.number();
    match folder.open(number) {
        Ok(None) => {}
        Ok(Some(file)) => return digest_of_own(level, below, &mut Counted::new(file)),
        Err(Refusal::Refused) => return Err(FolderFault::Open { level: number }),
        Err(Refusal::Memory) => return Err(FolderFault::Memory),
    }
    save(folder, level, below)
}

/// The digest that a level's file ends in, if that is what the reader has left.
fn digest_of_own<R: Read>(
    level: &Level,
    below: [u8; 32],
    reader: &mut Counted<R>,
) -> Result<[u8; 32], FolderFault>
    ensures digest { IfOk result (IsOwnDigest level.now below) }
    ensures own { IfSome (R.remaining (inner_of reader.old)) (λ bytes. OnOk result (bytes ≡ file_text 2 level.now below)) }
    ensures fault { IfSome (R.remaining (inner_of reader.old)) (λ bytes. IfErr result (IsKeepFault level.now.level (file_text 2 level.now below) (Some bytes))) }
    ensures named { IfErr result (Names level.now.level) }
    ensures told { IfErr result (IsComparedFault (faults_of reader.old) (faults_of reader.new)) }
{
    let number = level.number();
    match compare_level(level, below, reader) {
        Ok(Some(digest)) => Ok(digest),
        Ok(None) => Err(FolderFault::Occupied { level: number }),
        Err(fault) => Err(FolderFault::File {
            level: number,
            fault,
        }),
    }
}
