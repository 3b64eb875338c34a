//! A shelf from the files in a folder.

ghost use Rattle.std.specs.Prelude.{◌≡◌, ℕ, ◌+◌, ◌≤◌, [], List, Option, IfOk, IfErr, OnOk, OnErr, replicate, IfSome, length, MatchResult};
ghost use Rattle.awari_streams.specs.Counted.{inner_of, faults_of};
ghost use Rattle.awari_table.specs.declared.TheConstants.{HIGHEST_LEVEL};
ghost use Rattle.awari_theory.specs.Truth.{TellsTruth};
ghost use Rattle.awari_folder.specs.FolderFault.{Names, NamesLevel};
ghost use Rattle.awari_folder.specs.State.{OnlyReads};
ghost use Rattle.awari_folder.specs.NextFile.{IsNextFile, IsFileFault};
ghost use Rattle.awari_folder.specs.Contents.{AreNames, IsStoredTo, IsFaultTo, Lacks};
ghost use Rattle.awari_folder.specs.Verifying.{IsMisplaced, IsPlaced, IsReadAs, IsRefusal, IsToldOf, TellsReader};

use crate::calls::{Folder, Refusal};
use crate::faults::FolderFault;
use crate::verifiers::{Alone, Verifier};
use awari_file::{FileFault, OLD_VERSION, Unsealed, read_unsealed};
use awari_table::{Counted, HIGHEST_LEVEL, Level, Shelf};
use awari_verify::VerifyFault;
use std::alloc::Global;
use std::io::Read;
use std::sync::Arc;

/// What a folder holds, or files that are read one by one.
#[derive(Drop)]
pub struct Stored {
    /// The levels whose files are there, from level 0 on.
    pub shelf: Shelf,
    /// The digest of the last of the files, zeros for none.
    pub digest: [u8; 32],
}

impl Stored {
    /// No level yet. It takes no memory.
    pub fn empty() -> Stored
        ensures shelf { result.shelf ≡ [] }
        ensures digest { result.digest ≡ replicate 32 0 }
    {
        Stored {
            shelf: Shelf::empty(),
            digest: [0; 32],
        }
    }

    /// Puts the next level on top, if these bytes are its file and the level is right over those below.
    /// Otherwise it is refused as 81, 86, 80 or 83, or as 84 if memory runs out, and what is stored stays
    /// as it is. It takes memory for three bytes a board, which the level keeps.
    pub fn add(&mut self, alloc: Global, bytes: &[u8]) -> Result<(), FolderFault>
        ensures ok { OnOk result (IsNextFile self.old.shelf self.old.digest bytes.now self.new.shelf self.new.digest) }
        // What the shelf says of each of its boards is the truth: following its plans secures the value,
        // soon, the value is what the board is worth, and the distance is the least.
        ensures meaning { OnOk result (TellsTruth self.new.shelf) }
        ensures fault { IfErr result (IsFileFault self.old.shelf self.old.digest bytes.now) }
        ensures named { IfErr result (Names (length self.old.shelf)) }
        ensures kept { OnErr result (self.new ≡ self.old) }
    {
        self.put_on(&Alone, alloc, &mut Counted::new(bytes))?;
        Ok(())
    }

    /// Reads the file of the next level and puts the level on top, if all is right.
    fn put_on<V: Verifier, R: Read>(
        &mut self,
        verifier: &V,
        alloc: Global,
        reader: &mut Counted<R>,
    ) -> Result<(), FolderFault>
        requires ready { V.ready }
        ensures exact { IfSome (R.remaining (inner_of reader.old))
            (λ bytes. MatchResult result (λ _. IsNextFile self.old.shelf self.old.digest bytes self.new.shelf self.new.digest) (IsFileFault self.old.shelf self.old.digest bytes)) }
        ensures right { OnOk result ((length self.new.shelf ≡ length self.old.shelf + 1) × TellsTruth self.new.shelf) }
        ensures refused { IfErr result (IsRefusal (length self.old.shelf) (λ fault. TellsReader fault (faults_of reader.old) (faults_of reader.new))) }
        ensures kept { OnErr result (self.new ≡ self.old) }
    {
        let read = read_unsealed(alloc, reader);
        self.put_read(verifier, alloc, read)
    }

    /// Puts the level on top that was read, if all is right.
    fn put_read<V: Verifier>(
        &mut self,
        verifier: &V,
        alloc: Global,
        read: Result<Unsealed, FileFault>,
    ) -> Result<(), FolderFault>
        requires ready { V.ready }
        requires low { IfOk read (λ file. file.loaded.image.level ≤ HIGHEST_LEVEL) }
        ensures exact { (bytes : List ℕ) (known : Option (List ℕ)) → IsReadAs read bytes known
            → MatchResult result (λ _. IsNextFile self.old.shelf self.old.digest bytes self.new.shelf self.new.digest) (IsFileFault self.old.shelf self.old.digest bytes) }
        ensures right { OnOk result ((length self.new.shelf ≡ length self.old.shelf + 1) × TellsTruth self.new.shelf) }
        ensures refused { IfErr result (IsRefusal (length self.old.shelf) (IsToldOf (IsPlaced V.lacks self.old.shelf self.old.digest) read)) }
        ensures kept { OnErr result (self.new ≡ self.old) }
    {
        let level = self.shelf.levels();
        let file = match read {
            Ok(file) => file,
            Err(FileFault::Memory) => return Err(FolderFault::Memory),
            Err(fault) => return Err(FolderFault::File { level, fault }),
        };
        place(&file, level, OLD_VERSION + 1, &self.digest)?;
        match verifier.verify(alloc, &self.shelf, &file) {
            Ok(None) => {}
            Ok(Some(VerifyFault::Memory)) => return Err(FolderFault::Memory),
            Ok(Some(fault)) => return Err(FolderFault::Verify { level, fault }),
            Err(fault) => return Err(FolderFault::File { level, fault }),
        }
        let digest = file.loaded.digest;
        self.shelf
            .push(Arc::new(alloc, Level::new(file.loaded.image))?);
        self.digest = digest;
        Ok(())
    }
}

/// Refuses a file that is not to be this level's, whatever its level is: one of a version before `oldest` as
/// 86, and one over another file than the one that ends in `below` as 80. If it is not sealed by its digest, that
/// is told as 81.
pub fn place(file: &Unsealed, level: u8, oldest: u16, below: &[u8; 32]) -> Result<(), FolderFault>
    requires low { file.now.loaded.image.level ≤ HIGHEST_LEVEL }
    ensures ok { OnOk result ((oldest ≤ file.now.loaded.version) × (file.now.loaded.below ≡ below.now)) }
    ensures misplaced { IfErr result (IsMisplaced level oldest below.now file.now) }
{
    let fault = if file.loaded.version < oldest {
        FolderFault::Old { level }
    } else if file.loaded.below != *below {
        FolderFault::Below { level }
    } else {
        return Ok(());
    };
    match file.seal() {
        Ok(()) => Err(fault),
        Err(fault) => Err(FolderFault::File { level, fault }),
    }
}

/// Loads the levels of a folder that have at most `most` stones: the files `level_00.awdb`,
/// `level_01.awdb` and so on, up to the first that is not there. A folder that does not exist counts
/// as empty. Files of higher levels are not opened, so nothing is said of them. Condition: `most` is at
/// most `HIGHEST_LEVEL`.
///
/// Each file is read and its level verified, by [`Alone`] or by [`Together`](crate::Together), so what
/// the shelf says is right, whatever lies in the folder. It takes memory for names, three bytes a board,
/// an `Arc` for each level, and what the verifier takes; want of it is 84. The files are taken in turn,
/// and each is refused as the first of these that is due:
///
/// - 82: it is there and does not open.
/// - 81: it is not read.
/// - 86: it is of version 1.
/// - 80: it does not name the digest of the file before it.
/// - 83: the level is not right over those below.
pub fn load<V: Verifier, F: Folder>(
    verifier: &V,
    alloc: Global,
    folder: &mut F,
    most: u8,
) -> Result<Stored, FolderFault>
    requires ready { V.ready }
    requires low { most ≤ HIGHEST_LEVEL }
    // What the shelf says of each of its boards is the truth: following its plans secures the value,
    // soon, the value is what the board is worth, and the distance is the least.
    ensures meaning { IfOk result (λ stored. TellsTruth stored.shelf) }
    ensures named { IfErr result NamesLevel }
    // If it is known what has the names: the levels up to the first that has no file, or the first
    // fault.
    ensures exact { (names : ℕ → Option (List ℕ)) → AreNames (F.state folder.old).stands names
        → MatchResult result (λ stored. IsStoredTo most names stored.shelf stored.digest) (IsFaultTo (Lacks (F.state folder.old).refusals (F.state folder.new).refusals) most names) }
    // Nothing is changed, and it is 82 if the folder refused to open a file, and only then.
    ensures reads { OnlyReads result (F.state folder.old) (F.state folder.new) }
{
    let mut stored = Stored::empty();
    for level in 0..=most {
        match folder.open(level) {
            Ok(Some(file)) => stored.put_on(verifier, alloc, &mut Counted::new(file))?,
            Ok(None) => break,
            Err(Refusal::Refused) => return Err(FolderFault::Open { level }),
            Err(Refusal::Memory) => return Err(FolderFault::Memory),
        }
    }
    Ok(stored)
}
