//! The file of the next level that was read, and is verified in parts.
//!
//! Whoever has threads gives each a share of a candidate, and each looks at some of its parts. What was
//! looked at comes together again, and what nobody looked at is looked at last. So nothing that is proved
//! rests on who looks at what.

ghost use Rattle.std.specs.Prelude.{◌≡◌, ◌↔◌, ◌<◌, ◌≤◌, ◌+◌, ⊤, ℕ, List, Option, Ok, Err, IfErr, IfOk, IfSome, IsTrue, IsFalse, MatchResult, OnErr, OnOk, length, [], true, false};
ghost use Rattle.std.specs.Arc.{arc_value};
ghost use Rattle.awari_table.specs.declared.TheConstants.{HIGHEST_LEVEL};
ghost use Rattle.awari_table.specs.declared.images.Image.{Image};
ghost use Rattle.awari_theory.specs.Truth.{TellsTruth};
ghost use Rattle.awari_file.specs.Sealing.{Seals};
ghost use Rattle.awari_folder.specs.Candidates.{CandidateView, IsCandidate, IsOverFile, IsReadFrom, IsUntouched, Joins, LooksAtPart};
ghost use Rattle.awari_folder.specs.FolderFault.{Names};
ghost use Rattle.awari_folder.specs.NextFile.{IsNextFile, IsFileFault};
ghost use Rattle.awari_folder.specs.Verifying.{IsJudged, IsReadAs};

use crate::faults::FolderFault;
use crate::loading::{Stored, place};
use awari_file::{FileFault, OLD_VERSION, Unsealed, read_unsealed};
use awari_table::{Counted, Entries, HIGHEST_LEVEL, Image, Level, Shelf};
use awari_verify::{PIECES, Share, VerifyFault, fault_by};
use std::alloc::{AllocError, Global};
use std::marker::Model;
use std::sync::Arc;

/// In how many parts a candidate is looked at: its digest is part 0, and the others are the pieces of
/// its boards.
pub const PARTS: u32 = PIECES + 1;

/// The file of the next level, read and in its place, and what was looked at of it.
#[derive(Drop)]
pub struct Candidate {
    file: Arc<Unsealed>,
    /// Whether the digest was compared, and is right.
    sealed: bool,
    /// What was looked at of its boards.
    share: Share,
}

impl Model for Candidate {
    ghost use Rattle.std.specs.Arc.{arc_value};
    ghost use Rattle.awari_folder.specs.Candidates.{CandidateView};

    ghost Value = { CandidateView };

    ghost view = { λ c. record { file = arc_value c.file; sealed = c.sealed; share = c.share } };
}

impl Candidate {
    /// The same file once more, and what was looked at of it; none if its `Arc` can't be shared. It takes
    /// no memory.
    pub fn share(&self) -> Option<Candidate>
        ensures { IfSome result (λ candidate. candidate ≡ self.now) }
    {
        let file = Arc::try_clone(&self.file).ok()?;
        Some(Candidate {
            file,
            sealed: self.sealed,
            share: self.share,
        })
    }

    /// Looks at a part. Condition: the part is below `PARTS`, and what was looked at before is so over
    /// this shelf. It takes no memory.
    pub fn look(&mut self, shelf: &Shelf, part: u32)
        requires part { part < 1601 }
        requires candidate { IsCandidate shelf.now self.old }
        ensures candidate { IsCandidate shelf.now self.new }
        ensures looks { LooksAtPart self.old part self.new }
    {
        if part == 0 {
            self.sealed = is_sealed(&self.file);
            return;
        }
        self.share.look(shelf, &self.file.loaded.image, part - 1);
    }

    /// Takes over what the other looked at, and says yes; or no, if the other's file ends in another
    /// digest. Condition: if they end in the same, they are one file. It takes no memory.
    pub fn join(&mut self, other: &Candidate) -> bool
        requires one { other.now.file.loaded.digest ≡ self.old.file.loaded.digest → other.now.file ≡ self.old.file }
        ensures one { IsTrue result ↔ (other.now.file.loaded.digest ≡ self.old.file.loaded.digest) }
        ensures joins { IsTrue result → Joins self.old other.now self.new }
        ensures candidate { (shelf : List Image) → IsTrue result → IsCandidate shelf self.old → IsCandidate shelf other.now → IsCandidate shelf self.new }
        ensures kept { IsFalse result → self.new ≡ self.old }
    {
        if other.file.loaded.digest != self.file.loaded.digest {
            return false;
        }
        self.sealed = self.sealed || other.sealed;
        self.share.join(&other.share);
        true
    }

    /// Whether the file is sealed by its digest, which is compared if it was not. It is refused as 66 to
    /// 68.
    fn seal(&self) -> Result<(), FileFault>
        requires low { self.now.file.loaded.image.level ≤ HIGHEST_LEVEL }
        requires sealed { self.now.sealed ≡ true → Seals {X = ⊤} self.now.file (Ok tt) }
        ensures { Seals self.now.file result }
    {
        if self.sealed {
            return Ok(());
        }
        self.file.seal()
    }

    /// Why the level of the file is not the shelf's next, none if it is. It looks at what nobody looked
    /// at. It is refused as 66 to 68 if the file is not sealed by its digest.
    fn judge(&self, shelf: &Shelf) -> Result<Option<VerifyFault>, FileFault>
        requires { IsCandidate shelf.now self.now }
        ensures { IsJudged ⊥ shelf.now self.now.file result }
    {
        self.seal()?;
        Ok(fault_by(shelf, &self.file.loaded.image, &self.share))
    }

    /// The image of its level. It takes memory for a copy, if somebody else has the file too.
    fn into_image(self, alloc: Global) -> Result<Image, AllocError>
        ensures { IfOk result (λ image. image ≡ self.file.loaded.image) }
    {
        let Candidate { file, .. } = self;
        match Arc::try_unwrap(file) {
            Ok(file) => Ok(file.loaded.image),
            Err(shared) => copy_of(alloc, &shared.loaded.image),
        }
    }
}

/// Whether the file is sealed by its digest.
fn is_sealed(file: &Unsealed) -> bool
    requires { file.now.loaded.image.level ≤ HIGHEST_LEVEL }
    ensures { IsTrue result ↔ Seals {X = ⊤} file.now (Ok tt) }
{
    match file.seal() {
        Ok(()) => true,
        Err(_) => false,
    }
}

/// A copy of the image.
fn copy_of(alloc: Global, image: &Image) -> Result<Image, AllocError>
    ensures { IfOk result (λ copy. copy ≡ image.now) }
{
    let mut entries = Entries::with_capacity(alloc, image.entries.len())?;
    entries.join(alloc, &image.entries)?;
    Ok(Image {
        level: image.level,
        limit: image.limit,
        entries,
    })
}

impl Stored {
    /// Reads the file of the next level from these bytes, of which nothing is verified yet. It is refused as
    /// `add` refuses it, but for 83. It takes memory for three bytes a board, which the level keeps.
    pub fn read(&self, alloc: Global, bytes: &[u8]) -> Result<Candidate, FolderFault>
        ensures read { IfOk result (λ c. IsReadFrom c bytes.now × IsUntouched c) }
        ensures next { IfOk result (λ c. IsCandidate self.now.shelf c × IsOverFile self.now.digest c) }
        ensures fault { IfErr result (IsFileFault self.now.shelf self.now.digest bytes.now) }
        ensures named { IfErr result (Names (length self.now.shelf)) }
    {
        let read = read_unsealed(alloc, &mut Counted::new(bytes));
        self.begin(alloc, read)
    }

    /// What was read, as a candidate.
    fn begin(
        &self,
        alloc: Global,
        read: Result<Unsealed, FileFault>,
    ) -> Result<Candidate, FolderFault>
        requires low { IfOk read (λ file. file.loaded.image.level ≤ HIGHEST_LEVEL) }
        ensures read { IfOk result (λ c. (read ≡ Ok c.file) × IsUntouched c) }
        ensures next { IfOk result (λ c. IsCandidate self.now.shelf c × IsOverFile self.now.digest c) }
        ensures fault { (bytes : List ℕ) (known : Option (List ℕ)) → IsReadAs read bytes known → IfErr result (IsFileFault self.now.shelf self.now.digest bytes) }
        ensures named { IfErr result (Names (length self.now.shelf)) }
    {
        let level = self.shelf.levels();
        let file = match read {
            Ok(file) => file,
            Err(FileFault::Memory) => return Err(FolderFault::Memory),
            Err(fault) => return Err(FolderFault::File { level, fault }),
        };
        place(&file, level, OLD_VERSION + 1, &self.digest)?;
        let share = Share::none(&file.loaded.image);
        let file = Arc::new(alloc, file)?;
        Ok(Candidate {
            file,
            sealed: false,
            share,
        })
    }

    /// Puts the candidate's level on top, if its file is sealed and the level is right over those below.
    /// Otherwise it is refused as `add` refuses it, and what is stored stays as it is. Condition: it was read
    /// as the next one here. It takes memory for an `Arc`, and for three bytes a board if somebody else has
    /// the candidate too.
    pub fn accept(&mut self, alloc: Global, candidate: Candidate) -> Result<(), FolderFault>
        requires next { IsCandidate self.old.shelf candidate × IsOverFile self.old.digest candidate }
        ensures ok { OnOk result ((bytes : List ℕ) → IsReadFrom candidate bytes → IsNextFile self.old.shelf self.old.digest bytes self.new.shelf self.new.digest) }
        // What the shelf says of each of its boards is the truth: following its plans secures the value,
        // soon, the value is what the board is worth, and the distance is the least.
        ensures meaning { OnOk result (TellsTruth self.new.shelf) }
        ensures fault { IfErr result (λ fault. (bytes : List ℕ) → IsReadFrom candidate bytes → IsFileFault self.old.shelf self.old.digest bytes fault) }
        ensures named { IfErr result (Names (length self.old.shelf)) }
        ensures kept { OnErr result (self.new ≡ self.old) }
    {
        let level = self.shelf.levels();
        match candidate.judge(&self.shelf) {
            Ok(None) => {}
            Ok(Some(fault)) => return Err(FolderFault::Verify { level, fault }),
            Err(fault) => return Err(FolderFault::File { level, fault }),
        }
        let digest = candidate.file.loaded.digest;
        let image = candidate.into_image(alloc)?;
        self.shelf.push(Arc::new(alloc, Level::new(image))?);
        self.digest = digest;
        Ok(())
    }
}
