//! What lies behind a handle.

ghost use Rattle.std.specs.Prelude.{◌≡◌, ◌≢◌, ◌≤◌, ◌++◌, ◌∷◌, [], ◌↔◌, ℕ, List, None, length, replicate, IfErr, IfSome, IsSome, IsSomeAnd, IsTrue, OnErr, OnOk};
ghost use Rattle.std.specs.Arc.{arc_value};
ghost use Rattle.awari_table.specs.Shelves.{Consistent};
ghost use Rattle.awari_table.specs.declared.TheConstants.{HIGHEST_LEVEL};
ghost use Rattle.awari_theory.specs.Truth.{TellsTruth};
ghost use Rattle.awari_play.specs.Least.{IsPlannedLowest};
ghost use Rattle.awari_file.specs.FileText.{file_len};
ghost use Rattle.awari_folder.specs.Candidates.{IsReadFrom, IsUntouched};
ghost use Rattle.awari_folder.specs.NextFile.{IsNextFile, IsFileFault};
ghost use Rattle.awari_exports.specs.Held.{AreOne, Begins, IsMade, IsReadIn, IsRightNext, IsSettled, JoinsIn, LooksIn, Spreads};

use crate::answers::{NO_RANK, NOT_YET};
use crate::telling::{PlainDraft, told_draft};
use awari_file::file_len;
use awari_folder::{Candidate, FolderFault, PARTS, Stored};
use awari_plan::kept_levels_are_right;
use awari_segments::SlicedLevel;
use awari_table::{HIGHEST_LEVEL, Image, Level, Shelf};
use std::alloc::Global;
use std::marker::Model;
use std::sync::Arc;

/// There are all levels: the number of `TooHigh`.
pub(crate) const ALL_LEVELS: u8 = 51;

/// No room for a level.
pub(crate) const NO_MEMORY: u8 = 53;

/// Levels, the next one if it was begun, and the next one's file if it was read.
#[derive(Drop)]
pub struct Held {
    stored: Stored,
    draft: Option<SlicedLevel>,
    candidate: Option<Candidate>,
}

impl Model for Held {
    ghost use Rattle.awari_exports.specs.Held.{HeldView, IsHeld};

    ghost Value = { HeldView };

    ghost view = { λ h. record { stored = h.stored; draft = h.draft; candidate = h.candidate } };

    ghost invariant = { IsHeld };
}

impl Held {
    /// No levels, and none begun or read. It takes no memory.
    pub(crate) fn empty() -> Held
        ensures shelf { result.stored.shelf ≡ [] }
        ensures digest { result.stored.digest ≡ replicate 32 0 }
        ensures none { (result.draft ≡ None) × (result.candidate ≡ None) }
    {
        Held {
            stored: Stored::empty(),
            draft: None,
            candidate: None,
        }
    }

    /// The levels.
    pub(crate) fn shelf(&self) -> &Shelf
        ensures { result.now ≡ self.now.stored.shelf }
    {
        &self.stored.shelf
    }

    /// The digest of the last file.
    pub(crate) fn digest(&self) -> [u8; 32]
        ensures { result ≡ self.now.stored.digest }
    {
        self.stored.digest
    }

    /// How many bytes the file of a level has that was begun.
    pub(crate) fn next_len(&self) -> u64
        requires { IsSomeAnd self.now.draft IsSettled }
        ensures { result ≡ file_len (length self.now.stored.shelf) }
    {
        file_len(self.stored.shelf.levels())
    }

    /// Puts the next level on top, if these bytes are its file. Then a level that was begun or read is given up.
    pub(crate) fn add(&mut self, alloc: Global, bytes: &[u8]) -> Result<(), FolderFault>
        ensures ok { OnOk result (IsNextFile self.old.stored.shelf self.old.stored.digest bytes.now self.new.stored.shelf self.new.stored.digest) }
        ensures meaning { OnOk result (TellsTruth self.new.stored.shelf) }
        ensures given_up { OnOk result ((self.new.draft ≡ None) × (self.new.candidate ≡ None)) }
        ensures fault { IfErr result (IsFileFault self.old.stored.shelf self.old.stored.digest bytes.now) }
        ensures kept { OnErr result (self.new ≡ self.old) }
    {
        let candidate = self.candidate.take();
        match self.stored.add(alloc, bytes) {
            Ok(()) => {
                self.draft = None;
                Ok(())
            }
            Err(fault) => {
                self.candidate = candidate;
                Err(fault)
            }
        }
    }

    /// The same levels once more, with none begun, and the file that was read; none if an `Arc` can't be
    /// shared. It takes no memory.
    pub(crate) fn share(&self) -> Option<Held>
        ensures stored { IfSome result (λ held. held.stored ≡ self.now.stored) }
        ensures none { IfSome result (λ held. held.draft ≡ None) }
        ensures candidate { IfSome result (λ held. held.candidate ≡ self.now.candidate) }
    {
        let shelf = self.stored.shelf.share().ok()?;
        let candidate = shared_candidate(&self.candidate)?;
        Some(Held {
            stored: Stored {
                shelf,
                digest: self.stored.digest,
            },
            draft: None,
            candidate,
        })
    }

    /// Reads the next level's file, in place of one that was read. If it is refused, all stays as it is.
    pub(crate) fn read(&mut self, alloc: Global, bytes: &[u8]) -> Result<(), FolderFault>
        ensures read { OnOk result (IsSomeAnd self.new.candidate (λ c. IsReadFrom c bytes.now × IsUntouched c)) }
        ensures rest { (self.new.stored ≡ self.old.stored) × (self.new.draft ≡ self.old.draft) }
        ensures fault { IfErr result (IsFileFault self.old.stored.shelf self.old.stored.digest bytes.now) }
        ensures kept { OnErr result (self.new ≡ self.old) }
    {
        let candidate = self.stored.read(alloc, bytes)?;
        self.candidate = Some(candidate);
        Ok(())
    }

    /// Looks at a part of the file that was read: 0, or 59 if none was, or 93 if there is no such part.
    pub(crate) fn look(&mut self, part: u32) -> u8
        ensures looks { LooksIn self.old.candidate part self.new.candidate result }
        ensures rest { (self.new.stored ≡ self.old.stored) × (self.new.draft ≡ self.old.draft) }
    {
        let Some(mut candidate) = self.candidate.take() else {
            return NOT_YET;
        };
        if part >= PARTS {
            self.candidate = Some(candidate);
            return NO_RANK;
        }
        candidate.look(&self.stored.shelf, part);
        self.candidate = Some(candidate);
        0
    }

    /// Takes over what was looked at there of the same file: 0, or 59 if not both have read it. Condition: if
    /// the two files end in one digest, they are one, over the same levels.
    pub(crate) fn join(&mut self, other: &Held) -> u8
        requires one { AreOne other.now.stored.shelf other.now.candidate self.old.stored.shelf self.old.candidate }
        ensures joins { JoinsIn self.old.candidate other.now.candidate self.new.candidate result }
        ensures rest { (self.new.stored ≡ self.old.stored) × (self.new.draft ≡ self.old.draft) }
    {
        let Some(theirs) = &other.candidate else {
            return NOT_YET;
        };
        let Some(mut own) = self.candidate.take() else {
            return NOT_YET;
        };
        let is_one = own.join(theirs);
        self.candidate = Some(own);
        if is_one { 0 } else { NOT_YET }
    }

    /// Whether the next level's file was read.
    pub(crate) fn has_read(&self) -> bool
        ensures { IsTrue result ↔ IsSome self.now.candidate }
    {
        self.candidate.is_some()
    }

    /// Puts the level on top that was read, if it is right. Condition: one was read. It is read no more, and one
    /// that was begun is given up if it is right.
    pub(crate) fn accept(&mut self, alloc: Global) -> Result<(), FolderFault>
        requires read { IsSome self.old.candidate }
        ensures ok { OnOk result ((bytes : List ℕ) → IsReadIn self.old.candidate bytes
            → IsNextFile self.old.stored.shelf self.old.stored.digest bytes self.new.stored.shelf self.new.stored.digest) }
        ensures meaning { OnOk result (TellsTruth self.new.stored.shelf) }
        ensures fault { IfErr result (λ fault. (bytes : List ℕ) → IsReadIn self.old.candidate bytes → IsFileFault self.old.stored.shelf self.old.stored.digest bytes fault) }
        ensures kept { OnErr result ((self.new.stored ≡ self.old.stored) × (self.new.draft ≡ self.old.draft)) }
        ensures gone { self.new.candidate ≡ None }
    {
        let Some(candidate) = self.candidate.take() else {
            unreachable!();
        };
        match self.stored.accept(alloc, candidate) {
            Ok(()) => {
                self.draft = None;
                Ok(())
            }
            Err(fault) => Err(fault),
        }
    }

    /// Begins the next level, in place of one that was begun: 0, or 51 if there are all, or 53.
    pub(crate) fn begin(&mut self, alloc: Global) -> u8
        ensures begins { Begins self.old.stored.shelf self.old.draft self.new.draft result }
        ensures stored { self.new.stored ≡ self.old.stored }
        ensures candidate { self.new.candidate ≡ self.old.candidate }
    {
        if self.stored.shelf.levels() > HIGHEST_LEVEL {
            return ALL_LEVELS;
        }
        self.draft = None;
        match SlicedLevel::begin(alloc, &self.stored.shelf) {
            Ok(draft) => {
                self.draft = Some(draft);
                0
            }
            Err(_) => NO_MEMORY,
        }
    }

    /// Builds a slice of the level that was begun, and says how far it is: 0, or 59 if none was, or 53. That is
    /// also for a note that does not fit, which nothing known brings about.
    pub(crate) fn spread(&mut self, boards: usize, out: &mut PlainDraft) -> u8
        ensures spreads { Spreads self.old.draft self.new.draft out.new result }
        ensures stored { self.new.stored ≡ self.old.stored }
        ensures candidate { self.new.candidate ≡ self.old.candidate }
        ensures untouched { result ≢ 0 → out.new ≡ out.old }
    {
        let Some(draft) = self.draft.take() else {
            return NOT_YET;
        };
        match draft.spread(boards) {
            Ok(draft) => {
                *out = told_draft(&draft);
                self.draft = Some(draft);
                0
            }
            Err(_) => NO_MEMORY,
        }
    }

    /// Whether a level was begun, and all its gains are closed.
    pub(crate) fn is_settled(&self) -> bool
        ensures { IsTrue result ↔ IsSomeAnd self.now.draft IsSettled }
    {
        match &self.draft {
            Some(draft) => draft.is_settled(),
            None => false,
        }
    }

    /// The level that was begun, none if memory runs out. It is begun no more. Condition: all its gains
    /// are closed.
    pub(crate) fn finish(&mut self, alloc: Global) -> Option<Level>
        requires settled { IsSomeAnd self.old.draft IsSettled }
        ensures next { IfSome result (IsRightNext self.old.stored.shelf) }
        ensures stored { self.new.stored ≡ self.old.stored }
        ensures none { self.new.draft ≡ None }
        ensures candidate { self.new.candidate ≡ self.old.candidate }
    {
        let draft = self.draft.take()?;
        match draft.finish(alloc, &self.stored.shelf) {
            Ok(image) => Some(next_level(&self.stored.shelf, image)),
            Err(_) => None,
        }
    }

    /// Puts a level on top, whose file ends in this digest. A level that was begun or read is given up.
    pub(crate) fn put_on(&mut self, level: Arc<Level>, digest: [u8; 32])
        requires { Consistent self.old.stored.shelf (arc_value level) }
        ensures shelf { self.new.stored.shelf ≡ self.old.stored.shelf ++ arc_value level ∷ [] }
        ensures digest { self.new.stored.digest ≡ digest }
        ensures given_up { (self.new.draft ≡ None) × (self.new.candidate ≡ None) }
    {
        self.draft = None;
        self.candidate = None;
        self.stored.shelf.push(level);
        self.stored.digest = digest;
    }
}

/// The same file once more, if there is one; none if its `Arc` can't be shared.
fn shared_candidate(candidate: &Option<Candidate>) -> Option<Option<Candidate>>
    ensures { IfSome result (λ shared. shared ≡ candidate.now) }
{
    match candidate {
        Some(candidate) => {
            let shared = candidate.share()?;
            Some(Some(shared))
        }
        None => Some(None),
    }
}

/// The shelf's next level, which has this image. It takes no memory.
fn next_level(shelf: &Shelf, image: Image) -> Level
    requires low { length shelf.now ≤ HIGHEST_LEVEL }
    requires made { IsMade shelf.now image }
    ensures consistent { Consistent shelf.now result }
    ensures meaning { TellsTruth (shelf.now ++ result ∷ []) }
    ensures planned { IsPlannedLowest shelf.now result }
{
    // Ghost: over a shelf the image of settled parts is right, so nothing is verified.
    let _levels = shelf.levels();
    kept_levels_are_right();
    Level::new(image)
}
