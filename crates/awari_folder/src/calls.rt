//! What a folder of level files is asked for.

ghost use Rattle.std.specs.Prelude.{◌≡◌, ◌≤◌, ℕ, List, [], Option, Some, None, Ok, IfSome, IfOk, IsSome, OnOk, OnErr, false, true};
ghost use Rattle.awari_table.specs.declared.TheConstants.{HIGHEST_LEVEL};
ghost use Rattle.awari_streams.specs.Counted.{Grew};
ghost use Rattle.awari_folder.specs.Contents.{Same, Opens, Reads, IsLeftOf, IsWhole, Counts};
ghost use Rattle.awari_folder.specs.State.{DraftsOnly, GetsName, MayName, State, Unchanged};

use std::io::{Read, Write};

/// Why a folder refused a call.
#[derive(Clone, Copy, Debug, PartialEq, Eq)]
pub enum Refusal {
    /// The folder itself refused.
    Refused,
    /// There was no room for a name.
    Memory,
}

/// A new file, written beside the files of levels until it takes a level's name.
pub trait Draft: Write {
    /// What of it is on the disk for certain, if that is known.
    ghost kept: { Self → Option (List ℕ) };

    /// Brings what was written to the disk.
    fn sync(&mut self) -> Result<(), Refusal>
        ensures { OnOk result (IfSome (Self.contents self.old) (λ bytes. IsWhole (Self.contents self.new) (kept self.new) bytes)) };
}

/// A folder with a file for each level, or none. Any call may be refused at any time.
pub trait Folder {
    type File: Read + Drop;

    type New: Draft + Drop;

    /// What is known of it.
    ghost state: { Self → State };

    /// The file of a level, if there is one.
    fn open(&mut self, level: u8) -> Result<Option<Self::File>, Refusal>
        requires { level ≤ HIGHEST_LEVEL }
        ensures opened { IfOk result (λ opened. Opens Self.File.remaining ((state self.old).stands level) opened) }
        ensures unchanged { Unchanged (state self.old) (state self.new) }
        ensures refused { Counts result (state self.old).refusals (state self.new).refusals };

    /// Whether a level has a file, which need not be one that opens.
    fn has_file(&mut self, level: u8) -> Result<bool, Refusal>
        requires { level ≤ HIGHEST_LEVEL }
        ensures some { result ≡ Ok true → IfSome ((state self.old).stands level) (λ name. IsSome name) }
        ensures none { result ≡ Ok false → IfSome ((state self.old).stands level) (λ name. name ≡ None) }
        ensures unchanged { Unchanged (state self.old) (state self.new) }
        ensures refused { Counts result (state self.old).refusals (state self.new).refusals }
    {
        match self.open(level) {
            Ok(file) => Ok(file.is_some()),
            Err(refusal) => Err(refusal),
        }
    }

    /// How many bytes the file of a level has, if there is one. If that many are there from `place` on,
    /// `room` is filled with them; otherwise nothing is said of `room`.
    fn read_at(&mut self, level: u8, place: u64, room: &mut [u8]) -> Result<Option<u64>, Refusal>
        requires { level ≤ HIGHEST_LEVEL }
        ensures read { IfOk result (Reads ((state self.old).stands level) place room.new) }
        ensures unchanged { Unchanged (state self.old) (state self.new) }
        ensures refused { Counts result (state self.old).refusals (state self.new).refusals };

    /// A new and empty file beside that of a level.
    fn create(&mut self, level: u8) -> Result<Self::New, Refusal>
        requires { level ≤ HIGHEST_LEVEL }
        ensures empty { IfOk result (λ new. IfSome ((state self.old).stands level) (λ _. Self.New.contents new ≡ Some [])) }
        ensures drafts { DraftsOnly level (state self.old) (state self.new) × ((state self.new).stuck ≡ (state self.old).stuck) }
        ensures err { OnErr result (Unchanged (state self.old) (state self.new)) }
        ensures refused { Counts result (state self.old).refusals (state self.new).refusals };

    /// Gives the new file the name of the level's, in place of an old one.
    fn replace(&mut self, level: u8, new: Self::New) -> Result<(), Refusal>
        requires { level ≤ HIGHEST_LEVEL }
        ensures ok { OnOk result (GetsName level (Self.New.contents new) (state self.old) (state self.new)) }
        ensures err { OnErr result (Same (state self.old).stands (state self.new).stands) }
        ensures leaves { MayName level (IsLeftOf (Self.New.kept new)) (state self.old) (state self.new) × ((state self.new).stuck ≡ (state self.old).stuck) }
        ensures refused { Counts result (state self.old).refusals (state self.new).refusals };

    /// Removes what lies there of a new file of the level.
    fn remove_new(&mut self, level: u8) -> Result<(), Refusal>
        requires { level ≤ HIGHEST_LEVEL }
        ensures drafts { DraftsOnly level (state self.old) (state self.new) × ((state self.new).refusals ≡ (state self.old).refusals) }
        ensures ok { OnOk result ((state self.new).is_clear level) }
        ensures err { OnErr result (Grew (state self.old).stuck (state self.new).stuck) };
}
