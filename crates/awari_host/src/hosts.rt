//! What a host is asked for: the folders that the words name.

ghost use Rattle.std.specs.Prelude.{◌≡◌, ℕ, List, Option, IfErr};
ghost use Rattle.awari_folder.specs.Contents.{Stands};
ghost use Rattle.awari_host.specs.Hosts.{IsLockFault, OthersStay};

use awari_folder::{Folder, FolderFault};
use std::io::Write;

/// What a folder is opened for.
#[derive(Clone, Copy, Debug, PartialEq, Eq)]
pub enum Purpose {
    /// Its levels are read.
    Read,
    /// Levels are written into it.
    Write,
    /// Levels are built in it, once it is locked.
    Build,
}

/// What a host can tell of the machine. Nothing is promised of it.
#[derive(Clone, Copy)]
pub struct Machine {
    /// How many bytes of memory are left, if that can be told.
    pub memory_left: Option<u64>,
    /// Whether the error stream is a terminal, on which a line can be written anew.
    pub on_terminal: bool,
}

/// Where folders lie under their names. What is odd about a folder may be told on an error stream; of
/// what is told there nothing is promised.
pub trait Host<'a> {
    type Folder: Folder + Drop;

    /// What the names of levels have in the folder of a name, if that is known.
    ghost holds: { Self → List ℕ → Stands };

    /// The names of the folders that have what was written into them once they are closed.
    ghost keeps: { List ℕ → Type 0 };

    /// The folder of this name, whether it is there or not. Nothing is known of one that is open already.
    fn open<E: Write>(&mut self, name: &'a str, purpose: Purpose, errors: &mut E) -> Self::Folder
        ensures opened { (Self.Folder.state result).stands ≡ holds self.old name.now }
        ensures others { OthersStay name.now (holds self.old) (holds self.new) };

    /// Whether a folder of this name is there, as far as the host can tell.
    fn is_there(&self, name: &'a str) -> bool;

    /// How many levels from 0 on have a file in an open folder, as far as the host can tell.
    fn levels_in(&self, folder: &Self::Folder) -> u8;

    /// What the host can tell of the machine.
    fn machine(&self) -> Machine;

    /// Locks an open folder for a build up to this level, so that another build is refused at once, and
    /// so is one into a folder that can't be written to. If the folder has these levels already, it need
    /// not be locked. The refusals are 82 Open and 84 Memory.
    fn lock<E: Write>(
        &self,
        name: &'a str,
        folder: &mut Self::Folder,
        top: u8,
        errors: &mut E,
    ) -> Result<(), FolderFault>
        ensures stands { (Self.Folder.state folder.new).stands ≡ (Self.Folder.state folder.old).stands }
        ensures refused { IfErr result IsLockFault };

    /// Tells why a call on the folder was refused, if one was. The folder was opened under this name. A
    /// host that keeps no words of its own tells nothing.
    fn tell<E: Write>(&self, name: &'a str, folder: &Self::Folder, errors: &mut E);

    /// Closes the folder, which was opened under this name.
    fn close(&mut self, name: &'a str, folder: Self::Folder)
        ensures closed { keeps name.now → holds self.new name.now ≡ (Self.Folder.state folder).stands }
        ensures others { OthersStay name.now (holds self.old) (holds self.new) };
}
