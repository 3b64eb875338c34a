//! A host with two folders in memory, so that it is known what the commands find and leave there.

ghost use Rattle.awari_cli_tests.specs.Hosts.{IsKept};

use awari_cli::{Host, Machine, Purpose};
use awari_file_tests::MemoryFolder;
use awari_folder::FolderFault;
use std::alloc::Global;
use std::io::Write;
use std::mem;

/// The name of the first folder.
pub const FIRST: &str = "first";

/// The name of the second folder.
pub const SECOND: &str = "second";

/// Two folders in memory. Any other name is that of an empty folder, which goes when it is closed.
#[derive(Drop)]
pub struct MemoryHost {
    alloc: Global,
    first: MemoryFolder,
    second: MemoryFolder,
}

impl MemoryHost {
    /// Two empty folders.
    pub fn new(alloc: Global) -> MemoryHost {
        MemoryHost {
            alloc,
            first: MemoryFolder::new(alloc),
            second: MemoryFolder::new(alloc),
        }
    }
}

impl<'a> Host<'a> for MemoryHost {
    ghost use Rattle.awari_cli_tests.specs.Known.{known_of};

    type Folder = MemoryFolder;

    ghost holds = { λ host. known_of host };

    ghost keeps = { λ name. IsKept name };

    fn open<E: Write>(
        &mut self,
        name: &'a str,
        _purpose: Purpose,
        _errors: &mut E,
    ) -> MemoryFolder {
        let empty = MemoryFolder::new(self.alloc);
        if name == FIRST {
            return mem::replace(&mut self.first, empty);
        }
        if name == SECOND {
            return mem::replace(&mut self.second, empty);
        }
        empty
    }

    fn is_there(&self, _name: &'a str) -> bool {
        true
    }

    fn levels_in(&self, _folder: &MemoryFolder) -> u8 {
        0
    }

    fn machine(&self) -> Machine {
        Machine {
            memory_left: None,
            on_terminal: false,
        }
    }

    fn lock<E: Write>(
        &self,
        _name: &'a str,
        _folder: &mut MemoryFolder,
        _top: u8,
        _errors: &mut E,
    ) -> Result<(), FolderFault> {
        Ok(())
    }

    fn tell<E: Write>(&self, _name: &'a str, _folder: &MemoryFolder, _errors: &mut E) {}

    fn close(&mut self, name: &'a str, folder: MemoryFolder) {
        if name == FIRST {
            self.first = folder;
        } else if name == SECOND {
            self.second = folder;
        }
    }
}
