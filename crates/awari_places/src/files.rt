//! The files of a folder as a table.

ghost use Rattle.std.specs.Prelude.{◌≤◌, ◌+◌};
ghost use Rattle.awari_table.specs.declared.TheConstants.{HIGHEST_LEVEL};

use crate::entries::entry;
use awari_board::Board;
use awari_folder::{Folder, FolderFault};
use awari_play::Table;
use awari_table::{Entry, HIGHEST_LEVEL};

/// The files of a folder, which answer for boards where they lie: so many of those that
/// [`open_levels`](crate::open_levels) found. A look-up reads six bytes, and is refused as
/// [`entry`](crate::entry) is.
#[derive(Drop)]
pub struct Files<'a, F> {
    /// The folder.
    pub folder: &'a mut F,
    /// How many levels there are, numbered from 0.
    pub levels: u8,
    ghost few: { levels ≤ HIGHEST_LEVEL + 1 },
}

impl<F: Folder> Table for Files<'_, F> {
    ghost use Rattle.awari_places.specs.Asked.{by_files};
    ghost use Rattle.awari_places.specs.Lasting.{files_last};

    type Fault = FolderFault;

    ghost saying = { by_files F.state };

    ghost lasting = { files_last F.state };

    fn entry(&mut self, board: &Board) -> Result<Entry, FolderFault> {
        entry(self.folder, self.levels, board)
    }
}
