//! Why files do not say what is asked of a board.

use awari_folder::FolderFault;

/// Why files do not say what is asked of a board.
#[derive(Clone, Copy, Debug, PartialEq, Eq)]
pub enum Unsaid {
    /// 74: there are only the levels below `levels`.
    NotYet { levels: u8 },
    /// A file is not read, or there was no room for its name.
    Folder { fault: FolderFault },
}
