//! The names of the files in a folder.

use std::alloc::{AllocError, Global};
use std::path::{Path, PathBuf};

/// Where the file of a level lies: `level_00.awdb` for level 0, `level_12.awdb` for level 12.
pub(crate) fn path_of(alloc: Global, folder: Path<'_>, level: u8) -> Result<PathBuf, AllocError> {
    let name = format!(in alloc; "level_{level:02}.awdb")?;
    folder.join(alloc, name.as_str())
}

/// Where that file is written before it is whole.
pub(crate) fn path_of_new(
    alloc: Global,
    folder: Path<'_>,
    level: u8,
) -> Result<PathBuf, AllocError> {
    let name = format!(in alloc; "level_{level:02}.awdb.new")?;
    folder.join(alloc, name.as_str())
}

/// The folder itself, for one that is named by nothing too.
pub(crate) fn path_of_itself(alloc: Global, folder: Path<'_>) -> Result<PathBuf, AllocError> {
    folder.join(alloc, ".")
}
