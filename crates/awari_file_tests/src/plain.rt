//! The calls that are tested, each in a function of its own that promises nothing. What a call
//! promises is a premise of each goal behind it, and no test is proved from that: it is seen when the
//! test runs.

use crate::memory::MemoryFolder;
use awari_board::Board;
use awari_file::{FileFault, Loaded, compare_level, read_image, write_level};
use awari_folder::{Alone, Folder, FolderFault, Stored, load, save, save_or_keep};
use awari_migrate::{Migrated, migrate};
use awari_places::{entry, open_levels};
use awari_table::{Counted, Entry, HIGHEST_LEVEL, Image, Level, Shelf, TableText};
use awari_verify::verify;
use std::alloc::Global;
use std::io::{Read, Write};
use std::sync::Arc;
use std::test::Fail;

/// The next level of a text.
pub(crate) fn next_image(text: &mut TableText<'_>) -> Result<Image, Fail> {
    Ok(text.next()?.ok_or("a level")?)
}

/// Puts a level on top of a shelf, where it is right.
pub(crate) fn put_on(alloc: Global, shelf: &mut Shelf, image: Image) -> Result<(), Fail> {
    let level = verify(shelf, image)?;
    shelf.push(Arc::new(alloc, level)?);
    Ok(())
}

/// The level of this number on a shelf.
pub(crate) fn level_of(shelf: &Shelf, number: u8) -> Result<&Level, Fail> {
    if number >= shelf.levels() {
        return Err(Fail::new("a level of the shelf"));
    }
    let level: &Level = shelf.level(number);
    Ok(level)
}

/// Reads the file of a level.
pub(crate) fn read<R: Read>(alloc: Global, reader: &mut Counted<R>) -> Result<Loaded, FileFault> {
    read_image(alloc, reader)
}

/// Writes the file of a level, and gives its digest.
pub(crate) fn write<W: Write>(
    level: &Level,
    below: [u8; 32],
    writer: &mut Counted<W>,
) -> Result<[u8; 32], FileFault> {
    write_level(level, below, writer)
}

/// The digest of a level's file, if that is what the reader has.
pub(crate) fn compare<R: Read>(
    level: &Level,
    below: [u8; 32],
    reader: &mut Counted<R>,
) -> Result<Option<[u8; 32]>, FileFault> {
    compare_level(level, below, reader)
}

/// Saves a level into a folder unless it has a file there, and gives the digest of its file.
pub(crate) fn keep_in(
    folder: &mut impl Folder,
    level: &Level,
    below: [u8; 32],
) -> Result<[u8; 32], FolderFault> {
    save_or_keep(folder, level, below)
}

/// Saves a level into a folder, and gives the digest of its file.
pub(crate) fn save_into(
    folder: &mut impl Folder,
    level: &Level,
    below: [u8; 32],
) -> Result<[u8; 32], FolderFault> {
    save(folder, level, below)
}

/// Loads the levels of a folder.
pub(crate) fn load_from(folder: &mut impl Folder, alloc: Global) -> Result<Stored, FolderFault> {
    load(&Alone, alloc, folder, HIGHEST_LEVEL)
}

/// Brings the levels of one folder over to another.
pub(crate) fn bring_over(
    alloc: Global,
    from: &mut impl Folder,
    to: &mut impl Folder,
) -> Result<Migrated, FolderFault> {
    migrate(alloc, from, to)
}

/// An empty folder in memory.
pub(crate) fn memory_folder(alloc: Global) -> MemoryFolder {
    MemoryFolder::new(alloc)
}

/// Has a folder in memory refuse the call of this number.
pub(crate) fn refuse(folder: &mut MemoryFolder, call: u32) {
    folder.refuse(call);
}

/// Has the new files of a folder in memory refuse to be written, or to be brought to the disk.
pub(crate) fn refuse_files(folder: &mut MemoryFolder, writes: bool, sync: bool) {
    folder.refuse_files(writes, sync);
}

/// Whether something lies in a folder in memory of a file that got no name.
pub(crate) fn has_draft(folder: &MemoryFolder) -> bool {
    folder.has_draft()
}

/// Opens the file of a level, none where there is none.
pub(crate) fn open<F: Folder>(folder: &mut F, level: u8) -> Result<Option<F::File>, Fail> {
    if level > HIGHEST_LEVEL {
        return Err(Fail::new("a level of the game"));
    }
    match folder.open(level) {
        Ok(opened) => Ok(opened),
        Err(_) => Err(Fail::new("a folder")),
    }
}

/// The entry of a board, looked up where it lies.
pub(crate) fn look_up(folder: &mut impl Folder, board: Board) -> Result<Entry, FolderFault> {
    let levels = open_levels(folder, HIGHEST_LEVEL)?.levels;
    if board.stones() >= levels {
        return Err(FolderFault::Below { level: levels });
    }
    entry(folder, levels, &board)
}
