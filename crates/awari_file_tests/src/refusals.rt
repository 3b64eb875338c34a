//! Calls on files and folders that take memory, made again where that is refused. Nothing is refused
//! while these run by themselves. The script `tests/refused_growths/run` runs each of them with one
//! growth refused, for each growth in turn. A `?` stands for what is made before the call, whose
//! refusal is no wrong answer.

use crate::expect::expect_equal;
use crate::levels::{digest_in, right_file, right_shelf};
use crate::plain::{level_of, load_from, read, save_into};
use awari_file::FileFault;
use awari_folder::{FolderFault, HostFolder};
use awari_table::{Counted, Level};
use std::alloc::Global;
use std::fs::{self, File};
use std::io;
use std::path::Path;
use std::process::Abort;
use std::rt::Files;
use std::test::Fail;

/// How many entries are read of the file.
fn entries_read(alloc: Global, file: &[u8]) -> Result<usize, FileFault> {
    let loaded = read(alloc, &mut Counted::new(file))?;
    Ok(loaded.image.entries.len())
}

#[test]
fn a_file_is_read(rt: HostRuntime) -> Result<(), Fail> {
    let file = right_file(rt.alloc(), 1)?;
    let mut found = entries_read(rt.alloc(), &file);
    if found == Err(FileFault::Memory) {
        found = entries_read(rt.alloc(), &file);
    }
    expect_equal(&rt, "entries", found, Ok(12));
    Ok(())
}

/// The header of a file of level 24, and nothing behind it.
const HEADER_24: [u8; 52] = [
    0x41, 0x57, 0x44, 0x42, 0, 2, 24, 0, 0, 0, 0, 0, 0x18, 0xde, 0x5c, 0xac, 0, 0, 1, 0, 0, 0, 0,
    0, 0, 0, 0, 0, 0, 0, 0, 0, 0, 0, 0, 0, 0, 0, 0, 0, 0, 0, 0, 0, 0, 0, 0, 0, 0, 0, 0, 0,
];

/// A header that names level 24 asks for no room if no entry follows it.
#[test]
fn a_header_alone_takes_no_room(rt: HostRuntime) {
    let found = entries_read(rt.alloc(), &HEADER_24);
    expect_equal(&rt, "entries", found, Err(FileFault::Truncated));
}

/// A new folder of this name.
fn empty_folder(files: &(impl Files + AllocGlobal), folder: &str) -> io::Result<()> {
    let _ = fs::remove_dir_all(files, folder);
    fs::create_dir(files, folder)
}

/// Saves level 0 into the folder, and gives the digest of its file.
fn saved(
    files: &(impl Files<File = File> + AllocGlobal),
    folder: &str,
    level: &Level,
) -> Result<[u8; 32], FolderFault> {
    let mut host = HostFolder::new(files, files.alloc(), Path::new(folder));
    save_into(&mut host, level, [0; 32])
}

/// How many levels are loaded, and the digest.
fn loaded(
    files: &(impl Files<File = File> + AllocGlobal),
    folder: &str,
) -> Result<(u8, [u8; 32]), FolderFault> {
    let mut host = HostFolder::new(files, files.alloc(), Path::new(folder));
    let stored = load_from(&mut host, files.alloc())?;
    Ok((stored.shelf.levels(), stored.digest))
}

/// A folder may refuse a call so for want of memory, where the call is about level 0.
fn is_want<T: Drop>(answer: &Result<T, FolderFault>) -> bool {
    matches!(
        answer,
        Err(FolderFault::Memory | FolderFault::Open { level: 0 })
    )
}

/// Level 0 is saved.
fn expect_saved(
    rt: &(impl Files<File = File> + AllocGlobal + Abort),
    folder: &str,
    level: &Level,
    digest: [u8; 32],
) {
    let mut answer = saved(rt, folder, level);
    if is_want(&answer) {
        answer = saved(rt, folder, level);
    }
    expect_equal(rt, "saved", answer, Ok(digest));
}

/// Level 0 is loaded.
fn expect_loaded(
    rt: &(impl Files<File = File> + AllocGlobal + Abort),
    folder: &str,
    digest: [u8; 32],
) {
    let mut answer = loaded(rt, folder);
    if is_want(&answer) {
        answer = loaded(rt, folder);
    }
    expect_equal(rt, "loaded", answer, Ok((1, digest)));
}

#[test]
fn a_folder_is_saved_into_and_loaded(rt: HostRuntime) -> Result<(), Fail> {
    let folder = "awari_refusal_test";
    empty_folder(&rt, folder)?;
    let shelf = right_shelf(rt.alloc())?;
    let digest = digest_in(&right_file(rt.alloc(), 0)?);
    expect_saved(&rt, folder, level_of(&shelf, 0)?, digest);
    // No command replaces a file as this does.
    expect_saved(&rt, folder, level_of(&shelf, 0)?, digest);
    expect_loaded(&rt, folder, digest);
    fs::remove_dir_all(&rt, folder)?;
    Ok(())
}
