//! The folders on disk, and what the error stream says of them beside a number. Of what it says nothing
//! is promised.

ghost use Rattle.std.specs.Prelude.{◌≡◌, ◌↔◌, IsSome, IfErr, IfSome};
ghost use Rattle.awari_host.specs.Gaps.{HasAbove, IsFirstMissing};
ghost use Rattle.awari_host.specs.Hosts.{IsLockFault};

use crate::hosts::{Host, Machine, Purpose};
use crate::machine::memory_left;
use awari_answers::print;
use awari_folder::{Folder, FolderFault, HostFolder, LockFault, Named, Refusal, Said};
use awari_table::HIGHEST_LEVEL;
use std::alloc::Global;
use std::fmt;
use std::fs::{self, File};
use std::io::{ErrorKind, Write};
use std::path::Path;
use std::rt::Files;

/// The host's disk. A name is a path. Of the host's files no proof knows anything.
#[derive(Drop)]
pub struct Disk<'a, T> {
    files: &'a T,
    alloc: Global,
    on_terminal: bool,
}

impl<'a, T> Disk<'a, T> {
    /// The disk that these files lie on. Its folders take memory for names.
    pub fn new(files: &'a T, alloc: Global) -> Self {
        Disk {
            files,
            alloc,
            on_terminal: false,
        }
    }

    /// The same disk, where the error stream is a terminal if `on_terminal` says so.
    pub fn told_on_terminal(self, on_terminal: bool) -> Self {
        Disk {
            on_terminal,
            ..self
        }
    }
}

impl<'a, T: Files<File = File>> Host<'a> for Disk<'a, T> {
    ghost use Rattle.awari_folder.specs.Contents.{nothing_known};

    type Folder = HostFolder<'a, T>;

    ghost holds = { λ _ _. nothing_known };

    ghost keeps = { λ _. ⊥ };

    /// A folder that is not there counts as one without levels. The error stream says so. If levels are
    /// to be read, it also tells of those that are not, since one below them is missing.
    fn open<E: Write>(
        &mut self,
        name: &'a str,
        purpose: Purpose,
        errors: &mut E,
    ) -> HostFolder<'a, T> {
        let folder = HostFolder::new(self.files, self.alloc, Path::new(name));
        match purpose {
            Purpose::Read => tell_of_levels(self, name, &folder, errors),
            Purpose::Write => {
                tell_if_no_folder(self.files, name, errors);
            }
            Purpose::Build => {}
        }
        folder
    }

    fn is_there(&self, name: &'a str) -> bool {
        match fs::metadata(self.files, Path::new(name)) {
            Ok(found) => found.is_dir(),
            Err(_) => false,
        }
    }

    fn levels_in(&self, folder: &HostFolder<'a, T>) -> u8 {
        first_missing(&files_of(folder))
    }

    fn machine(&self) -> Machine {
        Machine {
            memory_left: memory_left(self.files, self.alloc),
            on_terminal: self.on_terminal,
        }
    }

    /// If the lock is refused, or the folder can't be written to, the error stream says why.
    fn lock<E: Write>(
        &self,
        name: &'a str,
        folder: &mut HostFolder<'a, T>,
        top: u8,
        errors: &mut E,
    ) -> Result<(), FolderFault> {
        let level = first_missing(&files_of(folder));
        if top < level {
            // There is nowhere to say that this could not be written.
            print(
                errors,
                &format_args!("{name}: files of levels 0 to {top} are there already"),
            );
            return Ok(());
        }
        match folder.lock() {
            Ok(()) => return try_writing(folder, level),
            Err(LockFault::Memory) => return Err(FolderFault::Memory),
            Err(LockFault::Held) => {
                print(
                    errors,
                    &format_args!(
                        "{name}: another build has locked it, so it does not open for this one"
                    ),
                );
            }
            Err(LockFault::Refused) => {
                tell_if_no_folder(self.files, name, errors);
            }
        }
        Err(FolderFault::Open { level })
    }

    /// It tells the system's own words, and of which file they are.
    fn tell<E: Write>(&self, name: &'a str, folder: &HostFolder<'a, T>, errors: &mut E) {
        if let Some(said) = folder.said() {
            tell_said(name, said, errors);
        }
    }

    fn close(&mut self, _name: &'a str, _folder: HostFolder<'a, T>) {}
}

/// Tells the error stream what the system said, unless it is that there is no such folder, which was told before.
fn tell_said<E: Write>(name: &str, said: Said, errors: &mut E) {
    let Said { named, error } = said;
    // There is nowhere to say that this could not be written.
    match (named, error.kind()) {
        (_, ErrorKind::NotADirectory) | (Named::Folder, ErrorKind::NotFound) => {}
        (Named::Folder, _) => {
            print(errors, &format_args!("{name}: {error}"));
        }
        (file, _) => {
            let folder = name.strip_suffix('/').unwrap_or(name);
            print(errors, &format_args!("{folder}/{file}: {error}"));
        }
    }
}

/// Makes a new file for this level in a locked folder, and removes it. So a folder that can't be written to
/// is refused before levels are built for it.
fn try_writing<T: Files<File = File>>(
    folder: &mut HostFolder<'_, T>,
    level: u8,
) -> Result<(), FolderFault>
    ensures { IfErr result IsLockFault }
{
    if level > HIGHEST_LEVEL {
        return Ok(());
    }
    match folder.create(level) {
        Ok(_draft) => {
            // A build that makes this file again removes what lies there.
            let _ = folder.remove_new(level);
            Ok(())
        }
        Err(Refusal::Memory) => Err(FolderFault::Memory),
        Err(Refusal::Refused) => Err(FolderFault::Open { level }),
    }
}

/// Tells the error stream if there is no folder of this name, or which of its levels are not read.
fn tell_of_levels<T: Files<File = File>, E: Write>(
    disk: &Disk<'_, T>,
    name: &str,
    folder: &HostFolder<'_, T>,
    errors: &mut E,
) {
    if tell_if_no_folder(disk.files, name, errors) {
        return;
    }
    let files = files_of(folder);
    let missing = first_missing(&files);
    // There is nowhere to say that this could not be written.
    if let Some(gap) = gap_above(missing, files) {
        print(errors, &format_args!("{name}: {gap}"));
    } else if missing == 0 && is_searched(disk, name) {
        print(errors, &format_args!("{name}: no level is there"));
    }
}

/// Whether names can be looked up in the folder of this name. If not, it can't be told which levels are there.
fn is_searched<T: Files<File = File>>(disk: &Disk<'_, T>, name: &str) -> bool {
    match format!(in disk.alloc; "{name}/.") {
        Ok(itself) => fs::metadata(disk.files, Path::new(itself.as_str())).is_ok(),
        Err(_) => false,
    }
}

/// Whether there is no folder of this name, of which it tells the error stream.
fn tell_if_no_folder<T: Files, E: Write>(files: &T, name: &str, errors: &mut E) -> bool {
    // There is nowhere to say that this could not be written.
    match fs::metadata(files, Path::new(name)) {
        Ok(found) if found.is_dir() => false,
        Ok(_) => {
            print(errors, &format_args!("not a folder: {name}"));
            true
        }
        Err(error) if error.kind() == ErrorKind::NotFound => {
            print(errors, &format_args!("no such folder: {name}"));
            true
        }
        Err(_) => false,
    }
}

/// How many levels there may be.
const LEVELS: usize = HIGHEST_LEVEL as usize + 1;

/// The first level that has no file, and which levels have one, of which some are above it.
#[derive(Clone, Copy)]
struct Gap {
    missing: u8,
    files: [bool; LEVELS],
}

impl Gap {
    /// Whether the level of this number is above the gap and has a file.
    fn is_above(&self, level: usize) -> bool {
        usize::from(self.missing) < level && matches!(self.files.get(level), Some(true))
    }

    /// The last of the levels from this one on that are above the gap and have files, without another gap.
    fn last_from(&self, first: usize) -> usize {
        let mut last = first;
        for level in first..LEVELS {
            if !self.is_above(level) {
                break;
            }
            last = level;
        }
        last
    }
}

impl fmt::Display for Gap {
    fn fmt<W: fmt::Write>(&self, f: &mut fmt::Formatter<W>) -> fmt::Result {
        write!(f, "level_{:02}.awdb is missing; ", self.missing)?;
        let mut told: usize = 0;
        for first in 1..LEVELS {
            if self.is_above(first) && !self.is_above(first - 1) {
                let last = self.last_from(first);
                write!(f, "{}", Run { told, first, last })?;
                told = told
                    .saturating_add(last.saturating_sub(first))
                    .saturating_add(1);
            }
        }
        f.write_str(if told == 1 {
            " is not read"
        } else {
            " are not read"
        })
    }
}

/// Levels without a gap, printed behind this many others.
#[derive(Clone, Copy)]
struct Run {
    told: usize,
    first: usize,
    last: usize,
}

impl fmt::Display for Run {
    fn fmt<W: fmt::Write>(&self, f: &mut fmt::Formatter<W>) -> fmt::Result {
        let Run { told, first, last } = *self;
        let part = if told == 0 { "" } else { ", " };
        write!(f, "{part}{first:02}")?;
        if first < last {
            write!(f, " to {last:02}")?;
        }
        Ok(())
    }
}

/// Which levels have a file, as far as the host can tell.
fn files_of<T: Files<File = File>>(folder: &HostFolder<'_, T>) -> [bool; LEVELS] {
    let mut files = [false; LEVELS];
    for level in 0..=HIGHEST_LEVEL {
        files[usize::from(level)] = folder.has(level);
    }
    files
}

/// The first level that has no file, one more than the highest if each has.
fn first_missing(files: &[bool; LEVELS]) -> u8
    ensures { IsFirstMissing files.now result }
{
    for level in 0..HIGHEST_LEVEL + 1 {
        if !files[usize::from(level)] {
            return level;
        }
    }
    HIGHEST_LEVEL + 1
}

/// The gap at a level that has no file, if a level above it has one.
fn gap_above(missing: u8, files: [bool; LEVELS]) -> Option<Gap>
    ensures found { IsSome result ↔ HasAbove files missing }
    ensures gap { IfSome result (λ gap. gap ≡ record { missing = missing; files = files }) }
{
    for level in 0..HIGHEST_LEVEL + 1 {
        if missing < level && files[usize::from(level)] {
            return Some(Gap { missing, files });
        }
    }
    None
}
