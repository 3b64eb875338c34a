//! The folder of the host: what its files hold is not known to any proof.

ghost use Rattle.std.specs.Prelude.{◌≡◌, ◌≤◌, ◌+◌, ◌↔◌, None, IsTrue};

use crate::calls::{Draft, Folder, Refusal};
use crate::names::{path_of, path_of_itself, path_of_new};
use crate::words::{Named, Said, Words};
use std::alloc::{AllocError, Global};
use std::fs::{self, File, OpenOptions, TryLockError};
use std::io::{self, Error, ErrorKind, Read, Write};
use std::os::unix::fs::FileExt;
use std::path::Path;
use std::rt::Files;

/// A folder on disk. `lock` or the first save locks it, if the file system has locks, so that one builder
/// at a time writes into it. Readers never wait for that lock.
#[derive(Drop)]
pub struct HostFolder<'a, R> {
    files: &'a R,
    alloc: Global,
    path: Path<'a>,
    lock: Option<File>,
    words: Option<Words>,
    refused: u64,
    lacking: u64,
    stuck: u64,
}

impl<'a, R> HostFolder<'a, R> {
    /// The folder at this path, whether it is there or not. It takes no memory; its calls take some
    /// for names and for the host's words.
    pub fn new(files: &'a R, alloc: Global, path: Path<'a>) -> Self {
        HostFolder {
            files,
            alloc,
            path,
            lock: None,
            words: None,
            refused: 0,
            lacking: 0,
            stuck: 0,
        }
    }
}

/// Why a folder is not locked.
#[derive(Clone, Copy, Debug, PartialEq, Eq)]
pub enum LockFault {
    /// Another builder has the lock.
    Held,
    /// The folder is not there or does not open, or the lock was refused for another reason.
    Refused,
    /// There was no room for a name.
    Memory,
}

impl<R: Files<File = File>> HostFolder<'_, R> {
    ghost use Rattle.std.specs.Prelude.{◌≡◌};
    ghost use Rattle.awari_folder.specs.Contents.{Lacks};
    ghost use Rattle.awari_folder.specs.Host.{state_of};

    /// Whether something has the name of this level's file. It is false also if that can't be told. It
    /// takes memory for the name.
    pub fn has(&self, level: u8) -> bool {
        let Ok(path) = path_of(self.alloc, self.path, level) else {
            return false;
        };
        fs::metadata(self.files, path.as_path()).is_ok()
    }

    /// What the host said last of a call that it refused, of this folder or of a file in it.
    pub fn said(&self) -> Option<Said> {
        self.words.as_ref()?.last()
    }

    /// Counts a call that is refused for want of memory.
    fn lack(&mut self) -> Refusal
        ensures refusals { Lacks (state_of self.old).refusals (state_of self.new).refusals }
        ensures stuck { (state_of self.new).stuck ≡ (state_of self.old).stuck }
        ensures memory { result ≡ Refusal.Memory }
    {
        self.lacking = self.lacking.saturating_add(1);
        Refusal::Memory
    }

    /// The place for the host's words, which is made if there is none.
    fn words(&mut self) -> Result<Words, AllocError>
        ensures refusals { (state_of self.new).refusals ≡ (state_of self.old).refusals }
        ensures stuck { (state_of self.new).stuck ≡ (state_of self.old).stuck }
    {
        if let Some(words) = &self.words {
            return words.share();
        }
        let words = Words::new(self.alloc)?;
        let own = words.share()?;
        self.words = Some(own);
        Ok(words)
    }

    /// Locks the folder for one builder, until this value is dropped. Otherwise the first save does so. A
    /// folder that is locked by this value stays so. It takes memory for a name.
    pub fn lock(&mut self) -> Result<(), LockFault>
        ensures refusals { (state_of self.new).refusals ≡ (state_of self.old).refusals }
        ensures stuck { (state_of self.new).stuck ≡ (state_of self.old).stuck }
    {
        if self.lock.is_some() {
            return Ok(());
        }
        let Ok(words) = self.words() else {
            return Err(LockFault::Memory);
        };
        let lock = locked(self.files, self.alloc, self.path, &words)?;
        self.lock = Some(lock);
        Ok(())
    }
}

/// Whether a build goes on without a lock that was refused with an error of this kind: only if the
/// file system knows no locks.
fn needs_no_lock(kind: ErrorKind) -> bool
    ensures { IsTrue result ↔ (kind ≡ ErrorKind.Unsupported) }
{
    kind == ErrorKind::Unsupported
}

/// The folder, open and locked. It is refused if the folder is not there, if another has the lock,
/// or if the lock is refused for another reason. If the file system knows no locks, the folder is
/// opened, and goes without one.
fn locked<R: Files<File = File>>(
    files: &R,
    alloc: Global,
    folder: Path<'_>,
    words: &Words,
) -> Result<File, LockFault> {
    let Ok(path) = path_of_itself(alloc, folder) else {
        return Err(LockFault::Memory);
    };
    let place = match fs::open(files, path.as_path()) {
        Ok(place) => place,
        Err(error) => {
            words.keep(Named::Folder, error);
            return Err(LockFault::Refused);
        }
    };
    match place.try_lock() {
        Ok(()) => Ok(place),
        Err(TryLockError::WouldBlock) => Err(LockFault::Held),
        Err(TryLockError::Error(error)) if needs_no_lock(error.kind()) => Ok(place),
        Err(TryLockError::Error(error)) => {
            words.keep(Named::Folder, error);
            Err(LockFault::Refused)
        }
    }
}

/// Opens what is a file, and nothing that could keep its reader waiting, as a pipe does.
fn open_file<R: Files>(files: &R, path: Path<'_>) -> io::Result<R::File> {
    if !fs::metadata(files, path)?.is_file() {
        return Err(Error::other("not a regular file"));
    }
    fs::open(files, path)
}

/// How many bytes a file has. If that many are there from `place` on, `room` is filled with them.
fn read_file<R: Files<File = File>>(
    files: &R,
    path: Path<'_>,
    place: u64,
    room: &mut [u8],
) -> io::Result<u64> {
    let file = open_file(files, path)?;
    let length = file.metadata()?.len();
    if has_room(length, place, room.len()) {
        file.read_exact_at(room, place)?;
    }
    Ok(length)
}

/// Whether a file of this length has this many bytes from a place on.
fn has_room(length: u64, place: u64, count: usize) -> bool
    ensures { IsTrue result ↔ (place + count ≤ length) }
{
    match length.checked_sub(place) {
        Some(left) => count as u64 <= left,
        None => false,
    }
}

/// Makes a file that was not there, in place of what a save that was killed may have left. What has
/// the name is removed and not written to, so that no link is followed.
fn create_file<R: Files>(files: &R, path: Path<'_>) -> io::Result<R::File> {
    // If it could not be removed, no new file can be made, which is told below.
    let _ = fs::remove_file(files, path);
    let mut how = OpenOptions::new();
    how.write(true);
    how.create_new(true);
    how.open(files, path)
}

/// The file of a level on disk.
#[derive(Drop)]
pub struct HostFile {
    file: File,
    level: u8,
    words: Words,
}

impl Read for HostFile {
    fn read(&mut self, buf: &mut [u8]) -> io::Result<usize> {
        let read = self.file.read(buf);
        if let Err(error) = read {
            self.words.keep(Named::Level(self.level), error);
        }
        read
    }
}

/// A new file on disk.
#[derive(Drop)]
pub struct HostDraft {
    file: File,
    level: u8,
    words: Words,
}

impl Write for HostDraft {
    fn write(&mut self, buf: &[u8]) -> io::Result<usize> {
        let written = self.file.write(buf);
        if let Err(error) = written {
            self.words.keep(Named::New(self.level), error);
        }
        written
    }

    fn flush(&mut self) -> io::Result<()> {
        self.file.flush()
    }
}

impl Draft for HostDraft {
    ghost kept = { λ _. None };

    fn sync(&mut self) -> Result<(), Refusal> {
        match self.file.sync_all() {
            Ok(()) => Ok(()),
            Err(error) => {
                self.words.keep(Named::New(self.level), error);
                Err(Refusal::Refused)
            }
        }
    }
}

impl<R: Files<File = File>> Folder for HostFolder<'_, R> {
    ghost use Rattle.awari_folder.specs.Host.{state_of};

    type File = HostFile;

    type New = HostDraft;

    // Of the host's files nothing is known.
    ghost state = { λ folder. state_of folder };

    fn open(&mut self, level: u8) -> Result<Option<HostFile>, Refusal> {
        let Ok(path) = path_of(self.alloc, self.path, level) else {
            return Err(self.lack());
        };
        let Ok(words) = self.words() else {
            return Err(self.lack());
        };
        match open_file(self.files, path.as_path()) {
            Ok(file) => Ok(Some(HostFile { file, level, words })),
            Err(error) if error.kind() == ErrorKind::NotFound => Ok(None),
            Err(error) => {
                words.keep(Named::Level(level), error);
                self.refused = self.refused.saturating_add(1);
                Err(Refusal::Refused)
            }
        }
    }

    // What is no file, as a folder or a pipe, is none of a level.
    fn has_file(&mut self, level: u8) -> Result<bool, Refusal> {
        let Ok(path) = path_of(self.alloc, self.path, level) else {
            return Err(self.lack());
        };
        match fs::metadata(self.files, path.as_path()) {
            Ok(found) => Ok(found.is_file()),
            Err(error) if error.kind() == ErrorKind::NotFound => Ok(false),
            Err(error) => {
                if let Ok(words) = self.words() {
                    words.keep(Named::Level(level), error);
                }
                self.refused = self.refused.saturating_add(1);
                Err(Refusal::Refused)
            }
        }
    }

    fn read_at(&mut self, level: u8, place: u64, room: &mut [u8]) -> Result<Option<u64>, Refusal> {
        let Ok(path) = path_of(self.alloc, self.path, level) else {
            return Err(self.lack());
        };
        match read_file(self.files, path.as_path(), place, room) {
            Ok(length) => Ok(Some(length)),
            Err(error) if error.kind() == ErrorKind::NotFound => Ok(None),
            Err(error) => {
                if let Ok(words) = self.words() {
                    words.keep(Named::Level(level), error);
                }
                self.refused = self.refused.saturating_add(1);
                Err(Refusal::Refused)
            }
        }
    }

    fn create(&mut self, level: u8) -> Result<HostDraft, Refusal> {
        let Ok(path) = path_of_new(self.alloc, self.path, level) else {
            return Err(self.lack());
        };
        let Ok(words) = self.words() else {
            return Err(self.lack());
        };
        match self.lock() {
            Ok(()) => {}
            Err(LockFault::Memory) => return Err(self.lack()),
            Err(LockFault::Held | LockFault::Refused) => {
                self.refused = self.refused.saturating_add(1);
                return Err(Refusal::Refused);
            }
        }
        match create_file(self.files, path.as_path()) {
            Ok(file) => Ok(HostDraft { file, level, words }),
            Err(error) => {
                words.keep(Named::New(level), error);
                self.refused = self.refused.saturating_add(1);
                Err(Refusal::Refused)
            }
        }
    }

    fn replace(&mut self, level: u8, _new: HostDraft) -> Result<(), Refusal> {
        let Ok(path) = path_of(self.alloc, self.path, level) else {
            return Err(self.lack());
        };
        let Ok(new) = path_of_new(self.alloc, self.path, level) else {
            return Err(self.lack());
        };
        match fs::rename(self.files, new.as_path(), path.as_path()) {
            Ok(()) => {
                if let Some(folder) = &self.lock {
                    // The file has its name. If that could not be brought to the disk, a crash may
                    // leave the old one, which is no other than after a crash within this call.
                    let _ = folder.sync_all();
                }
                Ok(())
            }
            Err(error) => {
                if let Some(words) = &self.words {
                    words.keep(Named::Level(level), error);
                }
                self.refused = self.refused.saturating_add(1);
                Err(Refusal::Refused)
            }
        }
    }

    fn remove_new(&mut self, level: u8) -> Result<(), Refusal> {
        let Ok(new) = path_of_new(self.alloc, self.path, level) else {
            self.stuck = self.stuck.saturating_add(1);
            return Err(Refusal::Memory);
        };
        match fs::remove_file(self.files, new.as_path()) {
            Ok(()) => Ok(()),
            Err(_) => {
                self.stuck = self.stuck.saturating_add(1);
                Err(Refusal::Refused)
            }
        }
    }
}
