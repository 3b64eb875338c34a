//! A folder in memory, of which chosen calls are refused.

ghost use Rattle.std.specs.Prelude.{◌≡◌, ◌≤◌, ◌+◌, ℕ, Some, None, option_map, ◌++◌, ◌∷◌, [], OnOk, OnErr, IfErr, length, take, drop};
ghost use Rattle.awari_file_tests.specs.Log.{named};

use awari_folder::{Draft, Folder, Refusal};
use std::alloc::Global;
use std::collections::VecDeque;
use std::io::{self, Error, ErrorKind, Write};

/// A file that was given the name of a level.
#[derive(Drop)]
pub struct Put {
    pub level: u8,
    pub bytes: Vec<u8>,
    pub synced: bool,
}

/// A new file in memory.
#[derive(Drop)]
pub struct MemoryDraft {
    bytes: Vec<u8>,
    synced: bool,
    refuses_writes: bool,
    refuses_sync: bool,
}

impl Write for MemoryDraft {
    ghost use Rattle.awari_file_tests.specs.Log.{bytes_of};

    ghost contents = { λ draft. Some (bytes_of draft) };

    fn write(&mut self, buf: &[u8]) -> io::Result<usize> {
        if self.refuses_writes {
            return Err(Error::from(ErrorKind::Other));
        }
        self.synced = false;
        self.bytes.write(buf)
    }

    fn flush(&mut self) -> io::Result<()> {
        Ok(())
    }
}

impl Draft for MemoryDraft {
    ghost use Rattle.awari_file_tests.specs.Log.{kept_bytes_of};

    ghost kept = { λ draft. kept_bytes_of draft };

    fn sync(&mut self) -> Result<(), Refusal> {
        if self.refuses_sync {
            return Err(Refusal::Refused);
        }
        self.synced = true;
        Ok(())
    }
}

/// A folder in memory, for tests. It can be told to refuse any of its calls, or those of a new file.
/// It keeps each file that was ever given a name. It takes memory for what is written, and for each
/// file.
#[derive(Drop)]
pub struct MemoryFolder {
    alloc: Global,
    puts: Vec<Put>,
    beside: Option<u8>,
    refuse_at: u32,
    refuses_writes: bool,
    refuses_sync: bool,
    refused: u64,
    lacking: u64,
    stuck: u64,
}

impl MemoryFolder {
    ghost use Rattle.awari_file_tests.specs.Log.{files_in, has_draft};

    /// An empty folder, which refuses nothing.
    pub fn new(alloc: Global) -> MemoryFolder
        ensures { (level : ℕ) → files_in result level ≡ None }
    {
        MemoryFolder {
            alloc,
            puts: Vec::new(alloc),
            beside: None,
            refuse_at: 0,
            refuses_writes: false,
            refuses_sync: false,
            refused: 0,
            lacking: 0,
            stuck: 0,
        }
    }

    /// The call of this number is refused from now on: 1 for the next, 0 for none.
    pub fn refuse(&mut self, call: u32)
        ensures { (level : ℕ) → files_in self.new level ≡ files_in self.old level }
    {
        self.refuse_at = call;
    }

    /// From now on new files refuse to be written, or to be brought to the disk.
    pub fn refuse_files(&mut self, writes: bool, sync: bool)
        ensures { (level : ℕ) → files_in self.new level ≡ files_in self.old level }
    {
        self.refuses_writes = writes;
        self.refuses_sync = sync;
    }

    /// Whether a new file lies there that got no name.
    pub fn has_draft(&self) -> bool
        ensures { result ≡ has_draft self.now }
    {
        self.beside.is_some()
    }

    /// Says whether this call is refused.
    fn is_refused(&mut self) -> bool
        ensures puts { self.new.puts ≡ self.old.puts }
        ensures beside { self.new.beside ≡ self.old.beside }
        ensures refused { self.new.refused ≡ self.old.refused }
        ensures lacking { self.new.lacking ≡ self.old.lacking }
        ensures stuck { self.new.stuck ≡ self.old.stuck }
    {
        if self.refuse_at == 0 {
            return false;
        }
        self.refuse_at -= 1;
        self.refuse_at == 0
    }
}

/// Puts a file behind the others.
fn put_behind(puts: &mut Vec<Put>, put: Put) -> Result<(), Refusal>
    ensures ok { OnOk result (puts.new.items ≡ puts.old.items ++ put ∷ []) }
    ensures err { OnErr result (puts.new.items ≡ puts.old.items) }
    ensures memory { IfErr result (λ e. e ≡ Refusal.Memory) }
{
    match puts.push(put) {
        Ok(()) => Ok(()),
        Err(_) => Err(Refusal::Memory),
    }
}

/// The newest file that was given the name of the level.
fn newest(puts: &[Put], level: u8) -> Option<&[u8]>
    ensures { option_map (λ bytes. bytes.now) result ≡ named puts.now level }
{
    let [put, newer @ ..] = puts else {
        return None;
    };
    if let Some(bytes) = newest(newer, level) {
        return Some(bytes);
    }
    if put.level == level {
        return Some(put.bytes.as_slice());
    }
    None
}

/// Copies the bytes from a place on, if there are that many.
fn copy_at(bytes: &[u8], place: u64, room: &mut [u8])
    ensures { place + length room.new ≤ length bytes.now → room.new ≡ take (length room.new) (drop place bytes.now) }
{
    let place = place as usize;
    if place > bytes.len() {
        return;
    }
    let rest = &bytes[place..];
    if room.len() <= rest.len() {
        room.copy_from_slice(&rest[..room.len()]);
    }
}

impl Folder for MemoryFolder {
    ghost use Rattle.awari_file_tests.specs.Log.{state_of};

    type File = VecDeque<u8>;

    type New = MemoryDraft;

    ghost state = { λ folder. state_of folder };

    fn open(&mut self, level: u8) -> Result<Option<VecDeque<u8>>, Refusal> {
        if self.is_refused() {
            self.refused = self.refused.saturating_add(1);
            return Err(Refusal::Refused);
        }
        let Some(bytes) = newest(&self.puts, level) else {
            return Ok(None);
        };
        match Vec::from_slice(self.alloc, bytes) {
            Ok(copy) => Ok(Some(VecDeque::from(copy))),
            Err(_) => {
                self.lacking = self.lacking.saturating_add(1);
                Err(Refusal::Memory)
            }
        }
    }

    fn read_at(&mut self, level: u8, place: u64, room: &mut [u8]) -> Result<Option<u64>, Refusal> {
        if self.is_refused() {
            self.refused = self.refused.saturating_add(1);
            return Err(Refusal::Refused);
        }
        let Some(bytes) = newest(&self.puts, level) else {
            return Ok(None);
        };
        copy_at(bytes, place, room);
        Ok(Some(bytes.len() as u64))
    }

    fn create(&mut self, level: u8) -> Result<MemoryDraft, Refusal> {
        let is_taken = match self.beside {
            Some(other) => other != level,
            None => false,
        };
        if is_taken || self.is_refused() {
            self.refused = self.refused.saturating_add(1);
            return Err(Refusal::Refused);
        }
        self.beside = Some(level);
        Ok(MemoryDraft {
            bytes: Vec::new(self.alloc),
            synced: false,
            refuses_writes: self.refuses_writes,
            refuses_sync: self.refuses_sync,
        })
    }

    fn replace(&mut self, level: u8, new: MemoryDraft) -> Result<(), Refusal> {
        let is_there = match self.beside {
            Some(other) => other == level,
            None => false,
        };
        if !is_there || self.is_refused() {
            self.refused = self.refused.saturating_add(1);
            return Err(Refusal::Refused);
        }
        let put = Put {
            level,
            bytes: new.bytes,
            synced: new.synced,
        };
        match put_behind(&mut self.puts, put) {
            Ok(()) => {}
            Err(refusal) => {
                self.lacking = self.lacking.saturating_add(1);
                return Err(refusal);
            }
        }
        self.beside = None;
        Ok(())
    }

    fn remove_new(&mut self, level: u8) -> Result<(), Refusal> {
        if self.is_refused() {
            self.stuck = self.stuck.saturating_add(1);
            return Err(Refusal::Refused);
        }
        let is_there = match self.beside {
            Some(other) => other == level,
            None => false,
        };
        if is_there {
            self.beside = None;
        }
        Ok(())
    }
}
