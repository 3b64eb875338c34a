//! The digest that a file ends in, compared with that of what was read.

ghost use Rattle.std.specs.Prelude.{◌≡◌, ◌+◌, ◌≤◌, ◌++◌, ℕ, List, length, take, drop};
ghost use Rattle.std.specs.List.{flat_map};
ghost use Rattle.sha2.specs.Sha256.{sha256};
ghost use Rattle.sha2.specs.Hashers.{Holds256};
ghost use Rattle.awari_table.specs.declared.TheConstants.{HIGHEST_LEVEL};
ghost use Rattle.awari_file.specs.declared.sizes.TheConstants.{BUFFERED};
ghost use Rattle.awari_file.specs.FileText.{entry_text, body_text};
ghost use Rattle.awari_file.specs.Sealing.{Seals};

use crate::contents::Loaded;
use crate::faults::FileFault;
use crate::sizes::{BUFFER_LEN, BUFFERED};
use crate::writing::{header_of, spell};
use awari_table::{Entries, Entry, Image};
use sha2::{Digest, Sha256};

/// What came behind the digest of a file.
#[derive(Clone, Copy, Debug, PartialEq, Eq)]
pub enum Behind {
    /// Nothing, as it has to be.
    Nothing,
    /// A byte.
    Byte,
    /// A fault of the reader, before any byte.
    Fault,
}

/// The end of a file.
#[derive(Clone, Copy)]
pub(crate) struct End {
    /// The digest that stands there.
    pub digest: [u8; 32],
    pub behind: Behind,
}

/// The file of a level, read, with its digest still to be compared. Its form is right up to the
/// digest; what it says of boards is unchecked.
#[derive(Debug, Drop)]
pub struct Unsealed {
    /// What was read, with the digest that the file names.
    pub loaded: Loaded,
    /// What came behind the digest.
    pub behind: Behind,
}

impl Unsealed {
    /// Ok if the file ends in the digest of all before it, and nothing comes behind. It takes no
    /// memory. Condition: the level is at most 24, as that of each file that was read.
    ///
    /// It is refused as the first of these that is due:
    ///
    /// - 66: the digest is another.
    /// - 67: a byte comes behind it.
    /// - 68: the reader answered a fault there.
    pub fn seal(&self) -> Result<(), FileFault>
        requires low { self.now.loaded.image.level ≤ HIGHEST_LEVEL }
        ensures { Seals self.now result }
    {
        let Loaded {
            version,
            image,
            below,
            digest,
        } = &self.loaded;
        if digest_of(*version, image, below) != *digest {
            return Err(FileFault::Digest);
        }
        match self.behind {
            Behind::Nothing => Ok(()),
            Behind::Byte => Err(FileFault::Trailing),
            Behind::Fault => Err(FileFault::Read),
        }
    }
}

/// The digest of all that stands before it in the file of an image.
fn digest_of(version: u16, image: &Image, below: &[u8; 32]) -> [u8; 32]
    requires low { image.now.level ≤ HIGHEST_LEVEL }
    ensures { result ≡ sha256 (body_text version image.now below.now) }
{
    let mut hasher = Sha256::new();
    hasher.update(&header_of(version, image.level, image.limit, below));
    hash_entries(&mut hasher, &image.entries);
    hasher.finalize()
}

/// Hashes the entries as a file has them, a buffer at a time.
fn hash_entries(hasher: &mut Sha256, entries: &Entries)
    ensures { (m : List ℕ) → Holds256 hasher.old m → Holds256 hasher.new (m ++ flat_map entry_text entries.now) }
{
    let count = entries.len();
    let mut from = 0;
    while from < count {
        let some = (count - from).min(BUFFERED as usize);
        hash_run(hasher, entries, from, some);
        from += some;
    }
}

/// Hashes this many entries from this rank on. They fit the buffer.
fn hash_run(hasher: &mut Sha256, entries: &Entries, from: usize, count: usize)
    requires within { from + count ≤ length entries.now }
    requires few { count ≤ BUFFERED }
    ensures { (m : List ℕ) → Holds256 hasher.old m → Holds256 hasher.new (m ++ flat_map entry_text (take count (drop from entries.now))) }
{
    let mut items = [Entry::NONE; BUFFERED as usize];
    let run = &mut items[..count];
    entries.copy_run(from, run);
    let mut buf = [0u8; BUFFER_LEN];
    let len = spell(run, &mut buf);
    hasher.update(&buf[..len]);
}
