//! How long a file and its parts are, and how much of it is read or written at once.

ghost use Rattle.std.specs.Prelude.{◌≡◌, ◌<◌, ◌≤◌, ◌^◌};
ghost use Rattle.awari_table.specs.declared.TheConstants.{HIGHEST_LEVEL};
ghost use Rattle.awari_file.specs.FileText.{entry_place, file_len};

use awari_rank::size;

/// The bytes before the entries.
pub const HEADER_LEN: usize = 52;

/// The bytes of an entry.
pub const ENTRY_LEN: usize = 6;

/// The bytes of a digest, which stands behind the entries.
const DIGEST_LEN: u64 = 32;

/// The bytes of a digest, and the one that has to be missing behind it.
pub(crate) const END_LEN: usize = 33;

/// How many entries are read or written at once.
pub(crate) const BUFFERED: u32 = 680;

/// The bytes of that many entries, which lie on the stack.
pub(crate) const BUFFER_LEN: usize = 4080;

/// The bytes of the file of this level, which has at most 24 stones.
pub fn file_len(level: u8) -> u64
    requires { level ≤ HIGHEST_LEVEL }
    ensures bytes { result ≡ file_len level }
    ensures few { result < 2 ^ 35 }
{
    entry_place(size(level)) + DIGEST_LEN
}

/// The byte of a level's file at which the entry of this rank begins.
pub fn entry_place(rank: u32) -> u64
    ensures { result ≡ entry_place rank }
{
    HEADER_LEN as u64 + ENTRY_LEN as u64 * u64::from(rank)
}
