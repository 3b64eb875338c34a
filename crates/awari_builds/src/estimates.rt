//! What a build takes of the disk and of memory, told before its work. Of what is told nothing is
//! promised.

ghost use Rattle.std.specs.Prelude.{◌≡◌, ◌≤◌, ◌+◌, ◌-◌};
ghost use Rattle.awari_builds.specs.Estimates.{boards_below, files_below};
ghost use Rattle.awari_table.specs.declared.TheConstants.{HIGHEST_LEVEL};

use awari_answers::print;
use awari_file::file_len;
use awari_rank::size;
use awari_table::HIGHEST_LEVEL;
use std::fmt;
use std::io::Write;

/// The bytes that a board below the level in work takes in memory.
const BOARD_BELOW: u64 = 3;

/// The bytes that a board of the level in work takes in memory, and from `LARGE_LEVEL` on.
const BOARD_IN_WORK: u64 = 13;

const BOARD_OF_LARGE: u64 = 10;

/// From this level on, a level is cut into large segments, which are given back one by one.
const LARGE_LEVEL: u8 = 19;

/// The bytes of memory that a build takes whatever its level.
const PROGRAM: u64 = 15_000_000;

/// What a build of the levels `first` to `top` takes. It is printed as lines, without the last line feed.
#[derive(Clone, Copy)]
pub struct Estimate {
    /// The lowest level that is to be built.
    pub first: u8,
    /// The highest.
    pub top: u8,
    ghost low: { (first ≤ HIGHEST_LEVEL + 1) × (top ≤ HIGHEST_LEVEL) },
}

impl Estimate {
    /// What the levels from `first` to `top` take. Levels above the highest are left out. It takes no
    /// memory.
    pub fn of(first: u8, top: u8) -> Estimate {
        Estimate {
            first: first.min(HIGHEST_LEVEL + 1),
            top: top.min(HIGHEST_LEVEL),
        }
    }

    /// How many boards the levels have.
    pub fn boards(self) -> u64
        ensures { result ≡ boards_below (self.top + 1) - boards_below self.first }
    {
        boards_below(self.top + 1).saturating_sub(boards_below(self.first))
    }

    /// The bytes of the levels' files.
    pub fn disk(self) -> u64
        ensures { result ≡ files_below (self.top + 1) - files_below self.first }
    {
        files_below(self.top + 1).saturating_sub(files_below(self.first))
    }

    /// The bytes of memory that the highest level takes while it is built, over those below it, as far as
    /// that can be guessed.
    pub fn memory(self) -> u64 {
        let below = boards_below(self.top);
        let own = u64::from(size(self.top));
        let each = if self.top < LARGE_LEVEL {
            BOARD_IN_WORK
        } else {
            BOARD_OF_LARGE
        };
        let levels = BOARD_BELOW
            .saturating_mul(below)
            .saturating_add(each.saturating_mul(own));
        PROGRAM.saturating_add(levels)
    }
}

/// How many boards the levels below this one have.
fn boards_below(level: u8) -> u64
    requires { level ≤ HIGHEST_LEVEL + 1 }
    ensures { result ≡ boards_below level }
{
    let mut boards: u64 = 0;
    for below in 0..level {
        boards += u64::from(size(below));
    }
    boards
}

/// The bytes of the files of the levels below this one.
fn files_below(level: u8) -> u64
    requires { level ≤ HIGHEST_LEVEL + 1 }
    ensures { result ≡ files_below level }
{
    let mut bytes: u64 = 0;
    for below in 0..level {
        bytes += file_len(below);
    }
    bytes
}

impl fmt::Display for Estimate {
    fn fmt<W: fmt::Write>(&self, f: &mut fmt::Formatter<W>) -> fmt::Result {
        let Estimate { first, top } = *self;
        if first > top {
            return write!(f, "levels 0 to {top} are there, and nothing is to be built");
        }
        let boards = self.boards();
        let disk = Bytes(self.disk());
        let memory = Bytes(self.memory());
        write!(
            f,
            "levels {first} to {top} are to be built, {boards} boards\n\
             as files they take {disk}\n\
             level {top} takes {memory} of memory while it is built"
        )
    }
}

/// This many bytes, printed with a unit.
#[derive(Clone, Copy)]
pub(crate) struct Bytes(pub(crate) u64);

impl fmt::Display for Bytes {
    fn fmt<W: fmt::Write>(&self, f: &mut fmt::Formatter<W>) -> fmt::Result {
        let bytes = self.0;
        if bytes >= 1_000_000_000 {
            return write!(
                f,
                "{}.{} GB",
                bytes / 1_000_000_000,
                bytes / 100_000_000 % 10
            );
        }
        if bytes >= 1_000_000 {
            return write!(f, "{}.{} MB", bytes / 1_000_000, bytes / 100_000 % 10);
        }
        write!(f, "{bytes} bytes")
    }
}

/// Tells `errors` if less memory is left than the build takes. It takes no memory.
pub fn warn_of_memory<E: Write>(estimate: Estimate, left: Option<u64>, errors: &mut E) {
    let Some(left) = left else {
        return;
    };
    if estimate.first <= estimate.top && left < estimate.memory() {
        let (top, needed, left) = (estimate.top, Bytes(estimate.memory()), Bytes(left));
        // There is nowhere to say that this could not be written.
        print(
            errors,
            &format_args!("level {top} takes {needed} of memory, and {left} are left"),
        );
    }
}
