//! Why the file of a level is not read or written.

ghost use Rattle.std.specs.Prelude.{◌≡◌};
ghost use Rattle.awari_faults.specs.Parts.{reason_said};
ghost use Rattle.awari_file.specs.declared.faults.FileFault.TheVariants.{Memory};

use awari_faults::Reason;
use std::alloc::AllocError;
use std::fmt;
use thiserror::Error;

/// Why the file of a level is not read or written. Reading answers the fault of the first field that
/// has one, in the order of the bytes. A fault is printed as its number and its name.
#[derive(Clone, Copy, Debug, PartialEq, Eq, Error)]
pub enum FileFault {
    /// 60: the input ends within a field.
    Truncated,
    /// 61: it does not begin as the file of a level.
    Magic,
    /// 62: its version is neither 1 nor 2, or its eighth byte is not 0.
    Version,
    /// 63: its level is above the highest that its version has.
    LevelOutOfRange,
    /// 64: it names another number of entries than its level has boards.
    Count,
    /// 65: the plan of an entry is neither a pit nor none.
    EntryForm,
    /// 66: the digest is not that of the bytes before it.
    Digest,
    /// 67: something follows the digest.
    Trailing,
    /// 68: the reader answered a fault.
    Read,
    /// 69: there was no room for the entries.
    Memory,
    /// 70: the writer answered a fault, or took no byte.
    Write,
}

impl FileFault {
    ghost use Rattle.awari_file.specs.FileFault.{number_of, reason_of};

    /// The number of this refusal, 60 to 70.
    pub fn number(self) -> u8
        ensures { result ≡ number_of self }
    {
        match self {
            FileFault::Truncated => 60,
            FileFault::Magic => 61,
            FileFault::Version => 62,
            FileFault::LevelOutOfRange => 63,
            FileFault::Count => 64,
            FileFault::EntryForm => 65,
            FileFault::Digest => 66,
            FileFault::Trailing => 67,
            FileFault::Read => 68,
            FileFault::Memory => 69,
            FileFault::Write => 70,
        }
    }

    /// What is told of it: its number.
    pub fn reason(self) -> Reason
        ensures { reason_said result ≡ reason_of self }
    {
        Reason::alone(self.number())
    }
}

impl fmt::Display for FileFault {
    ghost use Rattle.std.specs.Prelude.{Some};
    ghost use Rattle.awari_faults.specs.Refusals.{words_text};
    ghost use Rattle.awari_file.specs.FileFault.{reason_of};

    ghost output = { λ fault. Some (words_text (reason_of fault)) };

    fn fmt<W: fmt::Write>(&self, f: &mut fmt::Formatter<W>) -> fmt::Result {
        write!(f, "{}", self.reason())
    }
}

impl From<AllocError> for FileFault {
    ghost from_gives = { λ _ fault. fault ≡ Memory };

    fn from(_error: AllocError) -> Self {
        FileFault::Memory
    }
}
