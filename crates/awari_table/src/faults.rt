//! Why the text of a table is refused.

ghost use Rattle.std.specs.Prelude.{◌≡◌};
ghost use Rattle.awari_faults.specs.Parts.{reason_said};
ghost use Rattle.awari_table.specs.declared.faults.TableFault.TheVariants.{Memory};

use awari_faults::Reason;
use std::alloc::AllocError;
use std::fmt;
use thiserror::Error;

/// Why the text of a table is refused, at the first line that has a fault. Lines are numbered from 1.
/// In one line, the faults are looked for in the order 13, 10, 12, 11. A fault is printed as its
/// number, its name, and its field with its name.
#[derive(Clone, Copy, Debug, PartialEq, Eq, Error)]
pub enum TableFault {
    /// 10: the line ends in a line feed, and does not have the form that is due there.
    Line { line: u64 },
    /// 11: the line is the header of a level up to the highest, and not of the next level.
    Order { line: u64 },
    /// 12: the line is the header of a level above the highest.
    High { line: u64 },
    /// 13: the text ends before its last level is complete, or before a line feed.
    Short,
    /// 15: there was no room for a level.
    Memory,
}

impl TableFault {
    ghost use Rattle.awari_table.specs.TableFault.{number_of, reason_of};

    /// The number of this refusal, 10 to 13, or 15.
    pub fn number(self) -> u8
        ensures { result ≡ number_of self }
    {
        self.reason().number
    }

    /// What is told of it: its number, and the line.
    pub fn reason(self) -> Reason
        ensures { reason_said result ≡ reason_of self }
    {
        match self {
            TableFault::Line { line } => Reason::with_number(10, "line", u128::from(line)),
            TableFault::Order { line } => Reason::with_number(11, "line", u128::from(line)),
            TableFault::High { line } => Reason::with_number(12, "line", u128::from(line)),
            TableFault::Short => Reason::alone(13),
            TableFault::Memory => Reason::alone(15),
        }
    }
}

impl fmt::Display for TableFault {
    ghost use Rattle.std.specs.Prelude.{Some};
    ghost use Rattle.awari_faults.specs.Refusals.{words_text};
    ghost use Rattle.awari_table.specs.TableFault.{reason_of};

    ghost output = { λ fault. Some (words_text (reason_of fault)) };

    fn fmt<W: fmt::Write>(&self, f: &mut fmt::Formatter<W>) -> fmt::Result {
        write!(f, "{}", self.reason())
    }
}

impl From<AllocError> for TableFault {
    ghost from_gives = { λ _ fault. fault ≡ Memory };

    fn from(_error: AllocError) -> Self {
        TableFault::Memory
    }
}
