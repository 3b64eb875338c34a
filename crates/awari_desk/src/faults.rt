//! Why a call of a desk is refused.

ghost use Rattle.std.specs.Prelude.{◌≡◌};
ghost use Rattle.awari_faults.specs.Parts.{reason_said};
ghost use Rattle.awari_desk.specs.AskFault.{number_of as ask_number_of, reason_of as ask_reason_of};
ghost use Rattle.awari_desk.specs.DeskFault.{number_of as desk_number_of, reason_of as desk_reason_of};
ghost use Rattle.awari_desk.specs.ServeFault.{number_of as serve_number_of, reason_of as serve_reason_of};
ghost use Rattle.awari_desk.specs.declared.faults.DeskFault.TheVariants.{Memory};

use awari_board::BoardFault;
use awari_faults::Reason;
use std::alloc::AllocError;
use std::fmt;
use thiserror::Error;

/// Why a desk is not made, a level not published, or nobody told. A fault is printed as its number
/// and its name.
#[derive(Clone, Copy, Debug, PartialEq, Eq, Error)]
pub enum DeskFault {
    /// 71: the level is not the next of the book.
    NotNext,
    /// 72: there is no place for this many readers, or for one more.
    Readers,
    /// 73: memory ran out, or a level could not be shared, in this call or in an earlier publication.
    Memory,
}

impl DeskFault {
    /// The number of this refusal, 71 to 73.
    pub fn number(self) -> u8
        ensures { result ≡ desk_number_of self }
    {
        match self {
            DeskFault::NotNext => 71,
            DeskFault::Readers => 72,
            DeskFault::Memory => 73,
        }
    }

    /// What is told of it: its number.
    pub fn reason(self) -> Reason
        ensures { reason_said result ≡ desk_reason_of self }
    {
        Reason::alone(self.number())
    }
}

impl fmt::Display for DeskFault {
    ghost use Rattle.std.specs.Prelude.{Some};
    ghost use Rattle.awari_faults.specs.Refusals.{words_text};
    ghost use Rattle.awari_desk.specs.DeskFault.{reason_of};

    ghost output = { λ fault. Some (words_text (reason_of fault)) };

    fn fmt<W: fmt::Write>(&self, f: &mut fmt::Formatter<W>) -> fmt::Result {
        write!(f, "{}", self.reason())
    }
}

impl From<AllocError> for DeskFault {
    ghost from_gives = { λ _ fault. fault ≡ Memory };

    fn from(_error: AllocError) -> Self {
        DeskFault::Memory
    }
}

/// Why a board's entry is not answered. A fault is printed as its number, its name, and its field
/// with its name.
#[derive(Clone, Copy, Debug, PartialEq, Eq, Error)]
pub enum AskFault {
    /// 74: the book that was seen has only the levels below `levels`.
    NotYet { levels: u8 },
    /// 75: the publisher is gone.
    Gone,
}

impl AskFault {
    /// The number of this refusal, 74 or 75.
    pub fn number(self) -> u8
        ensures { result ≡ ask_number_of self }
    {
        self.reason().number
    }

    /// What is told of it: its number, and how many levels there are.
    pub fn reason(self) -> Reason
        ensures { reason_said result ≡ ask_reason_of self }
    {
        match self {
            AskFault::NotYet { levels } => Reason::with_number(74, "levels", u128::from(levels)),
            AskFault::Gone => Reason::alone(75),
        }
    }
}

impl fmt::Display for AskFault {
    ghost use Rattle.std.specs.Prelude.{Some};
    ghost use Rattle.awari_faults.specs.Refusals.{words_text};
    ghost use Rattle.awari_desk.specs.AskFault.{reason_of};

    ghost output = { λ fault. Some (words_text (reason_of fault)) };

    fn fmt<W: fmt::Write>(&self, f: &mut fmt::Formatter<W>) -> fmt::Result {
        write!(f, "{}", self.reason())
    }
}

/// Why a board is not probed. `F` is why who is asked does not answer.
#[derive(Drop)]
pub enum ProbeFault<F> {
    /// The text is not a board.
    Board { fault: BoardFault },
    /// The board's moves are not answered.
    Ask { fault: F },
}

/// Why a service ends early. A fault is printed as its number and its name.
#[derive(Clone, Copy, Debug, PartialEq, Eq, Error)]
pub enum ServeFault {
    /// 90: the reader answered a fault.
    Read,
    /// 91: more than `LONGEST_INPUT` bytes came.
    TooLong,
    /// 92: the writer answered a fault, or took no byte.
    Write,
}

impl ServeFault {
    /// The number of this refusal, 90 to 92.
    pub fn number(self) -> u8
        ensures { result ≡ serve_number_of self }
    {
        match self {
            ServeFault::Read => 90,
            ServeFault::TooLong => 91,
            ServeFault::Write => 92,
        }
    }

    /// What is told of it: its number.
    pub fn reason(self) -> Reason
        ensures { reason_said result ≡ serve_reason_of self }
    {
        Reason::alone(self.number())
    }
}

impl fmt::Display for ServeFault {
    ghost use Rattle.std.specs.Prelude.{Some};
    ghost use Rattle.awari_faults.specs.Refusals.{words_text};
    ghost use Rattle.awari_desk.specs.ServeFault.{reason_of};

    ghost output = { λ fault. Some (words_text (reason_of fault)) };

    fn fmt<W: fmt::Write>(&self, f: &mut fmt::Formatter<W>) -> fmt::Result {
        write!(f, "{}", self.reason())
    }
}
