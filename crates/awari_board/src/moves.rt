//! What playing a pit answers.

ghost use Rattle.std.specs.Prelude.{◌≡◌};
ghost use Rattle.awari_board.specs.MoveFault.{number_of, reason_of};
ghost use Rattle.awari_faults.specs.Parts.{reason_said};

use crate::boards::Board;
use awari_faults::Reason;
use std::fmt;
use thiserror::Error;

/// A move that was played.
#[derive(Clone, Copy, Debug, PartialEq, Eq)]
pub struct Moved {
    /// The position after the move, as the other player sees it.
    pub board: Board,
    /// The stones captured, 0 for a quiet move.
    pub captured: u8,
}

/// Why a pit can't be played. A fault is answered only if none of those above it is due. It is
/// printed as its number and its name.
#[derive(Clone, Copy, Debug, PartialEq, Eq, Error)]
pub enum MoveFault {
    /// 4: the mover's pits are 0 to 5.
    NoPit,
    /// 7: no pit can be played, so the play has ended.
    Ended,
    /// 5: the pit holds no stones.
    EmptyPit,
    /// 6: the opponent has no stones, and this pit sows none there while another does.
    MustFeed,
}

impl MoveFault {
    /// The number of this refusal, 4 to 7.
    pub fn number(self) -> u8
        ensures { result ≡ number_of self }
    {
        match self {
            MoveFault::NoPit => 4,
            MoveFault::Ended => 7,
            MoveFault::EmptyPit => 5,
            MoveFault::MustFeed => 6,
        }
    }

    /// What is told of it: its number.
    pub fn reason(self) -> Reason
        ensures { reason_said result ≡ reason_of self }
    {
        Reason::alone(self.number())
    }
}

impl fmt::Display for MoveFault {
    ghost use Rattle.std.specs.Prelude.{Some};
    ghost use Rattle.awari_faults.specs.Refusals.{words_text};
    ghost use Rattle.awari_board.specs.MoveFault.{reason_of};

    ghost output = { λ fault. Some (words_text (reason_of fault)) };

    fn fmt<W: fmt::Write>(&self, f: &mut fmt::Formatter<W>) -> fmt::Result {
        write!(f, "{}", self.reason())
    }
}
