//! Why a core refuses.

ghost use Rattle.std.specs.Prelude.{◌≡◌};
ghost use Rattle.awari_faults.specs.Parts.{reason_said};
ghost use Rattle.awari_core.specs.CoreFault.{number_of, reason_of};
ghost use Rattle.awari_core.specs.declared.faults.CoreFault.TheVariants.{Memory};

use awari_faults::Reason;
use std::alloc::AllocError;
use std::fmt;
use thiserror::Error;

/// Why a core is not made, an event is not taken, or nothing is opened or finished. A fault is
/// printed as its number and its name.
#[derive(Clone, Copy, Debug, PartialEq, Eq, Error)]
pub enum CoreFault {
    /// 34: the event is not enabled.
    NotEnabled,
    /// 35: there is no owner, or there are more than 16.
    Owners,
    /// 36: a ring has room for no batch or for more than 256.
    Room,
    /// 37: the shelf has all levels.
    TooHigh,
    /// 38: there was no room.
    Memory,
    /// 39: a board is fresh, something is under way, or a gain is open.
    NotQuiet,
}

impl CoreFault {
    /// The number of this refusal, 34 to 39.
    pub fn number(self) -> u8
        ensures { result ≡ number_of self }
    {
        match self {
            CoreFault::NotEnabled => 34,
            CoreFault::Owners => 35,
            CoreFault::Room => 36,
            CoreFault::TooHigh => 37,
            CoreFault::Memory => 38,
            CoreFault::NotQuiet => 39,
        }
    }

    /// What is told of it: its number.
    pub fn reason(self) -> Reason
        ensures { reason_said result ≡ reason_of self }
    {
        Reason::alone(self.number())
    }
}

impl fmt::Display for CoreFault {
    ghost use Rattle.std.specs.Prelude.{Some};
    ghost use Rattle.awari_faults.specs.Refusals.{words_text};
    ghost use Rattle.awari_core.specs.CoreFault.{reason_of};

    ghost output = { λ fault. Some (words_text (reason_of fault)) };

    fn fmt<W: fmt::Write>(&self, f: &mut fmt::Formatter<W>) -> fmt::Result {
        write!(f, "{}", self.reason())
    }
}

impl From<AllocError> for CoreFault {
    ghost from_gives = { λ _ fault. fault ≡ Memory };

    fn from(_error: AllocError) -> Self {
        CoreFault::Memory
    }
}
