//! Why a round is refused.

ghost use Rattle.std.specs.Prelude.{◌≡◌};
ghost use Rattle.awari_faults.specs.Parts.{reason_said, said};
ghost use Rattle.awari_phase.specs.PhaseFault.{number_of, refusal_of, reason_of};

use awari_faults::{Reason, Refusal};
use awari_owner::OwnerFault;
use std::fmt;
use thiserror::Error;

/// Why a round, or the rounds of a gain, came to nothing. A fault is printed as its number and its
/// name, and a bad note with the owner and the owner's fault.
#[derive(Clone, Copy, Debug, PartialEq, Eq, Error)]
pub enum PhaseFault {
    /// 40: a thread could not be started.
    NotStarted,
    /// 41: there was no room.
    Memory,
    /// 42: an owner was sent a note that it refuses, or could not spread a board.
    BadNote { owner: u8, fault: OwnerFault },
    /// 43: the level was not wanted any more.
    Stopped,
}

impl PhaseFault {
    /// The number of this refusal, 40 to 43.
    pub fn number(self) -> u8
        ensures { result ≡ number_of self }
    {
        self.reason().number
    }

    /// What is told of it, but for the fault of an owner: its number, and the owner.
    pub fn reason(self) -> Reason
        ensures { reason_said result ≡ reason_of self }
    {
        match self {
            PhaseFault::NotStarted => Reason::alone(40),
            PhaseFault::Memory => Reason::alone(41),
            PhaseFault::BadNote { owner, .. } => Reason::with_number(
                42,
                "owner",
                u128::from(owner),
            ),
            PhaseFault::Stopped => Reason::alone(43),
        }
    }

    /// What is told of it, and of the fault of an owner.
    pub fn refusal(self) -> Refusal
        ensures { said result ≡ refusal_of self }
    {
        let reason = self.reason();
        match self {
            PhaseFault::BadNote { fault, .. } => Refusal::around(reason, fault.reason()),
            PhaseFault::NotStarted | PhaseFault::Memory | PhaseFault::Stopped => {
                Refusal::alone(reason)
            }
        }
    }
}

impl fmt::Display for PhaseFault {
    ghost use Rattle.std.specs.Prelude.{Some};
    ghost use Rattle.awari_faults.specs.Refusals.{refusal_text};
    ghost use Rattle.awari_phase.specs.PhaseFault.{refusal_of};

    ghost output = { λ fault. Some (refusal_text (refusal_of fault)) };

    fn fmt<W: fmt::Write>(&self, f: &mut fmt::Formatter<W>) -> fmt::Result {
        write!(f, "{}", self.refusal())
    }
}
