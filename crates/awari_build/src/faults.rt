//! Why a level is not built.

ghost use Rattle.std.specs.Prelude.{◌≡◌, ◌∷◌};
ghost use Rattle.awari_faults.specs.Parts.{reason_said, said};
ghost use Rattle.awari_build.specs.BuildFault.{number_of, refusal_of};
ghost use Rattle.awari_phase.specs.PhaseFault.{refusal_of as phase_refusal_of};
ghost use Rattle.awari_build.specs.declared.faults.BuildFault.TheVariants.{Memory};

use awari_faults::{Inside, Reason, Refusal};
use awari_phase::PhaseFault;
use std::alloc::AllocError;
use std::fmt;
use thiserror::Error;

/// Why a level is not built. A fault is looked for only if those before it are not due. It is printed
/// as its number, its name, and the fault inside it.
#[derive(Clone, Copy, Debug, PartialEq, Eq, Error)]
pub enum BuildFault {
    /// 50: there is no owner, or there are more than 16.
    Owners,
    /// 55: a ring has room for no batch or for more than 256, or a round has no sweep or more than
    /// 1000.
    Pace,
    /// 51: the shelf has all levels up to the highest.
    TooHigh,
    /// 53: there was no room.
    Memory,
    /// 52: the owners could not work, or the level was not wanted any more.
    Phase { fault: PhaseFault },
}

impl BuildFault {
    /// The number of this refusal, 50 to 53 or 55.
    pub fn number(self) -> u8
        ensures { result ≡ number_of self }
    {
        match self {
            BuildFault::Owners => 50,
            BuildFault::Pace => 55,
            BuildFault::TooHigh => 51,
            BuildFault::Memory => 53,
            BuildFault::Phase { .. } => 52,
        }
    }

    /// What is told of it, and of the faults inside it.
    pub fn refusal(self) -> Refusal
        ensures { said result ≡ refusal_of self }
    {
        let reason = Reason::alone(self.number());
        match self {
            BuildFault::Phase { fault } => around_phase(reason, fault),
            BuildFault::Owners | BuildFault::Pace | BuildFault::TooHigh | BuildFault::Memory =>
                Refusal::alone(reason),
        }
    }
}

/// What is told of a fault around that of the owners.
fn around_phase(reason: Reason, fault: PhaseFault) -> Refusal
    ensures { said result ≡ reason_said reason ∷ phase_refusal_of fault }
{
    let phase = fault.reason();
    let inside = match fault {
        PhaseFault::BadNote { fault, .. } => Inside::Two(phase, fault.reason()),
        PhaseFault::NotStarted | PhaseFault::Memory | PhaseFault::Stopped => Inside::One(phase),
    };
    Refusal { reason, inside }
}

impl fmt::Display for BuildFault {
    ghost use Rattle.std.specs.Prelude.{Some};
    ghost use Rattle.awari_faults.specs.Refusals.{refusal_text};
    ghost use Rattle.awari_build.specs.BuildFault.{refusal_of};

    ghost output = { λ fault. Some (refusal_text (refusal_of fault)) };

    fn fmt<W: fmt::Write>(&self, f: &mut fmt::Formatter<W>) -> fmt::Result {
        write!(f, "{}", self.refusal())
    }
}

impl From<AllocError> for BuildFault {
    ghost from_gives = { λ _ fault. fault ≡ Memory };

    fn from(_error: AllocError) -> Self {
        BuildFault::Memory
    }
}
