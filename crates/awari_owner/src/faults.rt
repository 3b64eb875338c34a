//! Why an owner refuses.

ghost use Rattle.std.specs.Prelude.{◌≡◌};
ghost use Rattle.awari_faults.specs.Parts.{reason_said};
ghost use Rattle.awari_owner.specs.OwnerFault.{number_of, reason_of};
ghost use Rattle.awari_owner.specs.declared.faults.OwnerFault.TheVariants.{Memory};

use awari_faults::Reason;
use std::alloc::AllocError;
use std::fmt;
use thiserror::Error;

/// Why a note or a spread is refused. A fault is answered only if none of those above it is due. It
/// is printed as its number and its name.
#[derive(Clone, Copy, Debug, PartialEq, Eq, Error)]
pub enum OwnerFault {
    /// 30: the note is of another level, for a board of another block, or not of the open gain and
    /// distance. Or its pit has no quiet move that leaves the block.
    Stranger,
    /// 31: a note of this board and pit was heard before.
    Doubled,
    /// 32: a distance is the greatest u32, so that no other can be one more.
    Far,
    /// 33: there was no room.
    Memory,
}

impl OwnerFault {
    /// The number of this refusal, 30 to 33.
    pub fn number(self) -> u8
        ensures { result ≡ number_of self }
    {
        match self {
            OwnerFault::Stranger => 30,
            OwnerFault::Doubled => 31,
            OwnerFault::Far => 32,
            OwnerFault::Memory => 33,
        }
    }

    /// What is told of it: its number.
    pub fn reason(self) -> Reason
        ensures { reason_said result ≡ reason_of self }
    {
        Reason::alone(self.number())
    }
}

impl fmt::Display for OwnerFault {
    ghost use Rattle.std.specs.Prelude.{Some};
    ghost use Rattle.awari_faults.specs.Refusals.{words_text};
    ghost use Rattle.awari_owner.specs.OwnerFault.{reason_of};

    ghost output = { λ fault. Some (words_text (reason_of fault)) };

    fn fmt<W: fmt::Write>(&self, f: &mut fmt::Formatter<W>) -> fmt::Result {
        write!(f, "{}", self.reason())
    }
}

impl From<AllocError> for OwnerFault {
    ghost from_gives = { λ _ fault. fault ≡ Memory };

    fn from(_error: AllocError) -> Self {
        OwnerFault::Memory
    }
}
