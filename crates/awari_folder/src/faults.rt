//! Why a folder is not loaded or brought over, or a level not saved.

ghost use Rattle.std.specs.Prelude.{◌≡◌};
ghost use Rattle.awari_faults.specs.Parts.{reason_said, said};
ghost use Rattle.awari_folder.specs.declared.faults.FolderFault.TheVariants.{Memory};

use awari_faults::{Reason, Refusal};
use awari_file::FileFault;
use awari_verify::VerifyFault;
use std::alloc::{AllocError, AllocFailed};
use std::fmt;
use thiserror::Error;

/// Why a folder is not loaded or brought over, or a level not saved. For each file in turn the faults
/// are looked for in the order 82, 81, 86, 80, 83. A fault is printed as its number, its name, its
/// level, and the fault inside it.
#[derive(Clone, Copy, Debug, PartialEq, Eq, Error)]
pub enum FolderFault {
    /// 80: the digest that the level's file gives for the file below is not that file's digest.
    Below { level: u8 },
    /// 81: the level's file is not read or written.
    File { level: u8, fault: FileFault },
    /// 82: the level's file is there and does not open, or could not be made, or could not take its
    /// name.
    Open { level: u8 },
    /// 83: the level's file was read, and what it says is not right.
    Verify { level: u8, fault: VerifyFault },
    /// 84: there was no room for a level, or for a name.
    Memory,
    /// 85: a file has the level's name already: any file in the folder that the level was to be brought
    /// over to, or another file than the level's in the one that it was to be saved in.
    Occupied { level: u8 },
    /// 86: the level's file is of version 1, which `migrate` brings over.
    Old { level: u8 },
}

impl FolderFault {
    ghost use Rattle.awari_folder.specs.FolderFault.{number_of, refusal_of, reason_of};

    /// The number of this refusal, 80 to 86.
    pub fn number(self) -> u8
        ensures { result ≡ number_of self }
    {
        self.reason().number
    }

    /// What is told of it, but for the fault inside it: its number, and the level.
    pub fn reason(self) -> Reason
        ensures { reason_said result ≡ reason_of self }
    {
        match self {
            FolderFault::Below { level } => Reason::with_number(80, "level", u128::from(level)),
            FolderFault::File { level, .. } => Reason::with_number(81, "level", u128::from(level)),
            FolderFault::Open { level } => Reason::with_number(82, "level", u128::from(level)),
            FolderFault::Verify { level, .. } => Reason::with_number(
                83,
                "level",
                u128::from(level),
            ),
            FolderFault::Memory => Reason::alone(84),
            FolderFault::Occupied { level } => Reason::with_number(85, "level", u128::from(level)),
            FolderFault::Old { level } => Reason::with_number(86, "level", u128::from(level)),
        }
    }

    /// What is told of it, and of the fault inside it.
    pub fn refusal(self) -> Refusal
        ensures { said result ≡ refusal_of self }
    {
        let reason = self.reason();
        match self {
            FolderFault::File { fault, .. } => Refusal::around(reason, fault.reason()),
            FolderFault::Verify { fault, .. } => Refusal::around(reason, fault.reason()),
            FolderFault::Below { .. }
            | FolderFault::Open { .. }
            | FolderFault::Memory
            | FolderFault::Occupied { .. }
            | FolderFault::Old { .. } => Refusal::alone(reason),
        }
    }
}

impl fmt::Display for FolderFault {
    ghost use Rattle.std.specs.Prelude.{Some};
    ghost use Rattle.awari_faults.specs.Refusals.{refusal_text};
    ghost use Rattle.awari_folder.specs.FolderFault.{refusal_of};

    ghost output = { λ fault. Some (refusal_text (refusal_of fault)) };

    fn fmt<W: fmt::Write>(&self, f: &mut fmt::Formatter<W>) -> fmt::Result {
        write!(f, "{}", self.refusal())
    }
}

impl From<AllocError> for FolderFault {
    ghost from_gives = { λ _ fault. fault ≡ Memory };

    fn from(_error: AllocError) -> Self {
        FolderFault::Memory
    }
}

impl<T: Drop> From<AllocFailed<T>> for FolderFault {
    ghost from_gives = { λ _ fault. fault ≡ Memory };

    fn from(_error: AllocFailed<T>) -> Self {
        FolderFault::Memory
    }
}
