//! Why a command that builds ends early.

ghost use Rattle.std.specs.Prelude.{◌≡◌};
ghost use Rattle.awari_desk.specs.declared.faults.DeskFault.TheVariants as desk_fault;
ghost use Rattle.awari_builds.specs.declared.faults.CommandFault.TheVariants as command_fault;

use awari_build::BuildFault;
use awari_desk::{DeskFault, ServeFault};
use awari_faults::Refusal;
use awari_folder::FolderFault;
use awari_phase::PhaseFault;
use std::alloc::AllocError;

/// Why levels are not built, saved or served.
#[derive(Clone, Copy)]
pub(crate) enum CommandFault {
    /// The folder is not loaded, or a level not saved there.
    Folder { fault: FolderFault },
    /// A level is not built.
    Build { fault: BuildFault },
    /// The thread that builds beside a service is not started.
    Start { fault: PhaseFault },
    /// The levels are not published, or the reader is not told of them.
    Desk { fault: DeskFault },
    /// The lines are not read, or the answers not written.
    Serve { fault: ServeFault },
}

impl From<FolderFault> for CommandFault {
    ghost from_gives = { λ fault e. e ≡ command_fault.Folder fault };

    fn from(fault: FolderFault) -> Self {
        CommandFault::Folder { fault }
    }
}

impl From<BuildFault> for CommandFault {
    ghost from_gives = { λ fault e. e ≡ command_fault.Build fault };

    fn from(fault: BuildFault) -> Self {
        CommandFault::Build { fault }
    }
}

impl From<DeskFault> for CommandFault {
    ghost from_gives = { λ fault e. e ≡ command_fault.Desk fault };

    fn from(fault: DeskFault) -> Self {
        CommandFault::Desk { fault }
    }
}

impl From<ServeFault> for CommandFault {
    ghost from_gives = { λ fault e. e ≡ command_fault.Serve fault };

    fn from(fault: ServeFault) -> Self {
        CommandFault::Serve { fault }
    }
}

/// Memory for what a service shares. A level that lacks it is refused as not built.
impl From<AllocError> for CommandFault {
    ghost from_gives = { λ _ e. e ≡ command_fault.Desk desk_fault.Memory };

    fn from(_error: AllocError) -> Self {
        CommandFault::Desk {
            fault: DeskFault::Memory,
        }
    }
}

impl CommandFault {
    ghost use Rattle.awari_faults.specs.Parts.{said};
    ghost use Rattle.awari_builds.specs.CommandFault.{refusal_of};

    /// What is told of the fault inside it.
    pub(crate) fn refusal(self) -> Refusal
        ensures { said result ≡ refusal_of self }
    {
        match self {
            CommandFault::Folder { fault } => fault.refusal(),
            CommandFault::Build { fault } => fault.refusal(),
            CommandFault::Start { fault } => fault.refusal(),
            CommandFault::Desk { fault } => Refusal::alone(fault.reason()),
            CommandFault::Serve { fault } => Refusal::alone(fault.reason()),
        }
    }
}
