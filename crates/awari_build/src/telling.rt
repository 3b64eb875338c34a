//! What the builders of a level tell a progress, and ask it.

ghost use Rattle.std.specs.Prelude.{◌≡◌, ◌≤◌, IfErr};
ghost use Rattle.awari_phase.specs.declared.faults.PhaseFault.{PhaseFault};
ghost use Rattle.awari_build.specs.declared.faults.BuildFault.{BuildFault};
ghost use Rattle.awari_build.specs.BuildFault.{IsStopped};
ghost use Rattle.awari_rank.specs.Rank.{size_of};

use crate::faults::BuildFault;
use awari_heard::{Progress, Stage};
use awari_phase::PhaseFault;
use awari_rank::size;

/// Tells that the level with this many stones begins.
pub(crate) fn begin<P: Progress>(progress: &mut P, level: u8)
    requires { level ≤ 24 }
    ensures { P.hears progress.old (Stage.Begun level (size_of level)) progress.new }
{
    progress.hear(Stage::Begun {
        level: usize::from(level),
        boards: size(level) as usize,
    });
}

/// Refuses a level that is not wanted any more.
pub(crate) fn expect_wanted<P: Progress>(progress: &mut P) -> Result<(), BuildFault>
    ensures { IfErr result (IsStopped P.stops) }
{
    if progress.is_wanted() {
        return Ok(());
    }
    Err(stopped())
}

/// The refusal of a level that is not wanted any more.
pub(crate) fn stopped() -> BuildFault
    ensures { result ≡ BuildFault.Phase PhaseFault.Stopped }
{
    BuildFault::Phase {
        fault: PhaseFault::Stopped,
    }
}
