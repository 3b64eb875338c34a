//! By whom a level is built.

ghost use Rattle.std.specs.Prelude.{◌≡◌, ◌<◌, ◌↔◌, ◌⊎◌, Err, IfOk, false};
ghost use Rattle.awari_build.specs.declared.teams.Team.{Team as ATeam};
ghost use Rattle.awari_pace.specs.Paces.{HasOwners, IsPaced};
ghost use Rattle.awari_pace.specs.declared.paces.Pace.{Pace as APace};
ghost use Rattle.awari_play.specs.Least.{IsPlannedLowest};
ghost use Rattle.awari_table.specs.Shelves.{Consistent};

use awari_build::{
    BuildFault, Pace, Team, Watch, build_level_with_progress, build_together_with_progress,
};
use awari_heard::Progress;
use awari_phase::Open;
use awari_table::{Level, Shelf};
use std::alloc::Global;
use std::sync::Wait;
use std::thread::Threads;
use std::time::Clock;

/// If so many threads build a level, one more saves the level below meanwhile. Fewer save and build in turn.
const THREADS_BESIDE_A_SAVE: usize = 4;

/// By whom levels are built.
#[derive(Clone, Copy, Debug, PartialEq, Eq)]
pub enum Way {
    /// By these threads together.
    Together { team: Team },
    /// By the owners of this pace.
    Owners { pace: Pace },
}

impl Way {
    /// By the owners of the pace, or by this many threads together if it has none.
    pub fn of(threads: usize, pace: Pace) -> Way
        ensures together { pace.owners ≡ 0 → result ≡ Way.Together (record { threads = threads; rest = 0; gave_up = false }) }
        ensures owners { 0 < pace.owners → result ≡ Way.Owners pace }
    {
        if pace.owners == 0 {
            let team = Team::of(threads);
            Way::Together { team }
        } else {
            Way::Owners { pace }
        }
    }

    /// Whether a level is saved while the next one is built. Owners are not disturbed.
    pub(crate) fn saves_beside(&self) -> bool {
        match self {
            Way::Together { team } => team.threads >= THREADS_BESIDE_A_SAVE,
            Way::Owners { .. } => false,
        }
    }

    /// Whether threads that built together gave up, so that one built some levels. Owners never do.
    pub fn gave_up(&self) -> bool
        ensures together { (team : ATeam) → self.now ≡ Way.Together team → result ≡ team.gave_up }
        ensures owners { (pace : APace) → self.now ≡ Way.Owners pace → result ≡ false }
    {
        match self {
            Way::Together { team } => team.gave_up,
            Way::Owners { .. } => false,
        }
    }
}

/// The level above the shelf, built so. It is refused as the builders refuse it.
pub(crate) fn build_by<
    T: Threads + Clock + Wait + Sync + Send + Clone + Drop + 'static,
    P: Progress,
>(
    rt: &T,
    alloc: Global,
    shelf: &Shelf,
    way: &mut Way,
    progress: &mut P,
) -> Result<Level, BuildFault>
    ensures consistent { IfOk result (λ level. Consistent shelf.now level) }
    ensures planned { IfOk result (IsPlannedLowest shelf.now) }

    // A pace that owners can't have is refused, and nothing else is refused so.
    ensures owners { (pace : APace) → way.old ≡ Way.Owners pace → (result ≡ Err BuildFault.Owners) ↔ (HasOwners pace → ⊥) }
    ensures pace { (pace : APace) → way.old ≡ Way.Owners pace → (result ≡ Err BuildFault.Pace) ↔ (HasOwners pace × (IsPaced pace → ⊥)) }
    ensures together { (team : ATeam) → way.old ≡ Way.Together team → (result ≡ Err BuildFault.Owners) ⊎ (result ≡ Err BuildFault.Pace) → ⊥ }
{
    match way {
        Way::Together { team } => { build_together_with_progress(rt, alloc, shelf, team, progress) }
        Way::Owners { pace } => {
            let watch = Watch {
                gate: &Open,
                progress,
            };
            build_level_with_progress(rt, alloc, shelf, *pace, watch)
        }
    }
}
