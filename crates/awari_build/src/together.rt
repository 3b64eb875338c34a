//! A level built by a crew: threads that stay for the level, each with segments of its own.

ghost use Rattle.std.specs.Prelude.{◌≡◌, ◌<◌, ◌≤◌, ◌⊎◌, ◌↔◌, IsTrue, length, IfOk, IfErr, OnOk, Err};
ghost use Rattle.awari_build.specs.BuildFault.{IsStopped};
ghost use Rattle.awari_build.specs.NextLevel.{IsNextLevel};
ghost use Rattle.awari_build.specs.Settled.{AreSettled};
ghost use Rattle.awari_build.specs.Teams.{HasBuilt};
ghost use Rattle.awari_table.specs.declared.TheConstants.{HIGHEST_LEVEL};

use crate::alone::settled_part;
use crate::faults::BuildFault;
use crate::levels::{begin_next, level_of};
use crate::teams::{MOST_MEMBERS, Team};
use crate::telling::{expect_wanted, stopped};
use awari_block::ClosedPart;
use awari_crew::{Crew, closed_by_crew};
use awari_heard::{Progress, Silent, Stage, finish_parallel};
use awari_segments::Halt;
use awari_table::{Level, Shelf};
use std::alloc::Global;
use std::thread::Threads;
use std::time::Clock;

/// A member that looked so often for a letter leaves. It sleeps in between, so that is some weeks: who
/// writes the progress may wait for a terminal.
const PATIENCE: u64 = 4294967296;

/// A crew may be slow for so many milliseconds.
const SOON: u64 = 100;

/// The shelf's next level, built by this many threads at most. One builds a level below 13, and more
/// than 16 have nothing to do. The first works on the caller's thread, and no thread is started for it.
///
/// It always returns. Refused as 51 `TooHigh` if the shelf has all levels, and as 53 `Memory` if memory
/// runs out, for one thread too. It takes memory for nine bytes a board, for the boards that are settled
/// and not spread yet and their notes, and for the entries. Each thread that is started takes a stack
/// besides.
///
/// The level is proved right, with the lowest plans, so it is that of `build_alone`. Nothing verifies it
/// when the program runs.
pub fn build_together<R: Threads + Clock + Sync + Send + Clone + Drop + 'static>(
    rt: &R,
    alloc: Global,
    shelf: &Shelf,
    threads: usize,
) -> Result<Level, BuildFault>
    ensures next { IfOk result (IsNextLevel shelf.now) }
    ensures too_high { (result ≡ Err BuildFault.TooHigh) ↔ (HIGHEST_LEVEL < length shelf.now) }
    ensures fault { IfErr result (λ fault. (fault ≡ BuildFault.TooHigh) ⊎ (fault ≡ BuildFault.Memory)) }
{
    build_together_with_progress(rt, alloc, shelf, &mut Team::of(threads), &mut Silent)
}

/// Does what `build_together` does, by this team, and tells `progress` how far it is: when the level
/// begins, at each gain and distance how many boards are settled, and when the entries are begun. It
/// asks at each of these whether the level is still wanted, and is refused as 52 `Phase` with 43
/// `Stopped` if it is not. A team that gave up rests for three levels, which one thread builds.
pub fn build_together_with_progress<
    R: Threads + Clock + Sync + Send + Clone + Drop + 'static,
    P: Progress,
>(
    rt: &R,
    alloc: Global,
    shelf: &Shelf,
    team: &mut Team,
    progress: &mut P,
) -> Result<Level, BuildFault>
    ensures next { IfOk result (IsNextLevel shelf.now) }
    ensures too_high { (result ≡ Err BuildFault.TooHigh) ↔ (HIGHEST_LEVEL < length shelf.now) }
    ensures fault { IfErr result (λ fault. (fault ≡ BuildFault.TooHigh) ⊎ ((fault ≡ BuildFault.Memory) ⊎ IsStopped P.stops fault)) }
    ensures team { OnOk result (HasBuilt (length shelf.now) team.old team.new) }
{
    let crew = Crew {
        members: team.members(shelf.levels()),
        patience: PATIENCE,
        soon: SOON,
    };
    let built = build_by_crew(rt, alloc, shelf, crew, progress)?;
    if built.gave_up {
        team.give_up();
    }
    Ok(built.level)
}

/// A level, and whether the crew of several members gave up that was to build it.
#[derive(Drop)]
pub struct CrewBuilt {
    pub level: Level,
    pub gave_up: bool,
}

/// Does what `build_together_with_progress` does, by this crew. A crew of more than 16 members is one of
/// 16, and a crew of none is one of one.
///
/// A crew of several gives up if it takes longer than one thread would. It also gives up if a member lacks
/// memory, or a thread could not be started. This costs no more than time: a crew of one then builds the
/// level from the beginning. A crew of one starts no thread, and is never too slow.
pub fn build_by_crew<R: Threads + Clock + Sync + Send + Clone + Drop + 'static, P: Progress>(
    rt: &R,
    alloc: Global,
    shelf: &Shelf,
    crew: Crew,
    progress: &mut P,
) -> Result<CrewBuilt, BuildFault>
    ensures next { IfOk result (λ built. IsNextLevel shelf.now built.level) }
    ensures gave_up { IfOk result (λ built. IsTrue built.gave_up → 2 ≤ crew.members) }
    ensures too_high { (result ≡ Err BuildFault.TooHigh) ↔ (HIGHEST_LEVEL < length shelf.now) }
    ensures fault { IfErr result (λ fault. (fault ≡ BuildFault.TooHigh) ⊎ ((fault ≡ BuildFault.Memory) ⊎ IsStopped P.stops fault)) }
{
    begin_next(shelf, progress)?;
    let settled = settled_together(rt, alloc, shelf, crew, progress)?;
    progress.hear(Stage::Planned);
    let threads = usize::from(crew.members.min(MOST_MEMBERS));
    let image = finish_parallel(rt, alloc, shelf, settled.parts, threads)?;
    Ok(CrewBuilt {
        level: level_of(shelf, image),
        gave_up: settled.gave_up,
    })
}

/// The segments of a level, and whether the crew gave up that was to close their gains.
#[derive(Drop)]
struct Settled {
    parts: Vec<ClosedPart>,
    gave_up: bool,
}

/// The segments of the shelf's next level, with all gains closed. If this crew gives up, a crew of one
/// closes them.
fn settled_together<R: Threads + Clock + Sync + Send + Clone + Drop + 'static, P: Progress>(
    rt: &R,
    alloc: Global,
    shelf: &Shelf,
    crew: Crew,
    progress: &mut P,
) -> Result<Settled, BuildFault>
    requires low { length shelf.now ≤ HIGHEST_LEVEL }
    ensures settled { IfOk result (λ settled. AreSettled shelf.now settled.parts.items) }
    ensures gave_up { IfOk result (λ settled. IsTrue settled.gave_up → 2 ≤ crew.members) }
    ensures refused { IfErr result (λ fault. (fault ≡ BuildFault.Memory) ⊎ IsStopped P.stops fault) }
{
    let members = crew.members.min(MOST_MEMBERS);
    if members > 1 {
        let several = Crew { members, ..crew };
        if let Ok(parts) = tried_by_crew(rt, alloc, shelf, several, progress)? {
            return Ok(Settled {
                parts,
                gave_up: false,
            });
        }
    }
    let parts = settled_by_one(rt, alloc, shelf, progress)?;
    Ok(Settled {
        parts,
        gave_up: members > 1,
    })
}

/// The same by a crew of one, which is never too slow. If it leaves the level for another reason than
/// want of memory, one part closes all gains. Nothing known brings that about, and nothing rules it out.
fn settled_by_one<R: Threads + Clock + Sync + Send + Clone + Drop + 'static, P: Progress>(
    rt: &R,
    alloc: Global,
    shelf: &Shelf,
    progress: &mut P,
) -> Result<Vec<ClosedPart>, BuildFault>
    requires low { length shelf.now ≤ HIGHEST_LEVEL }
    ensures settled { IfOk result (λ parts. AreSettled shelf.now parts.items) }
    ensures refused { IfErr result (λ fault. (fault ≡ BuildFault.Memory) ⊎ IsStopped P.stops fault) }
{
    let one = Crew {
        members: 1,
        patience: PATIENCE,
        soon: u64::MAX,
    };
    match tried_by_crew(rt, alloc, shelf, one, progress)? {
        Ok(parts) => Ok(parts),
        Err(Halt::Memory) => Err(BuildFault::Memory),
        Err(Halt::Unfit) => settled_part(alloc, shelf, progress),
    }
}

/// The segments of the shelf's next level, with all gains closed by this crew, or why it came home before.
fn tried_by_crew<R: Threads + Clock + Sync + Send + Clone + Drop + 'static, P: Progress>(
    rt: &R,
    alloc: Global,
    shelf: &Shelf,
    crew: Crew,
    progress: &mut P,
) -> Result<Result<Vec<ClosedPart>, Halt>, BuildFault>
    requires low { length shelf.now ≤ HIGHEST_LEVEL }
    requires members { (1 ≤ crew.members) × (crew.members ≤ 16) }
    ensures settled { IfOk result (λ tried. IfOk tried (λ parts. AreSettled shelf.now parts.items)) }
    ensures refused { IfErr result (IsStopped P.stops) }
{
    match closed_by_crew(rt, alloc, shelf, crew, progress) {
        Ok(Some(parts)) => {
            expect_wanted(progress)?;
            Ok(Ok(parts))
        }
        Ok(None) => Err(stopped()),
        Err(halt) => Ok(Err(halt)),
    }
}
