//! A level built by several owners, each in a thread of its own.

ghost use Rattle.std.specs.Prelude.{◌≡◌, ◌⊎◌, ◌≤◌, ◌<◌, ◌+◌, ◌↔◌, ℕ, ℤ, List, IfOk, IfErr, Err, length, vec_len};
ghost use Rattle.awari_table.specs.Images.{table_of};
ghost use Rattle.awari_table.specs.declared.TheConstants.{HIGHEST_LEVEL};
ghost use Rattle.awari_lines.specs.Rings.{HaveRoom};
ghost use Rattle.awari_phase.specs.Owners.{AreAt, all_ends};
ghost use Rattle.awari_phase.specs.PhaseFault.{IsStop, IsWant};
ghost use Rattle.awari_phase.specs.declared.faults.PhaseFault.{PhaseFault};
ghost use Rattle.awari_build.specs.BuildFault.{IsOfPhase, IsStopped};
ghost use Rattle.awari_build.specs.NextLevel.{IsNextLevel};
ghost use Rattle.awari_build.specs.Settled.{AreSettled};
ghost use Rattle.awari_pace.specs.Paces.{HasOwners, IsPaced};

use crate::faults::BuildFault;
use crate::levels::{begin_next, level_of};
use awari_block::ClosedPart;
use awari_heard::{Progress, Silent, Stage, finish_parallel};
use awari_pace::{MOST_OWNERS, MOST_ROOM, MOST_SWEEPS, Pace};
use awari_phase::{
    Gate, Owner, PhaseFault, closed_parts, finished_owners_are_right, gain_phase_with_progress,
    open_gain, scanned_owners,
};
use awari_table::{Level, Shelf};
use std::alloc::{AllocError, Global};
use std::sync::Wait;
use std::thread::Threads;

/// The shelf's next level, built by several owners, each in a thread of its own, that work as `pace`
/// says. Each enters the gate at the start of each of its sweeps. It takes memory for the parts,
/// seventeen bytes a board, for the rings and for the entries.
///
/// It is refused in this order:
///
/// - 50 `Owners`: there are not 1 to 16 owners.
/// - 55 `Pace`: room or sweeps are not what `Pace` allows.
/// - 51 `TooHigh`: the shelf has all levels.
/// - 53 `Memory`: memory ran out.
/// - 52 `Phase`: a thread could not be started.
///
/// Whatever order the owners' steps have, the level is proved right, with the lowest plans. So it is
/// that of `build_alone`, and nothing verifies it when the program runs.
pub fn build_level<R: Threads + Wait + Sync, G: Gate + Sync>(
    rt: &R,
    alloc: Global,
    shelf: &Shelf,
    pace: Pace,
    gate: &G,
) -> Result<Level, BuildFault>
    ensures next { IfOk result (IsNextLevel shelf.now) }
    ensures owners { (result ≡ Err BuildFault.Owners) ↔ (HasOwners pace → ⊥) }
    ensures pace { (result ≡ Err BuildFault.Pace) ↔ (HasOwners pace × (IsPaced pace → ⊥)) }
    ensures too_high { (result ≡ Err BuildFault.TooHigh) ↔ (HasOwners pace × IsPaced pace × (HIGHEST_LEVEL < length shelf.now)) }

    // No owner refuses a note that another one sent.
    ensures phase { (fault : PhaseFault) → result ≡ Err (BuildFault.Phase fault) → fault ≡ PhaseFault.NotStarted }
{
    let watch = Watch {
        gate,
        progress: &mut Silent,
    };
    build_level_with_progress(rt, alloc, shelf, pace, watch)
}

/// What looks on while owners build a level.
#[derive(Drop)]
pub struct Watch<'a, G, P> {
    /// What each owner enters at the start of each of its sweeps.
    pub gate: &'a G,
    /// What is told how far the level is.
    pub progress: &'a mut P,
}

/// Does what `build_level` does, and tells the progress of `watch` how far it is: when the level
/// begins, after each round which gain is open and how many boards are settled, and when the entries
/// are begun. It asks before it scans the level and after each round whether the level is still
/// wanted, and is refused as 52 `Phase` with 43 `Stopped` if it is not.
pub fn build_level_with_progress<R: Threads + Wait + Sync, G: Gate + Sync, P: Progress>(
    rt: &R,
    alloc: Global,
    shelf: &Shelf,
    pace: Pace,
    mut watch: Watch<'_, G, P>,
) -> Result<Level, BuildFault>
    ensures next { IfOk result (IsNextLevel shelf.now) }
    ensures owners { (result ≡ Err BuildFault.Owners) ↔ (HasOwners pace → ⊥) }
    ensures pace { (result ≡ Err BuildFault.Pace) ↔ (HasOwners pace × (IsPaced pace → ⊥)) }
    ensures too_high { (result ≡ Err BuildFault.TooHigh) ↔ (HasOwners pace × IsPaced pace × (HIGHEST_LEVEL < length shelf.now)) }

    // No owner refuses a note that another one sent.
    ensures phase { (fault : PhaseFault) → result ≡ Err (BuildFault.Phase fault) → (fault ≡ PhaseFault.NotStarted) ⊎ IsStop P.stops fault }
{
    if !(1..=MOST_OWNERS).contains(&pace.owners) {
        return Err(BuildFault::Owners);
    }
    if !(1..=MOST_ROOM).contains(&pace.room) || !(1..=MOST_SWEEPS).contains(&pace.sweeps) {
        return Err(BuildFault::Pace);
    }
    begin_next(shelf, watch.progress)?;
    let parts = settled_parts(rt, alloc, shelf, pace, &mut watch)?;
    watch.progress.hear(Stage::Planned);
    let threads = parts.len();
    let image = finish_parallel(rt, alloc, shelf, parts, threads)?;
    Ok(level_of(shelf, image))
}

/// The parts of the owners of the shelf's next level, with all gains closed.
fn settled_parts<R: Threads + Wait + Sync, G: Gate + Sync, P: Progress>(
    rt: &R,
    alloc: Global,
    shelf: &Shelf,
    pace: Pace,
    watch: &mut Watch<'_, G, P>,
) -> Result<Vec<ClosedPart>, BuildFault>
    requires low { length shelf.now ≤ HIGHEST_LEVEL }
    requires owners { HasOwners pace }
    requires pace { IsPaced pace }
    ensures settled { IfOk result (λ parts. AreSettled shelf.now parts.items) }
    ensures phase { IfErr result (λ fault. IsOfPhase fault ⊎ IsStopped P.stops fault) }
{
    // Ghost: owners with nothing more to do heard of all spread boards.
    finished_owners_are_right();
    let mut owners = begun_owners(rt, alloc, shelf, pace)?;
    for _gain in 0..shelf.levels() {
        owners = closed_gain(rt, owners, watch.gate, pace.sweeps, watch.progress)?;
    }
    let parts = closed_parts(alloc, owners)?;
    Ok(parts)
}

/// As many owners of the shelf's next level as `pace` says, on rings with room for as much, before
/// any gain is open.
fn begun_owners<R: Threads + Sync>(
    rt: &R,
    alloc: Global,
    shelf: &Shelf,
    pace: Pace,
) -> Result<Vec<Owner>, AllocError>
    requires low { length shelf.now ≤ HIGHEST_LEVEL }
    requires owners { HasOwners pace }
    requires pace { IsPaced pace }
    ensures begun { IfOk result (λ owners. AreAt (table_of shelf.now).value (length shelf.now) (length shelf.now + 1) owners.items) }
    ensures pace { IfOk result (λ owners. (vec_len owners ≡ pace.owners) × HaveRoom pace.room (all_ends owners.items)) }
{
    let owners = scanned_owners(rt, alloc, shelf, pace.owners, pace.room as u16)?;
    Ok(owners)
}

/// The owners with the next smaller gain closed.
fn closed_gain<R: Threads + Wait + Sync, G: Gate + Sync, P: Progress>(
    rt: &R,
    mut owners: Vec<Owner>,
    gate: &G,
    sweeps: u32,
    progress: &mut P,
) -> Result<Vec<Owner>, BuildFault>
    requires sweeps { (1 ≤ sweeps) × (sweeps ≤ 1000) }
    requires rest { (value : List ℕ → ℤ) × (n : ℕ) × (gain : ℕ) × (2 ≤ gain) × AreAt value n gain owners.items × (n ≤ HIGHEST_LEVEL) }
    ensures closed { IfOk result (λ all. (value : List ℕ → ℤ) (n gain : ℕ) → AreAt value n (gain + 1) owners.items → AreAt value n gain all.items) }
    ensures phase { IfErr result (λ fault. IsOfPhase fault ⊎ IsStopped P.stops fault) }
{
    open_gain(rt, owners.as_mut_slice());
    match gain_phase_with_progress(rt, owners, gate, sweeps, progress) {
        Ok(all) => Ok(all),
        Err(fault) => Err(of_phase(fault)),
    }
}

/// Why a level is not built, if the rounds of a gain were refused.
fn of_phase(fault: PhaseFault) -> BuildFault
    ensures wanting { IsWant fault → IsOfPhase result }
    ensures started { fault ≡ PhaseFault.NotStarted → result ≡ BuildFault.Phase fault }
    ensures stopped { fault ≡ PhaseFault.Stopped → result ≡ BuildFault.Phase PhaseFault.Stopped }
{
    match fault {
        PhaseFault::Memory => BuildFault::Memory,
        _ => BuildFault::Phase { fault },
    }
}
