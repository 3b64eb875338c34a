//! Rounds: all owners work, each in a thread of its own.

ghost use Rattle.std.specs.Prelude.{◌≡◌, ◌≤◌, ℕ, ℤ, List, IsNone, IfOk, IfErr, IfSome};
ghost use Rattle.awari_lines.specs.Rings.{IsGrid};
ghost use Rattle.awari_table.specs.declared.TheConstants.{HIGHEST_LEVEL};
ghost use Rattle.awari_phase.specs.Owners.{AreTogether, Rounds, all_ends};
ghost use Rattle.awari_phase.specs.PhaseFault.{AreWell, IfTogether, IsFirstFault, IsRefusal, IsWant, fault_of};
ghost use Rattle.awari_phase.specs.Stops.{HaveWorked};
ghost use Rattle.awari_phase.specs.declared.owners.Owner.{Owner as AnOwner};

use crate::faults::PhaseFault;
use crate::gates::Gate;
use crate::owners::Owner;
use crate::settling::settle_owners;
use crate::starting::work_all;
use awari_heard::distances_fit;
use awari_owner::{OwnerFault, coming_notes_are_expected, sound_parts_are_told};
use std::sync::Wait;
use std::thread::Threads;

/// Each owner works in a thread of its own until it has nothing to do, or for this many sweeps, and
/// comes back to its place. Conditions: there are 1 to 1000 sweeps, and the owners stand on one grid.
/// It takes memory for the threads, and each owner takes it for the notes that it has to send.
///
/// Each owner makes at least one sweep. So from each other owner it took a batch, or none is known to
/// wait. It spread 64 boards, or all fresh ones of the open wave. To each other owner it sent a
/// batch, or had none to send, or no room is known on the ring.
///
/// All threads that were started are joined before anything is answered. After a refusal the owners
/// are gone:
///
/// - 40 `NotStarted`: a thread could not be started.
/// - 41 `Memory`: memory ran out for the first owner that had a fault.
/// - 42 `BadNote`: the first owner that had a fault was sent a note that it refuses, or could not
///   spread a board. If the owners were sound together, it cannot occur.
pub fn round<R: Threads + Wait + Sync, G: Gate + Sync>(
    rt: &R,
    owners: Vec<Owner>,
    gate: &G,
    sweeps: u32,
) -> Result<Vec<Owner>, PhaseFault>
    requires sweeps { (1 ≤ sweeps) × (sweeps ≤ 1000) }
    requires grid { IsGrid (all_ends owners.items) }
    ensures rounds { IfOk result (λ all. Rounds owners.items all.items) }
    ensures refused { IfErr result (IsRefusal owners.items) }
    ensures wanting { IfErr result (IfTogether owners.items IsWant) }
{
    let all = work_all(rt, owners, gate, sweeps)?;
    match first_fault(all.as_slice()) {
        None => Ok(all),
        Some(fault) => Err(refused(all, fault)),
    }
}

/// Gives this fault of owners that came back from their work, the first among them.
///
/// It looks at both ends of each ring first. Only so is it known that a note that was refused had
/// been sent by another owner. None of those is refused if the owners were sound together.
fn refused(mut all: Vec<Owner>, fault: PhaseFault) -> PhaseFault
    requires grid { IsGrid (all_ends all.items) }
    requires first { IsFirstFault all.items fault }
    ensures same { result ≡ fault }
    ensures wanting { (value : List ℕ → ℤ) (n : ℕ) (before : List AnOwner) → n ≤ HIGHEST_LEVEL → AreTogether value n before → HaveWorked before all.items → IsWant result }
{
    coming_notes_are_expected();
    sound_parts_are_told();
    distances_fit();
    settle_owners(all.as_mut_slice());
    fault
}

/// The fault of the first owner that had one.
fn first_fault(owners: &[Owner]) -> Option<PhaseFault>
    ensures none { IsNone result → AreWell owners.now }
    ensures some { IfSome result (IsFirstFault owners.now) }
{
    for owner in owners {
        if let Some(fault) = owner.fault {
            return Some(fault_of(owner.ends.owner(), fault));
        }
    }
    None
}

/// How a round tells the fault of an owner.
fn fault_of(owner: u8, fault: OwnerFault) -> PhaseFault
    ensures { result ≡ fault_of owner fault }
{
    match fault {
        OwnerFault::Memory => PhaseFault::Memory,
        _ => PhaseFault::BadNote { owner, fault },
    }
}
