//! How owners work, each in a thread of its own, and how a start that fails is reported.

ghost use Rattle.std.specs.Prelude.{◌≡◌, ◌≤◌, ◌<◌, IfOk, IfErr, vec_len, vec_capacity, ◌+◌, ◌++◌, ◌∷◌, [], Ok, Err};
ghost use Rattle.std.specs.Result.{ForOk};
ghost use Rattle.std.specs.declared.vec.Vec.{Vec as AVec};
ghost use Rattle.std.specs.declared.alloc.Global.{Global};
ghost use denote.Param.Send.{IsSync};
ghost use Rattle.awari_phase.specs.Stops.{HasWorked, HaveWorked};
ghost use Rattle.awari_phase.specs.declared.owners.Owner.{Owner as AnOwner};

use crate::faults::PhaseFault;
use crate::gates::Gate;
use crate::owners::Owner;
use std::snapshot::Snapshot;
use std::sync::Wait;
use std::thread;
use std::thread::{Promise, Threads};

/// The owner that comes back is this one, further on, up to its fault if it had one.
#[derive(Drop)]
struct KeptFrom(Snapshot<Owner>);

impl Promise<Owner> for KeptFrom {
    ghost kept_by = { λ p r. HasWorked p.0.value r };
}

/// Works by value.
fn worked<G: Gate>(mut owner: Owner, gate: &G, sweeps: u32) -> Owner
    requires { 1 ≤ sweeps }
    ensures { HasWorked owner result }
{
    owner.work(gate, sweeps);
    owner
}

/// Each owner moves into a thread of its own, works there and comes back by join.
///
/// It starts the last owner, then the others before it, and joins it whatever became of those. So all
/// that were started are joined before a refusal is answered. It is refused as 40 `NotStarted` alone: if
/// one could not be started. The owners come back into the list that they were in, so no memory is
/// taken for them.
#[cycle(starts)]
pub(crate) fn work_all<R: Threads + Wait + Sync, G: Gate + Sync>(
    rt: &R,
    mut owners: Vec<Owner>,
    gate: &G,
    sweeps: u32,
) -> Result<Vec<Owner>, PhaseFault>
    requires { 1 ≤ sweeps }
    ensures len { IfOk result (λ all. vec_len all ≡ vec_len owners) }
    ensures worked { IfOk result (λ all. HaveWorked owners.items all.items) }
    ensures room { IfOk result (λ all. vec_capacity owners ≤ vec_capacity all) }
    ensures wanting { IfErr result (λ fault. fault ≡ PhaseFault.NotStarted) }
{
    let Some(owner) = owners.pop() else {
        return Ok(owners);
    };
    thread::scope(
        thread::scope_env(),
        rt,
        |scope| -> Result<Vec<Owner>, PhaseFault>
            requires { IsSync R.row × IsSync G.row × (1 ≤ sweeps) × (vec_len owners < vec_capacity owners) }
            ensures { IfOk result (λ all. (vec_len all ≡ vec_len owners + 1) × HaveWorked (owners.items ++ owner ∷ []) all.items × (vec_capacity owners ≤ vec_capacity all)) × IfErr result (λ fault. fault ≡ PhaseFault.NotStarted) }
        {
            let promise = KeptFrom(Snapshot::of(&owner));
            match scope.spawn_with(promise, move || worked(owner, gate, sweeps)) {
                Ok(child) => {
                    let others = work_all(rt, owners, gate, sweeps);
                    with_last(others, child.join(rt))
                }
                Err(_) => Err(PhaseFault::NotStarted),
            }
        },
    )
}

/// The owners with one more at the end, for which their list has room.
fn with_last(others: Result<Vec<Owner>, PhaseFault>, last: Owner) -> Result<Vec<Owner>, PhaseFault>
    requires room { ForOk others (λ before. vec_len before < vec_capacity before) }
    ensures ok { IfOk result (λ all. (before : AVec AnOwner Global) × (others ≡ Ok before) × (all.items ≡ before.items ++ last ∷ []) × (vec_capacity before ≤ vec_capacity all)) }
    ensures same { IfErr result (λ fault. others ≡ Err fault) }
{
    let mut all = others?;
    match all.push(last) {
        Ok(()) => Ok(all),
        Err(_) => unreachable!(),
    }
}
