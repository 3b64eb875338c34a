//! How the members of a crew are started, each in a thread of its own, and how they come home.

ghost use Rattle.std.specs.Prelude.{◌≡◌, ◌++◌, ◌∷◌, [], Ok, Some, None, IfOk, IfSome, List};
ghost use Rattle.std.specs.declared.vec.Vec.{Vec as AVec};
ghost use Rattle.std.specs.declared.alloc.Global.{Global};
ghost use Rattle.awari_crew.specs.Homes.{AllComeHome, ComesHome};
ghost use Rattle.awari_crew.specs.declared.homes.Home.{Home as AHome};

use crate::homes::{Home, stay};
use crate::members::Member;
use awari_heard::{Progress, Silent};
use awari_segments::Halt;
use std::alloc::Global;
use std::snapshot::Snapshot;
use std::thread;
use std::thread::{Promise, Threads};
use std::time::Clock;

/// What comes of a thread, if it comes home, is its member.
#[derive(Drop)]
struct HomeOf(Snapshot<Member>);

impl Promise<Result<Option<Home>, Halt>> for HomeOf {
    ghost kept_by = { λ p r. IfOk r (λ home. IfSome home (ComesHome p.0.value)) };
}

/// Stays with nobody to tell.
fn stay_silent<C: Clock>(clock: &C, member: Member) -> Result<Option<Home>, Halt>
    ensures { IfOk result (λ home. IfSome home (ComesHome member)) }
{
    stay(clock, member, &mut Silent)
}

/// The first member stays on the caller's thread and tells `progress`, and each other one in a thread of
/// its own. All that were started are joined before anything is answered. None if the level is not wanted
/// any more. Refused as `Unfit` if a thread could not be started, and as a member is: a member that leaves
/// drops its ends, so the others leave too.
pub(crate) fn stay_all<R: Threads + Clock + Send + Clone + Drop + 'static, P: Progress>(
    rt: &R,
    alloc: Global,
    mut members: Vec<Member>,
    progress: &mut P,
) -> Result<Option<Vec<Home>>, Halt>
    ensures home { IfOk result (λ homes. IfSome homes (λ homes. AllComeHome members.items homes.items)) }
    ensures unwanted { result ≡ Ok None → P.stops }
{
    let Some(member) = members.pop() else {
        return Ok(Some(Vec::new(alloc)));
    };
    if members.is_empty() {
        return stay_first(rt, alloc, member, progress);
    }
    let promise = HomeOf(Snapshot::of(&member));
    let clock = rt.clone()?;
    match thread::spawn_with(rt, promise, move || stay_silent(&clock, member)) {
        Ok(child) => {
            let others = stay_all(rt, alloc, members, progress);
            with_last(others, child.join(rt))
        }
        Err(_) => Err(Halt::Unfit),
    }
}

/// The first member stays.
fn stay_first<C: Clock, P: Progress>(
    clock: &C,
    alloc: Global,
    member: Member,
    progress: &mut P,
) -> Result<Option<Vec<Home>>, Halt>
    ensures home { IfOk result (λ homes. IfSome homes (λ homes. AllComeHome (member ∷ []) homes.items)) }
    ensures unwanted { result ≡ Ok None → P.stops }
{
    let Some(home) = stay(clock, member, progress)? else {
        return Ok(None);
    };
    let mut homes = Vec::with_capacity(alloc, 1)?;
    homes.push(home)?;
    Ok(Some(homes))
}

/// The homes of the others with one more behind them. What the first member answers decides, but for want
/// of memory.
fn with_last(
    others: Result<Option<Vec<Home>>, Halt>,
    last: Result<Option<Home>, Halt>,
) -> Result<Option<Vec<Home>>, Halt>
    ensures home { IfOk result (λ all. IfSome all (λ all. (before : AVec AHome Global) × (home : AHome) × (others ≡ Ok (Some before)) × (last ≡ Ok (Some home)) × (all.items ≡ before.items ++ home ∷ []))) }
    ensures unwanted { result ≡ Ok None → others ≡ Ok None }
{
    match others {
        Ok(Some(all)) => with_home(all, last),
        Ok(None) => Ok(None),
        Err(halt) => match last {
            Err(Halt::Memory) => Err(Halt::Memory),
            _ => Err(halt),
        },
    }
}

/// These homes with one more behind them, if the member came home.
fn with_home(
    mut all: Vec<Home>,
    last: Result<Option<Home>, Halt>,
) -> Result<Option<Vec<Home>>, Halt>
    ensures home { IfOk result (λ more. IfSome more (λ more. (home : AHome) × (last ≡ Ok (Some home)) × (more.items ≡ all.items ++ home ∷ []))) }
    ensures some { result ≡ Ok None → ⊥ }
{
    match last? {
        Some(home) => {
            all.push(home)?;
            Ok(Some(all))
        }
        None => Err(Halt::Unfit),
    }
}
