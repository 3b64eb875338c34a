//! Rounds, until a gain is closed.

ghost use Rattle.std.specs.Prelude.{◌≡◌, ◌⊎◌, ◌≤◌, All, IsTrue, false, IsNone, IfSome, IfOk, IfErr, [], slice_get};
ghost use Rattle.awari_lines.specs.Rings.{IsGrid};
ghost use Rattle.awari_block.specs.Blocks.{due_dist};
ghost use Rattle.awari_block.specs.Counts.{spread_in};
ghost use Rattle.awari_phase.specs.Owners.{AllGrown, AreIdle, AreReceived, AreSent, ClosesGain, StayTogether, all_ends, parts_of};
ghost use Rattle.awari_phase.specs.PhaseFault.{IfTogether, IsPhaseRefusal, IsStop, IsWant};
ghost use Rattle.awari_phase.specs.declared.owners.Owner.{Owner as AnOwner};

use crate::faults::PhaseFault;
use crate::gates::Gate;
use crate::openings::open_waves;
use crate::owners::Owner;
use crate::rounding::round;
use crate::settling::settle_owners;
use awari_block::nearer;
use awari_heard::{Progress, Silent, Stage};
use std::sync::Wait;
use std::thread::Threads;

/// Makes rounds, one wave after another from the least on, until no board is fresh and
/// nothing is to be sent or waits on a ring. In each of them each owner works in a thread of its own,
/// for at most `sweeps` sweeps: see [`round`].
///
/// Conditions: `sweeps` is 1 to 1000, and the owners stand on one grid. It takes memory as a round
/// does, and is refused as one is; then the owners are gone. If the owners were sound together, 42
/// cannot occur.
pub fn gain_phase<R: Threads + Wait + Sync, G: Gate + Sync>(
    rt: &R,
    owners: Vec<Owner>,
    gate: &G,
    sweeps: u32,
) -> Result<Vec<Owner>, PhaseFault>
    requires sweeps { (1 ≤ sweeps) × (sweeps ≤ 1000) }
    requires grid { IsGrid (all_ends owners.items) }
    ensures closes { IfOk result (λ all. ClosesGain owners.items all.items) }
    ensures refused { IfErr result (IsPhaseRefusal owners.items) }
    ensures wanting { IfErr result (IfTogether owners.items IsWant) }
{
    gain_phase_with_progress(rt, owners, gate, sweeps, &mut Silent)
}

/// Does what `gain_phase` does, and after each round tells `progress` which gain is open and how many
/// boards are settled. It is refused as 43 if the level is then not wanted any more.
pub fn gain_phase_with_progress<R: Threads + Wait + Sync, G: Gate + Sync, P: Progress>(
    rt: &R,
    owners: Vec<Owner>,
    gate: &G,
    sweeps: u32,
    progress: &mut P,
) -> Result<Vec<Owner>, PhaseFault>
    requires sweeps { (1 ≤ sweeps) × (sweeps ≤ 1000) }
    requires grid { IsGrid (all_ends owners.items) }
    ensures closes { IfOk result (λ all. ClosesGain owners.items all.items) }
    ensures refused { IfErr result (λ fault. IsPhaseRefusal owners.items fault ⊎ IsStop P.stops fault) }
    ensures wanting { IfErr result (IfTogether owners.items (λ fault. IsWant fault ⊎ IsStop P.stops fault)) }
{
    let mut all = round(rt, owners, gate, sweeps)?;
    for _ in rt.forever() {
        tell(progress, all.as_slice());
        if !progress.is_wanted() {
            return Err(PhaseFault::Stopped);
        }
        if !is_more(all.as_mut_slice()) {
            return Ok(all);
        }
        all = round(rt, all, gate, sweeps)?;
    }
    unreachable!()
}

/// Whether a round is left. If nothing is left of the open wave, it opens the least one that is due.
fn is_more(owners: &mut [Owner]) -> bool
    requires { IsGrid (all_ends owners.old) }
    ensures grown { AllGrown owners.old owners.new }
    ensures together { StayTogether owners.old owners.new }
    ensures idle { result ≡ false → AreIdle owners.new }
    ensures sent { result ≡ false → AreSent owners.new }
    ensures received { result ≡ false → AreReceived owners.new }
{
    if !is_wave_done(owners) {
        return true;
    }
    let Some(dist) = least_due(owners) else {
        return false;
    };
    open_waves(owners, dist);
    true
}

/// Tells which gain is open, and how many boards are settled, of all owners together.
fn tell<P: Progress>(progress: &mut P, owners: &[Owner])
    requires { IsGrid (all_ends owners.now) }
    ensures { (first : AnOwner) → slice_get owners.now 0 ≡ Some first → P.hears progress.old (Stage.Settled first.part.gain (spread_in (parts_of owners.now))) progress.new }
{
    if let Some(owner) = owners.first() {
        progress.hear(Stage::Settled {
            gain: usize::from(owner.part.gain()),
            boards: settled_boards(owners),
        });
    }
}

/// How many boards are settled and were spread, of all owners together.
fn settled_boards(owners: &[Owner]) -> usize
    requires { IsGrid (all_ends owners.now) }
    ensures { result ≡ spread_in (parts_of owners.now) }
{
    let mut boards: usize = 0;
    for owner in owners {
        boards += owner.part.boards_spread();
    }
    boards
}

/// Looks at all owners and at every ring. True if no board of the open wave is fresh, and nothing is to
/// be sent or waits on a ring.
fn is_wave_done(owners: &mut [Owner]) -> bool
    requires { IsGrid (all_ends owners.old) }
    ensures grown { AllGrown owners.old owners.new }
    ensures together { StayTogether owners.old owners.new }
    ensures sent { IsTrue result → AreSent owners.new }
    ensures received { IsTrue result → AreReceived owners.new }
{
    let quiet = settle_owners(owners);
    quiet && are_spread(owners)
}

/// Whether nothing is to be sent, and no board of the open wave is fresh.
fn are_spread(owners: &[Owner]) -> bool
    ensures { IsTrue result → AreSent owners.now }
{
    owners.iter().all(is_spread)
}

/// Whether the owner has nothing to send, and no fresh board of the open wave.
fn is_spread(owner: &Owner) -> bool
    ensures { IsTrue result → All (λ q. q ≡ []) owner.now.outboxes.queues }
{
    owner.outboxes.is_empty() && owner.part.due() != Some(owner.part.wave())
}

/// The least distance of a fresh board of any owner.
fn least_due(owners: &[Owner]) -> Option<u32>
    ensures none { IsNone result → AreIdle owners.now }
    ensures some { IfSome result (λ dist. All (λ (o : AnOwner). All (λ f. dist ≤ due_dist f) o.part.fresh) owners.now) }
{
    let mut least = None;
    for owner in owners {
        least = nearer_due(least, owner);
    }
    least
}

/// The nearer of this distance and the least of a fresh board of the owner.
fn nearer_due(least: Option<u32>, owner: &Owner) -> Option<u32>
    ensures none { IsNone result → IsNone least × (owner.now.part.fresh ≡ []) }
    ensures some { IfSome result (λ dist. IfSome least (λ other. dist ≤ other) × All (λ f. dist ≤ due_dist f) owner.now.part.fresh) }
    ensures older { IsNone least → IfSome result (λ _. owner.now.part.fresh ≡ [] → ⊥) }
{
    nearer(least, owner.part.due())
}
