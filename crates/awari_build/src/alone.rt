//! A level built by one part, in one thread and with no handle.

ghost use Rattle.std.specs.Prelude.{◌≡◌, ◌≤◌, ◌<◌, ◌+◌, ◌⊎◌, ◌↔◌, ℕ, ℤ, List, [], ◌∷◌, length, IfOk, IfErr, OnOk, Err, Some};
ghost use Rattle.awari_block.specs.Counts.{spread_of};
ghost use Rattle.awari_block.specs.Part.{IsClosed, IsLeastDue, unspread};
ghost use Rattle.awari_build.specs.OnePart.{IsAlone, IsSoundPart, StaysSound};
ghost use Rattle.awari_build.specs.BuildFault.{IsStopped};
ghost use Rattle.awari_build.specs.NextLevel.{IsNextLevel};
ghost use Rattle.awari_build.specs.Settled.{AreSettled};
ghost use Rattle.awari_table.specs.declared.TheConstants.{HIGHEST_LEVEL};

use crate::faults::BuildFault;
use crate::levels::{begin_next, level_of};
use crate::telling::expect_wanted;
use awari_block::ClosedPart;
use awari_heard::{Progress, Silent, Stage, distances_fit, finish_closed, one_part_hears_all};
use awari_owner::{Outboxes, Part};
use awari_table::{Level, Shelf};
use std::alloc::{AllocError, Global};

/// The shelf's next level, built by one part that has all its boards. It always returns. Refused as 51
/// `TooHigh` if the shelf has all levels, and as 53 `Memory` if memory runs out. It takes memory for
/// the part, seventeen bytes a board, and for the entries.
///
/// The level is proved right, with the lowest plans, so there is one level that it may be. Nothing
/// verifies it when the program runs.
pub fn build_alone(alloc: Global, shelf: &Shelf) -> Result<Level, BuildFault>
    ensures next { IfOk result (IsNextLevel shelf.now) }
    ensures too_high { (result ≡ Err BuildFault.TooHigh) ↔ (HIGHEST_LEVEL < length shelf.now) }
    ensures fault { IfErr result (λ fault. (fault ≡ BuildFault.TooHigh) ⊎ (fault ≡ BuildFault.Memory)) }
{
    build_alone_with_progress(alloc, shelf, &mut Silent)
}

/// Does what `build_alone` does, and tells `progress` how far it is: when the level begins, at each
/// gain and distance how many boards are settled, and when the entries are begun. It asks at each of
/// these whether the level is still wanted, and is refused as 52 `Phase` with 43 `Stopped` if it is
/// not.
pub fn build_alone_with_progress<P: Progress>(
    alloc: Global,
    shelf: &Shelf,
    progress: &mut P,
) -> Result<Level, BuildFault>
    ensures next { IfOk result (IsNextLevel shelf.now) }
    ensures too_high { (result ≡ Err BuildFault.TooHigh) ↔ (HIGHEST_LEVEL < length shelf.now) }
    ensures fault { IfErr result (λ fault. (fault ≡ BuildFault.TooHigh) ⊎ ((fault ≡ BuildFault.Memory) ⊎ IsStopped P.stops fault)) }
{
    begin_next(shelf, progress)?;
    let parts = settled_part(alloc, shelf, progress)?;
    progress.hear(Stage::Planned);
    let image = finish_closed(alloc, shelf, parts)?;
    Ok(level_of(shelf, image))
}

/// The one part of the shelf's next level, with all gains closed.
pub(crate) fn settled_part<P: Progress>(
    alloc: Global,
    shelf: &Shelf,
    progress: &mut P,
) -> Result<Vec<ClosedPart>, BuildFault>
    requires low { length shelf.now ≤ HIGHEST_LEVEL }
    ensures settled { IfOk result (λ parts. AreSettled shelf.now parts.items) }
    ensures refused { IfErr result (λ fault. (fault ≡ BuildFault.Memory) ⊎ IsStopped P.stops fault) }
{
    // Ghost: a part with all boards hears all notes.
    one_part_hears_all();
    let Ok(mut part) = Part::scan(alloc, shelf, 1, 0) else {
        return Err(BuildFault::Memory);
    };
    let mut outboxes = Outboxes::new(alloc, 1, 0)?;
    while part.gain() > 1 {
        part.open_gain(part.gain() - 1);
        tell(&part, progress);
        expect_wanted(progress)?;
        spread_all(&mut part, &mut outboxes, progress)?;
    }
    expect_wanted(progress)?;
    let parts = closed_alone(alloc, part)?;
    Ok(parts)
}

/// The one part of a level, closed.
fn closed_alone(alloc: Global, part: Part) -> Result<Vec<ClosedPart>, AllocError>
    requires { IsClosed part }
    ensures { IfOk result (λ parts. parts.items ≡ part ∷ []) }
{
    let mut parts = Vec::with_capacity(alloc, 1)?;
    parts.push(part.close())?;
    Ok(parts)
}

/// Tells `progress` which gain is open and how many boards were spread.
fn tell<P: Progress>(part: &Part, progress: &mut P)
    ensures { P.hears progress.old (Stage.Settled part.now.gain (spread_of part.now)) progress.new }
{
    progress.hear(Stage::Settled {
        gain: usize::from(part.gain()),
        boards: part.boards_spread(),
    });
}

/// Spreads all boards that are settled at the open gain, the nearest first. `progress` hears of each
/// greater distance, and may stop there.
fn spread_all<P: Progress>(
    part: &mut Part,
    outboxes: &mut Outboxes,
    progress: &mut P,
) -> Result<(), BuildFault>
    requires alone { IsAlone part.old outboxes.old }
    requires low { part.old.level ≤ HIGHEST_LEVEL }
    requires sound { (value : List ℕ → ℤ) × IsSoundPart value part.old }
    ensures alone { IsAlone part.new outboxes.new }
    ensures stays { StaysSound part.old part.new }
    ensures idle { OnOk result (part.new.fresh ≡ []) }
    ensures stopped { IfErr result (IsStopped P.stops) }
{
    while let Some(dist) = part.due() {
        if part.wave() < dist {
            tell(part, progress);
            expect_wanted(progress)?;
        }
        spread_nearest(part, outboxes, dist);
    }
    Ok(())
}

/// Spreads the first fresh board, which is of this distance.
fn spread_nearest(part: &mut Part, outboxes: &mut Outboxes, dist: u32)
    requires alone { IsAlone part.old outboxes.old }
    requires low { part.old.level ≤ HIGHEST_LEVEL }
    requires least { IsLeastDue part.old (Some dist) }
    requires timely { part.old.wave ≤ dist }
    requires sound { (value : List ℕ → ℤ) × IsSoundPart value part.old }
    ensures alone { IsAlone part.new outboxes.new }
    ensures stays { StaysSound part.old part.new }
    ensures fewer { unspread part.new + 1 ≡ unspread part.old }
{
    open_nearest(part, dist);
    spread_first(part, outboxes);
}

/// Opens the wave of this distance, if it is not open yet.
fn open_nearest(part: &mut Part, dist: u32)
    requires least { IsLeastDue part.old (Some dist) }
    requires timely { part.old.wave ≤ dist }
    ensures wave { part.new ≡ record part.old { wave = dist } }
    ensures stays { StaysSound part.old part.new }
{
    if part.wave() == dist {
        return;
    }
    part.open_wave(dist);
}

/// Spreads the first fresh board, which is of the open wave.
fn spread_first(part: &mut Part, outboxes: &mut Outboxes)
    requires alone { IsAlone part.old outboxes.old }
    requires low { part.old.level ≤ HIGHEST_LEVEL }
    requires least { IsLeastDue part.old (Some part.old.wave) }
    requires sound { (value : List ℕ → ℤ) × IsSoundPart value part.old }
    ensures alone { IsAlone part.new outboxes.new }
    ensures stays { StaysSound part.old part.new }
    ensures fewer { unspread part.new + 1 ≡ unspread part.old }
{
    // Ghost: no distance is the greatest, so the board is not refused.
    distances_fit();
    one_part_hears_all();
    match part.spread_one(outboxes) {
        Ok(true) => {}
        Ok(false) => unreachable!(),
        Err(_) => unreachable!(),
    }
}
