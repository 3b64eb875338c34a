//! The owners of a level, before any gain is open, and their parts at the end.

ghost use Rattle.std.specs.Prelude.{◌≡◌, ◌+◌, ◌<◌, ◌≤◌, All, IfOk, length, vec_len};
ghost use Rattle.awari_lines.specs.Rings.{HaveRoom, owners_of};
ghost use Rattle.awari_block.specs.Part.{IsClosed};
ghost use Rattle.awari_table.specs.Images.{table_of};
ghost use Rattle.awari_table.specs.declared.TheConstants.{HIGHEST_LEVEL};
ghost use Rattle.awari_phase.specs.Owners.{AreAt, IsScannedWith, all_ends, parts_of};

use crate::owners::Owner;
use awari_block::ClosedPart;
use awari_lines::{Ends, grid};
use awari_owner::{Batch, Outboxes, Part};
use awari_table::Shelf;
use std::alloc::{AllocError, Global};
use std::thread::Threads;

/// The owners of the shelf's next level, 1 to 16, on one grid whose rings have room for 1 to 256
/// batches. No gain is open, no board is fresh, and nothing is on its way. The parts are scanned one
/// after the other, each by as many threads as there are processors. Condition: the shelf has at most
/// `HIGHEST_LEVEL` levels. It takes memory for the parts and the rings, and is refused only if that
/// runs out.
pub fn scanned_owners<R: Threads + Sync>(
    rt: &R,
    alloc: Global,
    shelf: &Shelf,
    owners: u8,
    room: u16,
) -> Result<Vec<Owner>, AllocError>
    requires owners { (1 ≤ owners) × (owners ≤ 16) }
    requires room { (1 ≤ room) × (room ≤ 256) }
    requires low { length shelf.now ≤ HIGHEST_LEVEL }
    ensures count { IfOk result (λ all. vec_len all ≡ owners) }
    ensures begun { IfOk result (λ all. AreAt (table_of shelf.now).value (length shelf.now) (length shelf.now + 1) all.items) }
    ensures room { IfOk result (λ all. HaveRoom room (all_ends all.items)) }
{
    let grid = grid(alloc, owners, room)?;
    let mut all = Vec::with_capacity(alloc, grid.len())?;
    for ends in grid {
        let owner = scanned_owner(rt, alloc, shelf, owners, ends)?;
        all.push(owner)?;
    }
    Ok(all)
}

/// The owner of these ends.
fn scanned_owner<R: Threads + Sync>(
    rt: &R,
    alloc: Global,
    shelf: &Shelf,
    owners: u8,
    ends: Ends<Batch>,
) -> Result<Owner, AllocError>
    requires owners { (1 ≤ owners) × (owners ≤ 16) }
    requires low { length shelf.now ≤ HIGHEST_LEVEL }
    requires ends { (ends.owner < owners) × (owners_of ends ≡ owners) }
    ensures { IfOk result (IsScannedWith (table_of shelf.now).value (length shelf.now) owners ends) }
{
    let number = ends.owner();
    let Ok(part) = Part::scan_parallel(rt, alloc, shelf, owners, number) else {
        return Err(AllocError);
    };
    let outboxes = Outboxes::new(alloc, owners, number)?;
    Ok(Owner::new(part, ends, outboxes))
}

/// The parts of the owners, in their order, each closed. Conditions: all of them have gain 1 open,
/// and no board is fresh. It takes memory for the list of them, and is refused only if that runs out.
pub fn closed_parts(alloc: Global, owners: Vec<Owner>) -> Result<Vec<ClosedPart>, AllocError>
    requires { All IsClosed (parts_of owners.items) }
    ensures { IfOk result (λ parts. parts.items ≡ parts_of owners.items) }
{
    let mut parts = Vec::with_capacity(alloc, owners.len())?;
    for owner in owners {
        parts.push(owner.part.close())?;
    }
    Ok(parts)
}
