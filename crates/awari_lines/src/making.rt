//! The ends of all rings.

ghost use Rattle.std.specs.Prelude.{◌≡◌, ◌+◌, ◌<◌, ◌≤◌, vec_len, IfOk, OnOk};
ghost use Rattle.awari_lines.specs.Rings.{AllUnused, HaveRoom, IsGrid};

use crate::ends::Ends;
use std::alloc::{AllocError, Global};

/// The ends of all rings among 1 to 16 owners, in the order of their numbers. There is a ring for
/// each ordered pair of different owners, with room for `room` items, 1 to 256. It takes all the
/// memory that the rings will ever need, and is refused only if that runs out.
pub fn grid<T: Drop>(alloc: Global, owners: u8, room: u16) -> Result<Vec<Ends<T>>, AllocError>
    requires owners { (1 ≤ owners) × (owners ≤ 16) }
    requires room { (1 ≤ room) × (room ≤ 256) }
    ensures owners { IfOk result (λ all. vec_len all ≡ owners) }
    ensures grid { IfOk result (λ all. IsGrid all.items) }
    ensures unused { IfOk result (λ all. AllUnused all.items) }
    ensures room { IfOk result (λ all. HaveRoom room all.items) }
{
    let mut all = Vec::new(alloc);
    for owner in 0..owners {
        add_owner(alloc, &mut all, owner, usize::from(room))?;
    }
    Ok(all)
}

/// One more owner, with rings between it and each of the others.
fn add_owner<T: Drop>(
    alloc: Global,
    all: &mut Vec<Ends<T>>,
    owner: u8,
    room: usize,
) -> Result<(), AllocError>
    requires owner { owner ≡ vec_len all.old }
    requires grid { IsGrid all.old.items × AllUnused all.old.items × HaveRoom room all.old.items }
    ensures owners { OnOk result (vec_len all.new ≡ vec_len all.old + 1) }
    ensures grid { OnOk result (IsGrid all.new.items × AllUnused all.new.items × HaveRoom room all.new.items) }
{
    let mut pairs = Vec::with_capacity(alloc, all.len())?;
    for other in all.iter_mut() {
        let pair = other.connect(alloc, room)?;
        pairs.push(pair)?;
    }
    all.push(Ends { owner, pairs })?;
    Ok(())
}
