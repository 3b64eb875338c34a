//! What is done with all parts of a level, one after the other.

ghost use Rattle.std.specs.Prelude.{◌≡◌, ◌↔◌, ◌+◌, ◌<◌, ◌≤◌, ℕ, [], All, IfOk, IsTrue, length, vec_len, slice_index_or};
ghost use Rattle.awari_block.specs.Blocks.{due_dist};
ghost use Rattle.awari_heard.specs.Level.{no_part};
ghost use Rattle.awari_block.specs.Part.{Part as PartView};
ghost use Rattle.awari_owner.specs.Sound.{IsScannedOwner, OpensGain, OpensWave};
ghost use Rattle.awari_table.specs.Images.{table_of};
ghost use Rattle.awari_table.specs.declared.TheConstants.{HIGHEST_LEVEL};

use awari_owner::Part;
use awari_table::Shelf;
use std::alloc::{AllocError, Global};

/// The parts of the shelf's next level, one for each of this many owners.
pub fn scanned_parts(alloc: Global, shelf: &Shelf, owners: u8) -> Result<Vec<Part>, AllocError>
    requires owners { (1 ≤ owners) × (owners ≤ 16) }
    requires low { length shelf.now ≤ HIGHEST_LEVEL }
    ensures count { IfOk result (λ parts. vec_len parts ≡ owners) }
    ensures scanned { IfOk result (λ parts. (i : ℕ) → i < owners → IsScannedOwner (table_of shelf.now).value (length shelf.now) owners i (slice_index_or parts.items i no_part)) }
{
    let mut parts = Vec::with_capacity(alloc, owners as usize)?;
    for owner in 0..owners {
        let Ok(part) = Part::scan(alloc, shelf, owners, owner) else {
            return Err(AllocError);
        };
        parts.push(part)?;
    }
    Ok(parts)
}

/// Whether no board of these parts is fresh.
pub fn are_idle(parts: &[Part]) -> bool
    ensures { IsTrue result ↔ All (λ (part : PartView). part.fresh ≡ []) parts.now }
{
    parts.iter().all(Part::idle)
}

/// Opens this gain in all parts. Condition: no board is fresh.
pub fn open_gains(parts: &mut Vec<Part>, gain: u8)
    requires idle { (i : ℕ) → i < vec_len parts.old → (slice_index_or parts.old.items i no_part).fresh ≡ [] }
    requires next { (i : ℕ) → i < vec_len parts.old → gain + 1 ≡ (slice_index_or parts.old.items i no_part).gain }
    requires positive { 1 ≤ gain }
    ensures count { vec_len parts.new ≡ vec_len parts.old }
    ensures opened { (i : ℕ) → i < vec_len parts.old → OpensGain gain (slice_index_or parts.old.items i no_part) (slice_index_or parts.new.items i no_part) }
{
    for part in parts.iter_mut() {
        part.open_gain(gain);
    }
}

/// Opens this distance in all parts. Condition: no fresh board has a smaller one.
pub fn open_waves(parts: &mut Vec<Part>, dist: u32)
    requires farther { (i : ℕ) → i < vec_len parts.old → (slice_index_or parts.old.items i no_part).wave < dist }
    requires nearest { (i : ℕ) → i < vec_len parts.old → All (λ f. dist ≤ due_dist f) (slice_index_or parts.old.items i no_part).fresh }
    ensures count { vec_len parts.new ≡ vec_len parts.old }
    ensures opened { (i : ℕ) → i < vec_len parts.old → OpensWave dist (slice_index_or parts.old.items i no_part) (slice_index_or parts.new.items i no_part) }
{
    for part in parts.iter_mut() {
        part.open_wave(dist);
    }
}
