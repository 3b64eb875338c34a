//! What events keep: that the owners are sound.

ghost use Rattle.std.specs.Prelude.{ℕ, ℤ, ◌<◌, [], All, List, length};
ghost use Rattle.awari_block.specs.Part.{Part};
ghost use Rattle.awari_block.specs.declared.notes.Note.{Note};
ghost use Rattle.awari_heard.specs.Level.{AreHeard, AreWhole, DistancesFit};
ghost use Rattle.awari_owner.specs.Owners.{AreInStep, AreSound, NothingComes};
ghost use Rattle.awari_owner.specs.Sound.{KeepsHeard, IsScannedOwner};
ghost use Rattle.awari_table.specs.Images.{table_of};
ghost use Rattle.awari_core.specs.Core.{Core, Sound, IsAllTaken};

use awari_heard::distances_fit;
use awari_owner::sound_parts_are_told;

/// Parts that were just scanned are sound, with nothing on its way.
pub fn scanned_owners_are_sound()
    ensures { (value : List ℕ → ℤ) (n owners : ℕ) (part : ℕ → Part) → 0 < owners → ((i : ℕ) → i < owners → IsScannedOwner value n owners i (part i))
        → AreSound value n owners part (λ _ _. []) (λ _ _. []) }
{}

/// Opening a gain or a distance in all parts keeps the owners sound, if nothing is on its way.
pub fn opening_keeps_owners_sound()
    ensures { (value : List ℕ → ℤ) (n owners : ℕ) (part part' : ℕ → Part) (coming taken : ℕ → ℕ → List Note) → AreSound value n owners part coming taken
        → NothingComes owners coming → ((i : ℕ) → i < owners → KeepsHeard (part i) (part' i)) → AreInStep owners part' → AreSound value n owners part' coming taken }
{}

/// The parts of a sound core together have all boards of its level, and what they heard is true. So
/// each distance is below the greatest u32. Once nothing is on its way, they heard all.
pub fn sound_cores_are_told()
    ensures whole { (core : Core) → Sound core → AreWhole (length core.shelf) core.parts }
    ensures fit { (core : Core) → Sound core → All DistancesFit core.parts }
    ensures heard { (core : Core) → Sound core → IsAllTaken core → AreHeard (table_of core.shelf).value core.parts }
{
    sound_parts_are_told();
    distances_fit();
}
