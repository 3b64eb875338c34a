//! What follows of the owners of a level.

ghost use Rattle.std.specs.Prelude.{◌≡◌, ℕ, ℤ, ◌<◌, ◌≤◌, List, ◌∷◌, length};
ghost use Rattle.std.specs.List.{AllZip};
ghost use Rattle.awari_heard.specs.Level.{AreHeard, AreTold, AreWhole, part_at};
ghost use Rattle.awari_owner.specs.Owners.{AreSound, NothingComes};
ghost use Rattle.awari_block.specs.Part.{Part};
ghost use Rattle.awari_owner.specs.Sound.{IsScan, CanTake};
ghost use Rattle.awari_heard.specs.Heard.{SameBlock};
ghost use Rattle.awari_block.specs.declared.notes.Note.{Note};
ghost use Rattle.awari_owner.specs.declared.queues.TheConstants.{MOST_NOTES};

use awari_rank::ranks_tell_boards_apart;

/// The parts of sound owners together have all boards of the level, and what they heard is true. If
/// nothing is on its way, they heard all.
pub fn sound_parts_are_told()
    ensures whole { (value : List ℕ → ℤ) (level : ℕ) (parts : List Part) (coming taken : ℕ → ℕ → List Note) → 1 ≤ length parts
        → AreSound value level (length parts) (part_at parts) coming taken → AreWhole level parts }
    ensures told { (value : List ℕ → ℤ) (level : ℕ) (parts : List Part) (coming taken : ℕ → ℕ → List Note) → 1 ≤ length parts
        → AreSound value level (length parts) (part_at parts) coming taken → AreTold value parts }
    ensures heard { (value : List ℕ → ℤ) (level : ℕ) (parts : List Part) (coming taken : ℕ → ℕ → List Note) → 1 ≤ length parts
        → AreSound value level (length parts) (part_at parts) coming taken → NothingComes (length parts) coming → AreHeard value parts }
{}

/// The parts of all owners have all boards of the level once they are scanned, and for as long as
/// each keeps its block.
pub fn scanned_parts_are_whole()
    ensures whole { (level owners : ℕ) (parts : List Part) → 1 ≤ owners → length parts ≡ owners
        → ((i : ℕ) → i < length parts → IsScan level owners i (part_at parts i)) → AreWhole level parts }
    ensures still { (level : ℕ) (old new : List Part) → AllZip SameBlock old new → AreWhole level old → AreWhole level new }
{}

/// The next note on its way to an owner is never refused.
pub fn coming_notes_are_expected()
    ensures { (value : List ℕ → ℤ) (n owners : ℕ) (part : ℕ → Part) (coming taken : ℕ → ℕ → List Note) → AreSound value n owners part coming taken
        → (i j : ℕ) → i < owners → j < owners → (i ≡ j → ⊥) → (m : Note) (rest : List Note) → coming i j ≡ m ∷ rest → CanTake (part j) m }
{
    ranks_tell_boards_apart();
}

/// A batch has at most 32 notes.
pub fn batches_have_32_notes()
    ensures { MOST_NOTES ≡ 32 }
{}
