//! What follows of owners that are each sound: at any time, and once they have nothing more to do.

ghost use Rattle.std.specs.Prelude.{◌≡◌, ℕ, ℤ, All, List, length, sum};
ghost use Rattle.awari_board.specs.Rules.{IsBoard};
ghost use Rattle.awari_rank.specs.Rank.{rank_of};
ghost use Rattle.awari_heard.specs.Finish.{IsRightAt};
ghost use Rattle.awari_heard.specs.Level.{AreHeard, AreWhole, known_at, part_at};
ghost use Rattle.awari_owner.specs.Owners.{AreSound};
ghost use Rattle.awari_block.specs.Part.{IsClosed};
ghost use Rattle.awari_phase.specs.Owners.{AreFinished, AreIdle, AreLooked, AreTogether, coming_notes, parts_of, taken_notes};
ghost use Rattle.awari_phase.specs.declared.owners.Owner.{Owner};
ghost use Rattle.awari_phase.specs.declared.owners.TheConstants.{MOST_SPREADS};

use awari_heard::closed_parts_are_right;
use awari_owner::sound_parts_are_told;

/// Owners that are sound together, and whose rings `settle_owners` looked at, are sound as
/// `specs/Owners.antt` of `awari_owner` defines it. The notes are those that each took from each other
/// one, and those that are on their way to it.
pub fn owners_together_are_sound()
    ensures { (value : List ℕ → ℤ) (n : ℕ) (os : List Owner) (d : Owner) → AreTogether value n os → AreLooked os
        → AreSound value n (length os) (part_at (parts_of os)) (coming_notes os d) (taken_notes os d) }
{}

/// Owners that are each sound, with nothing to be sent and nothing on the rings, heard all notes of
/// each other. Once gain 1 is open and no board is fresh, each board of the level keeps the rules of
/// a table.
pub fn finished_owners_are_right()
    ensures heard { (value : List ℕ → ℤ) (n : ℕ) (os : List Owner) → AreFinished value n os → AreWhole n (parts_of os) × AreHeard value (parts_of os) }
    ensures closed { (os : List Owner) → AreIdle os → All (λ (o : Owner). o.part.gain ≡ 1) os → All IsClosed (parts_of os) }
    ensures right { (value : List ℕ → ℤ) (n : ℕ) (os : List Owner) → AreFinished value n os → All IsClosed (parts_of os)
        → (p : List ℕ) → IsBoard p → sum p ≡ n → IsRightAt value (λ q. known_at (parts_of os) (rank_of q)) p }
{
    sound_parts_are_told();
    closed_parts_are_right();
}

/// A sweep spreads at most 64 boards.
pub fn sweeps_spread_64_boards()
    ensures { MOST_SPREADS ≡ 64 }
{}
