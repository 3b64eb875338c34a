//! What follows of a level whose parts heard its notes.

ghost use Rattle.std.specs.Prelude.{◌≡◌, ℕ, ℤ, ◌≤◌, List, [], ◌∷◌, All, sum};
ghost use Rattle.awari_board.specs.Rules.{IsBoard};
ghost use Rattle.awari_rank.specs.Rank.{rank_of};
ghost use Rattle.awari_block.specs.Tally.{Cell};
ghost use Rattle.awari_heard.specs.Finish.{IsQuietAt, IsRightAt};
ghost use Rattle.awari_heard.specs.Level.{AreHeard, AreTold, AreWhole, DistancesFit, NotesFit, known_at, IsWhole};
ghost use Rattle.awari_block.specs.Part.{Part, IsClosed, IsTallied};
ghost use Rattle.awari_heard.specs.Heard.{HearsOwn};
ghost use Rattle.awari_block.specs.declared.notes.Note.{Note};

/// A board keeps the rules of a table if its cell is a tally, at gain 1, of just the notes of settled
/// boards that its quiet moves lead to. A settled board has its value and distance, and any other
/// value 0 and distance 0.
pub fn quiet_boards_are_right()
    ensures { (value : List ℕ → ℤ) (cell : List ℕ → Cell) (p : List ℕ) (notes : List Note) → IsQuietAt value cell p notes → IsRightAt value cell p }
{}

/// If the parts of a level heard all notes, all its boards keep the rules of a table once gain 1 is
/// open and no board is fresh.
pub fn closed_parts_are_right()
    ensures { (value : List ℕ → ℤ) (level : ℕ) (parts : List Part) → AreWhole level parts → All IsClosed parts → AreHeard value parts
        → (p : List ℕ) → IsBoard p → sum p ≡ level → IsRightAt value (λ q. known_at parts (rank_of q)) p }
{}

/// Each distance is below the greatest u32, also while notes are under way, and so is the distance of
/// a note. For each smaller distance from 1 on there is a settled board in some part, and a level has
/// fewer boards than that.
pub fn distances_fit()
    ensures settled { (value : List ℕ → ℤ) (level : ℕ) (parts : List Part) → AreWhole level parts → level ≤ 24 → AreTold value parts
        → All DistancesFit parts }
    ensures noted { (value : List ℕ → ℤ) (level : ℕ) (parts : List Part) → AreWhole level parts → level ≤ 24 → AreTold value parts
        → All NotesFit parts }
{}

/// One part that has all boards of its level heard all notes, if it heard those of its own spread
/// boards.
pub fn one_part_hears_all()
    ensures whole { (part : Part) → IsWhole part → AreWhole part.level (part ∷ []) }
    ensures heard { (value : List ℕ → ℤ) (part : Part) (notes : List Note) → IsTallied value part notes → HearsOwn part notes → AreHeard value (part ∷ []) }
    ensures told { (value : List ℕ → ℤ) (parts : List Part) → AreHeard value parts → AreTold value parts }
{}
