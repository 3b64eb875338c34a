//! What follows of a level that was finished.

ghost use Rattle.std.specs.Prelude.{◌≤◌, List, All, length};
ghost use Rattle.awari_heard.specs.Level.{AreHeard, AreWhole};
ghost use Rattle.awari_block.specs.Part.{Part, IsClosed};
ghost use Rattle.awari_heard.specs.Kept.{IsKept};
ghost use Rattle.awari_play.specs.Least.{IsPlannedLowest};
ghost use Rattle.awari_plan.specs.Finished.{IsFinished};
ghost use Rattle.awari_table.specs.Images.{table_of};
ghost use Rattle.awari_table.specs.Shelves.{Consistent, IsShelf};
ghost use Rattle.awari_table.specs.declared.TheConstants.{HIGHEST_LEVEL};
ghost use Rattle.awari_table.specs.declared.images.Image.{Image};

/// The image made of the parts of the shelf's next level is consistent over the shelf. Conditions:
/// gain 1 is open in each part, no board is fresh, and the parts heard all notes of the settled
/// boards and no others.
pub fn finished_levels_are_consistent()
    ensures { (shelf : List Image) (parts : List Part) (image : Image) → IsShelf shelf → length shelf ≤ HIGHEST_LEVEL
        → AreWhole (length shelf) parts → All IsClosed parts → AreHeard (table_of shelf).value parts
        → IsFinished shelf parts image → Consistent shelf image }
{}

/// The image that has what the parts' cells kept is consistent over the shelf, and its plans are the
/// lowest, though no move was looked at. Conditions: those of `finished_levels_are_consistent`.
pub fn kept_levels_are_right()
    ensures consistent { (shelf : List Image) (parts : List Part) (image : Image) → IsShelf shelf → length shelf ≤ HIGHEST_LEVEL
        → AreWhole (length shelf) parts → All IsClosed parts → AreHeard (table_of shelf).value parts
        → IsKept shelf parts image → Consistent shelf image }
    ensures planned { (shelf : List Image) (parts : List Part) (image : Image)
        → AreWhole (length shelf) parts → All IsClosed parts → AreHeard (table_of shelf).value parts
        → IsKept shelf parts image → IsPlannedLowest shelf image }
{}
