//! What follows of the files that `build` writes.

ghost use Rattle.std.specs.Prelude.{◌≡◌, ◌<◌, ℕ, List, Option, length};
ghost use Rattle.awari_file.specs.FileText.{file_text};
ghost use Rattle.awari_folder.specs.Contents.{Holds};
ghost use Rattle.awari_play.specs.Least.{HasLowestPlans, IsPlannedLowest};
ghost use Rattle.awari_table.specs.Shelves.{Consistent, IsShelf};
ghost use Rattle.awari_table.specs.declared.images.Image.{Image};

/// The level that a builder makes over a shelf has one file over a digest, whatever the number of
/// owners and the order of their steps. So two folders of as many levels with the lowest plans, as
/// `build` makes them, have the same files, byte for byte.
pub fn one_file_for_every_schedule()
    ensures file { (version : ℕ) (shelf : List Image) (image other : Image) (below : List ℕ) → IsShelf shelf → Consistent shelf image → Consistent shelf other
        → IsPlannedLowest shelf image → IsPlannedLowest shelf other → file_text version image below ≡ file_text version other below }
    ensures folder { (names others : ℕ → Option (List ℕ)) (levels images : List Image) (digest end : List ℕ) → IsShelf levels → IsShelf images
        → Holds names levels digest → Holds others images end → length levels ≡ length images → HasLowestPlans levels → HasLowestPlans images
        → (digest ≡ end) × ((n : ℕ) → n < length levels → names n ≡ others n) }
{}
