//! What follows of the files in a folder.

ghost use Rattle.std.specs.Prelude.{◌≡◌, ℕ, List, Option};
ghost use Rattle.awari_table.specs.declared.images.Image.{Image};
ghost use Rattle.awari_folder.specs.Contents.{HoldLevels, IsStored};

/// Files hold one shelf: two shelves of as many levels that they hold are the same, and end in the
/// same digest.
pub fn folders_hold_one_shelf()
    ensures { (names : ℕ → Option (List ℕ)) (levels : ℕ) (shelf other : List Image) (digest end : List ℕ)
        → HoldLevels names levels shelf digest → HoldLevels names levels other end → (other ≡ shelf) × (end ≡ digest) }
{}

/// What was saved is loaded again: a folder stores one shelf, and a `load` that is not refused
/// answers it.
pub fn stored_shelves_are_loaded()
    ensures { (names : ℕ → Option (List ℕ)) (shelf other : List Image) (digest end : List ℕ)
        → IsStored names shelf digest → IsStored names other end → (other ≡ shelf) × (end ≡ digest) }
{}
