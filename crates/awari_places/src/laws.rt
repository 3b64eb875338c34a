//! What the files say where they are right.

ghost use Rattle.std.specs.Prelude.{◌≡◌, ℕ, List, Option, length};
ghost use Rattle.awari_folder.specs.Contents.{HoldLevels, IsStoredTo};
ghost use Rattle.awari_table.specs.declared.images.Image.{Image};
ghost use Rattle.awari_places.specs.Opening.{AreFramed};
ghost use Rattle.awari_places.specs.Places.{images_in};
ghost use Rattle.awari_places.specs.declared.opening.Opened.{Opened};

/// What right files say is the shelf that they hold. So what is looked up in files that `verify` says
/// yes to is the truth.
pub fn right_files_say_their_shelf()
    ensures { (names : ℕ → Option (List ℕ)) (levels : ℕ) (shelf : List Image) (digest : List ℕ)
        → HoldLevels names levels shelf digest → images_in names levels ≡ shelf }
{}

/// If right levels are stored, they are the ones that are opened.
pub fn right_files_are_opened()
    ensures { (most : ℕ) (names : ℕ → Option (List ℕ)) (shelf : List Image) (digest : List ℕ) (opened : Opened)
        → IsStoredTo most names shelf digest → AreFramed most names opened → opened.levels ≡ length shelf }
{}
