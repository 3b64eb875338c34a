//! What follows of a shelf, and of the text of a table.

ghost use Rattle.std.specs.Prelude.{◌≡◌, ◌≢◌, ◌<◌, ◌++◌, ◌∷◌, [], ℕ, List, None, Some, codes, length, neg_ℤ, pos, sum, take};
ghost use Rattle.awari_board.specs.Rules.{IsBoard};
ghost use Rattle.awari_table.specs.declared.images.Image.{Image};
ghost use Rattle.awari_table.specs.declared.TheConstants.{HIGHEST_FALLING_LEVEL, HIGHEST_LEVEL};
ghost use Rattle.awari_table.specs.Certificate.{IsRight, plies};
ghost use Rattle.awari_table.specs.Images.{table_of};
ghost use Rattle.awari_table.specs.Shelves.{IsShelf};
ghost use Rattle.awari_table.specs.declared.faults.TableFault.{TableFault};
ghost use Rattle.awari_table.specs.Spelling.{block, entry_line, header_line, table_text, IsImage, AreImages};
ghost use Rattle.awari_table.specs.TableFault.{IsDueAt};

/// Tables are made, read and written up to the level of 24 stones.
pub fn highest_level_is_24()
    ensures { HIGHEST_LEVEL ≡ 24 }
{}

/// Tables whose distances only had to fall go up to the level of 12 stones.
pub fn highest_falling_level_is_12()
    ensures { HIGHEST_FALLING_LEVEL ≡ 12 }
{}

/// Every board of a shelf is right by the one table of all levels.
pub fn boards_are_right()
    ensures { (levels : List Image) → IsShelf levels → (p : List ℕ) → IsBoard p → sum p < length levels → IsRight (table_of levels) p }
{}

/// The lowest levels of a shelf are a shelf. So what is said of a board does not depend on the levels
/// above its own.
pub fn fronts_are_shelves()
    ensures { (levels : List Image) (n : ℕ) → IsShelf levels → IsShelf (take n levels) }
{}

/// A text has one reading: two lists of images with the same text are the same.
pub fn texts_tell_images_apart()
    ensures { (xs ys : List Image) → AreImages 0 xs → AreImages 0 ys → table_text xs ≡ table_text ys → xs ≡ ys }
{}

/// Apart from want of memory, at most one fault is due, and none if an image of the level that is due
/// stands there.
pub fn one_text_fault_is_due()
    ensures one { (level line : ℕ) (bytes : List ℕ) (f g : TableFault) → f ≢ TableFault.Memory → g ≢ TableFault.Memory
        → IsDueAt level line bytes f → IsDueAt level line bytes g → f ≡ g }
    ensures none { (level line : ℕ) (image : Image) (rest bytes : List ℕ) (fault : TableFault) → fault ≢ TableFault.Memory
        → IsImage level image → bytes ≡ block image ++ rest → IsDueAt level line bytes fault → ⊥ }
{}

/// The definitions at rows that were worked out by hand. They are the lines of a text, each with its
/// line feed (10), and the plies of a capture and of a quiet move.
pub fn worked_examples()
    ensures header { header_line 2 9 ≡ codes "level 2 limit 9" ++ 10 ∷ [] }
    ensures lost { entry_line (record { value = neg_ℤ (pos 1); plan = Some 5; dist = 1 }) ≡ codes "-1 5 1" ++ 10 ∷ [] }
    ensures ended { entry_line (record { value = pos 0; plan = None; dist = 0 }) ≡ codes "0 - 0" ++ 10 ∷ [] }
    ensures capture { plies 2 7 ≡ 1 }
    ensures quiet_move { plies 0 7 ≡ 8 }
{}
