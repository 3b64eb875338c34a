//! The laws of shelves, whose levels are a certificate.

ghost use Rattle.std.specs.Prelude.{◌≡◌, ℕ, ◌+◌, ◌<◌, List, length, sum, take};
ghost use Rattle.awari_board.specs.Rules.{IsBoard};
ghost use Rattle.awari_table.specs.declared.images.Image.{Image};
ghost use Rattle.awari_table.specs.Images.{entry_of, table_of, greatest_limit};
ghost use Rattle.awari_table.specs.Shelves.{IsShelf};
ghost use Rattle.awari_theory.specs.Least.{IsLeastDistance};
ghost use Rattle.awari_theory.specs.Older.{IsCertificate};
ghost use Rattle.awari_theory.specs.Secures.{Comes};
ghost use Rattle.awari_theory.specs.Truth.{TellsTruth};

/// The levels of a shelf are a certificate: by the one table of all levels, every board keeps the
/// rules, and no distance is above the greatest limit.
pub fn shelves_are_certificates()
    ensures { (levels : List Image) → IsShelf levels → IsCertificate (table_of levels) (length levels) (greatest_limit levels) }
{}

/// What a shelf says of each board with fewer stones than it has levels is the truth.
pub fn shelves_tell_the_truth()
    ensures { (levels : List Image) → IsShelf levels → TellsTruth levels }
{}

/// If both sides follow a shelf's plans, the play comes to an outcome, which is the value.
pub fn shelves_come_to_their_values()
    ensures { (levels : List Image) → IsShelf levels → (board : List ℕ) → IsBoard board → sum board < length levels
        → Comes (table_of levels) (greatest_limit (take (sum board + 1) levels)) board }
{}

/// Two shelves say the same value and the same distance of every board that both have.
pub fn shelves_agree()
    ensures value { (levels others : List Image) → IsShelf levels → IsShelf others → (board : List ℕ) → IsBoard board
        → sum board < length levels → sum board < length others → (entry_of levels board).value ≡ (entry_of others board).value }
    ensures dist { (levels others : List Image) → IsShelf levels → IsShelf others → (board : List ℕ) → IsBoard board
        → sum board < length levels → sum board < length others → (entry_of levels board).dist ≡ (entry_of others board).dist }
{}

/// The distance of each board is the least one, as the worths of boards and the moves alone define
/// it.
pub fn distances_are_least()
    ensures is { (levels : List Image) → IsShelf levels → (board : List ℕ) → IsBoard board → sum board < length levels
        → IsLeastDistance board (entry_of levels board).dist }
    ensures unique { (board : List ℕ) (a b : ℕ) → IsLeastDistance board a → IsLeastDistance board b → a ≡ b }
{}
