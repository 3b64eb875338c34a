//! What the definitions say of the numbers that are printed. A caller has the law by calling its
//! function, which does nothing.

ghost use Rattle.std.specs.Prelude.{◌≡◌, ◌≢◌, ◌+◌, ℕ, List, Some, slice_get};
ghost use Rattle.awari_queries.specs.declared.columns.Column.TheVariants.{Rank, Value};
ghost use Rattle.awari_queries.specs.declared.columns.Pair.{Pair as APair};
ghost use Rattle.awari_counts.specs.Counts.{boards_of_distance, boards_of_value};
ghost use Rattle.awari_counts.specs.Pairs.{boards_with};
ghost use Rattle.awari_counts.specs.Ranges.{number_at, width_of};
ghost use Rattle.awari_rank.specs.Rank.{size_of};
ghost use Rattle.awari_rank.specs.Tuples.{total};
ghost use Rattle.awari_table.specs.Images.{even_boards, lost_boards, won_boards};
ghost use Rattle.awari_table.specs.Shelves.{IsShelf};
ghost use Rattle.awari_table.specs.declared.images.Image.{Image};

/// The numbers of boards that `counts` prints of a level come to its size: those of the values, those of
/// the distances, and those of the boards that are won, even and lost.
pub fn counts_come_to_the_size()
    ensures values { (images : List Image) (image : Image) (level : ℕ) → IsShelf images → slice_get images level ≡ Some image
        → total (λ place. boards_of_value image.entries (number_at Value place)) 256 ≡ size_of level }
    ensures distances { (images : List Image) (image : Image) (level : ℕ) → IsShelf images → slice_get images level ≡ Some image
        → total (boards_of_distance image.entries) (image.limit + 1) ≡ size_of level }
    ensures shares { (images : List Image) (image : Image) (level : ℕ) → IsShelf images → slice_get images level ≡ Some image
        → won_boards image.entries + even_boards image.entries + lost_boards image.entries ≡ size_of level }
{}

/// The numbers of boards that `counts --by` prints of a right level come to its size. Each board has one pair of
/// the numbers that the columns may have.
pub fn pairs_come_to_the_size()
    ensures { (images : List Image) (image : Image) (level : ℕ) (pair : APair) → IsShelf images → slice_get images level ≡ Some image → pair.first ≢ Rank → pair.second ≢ Rank
        → total (λ i. total (λ j. boards_with images pair.first pair.second (number_at pair.first i) (number_at pair.second j) level) (width_of image.limit pair.second)) (width_of image.limit pair.first)
        ≡ size_of level }
{}
