//! What follows of levels whose plans are the lowest.

ghost use Rattle.std.specs.Prelude.{◌≡◌, ◌++◌, ◌∷◌, [], List, length};
ghost use Rattle.awari_play.specs.Least.{HasLowestPlans, IsPlannedLowest};
ghost use Rattle.awari_table.specs.Shelves.{Consistent, IsShelf};
ghost use Rattle.awari_table.specs.declared.images.Image.{Image};

/// Over a shelf there is at most one consistent image whose plans are the lowest, and at most one
/// shelf with this many levels whose plans are. So all entries are the same, whoever builds them and in
/// whatever order.
pub fn lowest_levels_are_one()
    ensures image { (shelf : List Image) (image other : Image) → IsShelf shelf → Consistent shelf image → Consistent shelf other
        → IsPlannedLowest shelf image → IsPlannedLowest shelf other → image ≡ other }
    ensures shelf { (levels others : List Image) → IsShelf levels → IsShelf others → length levels ≡ length others
        → HasLowestPlans levels → HasLowestPlans others → levels ≡ others }
{}

/// If the plans of a shelf are the lowest, they still are with one more level on top whose plans are
/// the lowest.
pub fn lowest_plans_stay()
    ensures { (shelf : List Image) (image : Image) → HasLowestPlans shelf → IsPlannedLowest shelf image → HasLowestPlans (shelf ++ image ∷ []) }
{}
