//! The older rules, by which distances fall along the plans and need not be the least.

ghost use Rattle.std.specs.Prelude.{◌≡◌, ◌≢◌, ◌↔◌, ◌≤◌, ◌<ℤ◌, ◌++◌, ◌∷◌, [], pos, List, All, IsOk, IfErr, IfSome, IsNone, IsTrue};
ghost use Rattle.awari_rank.specs.Rank.{size_of};
ghost use Rattle.awari_table.specs.declared.images.Image.{Image};
ghost use Rattle.awari_table.specs.Images.{table_of};
ghost use Rattle.awari_theory.specs.Older.{ConsistentOld, DistancesFall};
ghost use Rattle.awari_verify.specs.declared.verdicts.VerifyFault.{VerifyFault};
ghost use Rattle.awari_verify.specs.FirstFailure.{IsFirst};
ghost use Rattle.awari_verify.specs.Older.{IsDueOld, KeepsFalling};
ghost use Rattle.awari_verify.specs.Sights.{IsNearer};
ghost use Rattle.awari_verify.specs.VerifyFault.{IsShaped};

use crate::pieces::following;
use crate::rules::{Rule, Seen, first_broken, is_nearer, keeps_even, keeps_winning};
use crate::search::Refusal;
use crate::sights::see;
use crate::verdicts::{VerifyFault, boards_of, fault_after};
use awari_packed::PackedBoard;
use awari_table::{HIGHEST_FALLING_LEVEL, Image, Shelf};

/// Ok if the image is consistent over the shelf by the older rules, which are for levels up to
/// `HIGHEST_FALLING_LEVEL`. They differ in V6. A board of value 0 has distance 0, and any other that
/// is not ended at least 1. The plan of a won board captures or goes to a smaller distance. Each
/// quiet move of a lost board goes to a smaller distance. An image is refused as by
/// [`verify`](crate::verify), but by these rules. It takes no memory.
pub fn verify_old(shelf: &Shelf, image: &Image) -> Result<(), VerifyFault>
    ensures ok { IsOk result ↔ ConsistentOld shelf.now image.now }
    ensures fault { IfErr result (IsDueOld shelf.now image.now) }
{
    if image.level > HIGHEST_FALLING_LEVEL {
        return Err(VerifyFault::WrongLevel);
    }
    let boards = boards_of(shelf, image)?;
    match fault_after(image, old_refusal(shelf, image, boards)) {
        Some(fault) => Err(fault),
        None => Ok(()),
    }
}

/// At most one fault is due by the older rules, and none if the image is consistent by them.
pub fn one_old_fault_is_due()
    ensures one { (shelf : List Image) (image : Image) (fault other : VerifyFault) → IsDueOld shelf image fault → IsDueOld shelf image other → fault ≡ other }
    ensures none { (shelf : List Image) (image : Image) (fault : VerifyFault) → IsDueOld shelf image fault → ConsistentOld shelf image → ⊥ }
{}

/// The first refusal of a level, whose boards are looked at in order of rank.
fn old_refusal(shelf: &Shelf, image: &Image, boards: u32) -> Option<Refusal>
    requires shaped { IsShaped shelf.now image.now }
    requires sized { boards ≡ size_of image.now.level }
    ensures { IsFirst DistancesFall (table_of (shelf.now ++ image.now ∷ [])) image.now.level 0 (size_of image.now.level) result }
{
    let mut board = PackedBoard::unrank(image.level, 0);
    let mut seen = Seen::nothing();
    for rank in 0..boards {
        see(shelf, image, &board, rank, &mut seen);
        if let Some(rule) = first_broken(&seen, keeps_falling(&seen)) {
            return Some(Refusal { rank, rule });
        }
        board = following(&board);
    }
    None
}

fn keeps_falling(seen: &Seen) -> bool
    ensures { IsTrue result ↔ KeepsFalling seen.now }
{
    keeps_even(seen) && keeps_uneven(seen) && keeps_winning(seen) && keeps_losing(seen)
}

fn keeps_uneven(seen: &Seen) -> bool
    ensures { IsTrue result ↔ (IsNone seen.now.end → seen.now.entry.value ≢ pos 0 → 1 ≤ seen.now.entry.dist) }
{
    seen.end.is_some() || seen.entry.value == 0 || seen.entry.dist > 0
}

fn keeps_losing(seen: &Seen) -> bool
    ensures { IsTrue result ↔ (seen.now.entry.value <ℤ pos 0 → All (λ o. IfSome o (λ m. IsNearer m seen.now.entry.dist)) seen.now.moves) }
{
    if seen.entry.value >= 0 {
        return true;
    }
    seen.moves.iter().all(|reached| match reached {
        Some(reached) => is_nearer(reached, seen.entry.dist),
        None => true,
    })
}
