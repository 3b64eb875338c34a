//! The first board of a level that breaks a rule.

ghost use Rattle.std.specs.Prelude.{◌≤◌, [], ◌∷◌, ◌++◌, ◌≡◌, sum};
ghost use Rattle.awari_board.specs.Rules.{IsBoard};
ghost use Rattle.awari_rank.specs.Rank.{rank_of, size_of};
ghost use Rattle.awari_table.specs.Certificate.{DistancesAreLeast};
ghost use Rattle.awari_table.specs.Images.{table_of};
ghost use Rattle.awari_verify.specs.VerifyFault.{IsShaped};
ghost use Rattle.awari_verify.specs.FirstFailure.{IsFirst};

use crate::rules::{Rule, Seen, first_broken_rule};
use crate::sights::see;
use awari_packed::PackedBoard;
use awari_table::{Image, Shelf};

/// The rank of a board that breaks a rule, and the first rule that it breaks.
#[derive(Clone, Copy)]
pub struct Refusal {
    pub rank: u32,
    pub rule: Rule,
}

/// The first refusal among the boards from this one on, up to, not including, rank `high`. Each board is
/// the successor of the one before, which takes far less time than to find it by its rank.
pub fn refusal_from(shelf: &Shelf, image: &Image, first: &PackedBoard, high: u32) -> Option<Refusal>
    requires shaped { IsShaped shelf.now image.now }
    requires board { IsBoard first.now }
    requires stones { sum first.now ≡ image.now.level }
    requires within { high ≤ size_of image.now.level }
    ensures { IsFirst DistancesAreLeast (table_of (shelf.now ++ image.now ∷ [])) image.now.level (rank_of first.now) high result }
{
    let mut board = *first;
    let mut seen = Seen::nothing();
    for rank in first.rank()..high {
        see(shelf, image, &board, rank, &mut seen);
        if let Some(rule) = first_broken_rule(&seen) {
            return Some(Refusal { rank, rule });
        }
        match board.successor() {
            Some(next) => board = next,
            None => return None,
        }
    }
    None
}
