//! Whether an image may stand as the next level of a shelf.

ghost use Rattle.std.specs.Prelude.{◌≡◌, ◌<◌, ◌↔◌, [], ◌∷◌, ◌++◌, IsOk, IfOk, IfErr, IsNone, IfSome};
ghost use Rattle.awari_faults.specs.Parts.{reason_said};
ghost use Rattle.awari_rank.specs.Rank.{size_of};
ghost use Rattle.awari_table.specs.Shelves.{Consistent, IsShelf};
ghost use Rattle.awari_theory.specs.Truth.{TellsTruth};
ghost use Rattle.awari_verify.specs.Shares.{IsShareOf};
ghost use Rattle.awari_verify.specs.VerifyFault.{IsShaped, IsDue, IsFaultAfter, number_of, reason_of};
ghost use Rattle.awari_verify.specs.declared.verdicts.VerifyFault.TheVariants.{Memory, Refused};

use crate::pieces::first_refusal;
use crate::rules::Rule;
use crate::search::Refusal;
use crate::shares::{Share, completed};
use awari_faults::{Field, Fields, Reason, Value};
use awari_rank::size;
use awari_table::{HIGHEST_LEVEL, Image, Level, Shelf};
use std::alloc::AllocError;
use std::fmt;
use thiserror::Error;

/// Why an image is not the next level of a shelf. A fault is looked for only if those before it are
/// not due. It is printed as its number, its name, and each field with its name.
#[derive(Clone, Copy, Debug, PartialEq, Eq, Error)]
pub enum VerifyFault {
    /// 20: the image is not that of the shelf's next level, or that level is above the highest.
    WrongLevel,
    /// 21: the image has not just one entry for each board of its level.
    WrongSize,
    /// 22: the board of this rank is the first that breaks a rule, and this is the first rule that it
    /// breaks. If each board keeps V1 to V6 and the limit is wrong, it is rank 0 and V7.
    Refused { rank: u32, rule: Rule },
    /// 23: there was no room. Only the calls that share boards among threads take memory.
    Memory,
}

impl VerifyFault {
    /// The number of this refusal, 20 to 23.
    pub fn number(self) -> u8
        ensures { result ≡ number_of self }
    {
        self.reason().number
    }

    /// What is told of it: its number, and the rank and the rule of a board that breaks one.
    pub fn reason(self) -> Reason
        ensures { reason_said result ≡ reason_of self }
    {
        match self {
            VerifyFault::WrongLevel => Reason::alone(20),
            VerifyFault::WrongSize => Reason::alone(21),
            VerifyFault::Refused { rank, rule } => reason_of_rank(rank, rule),
            VerifyFault::Memory => Reason::alone(23),
        }
    }
}

/// What is told of a board that breaks a rule.
fn reason_of_rank(rank: u32, rule: Rule) -> Reason
    ensures { reason_said result ≡ reason_of (Refused rank rule) }
{
    let rank = Field {
        name: "rank",
        value: Value::Number(u128::from(rank)),
    };
    let rule = Field {
        name: "rule",
        value: Value::Word(rule.name()),
    };
    Reason {
        number: 22,
        fields: Fields::Two(rank, rule),
    }
}

impl fmt::Display for VerifyFault {
    ghost use Rattle.std.specs.Prelude.{Some};
    ghost use Rattle.awari_faults.specs.Refusals.{words_text};
    ghost use Rattle.awari_verify.specs.VerifyFault.{reason_of};

    ghost output = { λ fault. Some (words_text (reason_of fault)) };

    fn fmt<W: fmt::Write>(&self, f: &mut fmt::Formatter<W>) -> fmt::Result {
        write!(f, "{}", self.reason())
    }
}

impl From<AllocError> for VerifyFault {
    ghost from_gives = { λ _ fault. fault ≡ Memory };

    fn from(_error: AllocError) -> Self {
        VerifyFault::Memory
    }
}

/// The image as a level, if it is consistent over the shelf. Otherwise it is dropped, and refused as
/// the first of these that is due:
///
/// - 20 `WrongLevel`: it is not of the shelf's next level, or that is above the highest.
/// - 21 `WrongSize`: it has not just one entry for each board.
/// - 22 `Refused`: a board is not right by the table of the shelf with the image on top, or the limit
///   is not the greatest distance.
///
/// It takes the boards by tiles, and names the one of the smallest rank. It takes no memory.
pub fn verify(shelf: &Shelf, image: Image) -> Result<Level, VerifyFault>
    ensures ok { IsOk result ↔ Consistent shelf.now image }
    ensures level { IfOk result (λ level. level ≡ image) }
    ensures fault { IfErr result (IsDue shelf.now image) }

    // What the shelf with the level on it says of each of its boards is the truth: following its
    // plans secures the value, soon, the value is what the board is worth, and the distance is the
    // least.
    ensures meaning { IfOk result (λ level. TellsTruth (shelf.now ++ level ∷ [])) }
{
    match fault_of(shelf, &image) {
        Some(fault) => Err(fault),
        None => Ok(Level::new(image)),
    }
}

/// Why [`verify`] would refuse the image, none if it would not. The image stays with the caller. It
/// takes no memory.
pub fn fault_of(shelf: &Shelf, image: &Image) -> Option<VerifyFault>
    // An image with no fault tells the truth, on the shelf: following the plans secures the value,
    // soon, the value is what the board is worth, and the distance is the least.
    ensures meaning { IsNone result → TellsTruth (shelf.now ++ image.now ∷ []) }
    ensures none { IsNone result ↔ Consistent shelf.now image.now }
    ensures fault { IfSome result (IsDue shelf.now image.now) }
{
    match boards_of(shelf, image) {
        Ok(boards) => fault_after(image, first_refusal(shelf, image, boards)),
        Err(fault) => Some(fault),
    }
}

/// What [`fault_of`] answers, if this was looked at of the image before. It looks at the other boards,
/// whoever looked at these. Condition: the share is of this image over this shelf. It takes no memory.
pub fn fault_by(shelf: &Shelf, image: &Image, share: &Share) -> Option<VerifyFault>
    requires share { IsShareOf shelf.now image.now share.now }
    // An image with no fault tells the truth, on the shelf: following the plans secures the value,
    // soon, the value is what the board is worth, and the distance is the least.
    ensures meaning { IsNone result → TellsTruth (shelf.now ++ image.now ∷ []) }
    ensures none { IsNone result ↔ Consistent shelf.now image.now }
    ensures fault { IfSome result (IsDue shelf.now image.now) }
{
    match boards_of(shelf, image) {
        Ok(_) => fault_after(image, completed(shelf, image, share).refusal()),
        Err(fault) => Some(fault),
    }
}

/// The fault for this first refusal or, if there is none, for a limit that is not the greatest
/// distance.
pub fn fault_after(image: &Image, first: Option<Refusal>) -> Option<VerifyFault>
    ensures { IsFaultAfter image.now first result }
{
    match first {
        Some(Refusal { rank, rule }) => Some(VerifyFault::Refused { rank, rule }),
        None if image.limit == image.entries.greatest_dist() => None,
        None => Some(VerifyFault::Refused {
            rank: 0,
            rule: Rule::V7,
        }),
    }
}

/// The number of boards, if the image is of the shelf's next level and has an entry for each.
pub fn boards_of(shelf: &Shelf, image: &Image) -> Result<u32, VerifyFault>
    ensures ok { IfOk result (λ n. IsShaped shelf.now image.now × (n ≡ size_of image.now.level)) }
    ensures err { IfErr result (IsDue shelf.now image.now) }
    ensures early { IfErr result (λ fault. number_of fault < 22) }
    ensures other { IfErr result (λ _. IsShaped shelf.now image.now → ⊥) }
    ensures shelf { IsShelf shelf.now }
{
    if image.level != shelf.levels() || image.level > HIGHEST_LEVEL {
        return Err(VerifyFault::WrongLevel);
    }
    let boards = size(image.level);
    if image.entries.len() != boards as usize {
        return Err(VerifyFault::WrongSize);
    }
    Ok(boards)
}
