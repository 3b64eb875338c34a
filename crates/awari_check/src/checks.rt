//! Whether bytes are the text of tables that are right.

ghost use Rattle.std.specs.Prelude.{◌≡◌, ◌≢◌, ◌⊎◌, ◌++◌, ◌∷◌, [], List, Err, OnOk, IfOk, IfErr};
ghost use Rattle.awari_table.specs.declared.images.Image.{Image};
ghost use Rattle.awari_table.specs.declared.faults.TableFault.{TableFault};
ghost use Rattle.awari_table.specs.Shelves.{Consistent};
ghost use Rattle.awari_check.specs.declared.checks.CheckFault.{CheckFault};
ghost use Rattle.awari_check.specs.declared.checks.CheckFault.TheVariants.{Table};
ghost use Rattle.awari_check.specs.CheckFault.{IsShelfText, IsCheckFault};
ghost use Rattle.awari_check.specs.Stops.{Stops};
ghost use Rattle.awari_theory.specs.Truth.{TellsTruth};

use awari_table::{Image, Shelf, TableFault, TableText};
use awari_verify::{VerifyFault, verify};
use std::alloc::{AllocFailed, Global};
use std::fmt;
use std::sync::Arc;
use thiserror::Error;

/// The first fault of bytes that are not the text of right tables. It is printed as the fault inside
/// it, behind the number of a level that is not right.
#[derive(Clone, Copy, Debug, PartialEq, Eq, Error)]
pub enum CheckFault {
    /// The text is at fault, or there was no room for a level.
    Table { fault: TableFault },
    /// The text of the level is right, and the level is not.
    Verify { level: u8, fault: VerifyFault },
}

impl fmt::Display for CheckFault {
    ghost use Rattle.std.specs.Prelude.{Some};
    ghost use Rattle.awari_check.specs.CheckFault.{printed_text};

    ghost output = { λ fault. Some (printed_text fault) };

    fn fmt<W: fmt::Write>(&self, f: &mut fmt::Formatter<W>) -> fmt::Result {
        match *self {
            CheckFault::Table { fault } => write!(f, "{fault}"),
            CheckFault::Verify { level, fault } => write!(f, "level {level}: {fault}"),
        }
    }
}

impl From<TableFault> for CheckFault {
    ghost from_gives = { λ fault e. e ≡ Table fault };

    fn from(fault: TableFault) -> Self {
        CheckFault::Table { fault }
    }
}

impl<T: Drop> From<AllocFailed<T>> for CheckFault {
    ghost from_gives = { λ _ e. e ≡ Table TableFault.Memory };

    fn from(_error: AllocFailed<T>) -> Self {
        CheckFault::Table {
            fault: TableFault::Memory,
        }
    }
}

/// The shelf of the levels that the bytes spell, if each of them is right. Otherwise the first fault:
/// 10 to 13 of the text, or 22 of a level that is not right. Levels are read and verified one by one.
/// So a fault in what a level says comes before one in the text of the next level.
///
/// It takes memory for the entries, and for an `Arc` for each level; want of it is 15.
pub fn check(alloc: Global, bytes: &[u8]) -> Result<Shelf, CheckFault>
    // What is found right is the text of levels that are right.
    ensures found { IfOk result (IsShelfText bytes.now) }

    // What is found right tells the truth of every board: following its plans secures the values,
    // soon, the values are what the boards are worth, and the distances are the least.
    ensures meaning { IfOk result (λ shelf. TellsTruth shelf) }

    // What is such a text is found right, unless memory runs out.
    ensures only { (images : List Image) → IsShelfText bytes.now images
        → IfOk result (λ shelf. shelf ≡ images) × IfErr result (λ fault. fault ≡ CheckFault.Table TableFault.Memory) }

    // A fault that is answered is the first.
    ensures fault { IfErr result (IsCheckFault bytes.now) }

    // The first fault is answered, unless memory runs out.
    ensures exact { (fault : CheckFault) → fault ≢ CheckFault.Table TableFault.Memory → IsCheckFault bytes.now fault
        → (result ≡ Err fault) ⊎ (result ≡ Err (CheckFault.Table TableFault.Memory)) }
{
    let mut text = TableText::new(alloc, bytes);
    let mut shelf = Shelf::empty();
    while let Some(image) = text.next()? {
        put_on(alloc, &mut shelf, image)?;
    }
    Ok(shelf)
}

/// Puts the image on top of the shelf, if it is right over it.
fn put_on(alloc: Global, shelf: &mut Shelf, image: Image) -> Result<(), CheckFault>
    ensures ok { OnOk result (Consistent shelf.old image) }
    ensures shelf { OnOk result (shelf.new ≡ shelf.old ++ image ∷ []) }
    ensures fault { IfErr result (Stops shelf.old image) }
{
    let level = image.level;
    match verify(shelf, image) {
        Ok(verified) => {
            shelf.push(Arc::new(alloc, verified)?);
            Ok(())
        }
        Err(fault) => Err(CheckFault::Verify { level, fault }),
    }
}
