//! The image of a level, of what its parts have settled.

ghost use Rattle.std.specs.Prelude.{◌≤◌, [], All, IfOk, length};
ghost use Rattle.awari_table.specs.Images.{table_of};
ghost use Rattle.awari_table.specs.Shelves.{Consistent};
ghost use Rattle.awari_heard.specs.Level.{AreHeard, AreWhole};
ghost use Rattle.awari_block.specs.Part.{Part, IsClosed};
ghost use Rattle.awari_plan.specs.Finished.{IsFinished};
ghost use Rattle.awari_heard.specs.Filling.{PutsBlocks};
ghost use Rattle.awari_table.specs.declared.TheConstants.{HIGHEST_LEVEL};

use awari_heard::push_block;
use awari_owner::Part;
use awari_play::planned_image;
use awari_rank::size;
use awari_table::{Entries, Entry, Image, Shelf};
use std::alloc::{AllocError, Global};

/// The image of the shelf's next level, once the parts have closed all gains. A settled board has its
/// value and distance, any other 0 and 0. The plan of a board is the lowest pit whose move gains its
/// value and, if that is positive, captures or leads to a smaller distance. If no move does, there is
/// no plan. The limit is the greatest distance. All this holds whatever notes the parts heard. If they
/// heard all notes of settled boards, and no others, the image is consistent over the shelf.
///
/// Conditions: the shelf has at most `HIGHEST_LEVEL` levels, and the parts are all blocks of its next
/// level in order, with no fresh board and gain 1 open. It takes memory for eight bytes a board, and is
/// refused only if that runs out.
pub fn finish(alloc: Global, shelf: &Shelf, parts: &[Part]) -> Result<Image, AllocError>
    requires low { length shelf.now ≤ HIGHEST_LEVEL }
    requires whole { AreWhole (length shelf.now) parts.now }
    requires closed { All IsClosed parts.now }
    ensures finished { IfOk result (IsFinished shelf.now parts.now) }
    ensures consistent { AreHeard (table_of shelf.now).value parts.now → IfOk result (Consistent shelf.now) }
{
    let entries = kept_entries(alloc, shelf.levels(), parts)?;
    let image = planned_image(shelf, entries);
    Ok(image)
}

/// The entries of the level, each whole, with the plans that the cells kept.
fn kept_entries(alloc: Global, level: u8, parts: &[Part]) -> Result<Vec<Entry>, AllocError>
    requires low { level ≤ 24 }
    ensures { IfOk result (λ entries. PutsBlocks parts.now [] entries.items) }
{
    let mut entries = Entries::from(Vec::with_capacity(alloc, size(level) as usize)?);
    for part in parts {
        push_block(alloc, &mut entries, part.cells())?;
    }
    let entries = entries.into_vec(alloc)?;
    Ok(entries)
}
