//! The levels in a folder, as far as a command needs them.

ghost use Rattle.std.specs.Prelude.{IfErr, IfOk, min};
ghost use Rattle.awari_answers.specs.Asked.{AreLevelsTo, IsUnloaded};
ghost use Rattle.awari_folder.specs.Contents.{Lacks};
ghost use Rattle.awari_folder.specs.State.{OnlyReads};
ghost use Rattle.awari_table.specs.declared.TheConstants.{HIGHEST_LEVEL};

use awari_folder::{Folder, FolderFault, Together, load};
use awari_table::{HIGHEST_LEVEL, Shelf};
use std::alloc::Global;
use std::thread::Threads;

/// The levels in a folder of at most `most` stones, each verified. Files of higher levels are not read.
/// It is refused as `load` is, and takes the memory that it takes.
pub fn load_levels<T: Threads + Sync, F: Folder>(
    rt: &T,
    alloc: Global,
    folder: &mut F,
    most: u8,
) -> Result<Shelf, FolderFault>
    ensures levels { IfOk result (AreLevelsTo (min most HIGHEST_LEVEL) (F.state folder.old).stands) }
    ensures fault { IfErr result (IsUnloaded (Lacks (F.state folder.old).refusals (F.state folder.new).refusals) (min most HIGHEST_LEVEL) (F.state folder.old).stands) }
    ensures reads { OnlyReads result (F.state folder.old) (F.state folder.new) }
{
    let most = most.min(HIGHEST_LEVEL);
    let shelf = load(&Together(rt), alloc, folder, most)?.shelf;
    // For the proof: the levels are a shelf.
    let _levels = shelf.levels();
    Ok(shelf)
}
