//! The levels in a folder, up to one that has to be there.

ghost use Rattle.std.specs.Prelude.{◌≡◌, ◌<◌, ◌≤◌, ◌+◌, IfErr, IfOk, min};
ghost use Rattle.awari_folder.specs.Contents.{Lacks};
ghost use Rattle.awari_answers.specs.Asked.{IsUnloaded, OnlyAsks};
ghost use Rattle.awari_facts.specs.Loads.{CountsLoaded, HasLevel, IsNoFolder, IsNoLevel};
ghost use Rattle.awari_places.specs.Opening.{AreOpenedTo, CountsOpened, IsUnopened};
ghost use Rattle.awari_table.specs.declared.TheConstants.{HIGHEST_LEVEL};

use awari_answers::{NoAnswer, load_levels};
use awari_folder::Folder;
use awari_places::{Opened, open_levels};
use awari_table::{HIGHEST_LEVEL, NotYet, Shelf};
use std::alloc::Global;
use std::thread::Threads;

/// The levels in a folder up to this one. It is refused as [`load_levels`] is, or as 59 if the level is
/// not there.
pub fn load_to<T: Threads + Sync, F: Folder>(
    rt: &T,
    alloc: Global,
    folder: &mut F,
    level: u8,
) -> Result<Shelf, NoAnswer>
    ensures levels { IfOk result (HasLevel level (F.state folder.old).stands) }
    ensures fault { IfErr result (IsNoLevel (IsUnloaded (Lacks (F.state folder.old).refusals (F.state folder.new).refusals) (min level HIGHEST_LEVEL) (F.state folder.old).stands) (CountsLoaded level (F.state folder.old).stands) level) }
    ensures asks { OnlyAsks result (F.state folder.old) (F.state folder.new) }
{
    let shelf = load_levels(rt, alloc, folder, level)?;
    let levels = shelf.levels();
    if level >= levels {
        let fault = NotYet { levels };
        return Err(NoAnswer::NotYet { fault });
    }
    Ok(shelf)
}

/// The levels in a folder up to this one, by the headers of their files. It is refused as
/// [`open_levels`] is, or as 59 if the level is not there.
pub fn open_to<F: Folder>(folder: &mut F, level: u8) -> Result<Opened, NoAnswer>
    ensures framed { IfOk result (AreOpenedTo (min level HIGHEST_LEVEL) (F.state folder.old).stands) }
    ensures only { IfOk result (λ opened. opened.levels ≡ level + 1) }
    ensures fault { IfErr result (IsNoLevel (IsUnopened (min level HIGHEST_LEVEL) (F.state folder.old).stands) (CountsOpened level (F.state folder.old).stands) level) }
    ensures few { IfOk result (λ opened. opened.levels ≤ HIGHEST_LEVEL + 1) }
    ensures asks { OnlyAsks result (F.state folder.old) (F.state folder.new) }
{
    let opened = open_levels(folder, level.min(HIGHEST_LEVEL))?;
    let levels = opened.levels;
    if level >= levels {
        let fault = NotYet { levels };
        return Err(NoAnswer::NotYet { fault });
    }
    Ok(opened)
}

/// All levels in a folder, by the headers of their files. It is refused as [`open_levels`] is.
pub fn open_all<F: Folder>(folder: &mut F) -> Result<Opened, NoAnswer>
    ensures framed { IfOk result (AreOpenedTo HIGHEST_LEVEL (F.state folder.old).stands) }
    ensures fault { IfErr result (IsNoFolder (IsUnopened HIGHEST_LEVEL (F.state folder.old).stands)) }
    ensures few { IfOk result (λ opened. opened.levels ≤ HIGHEST_LEVEL + 1) }
    ensures asks { OnlyAsks result (F.state folder.old) (F.state folder.new) }
{
    let opened = open_levels(folder, HIGHEST_LEVEL)?;
    Ok(opened)
}
