//! Levels in memory, as files say them.

ghost use Rattle.std.specs.Prelude.{◌≡◌, ◌⊎◌, ◌<◌, ◌≤◌, ◌+◌, ℕ, List, Option, IfErr, IfOk, IsSomeAnd, Some, length, slice_get, slice_index_or, take};
ghost use Rattle.awari_folder.specs.Contents.{AreNames};
ghost use Rattle.awari_folder.specs.State.{Unchanged};
ghost use Rattle.awari_rank.specs.Rank.{size_of};
ghost use Rattle.awari_table.specs.Images.{no_entry, no_image};
ghost use Rattle.awari_table.specs.declared.TheConstants.{HIGHEST_LEVEL};
ghost use Rattle.awari_table.specs.declared.images.Image.{Image as AnImage};
ghost use Rattle.awari_places.specs.Faults.{IsFaultFrom, IsLimitFault, IsUnread};
ghost use Rattle.awari_places.specs.Places.{AreFormed, Says};
ghost use Rattle.awari_places.specs.Runs.{IsEntryAt};

use crate::kept::Run;
use crate::opening::limit_in_header;
use crate::runs::entry_in_run;
use awari_folder::{Folder, FolderFault};
use awari_rank::size;
use awari_table::{Entries, Entry, Image};
use std::alloc::Global;
use std::marker::Model;

/// The levels 0, 1, 2 and so on in memory, as files say them, whether that is right or not. A contract sees
/// them as the list of their images.
#[derive(Drop)]
pub struct Said {
    levels: Vec<Image>,
}

impl Model for Said {
    ghost use Rattle.std.specs.Prelude.{List};
    ghost use Rattle.awari_table.specs.declared.images.Image.{Image};
    ghost use Rattle.awari_places.specs.Places.{AreFormed};

    ghost Value = { List Image };

    ghost view = { λ s. s.levels.items };

    ghost invariant = { λ s. AreFormed s.levels.items };
}

impl Said {
    /// How many levels there are.
    pub fn levels(&self) -> u8
        ensures levels { result ≡ length self.now }
        ensures formed { AreFormed self.now }
    {
        self.levels.len() as u8
    }

    /// The limit of the level of this number. Condition: it is there.
    pub fn limit_of(&self, level: u8) -> u32
        requires { level < length self.now }
        ensures { result ≡ (slice_index_or self.now level no_image).limit }
    {
        self.levels[level as usize].limit
    }

    /// The entry of a rank of a level. Conditions: the level is there, and has that many boards. It takes no
    /// memory.
    pub fn entry_at(&self, level: u8, rank: u32) -> Entry
        requires level { level < length self.now }
        requires rank { rank < size_of level }
        ensures { IsEntryAt self.now level rank result }
    {
        self.levels[level as usize].entries.at(rank as usize)
    }

    /// The value of a rank of a level. Conditions: the level is there, and has that many boards. It takes no
    /// memory.
    #[inline(always)]
    pub fn value_at(&self, level: u8, rank: u32) -> i8
        requires level { level < length self.now }
        requires rank { rank < size_of level }
        ensures { result ≡ (slice_index_or (slice_index_or self.now level no_image).entries rank no_entry).value }
    {
        self.levels[level as usize].entries.value(rank as usize)
    }
}

/// The levels of a folder in memory, as its files say them. Condition: there are this many levels, of those that
/// [`open_levels`](crate::open_levels) found. It reads each file once, and takes memory for three bytes a board
/// whose distance is below 8192, and for names. It is refused as [`limit_in_header`] or [`entry_in_run`] is of
/// one of these levels, and as 84 if memory runs out.
pub fn read_levels<F: Folder>(
    alloc: Global,
    folder: &mut F,
    levels: u8,
) -> Result<Said, FolderFault>
    requires { levels ≤ HIGHEST_LEVEL + 1 }
    ensures said { (images : List AnImage) → Says (F.state folder.old).stands levels images → IfOk result (λ said. said ≡ images) }
    ensures count { IfOk result (λ said. length said ≡ levels) }
    ensures same { Unchanged (F.state folder.old) (F.state folder.new) }
    ensures fault { (names : ℕ → Option (List ℕ)) → AreNames (F.state folder.old).stands names → IfErr result (IsUnread levels names) }
{
    let mut read = Vec::new(alloc);
    for level in 0..levels {
        let image = match read_level(alloc, folder, level) {
            Ok(image) => image,
            Err(fault) => return Err(fault),
        };
        match read.push(image) {
            Ok(()) => {}
            Err(_) => return Err(FolderFault::Memory),
        }
    }
    Ok(Said { levels: read })
}

/// A level in memory, as its file says it.
fn read_level<F: Folder>(alloc: Global, folder: &mut F, level: u8) -> Result<Image, FolderFault>
    requires { level ≤ HIGHEST_LEVEL }
    ensures image { (levels : ℕ) (images : List AnImage) → Says (F.state folder.old).stands levels images → level < levels → IfOk result (λ image. slice_get images level ≡ Some image) }
    ensures number { IfOk result (λ image. image.level ≡ level) }
    ensures sized { IfOk result (λ image. length image.entries ≡ size_of level) }
    ensures same { Unchanged (F.state folder.old) (F.state folder.new) }
    ensures fault { (name : Option (List ℕ)) → (F.state folder.old).stands level ≡ Some name → IfErr result (λ fault. IsLimitFault level name fault ⊎ IsFaultFrom level 0 (Some name) fault) }
{
    let limit = match limit_in_header(folder, level) {
        Ok(limit) => limit,
        Err(fault) => return Err(fault),
    };
    match read_entries(alloc, folder, level) {
        Ok(entries) => Ok(Image {
            level,
            limit,
            entries,
        }),
        Err(fault) => Err(fault),
    }
}

/// The entries of a level, as its file says them.
fn read_entries<F: Folder>(alloc: Global, folder: &mut F, level: u8) -> Result<Entries, FolderFault>
    requires { level ≤ HIGHEST_LEVEL }
    ensures entries { (levels : ℕ) (images : List AnImage) → Says (F.state folder.old).stands levels images → level < levels
        → IfOk result (λ entries. IsSomeAnd (slice_get images level) (λ image. entries ≡ take (size_of level) image.entries)) }
    ensures sized { IfOk result (λ entries. length entries ≡ size_of level) }
    ensures same { Unchanged (F.state folder.old) (F.state folder.new) }
    ensures fault { IfErr result (IsFaultFrom level 0 ((F.state folder.old).stands level)) }
{
    let boards = size(level);
    let Ok(mut entries) = Entries::with_capacity(alloc, boards as usize) else {
        return Err(FolderFault::Memory);
    };
    let mut run = Run::new();
    for rank in 0..boards {
        let entry = match entry_in_run(folder, &mut run, level, rank) {
            Ok(entry) => entry,
            Err(fault) => return Err(fault),
        };
        match entries.push(alloc, entry) {
            Ok(()) => {}
            Err(_) => return Err(FolderFault::Memory),
        }
    }
    Ok(entries)
}
