//! Where the entries of a level are read: levels in memory, or files where they lie.

ghost use Rattle.std.specs.Prelude.{◌≡◌, ◌<◌, ◌≤◌, ℕ, List, Option, Some, IfErr, IfOk, length, slice_index_or, sum};
ghost use Rattle.awari_folder.specs.State.{Unchanged};
ghost use Rattle.awari_places.specs.Runs.{IsEntryAt, IsRunOf};
ghost use Rattle.awari_rank.specs.Rank.{size_of};
ghost use Rattle.awari_table.specs.Images.{entry_of, no_entry, no_image};
ghost use Rattle.awari_table.specs.declared.TheConstants.{HIGHEST_LEVEL};
ghost use Rattle.awari_table.specs.declared.images.Image.{Image};
ghost use Rattle.awari_places.specs.Places.{AreFormed, IsLevelOf};
ghost use Rattle.awari_facts.specs.Sources.{IsLimitUnread, IsUnreadAt, IsUnreadFrom, SaysBy, images_of, levels_of, limit_of};

use awari_folder::{Folder, FolderFault};
use awari_packed::PackedBoard;
use awari_places::{Run, Said, entry, entry_in_run, limit_in_header};
use awari_table::{Entry, Shelf};

/// Levels in memory.
#[derive(Clone, Copy)]
pub enum Levels<'s> {
    /// Right levels.
    Right(&'s Shelf),
    /// What files say, which nobody verified.
    Said(&'s Said),
}

/// How many levels there are.
pub fn levels_in(levels: Levels<'_>) -> u8
    ensures levels { result ≡ length (images_of levels.entry) }
    ensures formed { AreFormed (images_of levels.entry) }
{
    match levels {
        Levels::Right(shelf) => shelf.levels(),
        Levels::Said(said) => said.levels(),
    }
}

/// The entry of a rank of a level. Conditions: the level is there, and has that many boards.
pub fn entry_on(levels: Levels<'_>, level: u8, rank: u32) -> Entry
    requires level { level < length (images_of levels) }
    requires rank { rank < size_of level }
    ensures { IsEntryAt (images_of levels.entry) level rank result }
{
    match levels {
        Levels::Right(shelf) => shelf_entry(shelf, level, rank),
        Levels::Said(said) => said.entry_at(level, rank),
    }
}

/// The same of a verified level.
fn shelf_entry(shelf: &Shelf, level: u8, rank: u32) -> Entry
    requires level { level < length shelf.now }
    requires rank { rank < size_of level }
    ensures { IsEntryAt shelf.now level rank result }
{
    // For the proof: the levels are a shelf.
    let _levels = shelf.levels();
    shelf.level(level).entry_at(rank)
}

/// The value of a rank of a level. Conditions: the level is there, and has that many boards.
#[inline(always)]
pub(crate) fn value_at(levels: Levels<'_>, level: u8, rank: u32) -> i8
    requires level { level < length (images_of levels) }
    requires rank { rank < size_of level }
    ensures { result ≡ (slice_index_or (slice_index_or (images_of levels.entry) level no_image).entries rank no_entry).value }
{
    match levels {
        Levels::Right(shelf) => shelf_value(shelf, level, rank),
        Levels::Said(said) => said.value_at(level, rank),
    }
}

/// The same of a verified level.
#[inline(always)]
fn shelf_value(shelf: &Shelf, level: u8, rank: u32) -> i8
    requires level { level < length shelf.now }
    requires rank { rank < size_of level }
    ensures { result ≡ (slice_index_or (slice_index_or shelf.now level no_image).entries rank no_entry).value }
{
    // For the proof: the levels are a shelf.
    let _levels = shelf.levels();
    shelf.level(level).value_at(rank)
}

/// The value of a board. Condition: its level is there.
pub fn value_on(levels: Levels<'_>, board: &PackedBoard) -> i8
    requires { sum board.now < length (images_of levels) }
    ensures { result ≡ (entry_of (images_of levels.entry) board.now).value }
{
    value_at(levels, board.stones(), board.rank())
}

/// The limit of a level. Condition: the level is there.
pub fn limit_on(levels: Levels<'_>, level: u8) -> u32
    requires { level < length (images_of levels) }
    ensures { result ≡ limit_of (images_of levels.entry) level }
{
    match levels {
        Levels::Right(shelf) => shelf.level(level).limit(),
        Levels::Said(said) => said.limit_of(level),
    }
}

/// Where entries are read.
#[derive(Clone, Copy)]
pub enum Source<'s> {
    /// Levels in memory.
    Memory(Levels<'s>),
    /// Files, of which this many were opened. None of them is verified.
    Files(u8),
}

/// How many levels there are.
pub fn count_levels(source: Source<'_>) -> u8
    ensures { result ≡ levels_of source.entry }
{
    match source {
        Source::Memory(levels) => levels_in(levels),
        Source::Files(levels) => levels,
    }
}

/// The entry of a rank of a level. Conditions: the level is there, and has that many boards; the run is
/// new, or was filled for this level. It is refused as [`entry_in_run`] is; levels in memory refuse none.
pub fn read_entry<F: Folder>(
    source: Source<'_>,
    folder: &mut F,
    run: &mut Run,
    level: u8,
    rank: u32,
) -> Result<Entry, FolderFault>
    requires level { level < levels_of source }
    requires low { level ≤ HIGHEST_LEVEL }
    requires rank { rank < size_of level }
    ensures entry { (images : List Image) → SaysBy source.entry (F.state folder.old).stands images → IsRunOf images level run.old → IfOk result (IsEntryAt images level rank) }
    ensures run { (images : List Image) → SaysBy source.entry (F.state folder.old).stands images → IsRunOf images level run.old → IsRunOf images level run.new }
    ensures same { Unchanged (F.state folder.old) (F.state folder.new) }
    ensures fault { IfErr result (IsUnreadFrom source.entry level rank ((F.state folder.old).stands level)) }
{
    match source {
        Source::Memory(levels) => Ok(entry_on(levels, level, rank)),
        Source::Files(_) => entry_in_run(folder, run, level, rank),
    }
}

/// The entry of a board. Condition: its level is there.
fn board_entry(levels: Levels<'_>, board: &PackedBoard) -> Entry
    requires { sum board.now < length (images_of levels) }
    ensures { result ≡ entry_of (images_of levels.entry) board.now }
{
    entry_on(levels, board.stones(), board.rank())
}

/// The entry of a board. Condition: its level is there. Of a file, six bytes are read for it.
pub fn entry_at<F: Folder>(
    source: Source<'_>,
    folder: &mut F,
    board: &PackedBoard,
) -> Result<Entry, FolderFault>
    requires { IsLevelOf (levels_of source) (sum board.now) }
    ensures entry { (images : List Image) → SaysBy source.entry (F.state folder.old).stands images → IfOk result (λ e. e ≡ entry_of images board.now) }
    ensures same { Unchanged (F.state folder.old) (F.state folder.new) }
    ensures fault { IfErr result (IsUnreadAt source.entry (F.state folder.old).stands board.now) }
{
    match source {
        Source::Memory(levels) => Ok(board_entry(levels, board)),
        Source::Files(levels) => entry(folder, levels, &board.board()),
    }
}

/// The limit of a level. Condition: the level is there. It is refused as [`limit_in_header`] is; levels in memory
/// refuse none.
pub fn read_limit<F: Folder>(
    source: Source<'_>,
    folder: &mut F,
    level: u8,
) -> Result<u32, FolderFault>
    requires level { level < levels_of source }
    requires low { level ≤ HIGHEST_LEVEL }
    ensures limit { (images : List Image) → SaysBy source.entry (F.state folder.old).stands images → IfOk result (λ limit. limit ≡ limit_of images level) }
    ensures same { Unchanged (F.state folder.old) (F.state folder.new) }
    ensures fault { IfErr result (IsLimitUnread source.entry level ((F.state folder.old).stands level)) }
{
    match source {
        Source::Memory(levels) => Ok(limit_on(levels, level)),
        Source::Files(_) => limit_in_header(folder, level),
    }
}
