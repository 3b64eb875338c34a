//! How far a level is, and what it counts, in numbers.

ghost use Rattle.std.specs.Prelude.{◌≡◌, ◌<◌, length};
ghost use Rattle.awari_exports.specs.Held.{TellsDraft};
ghost use Rattle.awari_exports.specs.Told.{TellsCounts};

use awari_segments::SlicedLevel;
use awari_table::Shelf;

/// How far the next level is.
#[repr(C)]
#[derive(Clone, Copy, Debug, Default, PartialEq, Eq)]
pub struct PlainDraft {
    /// How many boards are settled and were spread.
    pub boards: u64,
    /// The gain that is open, one more than the level if none was opened yet.
    pub gain: u8,
    /// Whether all gains are closed.
    pub settled: bool,
}

const _: () = prove!(size_of::<PlainDraft>() == 16);

/// What the boards of a level are for the mover.
#[repr(C)]
#[derive(Clone, Copy, Debug, Default, PartialEq, Eq)]
pub struct PlainCounts {
    /// How many are won.
    pub won: u32,
    /// How many are even.
    pub even: u32,
    /// How many are lost.
    pub lost: u32,
    /// The greatest distance, in plies.
    pub limit: u32,
}

const _: () = prove!(size_of::<PlainCounts>() == 16);

/// What the level of this number counts. Condition: it is on the shelf.
pub(crate) fn told_counts(shelf: &Shelf, level: u8) -> PlainCounts
    requires { level < length shelf.now }
    ensures { TellsCounts shelf.now level result }
{
    let level = shelf.level(level);
    let counts = level.counts();
    PlainCounts {
        won: counts.won,
        even: counts.even,
        lost: counts.lost,
        limit: level.limit(),
    }
}

/// How far the level is.
pub(crate) fn told_draft(draft: &SlicedLevel) -> PlainDraft
    ensures { TellsDraft draft.now result }
{
    PlainDraft {
        boards: draft.boards_spread() as u64,
        gain: draft.gain(),
        settled: draft.is_settled(),
    }
}
