//! Boards of a level in a row that threads look at together.

ghost use Rattle.std.specs.Prelude.{◌≡◌, ◌<◌, ◌+◌, ℕ, List, IfOk, IfSome, Some, length, slice_get};
ghost use Rattle.awari_rank.specs.Tuples.{tuples};
ghost use Rattle.awari_facts.specs.Sources.{images_of};
ghost use Rattle.awari_table.specs.declared.images.Image.{Image};
ghost use Rattle.awari_levels.specs.Listing.{key_if};
ghost use Rattle.awari_levels.specs.Segments.{HasKeys};

use crate::wanted::{Wanted, key_on};
use awari_facts::{Levels, Seen, entry_on, levels_in};
use awari_rank::size;
use rayon::prelude::*;
use std::alloc::{AllocError, Global};
use std::thread::Threads;

/// Boards of a level in a row, from one of them on, and what each is sorted by if it has all that is wanted
/// of it. None is looked at yet where there is no first one.
#[derive(Drop)]
pub(crate) struct Segment {
    /// The rank of the first of them.
    first: Option<u32>,
    /// What they are sorted by.
    keys: Vec<Option<i64>>,
}

/// No board, with room for this many. It takes memory for these.
pub(crate) fn new_segment(alloc: Global, boards: u32) -> Result<Segment, AllocError>
    ensures { (wanted : Wanted) (images : List Image) (level : ℕ) → IfOk result (HasKeys wanted images level) }
{
    let keys = vec![in alloc; None; boards as usize]?;
    Ok(Segment { first: None, keys })
}

/// What a board is sorted by, if there is one this many places behind a rank and it has all that is wanted of
/// it. Condition: the level is there.
fn key_behind(levels: Levels<'_>, wanted: &Wanted, first: &Seen, place: usize) -> Option<i64>
    requires { first.now.level < length (images_of levels) }
    ensures { (board : List ℕ) → slice_get (tuples 12 first.now.level) (first.now.rank + place) ≡ Some board → result ≡ key_if wanted.now (images_of levels.entry) board }
{
    // For the proof: there are at most 25 levels.
    let _levels = levels_in(levels);
    let level = first.level;
    if place >= size(level).saturating_sub(first.rank) as usize {
        return None;
    }
    let rank = first.rank + place as u32;
    let entry = entry_on(levels, level, rank);
    key_on(levels, wanted, &Seen { level, rank, entry })
}

/// Looks at a board and at those behind it, as many as there is room for. Condition: the level is there.
fn look_on<R: Threads + Sync>(
    rt: &R,
    levels: Levels<'_>,
    wanted: &Wanted,
    seen: &Seen,
    segment: &mut Segment,
)
    requires { seen.now.level < length (images_of levels) }
    ensures { HasKeys wanted.now (images_of levels.entry) seen.now.level segment.new }
{
    segment.first = Some(seen.rank);
    par_for_each_mut(
        rt,
        segment.keys.as_mut_slice(),
        |place: usize, key: &mut Option<i64>|
            requires { seen.now.level < length (images_of levels) }
            ensures { (board : List ℕ) → slice_get (tuples 12 seen.entry.now.level) (seen.entry.now.rank + place) ≡ Some board → key.new ≡ key_if wanted.entry.now (images_of levels.entry) board }
        {
            *key = key_behind(levels, wanted, seen, place);
        },
    );
}

/// What the board of a rank is sorted by, if it is among those that were looked at.
fn known_key(segment: &Segment, rank: u32) -> Option<Option<i64>>
    ensures { (wanted : Wanted) (images : List Image) (level : ℕ) (board : List ℕ) → HasKeys wanted images level segment.now → slice_get (tuples 12 level) rank ≡ Some board
        → IfSome result (λ key. key ≡ key_if wanted images board) }
{
    let first = segment.first?;
    if rank < first {
        return None;
    }
    segment.keys.get((rank - first) as usize).copied()
}

/// What the board of a rank is sorted by, if it has all that is wanted of it. Threads look at it and at those
/// behind it, if they have not yet. Condition: the level is there.
pub(crate) fn key_in_segment<R: Threads + Sync>(
    rt: &R,
    levels: Levels<'_>,
    wanted: &Wanted,
    seen: &Seen,
    segment: &mut Segment,
) -> Option<i64>
    requires { seen.now.level < length (images_of levels) }
    ensures key { (board : List ℕ) → HasKeys wanted.now (images_of levels.entry) seen.now.level segment.old → slice_get (tuples 12 seen.now.level) seen.now.rank ≡ Some board
        → result ≡ key_if wanted.now (images_of levels.entry) board }
    ensures keys { HasKeys wanted.now (images_of levels.entry) seen.now.level segment.old → HasKeys wanted.now (images_of levels.entry) seen.now.level segment.new }
{
    if let Some(key) = known_key(segment, seen.rank) {
        return key;
    }
    look_on(rt, levels, wanted, seen, segment);
    match known_key(segment, seen.rank) {
        Some(key) => key,
        // A segment has no room.
        None => key_behind(levels, wanted, seen, 0),
    }
}
