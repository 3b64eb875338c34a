//! A walk over the boards of a level, by rank, that finds those that are wanted.

ghost use Rattle.std.specs.Prelude.{◌≡◌, ◌<◌, ◌≤◌, ◌+◌, ◌%◌, ◌==◌, ◌&&◌, ℕ, [], if◌then◌else◌, List, Option, IfErr, IfOk};
ghost use Rattle.awari_folder.specs.Contents.{Stands};
ghost use Rattle.awari_facts.specs.Numbers.{IsAt};
ghost use Rattle.awari_facts.specs.Sources.{IsThere, IsUnreadFrom, SaysBy, levels_of};
ghost use Rattle.awari_folder.specs.State.{Unchanged};
ghost use Rattle.awari_table.specs.Images.{entry_of};
ghost use Rattle.awari_table.specs.declared.images.Image.{Image};
ghost use Rattle.awari_levels.specs.Listing.{farthest_of, key_if, passes};
ghost use Rattle.awari_levels.specs.Segments.{HasKeys};
ghost use Rattle.awari_levels.specs.Walks.{Steps, Walked};
ghost use Rattle.awari_levels.specs.declared.wanted.Wanted.{Wanted as AWanted};

use crate::asked::Asked;
use crate::segments::{Segment, key_in_segment, new_segment};
use crate::wanted::{Wanted, own_key};
use awari_facts::{Seen, Source, read_entry};
use awari_folder::{Folder, FolderFault};
use awari_places::Run;
use awari_queries::{Draw, is_taken};
use awari_table::Entry;
use std::alloc::Global;
use std::thread::Threads;

/// How many boards threads look at together: some milliseconds of work for each thread, so that starting it
/// costs little.
const SEGMENT: u32 = 131072;

/// What is known of a level before its boards are listed.
#[derive(Clone, Copy)]
pub(crate) struct Choice<'a> {
    /// What is asked.
    pub(crate) asked: Asked<'a>,
    /// The greatest distance of those that have what is wanted of each, if the farthest are asked for.
    pub(crate) farthest: u32,
    /// How those that are due are drawn, if a sample is wanted.
    pub(crate) sample: Option<Draw>,
}

/// A walk over the boards of a level, and what came of those before.
#[derive(Drop)]
pub(crate) struct Walk {
    /// Boards that were looked at ahead.
    pub(crate) segment: Segment,
    /// Entries that were read ahead.
    run: Run,
    /// How many boards have all that is wanted of each.
    passed: u32,
    /// How the next ones are drawn, if a sample is wanted.
    sample: Option<Draw>,
}

/// A board that is wanted.
#[derive(Clone, Copy)]
pub(crate) struct Taken {
    /// Its entry.
    pub(crate) entry: Entry,
    /// What it is sorted by.
    pub(crate) key: i64,
}

/// A walk that is at its begin. It takes memory for as many boards as threads look at together.
pub(crate) fn new_walk(
    alloc: Global,
    asked: Asked<'_>,
    sample: Option<Draw>,
) -> Result<Walk, FolderFault>
    ensures walked { (wanted : AWanted) (images : List Image) (level : ℕ) → IfOk result (Walked wanted images level 0 sample []) }
    ensures none { IfOk result (λ walk. walk.passed ≡ 0) }
    ensures fault { IfErr result (λ fault. fault ≡ FolderFault.Memory) }
{
    Ok(Walk {
        segment: segment_for(alloc, asked)?,
        run: Run::new(),
        passed: 0,
        sample,
    })
}

/// A segment for what is asked: with files, no board is looked at ahead.
pub(crate) fn segment_for(alloc: Global, asked: Asked<'_>) -> Result<Segment, FolderFault>
    ensures keys { (wanted : AWanted) (images : List Image) (level : ℕ) → IfOk result (HasKeys wanted images level) }
    ensures fault { IfErr result (λ fault. fault ≡ FolderFault.Memory) }
{
    let boards = match asked.source {
        Source::Memory(_) => SEGMENT,
        Source::Files(_) => 0,
    };
    match new_segment(alloc, boards) {
        Ok(segment) => Ok(segment),
        Err(_) => Err(FolderFault::Memory),
    }
}

/// What a board is sorted by, if it has all that is wanted of it. Of levels in memory threads look at it and at
/// those behind it. Conditions: the level is there, and has that many boards.
pub(crate) fn look<R: Threads + Sync>(
    rt: &R,
    asked: Asked<'_>,
    segment: &mut Segment,
    seen: &Seen,
) -> Option<i64>
    requires { IsThere (levels_of asked.source) seen.now.level seen.now.rank }
    ensures key { (stands : Stands) (images : List Image) → SaysBy asked.entry.source stands images
        → HasKeys asked.entry.wanted.now images seen.now.level segment.old → (board : List ℕ) → IsAt images seen.now.level seen.now.rank board seen.now.entry
        → result ≡ key_if asked.entry.wanted.now images board }
    ensures keys { (stands : Stands) (images : List Image) → SaysBy asked.entry.source stands images
        → HasKeys asked.entry.wanted.now images seen.now.level segment.old → HasKeys asked.entry.wanted.now images seen.now.level segment.new }
{
    match asked.source {
        Source::Memory(levels) => key_in_segment(rt, levels, asked.wanted, seen, segment),
        Source::Files(_) => own_key(asked.wanted, seen),
    }
}

/// Whether a board is due, of which it is known whether it passes. This many passed before it, and it is
/// counted if it does.
fn is_due(passes: bool, every: u32, passed: &mut u32) -> bool
    requires every { 0 < every }
    requires fits { passed.old < 4294967295 }
    ensures passed { passed.new ≡ passed.old + (if passes then 1 else 0) }
    ensures due { result ≡ (passes && (passed.new % every == 0)) }
{
    if !passes {
        return false;
    }
    *passed += 1;
    *passed % every == 0
}

/// Whether a board passes of which it is known whether it has all that is wanted of each, where the farthest
/// have this distance.
#[tactic(auto, unfolding(crate::specs::Listing::key_if, crate::specs::Listing::passes))]
fn passes(wanted: &Wanted, farthest: u32, key: Option<i64>, entry: Entry) -> bool
    ensures { (images : List Image) (board : List ℕ) → key ≡ key_if wanted.now images board → entry ≡ entry_of images board → result ≡ passes wanted.now farthest images board }
{
    key.is_some() && (!wanted.farthest || entry.dist == farthest)
}

/// The board of the next rank, if it is wanted, where the farthest have this distance. Conditions: the level
/// is there, and has that many boards; not each 0th board is wanted; no more boards passed than there were.
pub(crate) fn step<R: Threads + Sync, F: Folder>(
    rt: &R,
    folder: &mut F,
    choice: Choice<'_>,
    walk: &mut Walk,
    rank: u32,
) -> Result<Option<Taken>, FolderFault>
    requires there { IsThere (levels_of choice.asked.source) choice.asked.level rank }
    requires every { (0 < choice.asked.wanted.now.every) × (walk.old.passed ≤ rank) × (rank < 4294967295) }
    ensures walked { IfOk result (λ _. walk.new.passed ≤ rank + 1) }
    ensures stepped { (images : List Image) → SaysBy choice.entry.asked.source (F.state folder.old).stands images → choice.entry.farthest ≡ farthest_of choice.entry.asked.wanted.now images choice.entry.asked.level → (boards : List (List ℕ))
        → Walked choice.entry.asked.wanted.now images choice.entry.asked.level rank choice.entry.sample boards walk.old
        → IfOk result (λ taken. Steps choice.entry.asked.wanted.now images choice.entry.asked.level rank choice.entry.sample boards taken walk.new) }
    ensures fault { IfErr result (IsUnreadFrom choice.entry.asked.source choice.entry.asked.level rank ((F.state folder.old).stands choice.entry.asked.level)) }
    ensures same { Unchanged (F.state folder.old) (F.state folder.new) }
{
    let Asked {
        source,
        level,
        wanted,
        ..
    } = choice.asked;
    let entry = read_entry(source, folder, &mut walk.run, level, rank)?;
    let seen = Seen { level, rank, entry };
    let key = look(rt, choice.asked, &mut walk.segment, &seen);
    let passes = passes(wanted, choice.farthest, key, entry);
    if !is_due(passes, wanted.every, &mut walk.passed) {
        return Ok(None);
    }
    if !is_taken(&mut walk.sample) {
        return Ok(None);
    }
    match key {
        Some(key) => Ok(Some(Taken { entry, key })),
        // A board that is due has a key.
        None => Ok(None),
    }
}
