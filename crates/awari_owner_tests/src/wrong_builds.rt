//! Levels 5 and 6 as wrong builders make them, over right levels below, put to both verifiers. The
//! plain builder here is wrong by one slip at most. What it makes with none is right.

use crate::expect::expect_equal;
use crate::shelves::levels_below;
use awari_board::{Board, MoveFault, Moved, SIDE};
use awari_rank::{rank, size, unrank};
use awari_table::{Entries, Entry, HIGHEST_LEVEL, Image, Shelf};
use awari_unmove::Unmoves;
use awari_verify::{Rule, VerifyFault, verify, verify_parallel};
use std::alloc::{AllocError, Global};
use std::process::Abort;
use std::test::Fail;
use std::thread::Threads;

/// What the builder does wrong.
#[derive(Clone, Copy, Debug, PartialEq)]
enum Slip {
    None,
    /// Boards are spread in order of rank, without regard to distance.
    DistanceIgnored,
    /// A lost board is one ply farther than the won one that was heard of last, and not the farthest.
    LastHeard,
    /// A board whose best capture loses is lost, though a quiet move may not lose.
    QuietForgotten,
    /// No board is told of another to which a grand slam leads, which takes nothing.
    GrandSlamForgotten,
    /// A pit that may not be played, since it does not feed, counts as a quiet move too.
    UnfeedingCounted,
    /// What is heard of a lost board replaces what a settled board is known to be.
    SettledReplaced,
}

/// What is known of a board.
#[derive(Clone, Copy)]
struct Known {
    /// Value and distance, once they are.
    settled: Option<(i8, u32)>,
    spread: bool,
    /// What the best capture gains.
    best: Option<i8>,
    /// Quiet moves that lead to no board which is known to be won.
    left: u8,
    /// How far the won boards are, by which a lost one is.
    far: u32,
}

/// What the best capture or this one gains.
fn better(shelf: &Shelf, best: Option<i8>, moved: &Moved) -> Option<i8> {
    let value = shelf.entry(&moved.board).map_or(0, |entry| entry.value);
    let gain = (moved.captured.min(48) as i8).saturating_sub(value);
    Some(best.map_or(gain, |best| best.max(gain)))
}

/// What its captures and its end tell of a board.
fn scanned(shelf: &Shelf, board: &Board, slip: Slip) -> Known {
    let mut known = Known {
        settled: board.end().map(|gain| (gain, 0)),
        spread: false,
        best: None,
        left: 0,
        far: 0,
    };
    for pit in 0..6u8 {
        match board.play(pit) {
            Ok(moved) if moved.captured > 0 => known.best = better(shelf, known.best, &moved),
            Ok(_) => known.left = known.left.saturating_add(1),
            Err(MoveFault::MustFeed) if slip == Slip::UnfeedingCounted => {
                known.left = known.left.saturating_add(1)
            }
            Err(_) => {}
        }
    }
    known
}

/// Whether the board is lost by this gain.
fn is_lost(known: &Known, gain: i8, slip: Slip) -> bool {
    let loss = gain.saturating_neg();
    match known.best {
        None => known.left == 0,
        Some(best) => best <= loss && (known.left == 0 || slip == Slip::QuietForgotten),
    }
}

/// Settles the board where it is won by a capture, or lost.
fn judge(known: &mut Known, gain: i8, slip: Slip) {
    if known.settled.is_some() {
        return;
    }
    if known.best.map_or(false, |best| best >= gain) {
        known.settled = Some((gain, 1));
    } else if is_lost(known, gain, slip) {
        known.settled = Some((gain.saturating_neg(), known.far.saturating_add(1)));
    }
}

/// The board hears that a quiet move leads to one that was settled so.
fn hear(known: &mut Known, (value, dist): (i8, u32), gain: i8, slip: Slip) {
    if known.settled.is_some() && !(slip == Slip::SettledReplaced && value < 0) {
        return;
    }
    if value < 0 {
        known.settled = Some((gain, dist.saturating_add(1)));
        return;
    }
    known.left = known.left.saturating_sub(1);
    known.far = if slip == Slip::LastHeard {
        dist
    } else {
        known.far.max(dist)
    };
    judge(known, gain, slip);
}

/// The place of a board in the list of its level.
fn place_of(board: &Board) -> usize {
    if board.stones() > HIGHEST_LEVEL {
        return usize::MAX;
    }
    rank(board) as usize
}

/// Whether the quiet move by this pit, which led to the board, is a grand slam: its last stone makes
/// two or three in the other row, and takes nothing all the same. In a level that is built here no pit
/// sows more than 6 stones.
fn was_grand_slam(before: &Board, pit: u8, board: &Board) -> bool {
    if pit >= SIDE {
        return false;
    }
    match pit.saturating_add(before.pit(pit)) {
        last @ 6..12 => matches!(board.pit(last - 6), 2 | 3),
        _ => false,
    }
}

/// Tells all boards with a quiet move to this one.
fn spread(all: &mut [Known], board: &Board, settled: (i8, u32), gain: i8, slip: Slip) {
    for (before, pit) in Unmoves::of(board) {
        if slip == Slip::GrandSlamForgotten && was_grand_slam(&before, pit, board) {
            continue;
        }
        if let Some(known) = all.get_mut(place_of(&before)) {
            hear(known, settled, gain, slip);
        }
    }
}

/// The distance of a board that is settled by this gain and not spread yet.
fn due(known: &Known, gain: i8) -> Option<u32> {
    match known.settled {
        Some((value, dist)) if !known.spread && (value == gain || value == gain.saturating_neg()) =>
            { Some(dist) }
        _ => None,
    }
}

/// The least distance that is due.
fn least_due(all: &[Known], gain: i8) -> Option<u32> {
    let mut least = None;
    for known in all {
        if let Some(dist) = due(known, gain) {
            least = Some(least.map_or(dist, |least: u32| least.min(dist)));
        }
    }
    least
}

/// Whether the board is to be spread while this distance is open.
fn is_next(known: &Known, gain: i8, wave: u32, slip: Slip) -> bool {
    match due(known, gain) {
        Some(dist) => dist == wave || slip == Slip::DistanceIgnored,
        None => false,
    }
}

/// Spreads the boards that are due at this distance.
fn spread_wave(all: &mut [Known], level: u8, gain: i8, wave: u32, slip: Slip) {
    if level > HIGHEST_LEVEL {
        return;
    }
    for rank in 0..size(level) {
        let Some(known) = all.get_mut(rank as usize) else {
            return;
        };
        let next = is_next(known, gain, wave, slip);
        known.spread = known.spread || next;
        match known.settled {
            Some(settled) if next => spread(all, &unrank(level, rank), settled, gain, slip),
            _ => {}
        }
    }
}

/// How many distances a gain has, at most.
const MOST_WAVES: u32 = 1000;

/// Settles all boards by this gain.
fn close_gain(all: &mut [Known], level: u8, gain: i8, slip: Slip) {
    for known in all.iter_mut() {
        judge(known, gain, slip);
    }
    for _wave in 0..MOST_WAVES {
        let Some(wave) = least_due(all, gain) else {
            return;
        };
        spread_wave(all, level, gain, wave, slip);
    }
}

/// What is known of each board of the shelf's next level, once all gains are closed.
fn known_boards(alloc: Global, shelf: &Shelf, slip: Slip) -> Result<Vec<Known>, AllocError> {
    let mut all = Vec::new(alloc);
    let level = shelf.levels();
    if level > HIGHEST_LEVEL {
        return Ok(all);
    }
    for rank in 0..size(level) {
        all.push(scanned(shelf, &unrank(level, rank), slip))?;
    }
    for less in 0..level {
        close_gain(&mut all, level, (level - less) as i8, slip);
    }
    Ok(all)
}

/// What a board is settled as: value 0 where it isn't.
fn settled_of(all: &[Known], board: &Board) -> (i8, u32) {
    match all.get(place_of(board)) {
        Some(known) => known.settled.unwrap_or((0, 0)),
        None => (0, 0),
    }
}

/// Whether the move may be a board's plan, which is settled so: it gains the value, and where that is
/// positive it captures or comes nearer.
fn serves(shelf: &Shelf, all: &[Known], moved: &Moved, (value, dist): (i8, u32)) -> bool {
    if moved.captured > 0 {
        return better(shelf, None, moved) == Some(value);
    }
    let (next, farther) = settled_of(all, &moved.board);
    next.saturating_neg() == value && (value <= 0 || farther < dist)
}

/// The lowest pit that serves, or else the lowest legal one.
fn plan_of(shelf: &Shelf, all: &[Known], board: &Board) -> Option<u8> {
    let settled = settled_of(all, board);
    for pit in 0..6u8 {
        if let Ok(moved) = board.play(pit) {
            if serves(shelf, all, &moved, settled) {
                return Some(pit);
            }
        }
    }
    (0..6u8).find(|pit| board.legal(*pit))
}

/// The entries of the level, and their greatest distance.
fn entries_of(
    alloc: Global,
    shelf: &Shelf,
    all: &[Known],
) -> Result<(Vec<Entry>, u32), AllocError> {
    let mut entries = Vec::new(alloc);
    let mut limit = 0u32;
    let level = shelf.levels();
    if level > HIGHEST_LEVEL {
        return Ok((entries, limit));
    }
    for rank in 0..size(level) {
        let board = unrank(level, rank);
        let (value, dist) = settled_of(all, &board);
        let plan = plan_of(shelf, all, &board);
        limit = limit.max(dist);
        entries.push(Entry { value, plan, dist })?;
    }
    Ok((entries, limit))
}

/// The shelf's next level, as a builder with this slip makes it.
fn built(alloc: Global, shelf: &Shelf, slip: Slip) -> Result<Image, AllocError> {
    let all = known_boards(alloc, shelf, slip)?;
    let (entries, limit) = entries_of(alloc, shelf, &all)?;
    Ok(Image {
        level: shelf.levels(),
        limit,
        entries: Entries::from(entries),
    })
}

/// The rule that is refused first.
fn rule_of(fault: VerifyFault) -> Option<Rule> {
    match fault {
        VerifyFault::Refused { rule, .. } => Some(rule),
        _ => None,
    }
}

/// What one thread and several have against the level of a builder with this slip.
fn expect_rule<R: Threads + Sync + Abort>(
    rt: &R,
    alloc: Global,
    shelf: &Shelf,
    (slip, rule): (Slip, Option<Rule>),
) -> Result<(), Fail> {
    let found = verify(shelf, built(alloc, shelf, slip)?).err();
    expect_equal(rt, slip, found.and_then(rule_of), rule);
    let pieces = verify_parallel(rt, alloc, shelf, built(alloc, shelf, slip)?).err();
    expect_equal(rt, slip, pieces, found);
    Ok(())
}

/// Each slip, and the rule that is refused first on level 5 and on level 6.
const SLIPS: [(Slip, Option<Rule>, Option<Rule>); 7] = [
    (Slip::None, None, None),
    (Slip::DistanceIgnored, Some(Rule::V6), Some(Rule::V6)),
    (Slip::LastHeard, Some(Rule::V6), Some(Rule::V6)),
    (Slip::QuietForgotten, Some(Rule::V6), Some(Rule::V6)),
    (Slip::GrandSlamForgotten, Some(Rule::V5), Some(Rule::V5)),
    (Slip::UnfeedingCounted, Some(Rule::V5), Some(Rule::V5)),
    (Slip::SettledReplaced, Some(Rule::V6), Some(Rule::V4)),
];

#[test]
fn slips_on_level_5_are_refused(rt: HostRuntime) -> Result<(), Fail> {
    let shelf = levels_below(rt.alloc(), 5)?;
    for (slip, rule, _) in &SLIPS {
        expect_rule(&rt, rt.alloc(), &shelf, (*slip, *rule))?;
    }
    Ok(())
}

#[test]
fn slips_on_level_6_are_refused(rt: HostRuntime) -> Result<(), Fail> {
    let shelf = levels_below(rt.alloc(), 6)?;
    for (slip, _, rule) in &SLIPS {
        expect_rule(&rt, rt.alloc(), &shelf, (*slip, *rule))?;
    }
    Ok(())
}
