//! The least distances of a level, found by lowering greater ones.

ghost use Rattle.std.specs.Prelude.{◌≡◌, ◌<◌, IfOk, length, sum};
ghost use Rattle.awari_rank.specs.Rank.{size_of};
ghost use Rattle.awari_table.specs.Images.{entry_of, table_of};
ghost use Rattle.awari_table.specs.Shelves.{Consistent};
ghost use Rattle.awari_theory.specs.Older.{ConsistentOld};
ghost use Rattle.awari_play.specs.Least.{NoFarther, IsPlannedLowest};
ghost use Rattle.awari_table.specs.Reached.{Reaches};
ghost use Rattle.awari_play.specs.Lowering.{IsNearest, IsFarthest, IsByMoves, AreAbove, AreBelow, AreBelowTo, IsNearerBy, farther_by, IsLowered, Lowers, LowersBoard, Fell};
ghost use Rattle.awari_play.specs.Planning.{HasEntries, with_top};

use crate::plans::{planned_image, reached_by};
use awari_board::SIDE;
use awari_packed::PackedBoard;
use awari_rank::size;
use awari_table::{Entry, Image, Reached, Shelf};
use std::alloc::{AllocError, Global};

/// The image with the same values, the least distances, the lowest plans that these make, and the
/// greatest distance as its limit. Condition: the image is consistent by the older rules, which ask
/// that distances fall. It takes memory for eight bytes a board, and is refused only if that runs out.
pub fn least(alloc: Global, shelf: &Shelf, image: Image) -> Result<Image, AllocError>
    requires { ConsistentOld shelf.now image }
    ensures consistent { IfOk result (Consistent shelf.now) }
    ensures nearer { IfOk result (λ least. NoFarther image.entries least.entries) }
    ensures planned { IfOk result (IsPlannedLowest shelf.now) }
{
    let mut entries = image.entries.into_vec(alloc)?;
    lower(shelf, &mut entries);
    let least = planned_image(shelf, entries);
    Ok(least)
}

/// Lowers distances until each is what its board's moves give. After k passes no distance of at most k
/// plies can fall any more, so the next pass leaves those boards out.
fn lower(shelf: &Shelf, entries: &mut Vec<Entry>)
    requires level { HasEntries shelf.now entries.old.items }
    requires above { AreAbove shelf.now entries.old.items }
    ensures nearer { NoFarther entries.old.items entries.new.items }
    ensures above { AreAbove shelf.now entries.new.items }
    ensures below { AreBelow shelf.now entries.new.items }
{
    let mut near: u32 = 0;
    while lower_beyond(shelf, entries, near) {
        near = near.saturating_add(1);
    }
}

/// Lowers the distance of each board that is farther than `near`, in order of rank, to what its
/// moves give, and says whether one fell.
fn lower_beyond(shelf: &Shelf, entries: &mut Vec<Entry>, near: u32) -> bool
    requires level { HasEntries shelf.now entries.old.items }
    requires above { AreAbove shelf.now entries.old.items }
    requires below { AreBelowTo near shelf.now entries.old.items }
    ensures nearer { NoFarther entries.old.items entries.new.items }
    ensures above { AreAbove shelf.now entries.new.items }
    ensures fell { Fell shelf.now entries.old.items entries.new.items near result }
{
    let mut fell = false;
    for rank in 0..size(shelf.levels()) {
        if lower_board(shelf, entries, near, rank) {
            fell = true;
        }
    }
    fell
}

/// Lowers the distance of the board of this rank to what its moves give, if it is farther than
/// `near`, and says whether it fell.
fn lower_board(shelf: &Shelf, entries: &mut Vec<Entry>, near: u32, rank: u32) -> bool
    requires level { HasEntries shelf.now entries.old.items }
    requires below { rank < size_of (length shelf.now) }
    ensures { LowersBoard shelf.now entries.old.items entries.new.items near rank result }
{
    let own = entries[rank as usize];
    if own.dist <= near {
        return false;
    }
    let board = PackedBoard::unrank(shelf.levels(), rank);
    let dist = by_moves(shelf, entries.as_slice(), &board, own);
    lower_to(entries, rank, dist)
}

/// Lowers the distance of this rank to this one, if it is greater, and says whether it was.
fn lower_to(entries: &mut Vec<Entry>, rank: u32, dist: u64) -> bool
    requires { rank < length entries.old.items }
    ensures { Lowers entries.old.items entries.new.items rank dist result }
{
    match lowered(entries[rank as usize], dist) {
        Some(entry) => {
            entries[rank as usize] = entry;
            true
        }
        None => false,
    }
}

/// The entry with this distance, if that is smaller than its own.
fn lowered(entry: Entry, dist: u64) -> Option<Entry>
    ensures { IsLowered entry dist result }
{
    if dist < u64::from(entry.dist) {
        Some(Entry {
            dist: dist as u32,
            ..entry
        })
    } else {
        None
    }
}

/// The distance that the moves of the board of this entry give.
fn by_moves(shelf: &Shelf, entries: &[Entry], board: &PackedBoard, own: Entry) -> u64
    requires level { HasEntries shelf.now entries.now }
    requires stones { sum board.now ≡ length shelf.now }
    requires own { own ≡ entry_of (with_top shelf.now entries.now) board.now }
    ensures { IsByMoves (table_of (with_top shelf.now entries.now)) board.now result }
{
    if own.value > 0 {
        nearest(shelf, entries, board, own)
    } else if own.value < 0 {
        farthest(shelf, entries, board)
    } else {
        u64::from(own.dist)
    }
}

/// The fewest plies of a move that gains the board's value, or its distance if that is less.
fn nearest(shelf: &Shelf, entries: &[Entry], board: &PackedBoard, own: Entry) -> u64
    requires level { HasEntries shelf.now entries.now }
    requires stones { sum board.now ≡ length shelf.now }
    requires own { own ≡ entry_of (with_top shelf.now entries.now) board.now }
    ensures { IsNearest (table_of (with_top shelf.now entries.now)) board.now result }
{
    let mut nearest = u64::from(own.dist);
    for pit in 0..SIDE {
        nearest = nearer(own, nearest, reached(shelf, entries, board, pit));
    }
    nearest
}

/// The most plies of a move, 0 if there is none.
fn farthest(shelf: &Shelf, entries: &[Entry], board: &PackedBoard) -> u64
    requires level { HasEntries shelf.now entries.now }
    requires stones { sum board.now ≡ length shelf.now }
    ensures { IsFarthest (table_of (with_top shelf.now entries.now)) board.now result }
{
    let mut farthest = 0u64;
    for pit in 0..SIDE {
        farthest = farther(farthest, reached(shelf, entries, board, pit));
    }
    farthest
}

/// The fewest plies so far, or those of this move, if they are fewer and it gains the value.
fn nearer(own: Entry, nearest: u64, reached: Option<Reached>) -> u64
    ensures { IsNearerBy own.value nearest reached result }
{
    let Some(reached) = reached else {
        return nearest;
    };
    if reached.gain() == i16::from(own.value) {
        return nearest.min(reached.plies);
    }
    nearest
}

/// The most plies so far, or those of this move, if they are more.
fn farther(farthest: u64, reached: Option<Reached>) -> u64
    ensures { result ≡ farther_by farthest reached }
{
    match reached {
        Some(reached) => farthest.max(reached.plies),
        None => farthest,
    }
}

/// The move of this pit, if it is legal.
fn reached(shelf: &Shelf, entries: &[Entry], board: &PackedBoard, pit: u8) -> Option<Reached>
    requires level { HasEntries shelf.now entries.now }
    requires stones { sum board.now ≡ length shelf.now }
    ensures { Reaches (table_of (with_top shelf.now entries.now)) board.now pit result }
{
    if !board.legal(pit) {
        return None;
    }
    Some(reached_by(shelf, entries, &board.play(pit)))
}
