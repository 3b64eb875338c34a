//! The boards of a level that are wanted, counted or printed.

ghost use Rattle.std.specs.Prelude.{◌≡◌, ◌<◌, ◌-◌, ◌↔◌, ℕ, true, if◌then◌else◌, max, List, Option, length, All, IfErr, IfOk, None, Ok, Some};
ghost use Rattle.awari_folder.specs.Contents.{Stands};
ghost use Rattle.awari_places.specs.Places.{IsLevelOf};
ghost use Rattle.awari_facts.specs.Numbers.{IsAt, is_own};
ghost use Rattle.awari_facts.specs.Sources.{IsThere, SaysBy, levels_of};
ghost use Rattle.awari_facts.specs.declared.sources.Source.TheVariants.{Files};
ghost use Rattle.awari_folder.specs.State.{Unchanged};
ghost use Rattle.awari_queries.specs.Draws.{taken};
ghost use Rattle.awari_queries.specs.Holding.{first};
ghost use Rattle.awari_queries.specs.declared.holding.Held.{Held as AHeld};
ghost use Rattle.awari_queries.specs.declared.orders.Order.{Order as AnOrder};
ghost use Rattle.awari_rank.specs.Rank.{size_of};
ghost use Rattle.awari_table.specs.declared.images.Image.{Image};
ghost use Rattle.awari_levels.specs.Listing.{AppendsLines, IsListFault, due_boards, farthest_of, number_if, numbers_of, taken_boards, wanted_boards};
ghost use Rattle.awari_levels.specs.Walks.{AreHeld, IsChoice};

use crate::asked::Asked;
use crate::batches::{LineNumbers, new_batch, push_board};
use crate::walks::{Choice, look, new_walk, segment_for, step};
use awari_answers::print_bytes;
use awari_facts::{Seen, Source, entry_at, number_of, own_number, read_entry};
use awari_folder::{Folder, FolderFault};
use awari_packed::PackedBoard;
use awari_places::Run;
use awari_queries::{Column, Held, Holding, draw_of};
use awari_rank::{size, unrank};
use std::alloc::Global;
use std::io::Write;
use std::thread::Threads;

/// A distance, if it is that of a board within and farther than the farthest before it, else that one's.
fn farther(within: bool, farthest: u32, distance: u32) -> u32
    ensures { result ≡ (if within then max farthest distance else farthest) }
{
    if within {
        farthest.max(distance)
    } else {
        farthest
    }
}

/// The greatest distance of the boards of a level that have what is wanted of each, if the farthest are asked
/// for, else 0. Condition: the source has the level.
#[tactic(auto, using(crate::proofs::FaultLaws::faults))]
fn find_farthest<R: Threads + Sync, F: Folder>(
    rt: &R,
    alloc: Global,
    folder: &mut F,
    asked: Asked<'_>,
) -> Result<u32, FolderFault>
    requires { IsLevelOf (levels_of asked.source) asked.level }
    ensures farthest { (images : List Image) → SaysBy asked.entry.source (F.state folder.old).stands images → IfOk result (λ found. found ≡ farthest_of asked.entry.wanted.now images asked.entry.level) }
    ensures fault { IfErr result (IsListFault asked.entry.source asked.entry.level (F.state folder.old).stands) }
    ensures same { Unchanged (F.state folder.old) (F.state folder.new) }
{
    let level = asked.level;
    if !asked.wanted.farthest {
        return Ok(0);
    }
    let mut segment = segment_for(alloc, asked)?;
    let mut run = Run::new();
    let mut farthest = 0;
    for rank in 0..size(level) {
        let entry = read_entry(asked.source, folder, &mut run, level, rank)?;
        let seen = Seen { level, rank, entry };
        let key = look(rt, asked, &mut segment, &seen);
        farthest = farther(key.is_some(), farthest, entry.dist);
    }
    Ok(farthest)
}

/// How many boards of a level are taken. Conditions: the source has the level, and not each 0th board is
/// wanted.
#[tactic(auto, using(crate::proofs::FaultLaws::faults))]
fn count_taken<R: Threads + Sync, F: Folder>(
    rt: &R,
    alloc: Global,
    folder: &mut F,
    choice: Choice<'_>,
) -> Result<u32, FolderFault>
    requires level { IsLevelOf (levels_of choice.asked.source) choice.asked.level }
    requires every { 0 < choice.asked.wanted.now.every }
    ensures counted { (images : List Image) → SaysBy choice.entry.asked.source (F.state folder.old).stands images → choice.entry.farthest ≡ farthest_of choice.entry.asked.wanted.now images choice.entry.asked.level
        → IfOk result (λ n. n ≡ length (taken choice.entry.sample (due_boards choice.entry.asked.wanted.now images choice.entry.asked.level))) }
    ensures fault { IfErr result (IsListFault choice.entry.asked.source choice.entry.asked.level (F.state folder.old).stands) }
    ensures same { Unchanged (F.state folder.old) (F.state folder.new) }
{
    let mut walk = new_walk(alloc, choice.asked, choice.sample)?;
    let mut count = 0u32;
    for rank in 0..size(choice.asked.level) {
        if step(rt, folder, choice, &mut walk, rank)?.is_some() {
            count += 1;
        }
    }
    Ok(count)
}

/// What has to be known before the boards of a level are listed. Conditions as for [`count_taken`].
#[tactic(auto, using(crate::proofs::FaultLaws::faults))]
fn choose<'a, R: Threads + Sync, F: Folder>(
    rt: &R,
    alloc: Global,
    folder: &mut F,
    asked: Asked<'a>,
) -> Result<Choice<'a>, FolderFault>
    requires level { IsLevelOf (levels_of asked.source) asked.level }
    requires every { 0 < asked.wanted.now.every }
    ensures chosen { (images : List Image) → SaysBy asked.entry.source (F.state folder.old).stands images → IfOk result (IsChoice asked.entry.wanted.now images asked.entry.level) }
    ensures asked { IfOk result (λ choice. choice.asked ≡ asked.entry) }
    ensures fault { IfErr result (IsListFault asked.entry.source asked.entry.level (F.state folder.old).stands) }
    ensures same { Unchanged (F.state folder.old) (F.state folder.new) }
{
    let farthest = find_farthest(rt, alloc, folder, asked)?;
    let all = Choice {
        asked,
        farthest,
        sample: None,
    };
    let wanted = asked.wanted;
    if wanted.random == 0 {
        return Ok(all);
    }
    let due = count_taken(rt, alloc, folder, all)?;
    let sample = draw_of(wanted.random, u64::from(wanted.seed), due);
    Ok(Choice { sample, ..all })
}

/// The number of a column, if it is asked for. Conditions: the level is there, and has so many boards; of files,
/// an entry and the rules say the number.
fn number_if(asked: Asked<'_>, is_asked: bool, column: Column, seen: &Seen) -> Option<i64>
    requires there { IsThere (levels_of asked.source) seen.now.level seen.now.rank }
    requires own { is_asked ≡ true → (levels : ℕ) → asked.source ≡ Files levels → is_own column ≡ true }
    ensures { (stands : Stands) (images : List Image) → SaysBy asked.entry.source stands images → (board : List ℕ) → IsAt images seen.now.level seen.now.rank board seen.now.entry
        → result ≡ number_if is_asked images column board }
{
    if !is_asked {
        return None;
    }
    match asked.source {
        Source::Memory(levels) => Some(number_of(levels, column, seen)),
        Source::Files(_) => own_number(column, seen),
    }
}

/// The numbers of a board's line. Conditions: the level is there, and has that many boards.
fn numbers_of(asked: Asked<'_>, seen: &Seen) -> LineNumbers
    requires { IsThere (levels_of asked.source) seen.now.level seen.now.rank }
    ensures { (stands : Stands) (images : List Image) → SaysBy asked.entry.source stands images → (board : List ℕ) → IsAt images seen.now.level seen.now.rank board seen.now.entry
        → result ≡ numbers_of asked.entry.wanted.now images board }
{
    let added = asked.wanted.added;
    LineNumbers {
        entry: seen.entry,
        moves: number_if(asked, added.moves, Column::Moves, seen),
        keep: number_if(asked, added.keep, Column::Keep, seen),
        greedy: number_if(asked, added.greedy, Column::Greedy, seen),
        trap: number_if(asked, added.trap, Column::Trap, seen),
        other: number_if(asked, added.other, Column::Other, seen),
        waits: number_if(asked, added.waits, Column::Waits, seen),
    }
}

/// Counts one less of those that are still wanted, and says whether it was the last; 0 has no last one.
fn was_last(left: &mut u32) -> bool
    ensures left { left.new ≡ left.old - 1 }
    ensures last { result ≡ true ↔ left.old ≡ 1 }
{
    let was_last = *left == 1;
    *left = left.saturating_sub(1);
    was_last
}

/// Prints the first ones of the boards that are taken, by rank, and says whether the writer took them. It looks
/// at no board behind the last of them. Conditions as for [`count_taken`].
#[tactic(auto, using(crate::proofs::FaultLaws::faults))]
fn print_taken<R: Threads + Sync, F: Folder, W: Write>(
    rt: &R,
    alloc: Global,
    folder: &mut F,
    choice: Choice<'_>,
    writer: &mut W,
) -> Result<bool, FolderFault>
    requires level { IsLevelOf (levels_of choice.asked.source) choice.asked.level }
    requires every { 0 < choice.asked.wanted.now.every }
    ensures printed { (images : List Image) → SaysBy choice.entry.asked.source (F.state folder.old).stands images → IsChoice choice.entry.asked.wanted.now images choice.entry.asked.level choice.entry → result ≡ Ok true
        → AppendsLines choice.entry.asked.wanted.now images (first choice.entry.asked.wanted.now.most (taken_boards choice.entry.asked.wanted.now images choice.entry.asked.level)) (W.contents writer.old) (W.contents writer.new) }
    ensures fault { IfErr result (IsListFault choice.entry.asked.source choice.entry.asked.level (F.state folder.old).stands) }
    ensures same { Unchanged (F.state folder.old) (F.state folder.new) }
{
    let level = choice.asked.level;
    let wanted = choice.asked.wanted;
    let mut walk = new_walk(alloc, choice.asked, choice.sample)?;
    let mut batch = new_batch(wanted.form, wanted.added);
    let mut left = wanted.most;
    for rank in 0..size(level) {
        let Some(taken) = step(rt, folder, choice, &mut walk, rank)? else {
            continue;
        };
        let seen = Seen {
            level,
            rank,
            entry: taken.entry,
        };
        let numbers = numbers_of(choice.asked, &seen);
        if !push_board(
            &mut batch,
            wanted.form,
            &unrank(level, rank),
            numbers,
            writer,
        ) {
            return Ok(false);
        }
        if was_last(&mut left) {
            return Ok(print_bytes(writer, batch.as_slice()));
        }
    }
    Ok(print_bytes(writer, batch.as_slice()))
}

/// The first ones of the boards that are taken, by a number. Conditions as for [`count_taken`]. It takes memory
/// for twice as many, or for all.
#[tactic(auto, using(crate::proofs::FaultLaws::faults))]
fn hold_taken<R: Threads + Sync, F: Folder>(
    rt: &R,
    alloc: Global,
    folder: &mut F,
    choice: Choice<'_>,
) -> Result<Vec<Held>, FolderFault>
    requires level { IsLevelOf (levels_of choice.asked.source) choice.asked.level }
    requires every { 0 < choice.asked.wanted.now.every }
    ensures held { (images : List Image) → SaysBy choice.entry.asked.source (F.state folder.old).stands images → IsChoice choice.entry.asked.wanted.now images choice.entry.asked.level choice.entry
        → (order : AnOrder) → choice.entry.asked.wanted.now.order ≡ Some order
        → IfOk result (λ held. AreHeld choice.entry.asked.wanted.now images choice.entry.asked.level (wanted_boards choice.entry.asked.wanted.now images choice.entry.asked.level) held.items) }
    ensures few { IfOk result (λ held. All (λ (h : AHeld). h.rank < size_of choice.entry.asked.level) held.items) }
    ensures fault { IfErr result (IsListFault choice.entry.asked.source choice.entry.asked.level (F.state folder.old).stands) }
    ensures same { Unchanged (F.state folder.old) (F.state folder.new) }
{
    let mut walk = new_walk(alloc, choice.asked, choice.sample)?;
    let mut holding = Holding::new(alloc, choice.asked.wanted.most);
    for rank in 0..size(choice.asked.level) {
        let Some(taken) = step(rt, folder, choice, &mut walk, rank)? else {
            continue;
        };
        let one = Held {
            number: taken.key,
            rank,
        };
        match holding.hold(one) {
            Ok(()) => {}
            Err(_) => return Err(FolderFault::Memory),
        }
    }
    match holding.into_first() {
        Ok(held) => Ok(held),
        Err(_) => Err(FolderFault::Memory),
    }
}

/// Prints boards that are held, and says whether the writer took them. Conditions: the source has the level,
/// and that has that many boards.
#[tactic(auto, using(crate::proofs::FaultLaws::faults))]
fn print_held<F: Folder, W: Write>(
    folder: &mut F,
    asked: Asked<'_>,
    held: &[Held],
    writer: &mut W,
) -> Result<bool, FolderFault>
    requires level { IsLevelOf (levels_of asked.source) asked.level }
    requires held { All (λ (h : AHeld). h.rank < size_of asked.level) held.now }
    ensures printed { (images : List Image) → SaysBy asked.entry.source (F.state folder.old).stands images → (boards : List (List ℕ)) → AreHeld asked.entry.wanted.now images asked.entry.level boards held.now → result ≡ Ok true
        → AppendsLines asked.entry.wanted.now images boards (W.contents writer.old) (W.contents writer.new) }
    ensures fault { IfErr result (IsListFault asked.entry.source asked.entry.level (F.state folder.old).stands) }
    ensures same { Unchanged (F.state folder.old) (F.state folder.new) }
{
    let Asked { level, wanted, .. } = asked;
    let mut batch = new_batch(wanted.form, wanted.added);
    for place in 0..held.len() {
        let rank = held[place].rank;
        let board = unrank(level, rank);
        let entry = entry_at(asked.source, folder, &PackedBoard::new(&board))?;
        let numbers = numbers_of(asked, &Seen { level, rank, entry });
        if !push_board(&mut batch, wanted.form, &board, numbers, writer) {
            return Ok(false);
        }
    }
    Ok(print_bytes(writer, batch.as_slice()))
}

/// Prints the boards of a level that are wanted, a line each, and says whether the writer took them. Conditions
/// as for [`count_taken`]. It takes memory for those that are sorted, and for those that threads look at.
#[tactic(auto, using(crate::proofs::FaultLaws::faults))]
pub(crate) fn print_boards<R: Threads + Sync, F: Folder, W: Write>(
    rt: &R,
    alloc: Global,
    folder: &mut F,
    asked: Asked<'_>,
    writer: &mut W,
) -> Result<bool, FolderFault>
    requires level { IsLevelOf (levels_of asked.source) asked.level }
    requires every { 0 < asked.wanted.now.every }
    ensures printed { (images : List Image) → SaysBy asked.entry.source (F.state folder.old).stands images → result ≡ Ok true
        → AppendsLines asked.entry.wanted.now images (wanted_boards asked.entry.wanted.now images asked.entry.level) (W.contents writer.old) (W.contents writer.new) }
    ensures fault { IfErr result (IsListFault asked.entry.source asked.entry.level (F.state folder.old).stands) }
    ensures same { Unchanged (F.state folder.old) (F.state folder.new) }
{
    let choice = choose(rt, alloc, folder, asked)?;
    match asked.wanted.order {
        None => print_taken(rt, alloc, folder, choice, writer),
        Some(_) => {
            let held = hold_taken(rt, alloc, folder, choice)?;
            print_held(folder, asked, held.as_slice(), writer)
        }
    }
}

/// How many boards of a level are wanted. Conditions as for [`count_taken`].
#[tactic(auto, using(crate::proofs::FaultLaws::faults))]
pub(crate) fn count_boards<R: Threads + Sync, F: Folder>(
    rt: &R,
    alloc: Global,
    folder: &mut F,
    asked: Asked<'_>,
) -> Result<u32, FolderFault>
    requires level { IsLevelOf (levels_of asked.source) asked.level }
    requires every { 0 < asked.wanted.now.every }
    ensures counted { (images : List Image) → SaysBy asked.entry.source (F.state folder.old).stands images → IfOk result (λ n. n ≡ length (wanted_boards asked.entry.wanted.now images asked.entry.level)) }
    ensures fault { IfErr result (IsListFault asked.entry.source asked.entry.level (F.state folder.old).stands) }
    ensures same { Unchanged (F.state folder.old) (F.state folder.new) }
{
    let choice = choose(rt, alloc, folder, asked)?;
    let count = count_taken(rt, alloc, folder, choice)?;
    Ok(count_first(count, asked.wanted.most))
}

/// How many of so many boards are the first ones; 0 is all.
fn count_first(count: u32, most: u32) -> u32
    ensures { (boards : List (List ℕ)) → count ≡ length boards → result ≡ length (first most boards) }
{
    if most == 0 { count } else { count.min(most) }
}
