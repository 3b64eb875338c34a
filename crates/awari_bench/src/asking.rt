//! Boards looked up on a shelf in hand, and asked of readers of a desk: of one and of four at once, alone
//! and beside two owners that build a level.

use crate::STONES;
use crate::counting::Counted;
use awari_board::Board;
use awari_build::{Pace, build_alone, build_level};
use awari_desk::{Publisher, Reader, desk};
use awari_phase::Open;
use awari_rank::{size, unrank};
use awari_table::Shelf;
use std::alloc::{AllocError, Global};
use std::sync::{Arc, Wait};
use std::thread::Threads;
use std::time::{Clock, Instant};
use std::{io, thread};

/// How many ranks lie between a board and the next that is asked for. The number has no factor in
/// common with how many boards there are.
const STEP: u64 = 104_729;

/// All boards of the level, each far from the one before, as those that a program asks for are.
fn scattered_boards(alloc: Global) -> Result<Vec<Board>, AllocError> {
    let boards = u64::from(size(STONES));
    let mut scattered = Vec::with_capacity(alloc, boards as usize)?;
    for place in 0..boards {
        let rank = place.wrapping_mul(STEP) % boards;
        scattered.push(unrank(STONES, rank as u32))?;
    }
    Ok(scattered)
}

/// The place of the board to look up next. It hangs on the distance that was told, as where a program
/// goes on from an answer, so that no look-up begins before the last one has ended. Since no distance
/// is as great as 2^31, it is the next place.
fn next_place(place: usize, dist: u32, boards: &[Board]) -> usize {
    let next = place.wrapping_add(1).wrapping_add((dist >> 31) as usize);
    if next < boards.len() { next } else { 0 }
}

/// Looks each board up on the shelf, this many times.
fn entries_of(shelf: &Shelf, boards: &[Board], rounds: u32) -> Counted {
    let mut counted = Counted::NONE;
    let mut place = 0;
    for _look_up in 0..u64::from(rounds).wrapping_mul(boards.len() as u64) {
        let Some(Ok(entry)) = boards.get(place).map(|board| shelf.entry(board)) else {
            return counted;
        };
        counted.add(u64::from(entry.dist));
        place = next_place(place, entry.dist, boards);
    }
    counted
}

/// Asks the reader for each board, this many times.
fn asks_of(reader: &mut Reader, boards: &[Board], rounds: u32) -> Counted {
    let mut counted = Counted::NONE;
    let mut place = 0;
    for _look_up in 0..u64::from(rounds).wrapping_mul(boards.len() as u64) {
        let Some(board) = boards.get(place) else {
            return counted;
        };
        let Ok(entry) = reader.ask(board) else {
            return counted;
        };
        counted.add(u64::from(entry.dist));
        place = next_place(place, entry.dist, boards);
    }
    counted
}

/// Prints how long each of these calls took, in nanoseconds, and what they add up to.
fn print_each(
    rt: &(impl Print + Clock),
    call: &str,
    start: Instant,
    counted: Counted,
) -> io::Result<()> {
    let Counted { calls, total } = counted;
    let each = start.elapsed(rt)?.as_nanos() / u128::from(calls.max(1));
    println!(rt; "{call} {each} ns, calls {calls} total {total}")
}

/// Builds the levels up to that of the boards, and publishes each.
fn publish_levels<R: Wait + Drop>(alloc: Global, publisher: &mut Publisher<R>) -> io::Result<()> {
    for _level in 0..=STONES {
        let Ok(level) = build_alone(alloc, publisher.book()) else {
            return Ok(());
        };
        let _ = publisher.publish(Arc::new(alloc, level)?);
    }
    Ok(())
}

/// Has each reader asked in a thread of its own, and gives what the last of them counted.
fn all_at_once<R: Threads>(
    rt: &R,
    alloc: Global,
    readers: Vec<Reader>,
    boards: &Arc<Vec<Board>>,
    rounds: u32,
) -> Result<Counted, AllocError> {
    let mut handles = Vec::with_capacity(alloc, readers.len())?;
    for mut reader in readers {
        let boards = Arc::try_clone(boards)?;
        let handle = thread::spawn(rt, move || {
            asks_of(&mut reader, boards.as_slice(), rounds)
        })?;
        handles.push(handle)?;
    }
    let mut counted = Counted::NONE;
    for handle in handles {
        counted = handle.join(rt);
    }
    Ok(counted)
}

/// A desk of five readers, with the levels up to that of the boards published.
fn open_desk<R: Wait + Drop>(
    rt: R,
    alloc: Global,
) -> io::Result<Option<(Publisher<R>, Vec<Reader>)>> {
    let Ok((mut publisher, readers)) = desk(rt, alloc, 5) else {
        return Ok(None);
    };
    publish_levels(alloc, &mut publisher)?;
    Ok(Some((publisher, readers)))
}

/// Has one reader asked, and then the others at once, and prints how long each call took.
fn ask_all<R: Threads + Print + Clock>(
    rt: &R,
    alloc: Global,
    mut readers: Vec<Reader>,
    boards: &Arc<Vec<Board>>,
    rounds: u32,
) -> io::Result<()> {
    if let Some(mut reader) = readers.pop() {
        let start = Instant::now(rt)?;
        let counted = asks_of(&mut reader, boards.as_slice(), rounds);
        print_each(rt, "ask", start, counted)?;
    }
    let start = Instant::now(rt)?;
    let counted = all_at_once(rt, alloc, readers, boards, rounds)?;
    print_each(rt, "ask, four at once", start, counted)
}

/// Has them asked while two owners build the level above the shelf, and prints how much longer that
/// took.
fn ask_beside<R: Threads + Wait + Sync + Send + Clone + Drop + Print + Clock + 'static>(
    rt: &R,
    alloc: Global,
    shelf: Shelf,
    readers: Vec<Reader>,
    boards: &Arc<Vec<Board>>,
    rounds: u32,
) -> io::Result<()> {
    let own = rt.clone()?;
    let builder = thread::spawn(rt, move || {
        build_level(&own, alloc, &shelf, Pace::usual(2), &Open).is_ok()
    })?;
    ask_all(rt, alloc, readers, boards, rounds)?;
    let start = Instant::now(rt)?;
    let _is_built = builder.join(rt);
    let longer = start.elapsed(rt)?.as_millis();
    println!(rt; "beside a build, which took {longer} ms longer")
}

/// Times the look-ups, and prints what each took.
pub(crate) fn asking<R: Threads + Wait + Sync + Send + Clone + Drop + Print + Clock + 'static>(
    rt: &R,
    alloc: Global,
    rounds: u32,
) -> io::Result<()> {
    let boards = Arc::new(alloc, scattered_boards(alloc)?)?;
    let Some((publisher, readers)) = open_desk(rt.clone()?, alloc)? else {
        return Ok(());
    };
    let start = Instant::now(rt)?;
    let counted = entries_of(publisher.book(), boards.as_slice(), rounds);
    print_each(rt, "entry", start, counted)?;
    ask_all(rt, alloc, readers, &boards, rounds)?;
    let shelf = publisher.book().share()?;
    publisher.close();
    let Some((publisher, readers)) = open_desk(rt.clone()?, alloc)? else {
        return Ok(());
    };
    ask_beside(rt, alloc, shelf, readers, &boards, rounds)?;
    publisher.close();
    Ok(())
}
