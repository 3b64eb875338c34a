//! The calls of a desk: its readers, what is published, and what is told.

use crate::expect::expect_equal;
use crate::services::{desk_of_one, publish_next, publish_two};
use awari_board::Board;
use awari_desk::{AskFault, DeskFault, Publisher, Reader, Weighed, desk};
use awari_play::MoveWorth;
use awari_table::Entry;
use std::alloc::Global;
use std::process::Abort;
use std::sync::{Arc, Wait};
use std::test::Fail;

/// What the one move is worth that this board has.
const LOST_MOVE: MoveWorth = MoveWorth {
    pit: 5,
    captured: 0,
    value: -1,
    plies: 1,
};

const LOST: Entry = Entry {
    value: -1,
    plan: Some(5),
    dist: 1,
};

/// No desk is made for this many readers.
fn expect_no_desk<R: Wait + Drop>(rt: &impl Abort, own: R, alloc: Global, readers: u8) {
    let fault = desk(own, alloc, readers).err();
    expect_equal(rt, readers, fault, Some(DeskFault::Readers));
}

#[test]
fn a_desk_has_one_to_eight_readers(rt: HostRuntime) -> Result<(), Fail> {
    expect_no_desk(&rt, rt.clone()?, rt.alloc(), 0);
    expect_no_desk(&rt, rt.clone()?, rt.alloc(), 9);
    let (publisher, readers) = desk(rt.clone()?, rt.alloc(), 8)?;
    expect_equal(&rt, "readers", readers.len(), 8);
    publisher.close();
    Ok(())
}

/// Asks for a board of level 1 and one of level 2, of a reader that is told of levels 0 and 1.
fn expect_told<R: Wait + Drop>(
    rt: &impl Abort,
    publisher: &mut Publisher<R>,
    reader: &mut Reader,
) -> Result<(), Fail> {
    let low = Board::parse(b"0,0,0,0,0,1/0,0,0,0,0,0")?;
    let high = Board::parse(b"1,0,0,0,0,0/1,0,0,0,0,0")?;
    expect_equal(rt, "seen", reader.seen(), 0);
    reader.learn(publisher.tell()?);
    expect_equal(rt, "seen", reader.seen(), 2);
    expect_equal(rt, low, reader.ask(&low), Ok(LOST));
    expect_equal(
        rt,
        high,
        reader.ask(&high),
        Err(AskFault::NotYet { levels: 2 }),
    );
    expect_weighed(rt, reader, &low, Ok(LOST_MOVE));
    expect_weighed(rt, reader, &high, Err(AskFault::NotYet { levels: 2 }));
    Ok(())
}

/// The reader answers that the board has this one move, or why it answers none.
fn expect_weighed(
    rt: &impl Abort,
    reader: &mut Reader,
    board: &Board,
    expected: Result<MoveWorth, AskFault>,
) {
    let answer = reader
        .moves(board, false)
        .map(|weighed| only_move(&weighed));
    expect_equal(rt, *board, answer, expected.map(Some));
}

/// The one move of a board that has no other.
fn only_move(weighed: &Weighed) -> Option<MoveWorth> {
    match weighed.moves.as_slice() {
        [only] => Some(only.worth),
        _ => None,
    }
}

/// Level 1 again is not the next level, and the book stays as it is.
fn expect_not_next<R: Wait + Drop>(
    rt: &impl Abort,
    publisher: &mut Publisher<R>,
) -> Result<(), Fail> {
    let book = publisher.book();
    if book.levels() != 2 {
        return Err(Fail::from("another book"));
    }
    let again = Arc::try_clone(book.level(1))?;
    if again.number() == 2 {
        return Err(Fail::from("another level"));
    }
    let answer = publisher.publish(again);
    expect_equal(rt, "level 1 again", answer, Err(DeskFault::NotNext));
    expect_equal(rt, "levels", publisher.book().levels(), 2);
    Ok(())
}

/// The board is known, and worth 0.
fn expect_even(rt: &impl Abort, reader: &mut Reader, board: &Board) {
    let value = reader.ask(board).map(|entry| entry.value);
    expect_equal(rt, *board, value, Ok(0));
}

/// What was told before is less than what the reader has seen, and it keeps the longer book.
fn expect_longer<R: Wait + Drop>(
    rt: &impl Abort,
    alloc: Global,
    publisher: &mut Publisher<R>,
    reader: &mut Reader,
) -> Result<(), Fail> {
    let high = Board::parse(b"1,0,0,0,0,0/1,0,0,0,0,0")?;
    let told = publisher.tell()?;
    publish_next(alloc, publisher)?;
    expect_even(rt, reader, &high);
    reader.learn(told);
    expect_equal(rt, "seen", reader.seen(), 3);
    expect_even(rt, reader, &high);
    Ok(())
}

/// A desk has a place for each book of which is told, and not for one more.
fn expect_places<R: Wait + Drop>(
    rt: &impl Abort,
    alloc: Global,
    publisher: &mut Publisher<R>,
    reader: &mut Reader,
) -> Result<(), Fail> {
    let mut all = Vec::new(alloc);
    for _book in 0..26u8 {
        all.push(publisher.tell()?)?;
    }
    let refused = publisher.tell().err();
    expect_equal(rt, "one more telling", refused, Some(DeskFault::Readers));
    if let Some(told) = all.pop() {
        reader.learn(told);
    }
    drop(publisher.tell()?);
    Ok(())
}

/// The publisher is closed, and the reader has seen levels 0 to 2.
fn expect_gone(rt: &impl Abort, reader: &mut Reader) -> Result<(), Fail> {
    let board = Board::parse(b"0,0,0,0,0,1/0,0,0,0,0,0")?;
    expect_equal(rt, board, reader.ask(&board), Err(AskFault::Gone));
    expect_weighed(rt, reader, &board, Err(AskFault::Gone));
    expect_equal(rt, "seen", reader.seen(), 3);
    Ok(())
}

/// Publishes levels 0 to 2 and tells the reader of them, seeing each step.
fn expect_learning<R: Wait + Drop>(
    rt: &impl Abort,
    alloc: Global,
    publisher: &mut Publisher<R>,
    reader: &mut Reader,
) -> Result<(), Fail> {
    publish_two(alloc, publisher)?;
    expect_told(rt, publisher, reader)?;
    expect_not_next(rt, publisher)?;
    expect_longer(rt, alloc, publisher, reader)?;
    expect_equal(rt, "stuck", publisher.is_stuck(), false);
    expect_places(rt, alloc, publisher, reader)
}

#[test]
fn a_reader_learns_and_asks(rt: HostRuntime) -> Result<(), Fail> {
    let (mut publisher, mut reader) = desk_of_one(rt.clone()?, rt.alloc())?;
    expect_learning(&rt, rt.alloc(), &mut publisher, &mut reader)?;
    publisher.close();
    expect_gone(&rt, &mut reader)
}
