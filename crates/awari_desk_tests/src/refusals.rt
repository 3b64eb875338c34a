//! The calls of a desk that take memory, made again where that is refused. Nothing is refused while
//! these run by themselves. The script `tests/refused_growths/run` runs each of them with one growth
//! refused, for each growth in turn. A `?` stands for what is made before the call, whose refusal is
//! no wrong answer.

use crate::expect::expect_equal;
use crate::services::desk_of_one;
use awari_build::build_alone;
use awari_desk::{DeskFault, Publisher, Reader, desk};
use std::alloc::Global;
use std::process::Abort;
use std::sync::{Arc, Wait};
use std::test::Fail;

/// How many readers a desk of three has.
fn readers_of_three<R: Wait + Drop>(own: R, alloc: Global) -> Result<usize, DeskFault> {
    let (publisher, readers) = desk(own, alloc, 3)?;
    publisher.close();
    Ok(readers.len())
}

#[test]
fn a_desk_is_made(rt: HostRuntime) -> Result<(), Fail> {
    let mut found = readers_of_three(rt.clone()?, rt.alloc());
    if found == Err(DeskFault::Memory) {
        found = readers_of_three(rt.clone()?, rt.alloc());
    }
    expect_equal(&rt, "readers", found, Ok(3));
    Ok(())
}

/// Builds the next level of the book, and gives what publishing it answers.
fn published<R: Wait + Drop>(
    alloc: Global,
    publisher: &mut Publisher<R>,
) -> Result<Result<(), DeskFault>, Fail> {
    let level = build_alone(alloc, publisher.book())?;
    let level = Arc::new(alloc, level)?;
    Ok(publisher.publish(level))
}

/// Publishes the level of this number, which is the next one. If that is refused, the book and what
/// the reader has seen stay.
fn expect_published<R: Wait + Drop>(
    rt: &impl Abort,
    alloc: Global,
    publisher: &mut Publisher<R>,
    reader: &mut Reader,
    number: u8,
) -> Result<(), Fail> {
    let mut answer = published(alloc, publisher)?;
    if answer == Err(DeskFault::Memory) {
        let stays = (publisher.book().levels(), reader.seen());
        expect_equal(rt, "levels and seen", stays, (number, number));
        answer = published(alloc, publisher)?;
    }
    expect_equal(rt, number, answer, Ok(()));
    reader.learn(publisher.tell()?);
    expect_equal(rt, "seen", reader.seen(), number.saturating_add(1));
    Ok(())
}

#[test]
fn levels_are_published(rt: HostRuntime) -> Result<(), Fail> {
    let (mut publisher, mut reader) = desk_of_one(rt.clone()?, rt.alloc())?;
    for number in 0..3u8 {
        expect_published(&rt, rt.alloc(), &mut publisher, &mut reader, number)?;
    }
    publisher.close();
    Ok(())
}
