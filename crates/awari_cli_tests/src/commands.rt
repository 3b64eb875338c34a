//! The command `check` on streams that fail, and what was checked.

use crate::expect::expect_equal;
use crate::plain::run_on_disk;
use awari_board::Board;
use awari_cli::{Remarks, Streams, check};
use awari_table::Shelf;
use std::alloc::Global;
use std::fs::File;
use std::io::{ErrorKind, Read, Write};
use std::process::Abort;
use std::rt::Files;
use std::sync::Wait;
use std::test::Fail;
use std::thread::Threads;
use std::time::Clock;
use std::{io, str};

/// A stream of which each read and each write is a fault.
#[derive(Clone, Copy)]
pub(crate) struct Broken;

impl Read for Broken {
    fn read(&mut self, _buf: &mut [u8]) -> io::Result<usize> {
        Err(io::Error::from(ErrorKind::Other))
    }
}

impl Write for Broken {
    fn write(&mut self, _buf: &[u8]) -> io::Result<usize> {
        Err(io::Error::from(ErrorKind::Other))
    }

    fn flush(&mut self) -> io::Result<()> {
        Ok(())
    }
}

impl Remarks for Broken {}

/// A stream that takes every byte, and can't pass them on.
#[derive(Clone, Copy)]
struct Stuck;

impl Write for Stuck {
    fn write(&mut self, buf: &[u8]) -> io::Result<usize> {
        Ok(buf.len())
    }

    fn flush(&mut self) -> io::Result<()> {
        Err(io::Error::from(ErrorKind::Other))
    }
}

impl Remarks for Stuck {}

/// The status of `check`, of what this reader gives to this writer.
fn check_status(
    rt: &(impl Abort
        + Files<File = File>
        + Threads
        + Clock
        + Wait
        + Sync
        + Send
        + Clone
        + Drop
        + 'static),
    alloc: Global,
    reader: &mut impl Read,
    writer: &mut impl Remarks,
) -> u8 {
    let words = ["awari", "check"];
    let mut streams = Streams {
        input: reader,
        output: writer,
        errors: io::sink(),
    };
    run_on_disk(rt, alloc, words.as_slice(), &mut streams)
}

const LEVEL_0: &[u8] = b"level 0 limit 0\n0 - 0\n";

#[test]
fn a_line_that_is_not_passed_on_is_no_yes(rt: HostRuntime) {
    let mut reader = LEVEL_0;
    let status = check_status(&rt, rt.alloc(), &mut reader, &mut Stuck);
    expect_equal(&rt, "status", status, 1);
}

#[test]
fn a_broken_reader_ends_the_command(rt: HostRuntime) {
    let mut output = Vec::new(rt.alloc());
    let mut reader = LEVEL_0.chain(Broken);
    let status = check_status(&rt, rt.alloc(), &mut reader, &mut output);
    expect_equal(&rt, "status", status, 1);
    expect_equal(
        &rt,
        "output",
        str::from_utf8(&output),
        Ok("refused 14 Read\n"),
    );
}

#[test]
fn a_broken_writer_ends_the_command(rt: HostRuntime) {
    let mut reader = LEVEL_0;
    let status = check_status(&rt, rt.alloc(), &mut reader, &mut Broken);
    expect_equal(&rt, "status", status, 1);
}

/// Two shelves of levels 0 and 1, which have the same entry of the board of rank 6.
fn expect_shared(rt: &impl Abort, shelf: &Shelf, other: &Shelf) -> Result<(), Fail> {
    let board = Board::new([0, 0, 0, 0, 0, 1, 0, 0, 0, 0, 0, 0]);
    let entry = shelf.entry(&board)?;
    expect_equal(rt, "plan", entry.plan, Some(5));
    expect_equal(rt, "entry", other.entry(&board), Ok(entry));
    let found = (other.levels(), other.limit());
    expect_equal(rt, "levels and limit", found, (2, 1));
    Ok(())
}

/// The shelf of what was checked.
fn checked_shelf(alloc: Global, text: &[u8]) -> Result<Shelf, Fail> {
    Ok(check(alloc, text)?)
}

const LEVELS_0_TO_1: &str = "\
level 0 limit 0
0 - 0
level 1 limit 1
-1 - 0
-1 - 0
-1 - 0
-1 - 0
-1 - 0
-1 - 0
-1 5 1
1 - 0
1 - 0
1 - 0
1 - 0
1 - 0
";

#[test]
fn a_shelf_that_was_checked_is_shared(rt: HostRuntime) -> Result<(), Fail> {
    let shelf = checked_shelf(rt.alloc(), LEVELS_0_TO_1.as_bytes())?;
    let other = shelf.share()?;
    expect_shared(&rt, &shelf, &other)
}
