//! The command `serve` beside its builder, and how what is answered and printed comes to its stream.

use crate::broken::Broken;
use crate::expect::expect_equal;
use crate::plain::{
    all_listed, build, lined, listed, memory_folder, served, texted, verified, weighed,
};
use awari_answers::Remarks;
use awari_file_tests::MemoryFolder;
use std::alloc::Global;
use std::cell::Cell;
use std::io::{self, ErrorKind, Read, Write};
use std::process::Abort;
use std::sync::Wait;
use std::thread::Threads;
use std::time::Clock;

/// A line that asks for a board, and the answer to it.
type Asked = (&'static [u8], &'static [u8]);

const CYCLE: Asked = (b"ask 1,0,0,0,0,0/1,0,0,0,0,0\n", b"0 0 0\n");

/// The player to move has no stone, so the play has ended.
const ENDED: Asked = (b"ask 0,0,0,0,0,0/3,0,0,0,0,0\n", b"-3 - 0\n");

/// How often a reader asks before it gives up. A level of a few stones is built within fewer asks, also by
/// owners, who start threads for each round, and on a busy machine.
const MOST_ASKS: u32 = 30_000_000;

/// Asks for a board until it is answered.
#[derive(Drop)]
struct Asking<'a> {
    line: &'static [u8],
    answered: &'a Cell<bool>,
    asks: u32,
}

impl Read for Asking<'_> {
    fn read(&mut self, buf: &mut [u8]) -> io::Result<usize> {
        if self.answered.get() || self.asks == MOST_ASKS {
            return Ok(0);
        }
        self.asks = self.asks.saturating_add(1);
        let mut line = self.line;
        line.read(buf)
    }
}

/// Sees when the board is answered.
#[derive(Drop)]
struct Watching<'a> {
    answer: &'static [u8],
    answered: &'a Cell<bool>,
}

impl Write for Watching<'_> {
    fn write(&mut self, buf: &[u8]) -> io::Result<usize> {
        if buf == self.answer {
            self.answered.set(true);
        }
        Ok(buf.len())
    }

    fn flush(&mut self) -> io::Result<()> {
        Ok(())
    }
}

impl Remarks for Watching<'_> {}

/// Serves an empty folder until the board is answered, while levels up to this one are built by so
/// many owners.
fn expect_answered(
    rt: &(impl Abort + AllocGlobal + Threads + Clock + Wait + Sync + Send + Clone + Drop + 'static),
    (line, answer): Asked,
    building: (u8, u8),
) {
    let answered = Cell::new(false);
    let mut input = Asking {
        line,
        answered: &answered,
        asks: 0,
    };
    let mut output = Watching {
        answer,
        answered: &answered,
    };
    let mut folder = memory_folder(rt.alloc());
    let status = served(rt, &mut folder, building, &mut input, &mut output);
    expect_equal(rt, building, (status, answered.get()), (0, true));
}

/// A board of level TOP is answered, so all levels up to it are built.
#[test]
fn a_reader_sees_the_level_that_is_built(rt: HostRuntime) {
    expect_answered(&rt, CYCLE, (2, 3));
    expect_answered(&rt, CYCLE, (2, 0));
    expect_answered(&rt, ENDED, (3, 2));
}

/// A level that nobody builds while the tests run.
const FAR: u8 = 20;

/// The input ends once level 3 is answered, and the levels above it are left.
#[test]
fn a_builder_stops_when_the_service_has_ended(rt: HostRuntime) {
    expect_answered(&rt, ENDED, (FAR, 0));
    expect_answered(&rt, ENDED, (FAR, 3));
}

/// Serves an empty folder with levels to be built far up, and is told to quit at once.
fn expect_quit(
    rt: &(impl Abort + AllocGlobal + Threads + Clock + Wait + Sync + Send + Clone + Drop + 'static),
    owners: u8,
) {
    let mut input: &[u8] = b"quit\n";
    let mut output = Vec::new(rt.alloc());
    let mut folder = memory_folder(rt.alloc());
    let status = served(rt, &mut folder, (FAR, owners), &mut input, &mut output);
    expect_equal(rt, "status", status, 0);
    expect_equal(rt, "printed", output.as_slice(), b"bye\n");
}

#[test]
fn a_builder_stops_after_quit(rt: HostRuntime) {
    expect_quit(&rt, 0);
    expect_quit(&rt, 3);
}

/// Owners that no builder takes, so that the thread is refused.
const TOO_MANY_OWNERS: u8 = 17;

/// Serves this input of an empty folder while the builder is refused, and compares what is printed.
fn expect_refused(
    rt: &(impl Abort + AllocGlobal + Threads + Clock + Wait + Sync + Send + Clone + Drop + 'static),
    input: &mut impl Read,
    printed: &[u8],
) {
    let mut output = Vec::new(rt.alloc());
    let mut folder = memory_folder(rt.alloc());
    let status = served(rt, &mut folder, (0, TOO_MANY_OWNERS), input, &mut output);
    expect_equal(rt, "status", status, 1);
    expect_equal(rt, "printed", output.as_slice(), printed);
}

#[test]
fn the_refusal_of_a_builder_is_printed_last(rt: HostRuntime) {
    let mut input: &[u8] = b"seen\n";
    expect_refused(&rt, &mut input, b"seen 0\nrefused 50 Owners\n");
}

#[test]
fn the_refusal_of_a_service_stands_for_the_builders(rt: HostRuntime) {
    let mut input = b"seen\n".chain(Broken);
    expect_refused(&rt, &mut input, b"seen 0\nrefused 90 Read\n");
}

/// Refuses each write, and counts them.
#[derive(Drop)]
struct Full {
    writes: u32,
}

impl Write for Full {
    fn write(&mut self, _buf: &[u8]) -> io::Result<usize> {
        self.writes = self.writes.saturating_add(1);
        Err(io::Error::from(ErrorKind::Other))
    }

    fn flush(&mut self) -> io::Result<()> {
        Ok(())
    }
}

#[test]
fn nothing_is_printed_after_a_write_that_failed(rt: HostRuntime) {
    let mut output = Full { writes: 0 };
    let mut input: &[u8] = b"seen\nseen\n";
    let mut folder = memory_folder(rt.alloc());
    let status = served(
        &rt,
        &mut folder,
        (0, TOO_MANY_OWNERS),
        &mut input,
        &mut output,
    );
    expect_equal(&rt, "status and writes", (status, output.writes), (1, 1));
}

impl Remarks for Full {}

/// Counts the writes of bytes, and the flushes that pass them on.
#[derive(Drop)]
struct Passing {
    writes: u32,
    flushes: u32,
    is_held: bool,
}

impl Write for Passing {
    fn write(&mut self, buf: &[u8]) -> io::Result<usize> {
        if !buf.is_empty() {
            self.writes = self.writes.saturating_add(1);
            self.is_held = true;
        }
        Ok(buf.len())
    }

    fn flush(&mut self) -> io::Result<()> {
        if self.is_held {
            self.flushes = self.flushes.saturating_add(1);
        }
        self.is_held = false;
        Ok(())
    }
}

impl Remarks for Passing {}

impl Passing {
    /// A stream to which nothing came yet.
    fn new() -> Passing {
        Passing {
            writes: 0,
            flushes: 0,
            is_held: false,
        }
    }
}

/// This many lines came, or all lines of an answer as one, each by one write and one flush behind it.
fn expect_passed(rt: &impl Abort, case: &str, output: &Passing, lines: u32) {
    let found = (output.writes, output.flushes, output.is_held);
    expect_equal(rt, case, found, (lines, lines, false));
}

/// Each answer of a service is passed on.
fn expect_answers_passed(
    rt: &(impl Abort + AllocGlobal + Threads + Clock + Wait + Sync + Send + Clone + Drop + 'static),
    alloc: Global,
) {
    let mut output = Passing::new();
    let mut input: &[u8] = b"seen\nask 1\nmoves 0,0,0,0,0,1/0,0,0,0,0,0\nhello\nquit\n";
    let mut folder = memory_folder(alloc);
    let _status = served(rt, &mut folder, (1, 0), &mut input, &mut output);
    expect_passed(rt, "answers", &output, 5);
}

#[test]
fn each_answer_is_passed_on(rt: HostRuntime) {
    expect_answers_passed(&rt, rt.alloc());
}

const BOARD: &str = "0,0,0,0,0,1/0,0,0,0,0,0";

/// Each line of `build`, `verify` and of a refusal is passed on.
fn expect_lines_passed(
    rt: &(impl Abort + AllocGlobal + Threads + Clock + Wait + Sync + Send + Clone + Drop + 'static),
    folder: &mut MemoryFolder,
) {
    let mut output = Passing::new();
    let _status = build(rt, folder, &mut output);
    expect_passed(rt, "build", &output, 2);
    let mut output = Passing::new();
    let _status = verified(rt, folder, &mut output);
    expect_passed(rt, "verify", &output, 3);
    let mut output = Passing::new();
    let _status = lined(rt, folder, "1", &mut output);
    expect_passed(rt, "a refusal", &output, 1);
}

/// All lines of one answer are passed on at once. A text is written in more than one piece, each of
/// whole lines.
fn expect_answers_whole(
    rt: &(impl Abort + AllocGlobal + Threads + Clock + Wait + Sync + Send + Clone + Drop + 'static),
    folder: &mut MemoryFolder,
) {
    let mut output = Passing::new();
    let _status = weighed(rt, folder, BOARD, &mut output);
    expect_passed(rt, "moves", &output, 1);
    let mut output = Passing::new();
    let _status = lined(rt, folder, BOARD, &mut output);
    expect_passed(rt, "line", &output, 1);
    let mut output = Passing::new();
    let _status = texted(rt, folder, &mut output);
    expect_equal(rt, "text", (output.flushes, output.is_held), (1, false));
}

/// The boards of a level, or of all levels, are passed on.
fn expect_boards_passed(
    rt: &(impl Abort + AllocGlobal + Threads + Clock + Wait + Sync + Send + Clone + Drop + 'static),
    folder: &mut MemoryFolder,
) {
    let mut output = Passing::new();
    let _status = listed(rt, folder, &mut output);
    expect_equal(
        rt,
        "boards",
        (output.flushes > 0, output.is_held),
        (true, false),
    );
    let mut output = Passing::new();
    let _status = all_listed(rt, folder, &mut output);
    expect_equal(
        rt,
        "all boards",
        (output.flushes > 0, output.is_held),
        (true, false),
    );
}

#[test]
fn each_printed_line_is_passed_on(rt: HostRuntime) {
    let mut folder = memory_folder(rt.alloc());
    expect_lines_passed(&rt, &mut folder);
    expect_answers_whole(&rt, &mut folder);
    expect_boards_passed(&rt, &mut folder);
}
