//! Readers and writers that move one byte a call, and fail or are interrupted at one of them.

ghost use Rattle.std.specs.Prelude.{◌≡◌, IfOk};

use crate::expect::expect_equal;
use crate::levels::{changed, digest_in, right_file, right_shelf};
use crate::plain::{level_of, read, write};
use awari_table::{Counted, Level};
use std::alloc::Global;
use std::io::{self, Error, ErrorKind, Read, Write};
use std::process::Abort;
use std::test::Fail;

/// What a stream answers at a bad call.
#[derive(Clone, Copy)]
enum Bad {
    Fault(ErrorKind),
    /// Nothing is taken.
    Nothing,
}

impl Bad {
    fn answer(self) -> io::Result<usize>
        ensures { IfOk result (λ n. n ≡ 0) }
    {
        match self {
            Bad::Fault(kind) => Err(Error::from(kind)),
            Bad::Nothing => Ok(0),
        }
    }
}

/// Counts the calls of a stream, of which some are bad.
#[derive(Clone, Copy)]
struct Calls {
    made: u32,
    first_bad: u32,
    bad: u32,
    kind: Bad,
}

impl Calls {
    fn new(first_bad: u32, bad: u32, kind: Bad) -> Calls {
        Calls {
            made: 0,
            first_bad,
            bad,
            kind,
        }
    }

    /// What this call is to answer, none where it goes well.
    fn next(&mut self) -> Option<Bad> {
        self.made = self.made.saturating_add(1);
        if self.made < self.first_bad || self.bad == 0 {
            return None;
        }
        self.bad -= 1;
        Some(self.kind)
    }
}

/// Hands out one byte a call.
#[derive(Drop)]
struct Slow<'a> {
    bytes: &'a [u8],
    calls: Calls,
}

impl Read for Slow<'_> {
    fn read(&mut self, buf: &mut [u8]) -> io::Result<usize> {
        if let Some(bad) = self.calls.next() {
            return bad.answer();
        }
        match self.bytes {
            [first, rest @ ..] if !buf.is_empty() => {
                buf[0] = *first;
                self.bytes = rest;
                Ok(1)
            }
            _ => Ok(0),
        }
    }
}

/// Takes one byte a call.
#[derive(Drop)]
struct Sink {
    calls: Calls,
    taken: u32,
    flushes: u32,
}

impl Write for Sink {
    fn write(&mut self, buf: &[u8]) -> io::Result<usize> {
        if let Some(bad) = self.calls.next() {
            return bad.answer();
        }
        if buf.is_empty() {
            return Ok(0);
        }
        self.taken = self.taken.saturating_add(1);
        Ok(1)
    }

    fn flush(&mut self) -> io::Result<()> {
        self.flushes = self.flushes.saturating_add(1);
        match self.calls.next() {
            Some(bad) => bad.answer().map(|_| ()),
            None => Ok(()),
        }
    }
}

/// The number of the refusal of a slow reader, 0 for none, and the faults that were counted.
fn read_slowly(alloc: Global, bytes: &[u8], calls: Calls) -> (u8, u64) {
    let mut reader = Counted::new(Slow { bytes, calls });
    let number = match read(alloc, &mut reader) {
        Ok(_) => 0,
        Err(fault) => fault.number(),
    };
    (number, reader.faults())
}

/// The same of a slow writer.
fn write_slowly(level: &Level, below: [u8; 32], sink: &mut Sink) -> (u8, u64) {
    let mut writer = Counted::new(sink);
    let number = match write(level, below, &mut writer) {
        Ok(_) => 0,
        Err(fault) => fault.number(),
    };
    (number, writer.faults())
}

#[test]
fn each_read_fails_in_turn(rt: HostRuntime) -> Result<(), Fail> {
    let file = right_file(rt.alloc(), 1)?;
    for k in 1..160u32 {
        let calls = Calls::new(k, 1, Bad::Fault(ErrorKind::WouldBlock));
        let expected = if k <= 157 { (68, 1) } else { (0, 0) };
        expect_equal(&rt, k, read_slowly(rt.alloc(), &file, calls), expected);
    }
    Ok(())
}

#[test]
fn a_fault_of_the_bytes_comes_before_the_readers(rt: HostRuntime) {
    for (call, expected) in [(5, (61, 1)), (4, (68, 1))] {
        let calls = Calls::new(call, 1, Bad::Fault(ErrorKind::Other));
        expect_equal(&rt, call, read_slowly(rt.alloc(), b"AWDC", calls), expected);
    }
}

/// Reads the bytes, where the 100th call is interrupted this many times in a row.
fn interrupted_read(alloc: Global, bytes: &[u8], times: u32) -> (u8, u64) {
    let calls = Calls::new(100, times, Bad::Fault(ErrorKind::Interrupted));
    read_slowly(alloc, bytes, calls)
}

#[test]
fn interrupted_reads_are_made_again(rt: HostRuntime) -> Result<(), Fail> {
    let file = right_file(rt.alloc(), 1)?;
    expect_equal(&rt, 1000, interrupted_read(rt.alloc(), &file, 1000), (0, 0));
    expect_equal(
        &rt,
        1001,
        interrupted_read(rt.alloc(), &file, 1001),
        (68, 1),
    );
    Ok(())
}

/// A sink of which some calls are bad.
fn slow_sink(calls: Calls) -> Sink {
    Sink {
        calls,
        taken: 0,
        flushes: 0,
    }
}

/// Writes into a sink that is bad at the call of this number.
fn expect_write(rt: &impl Abort, level: &Level, below: [u8; 32], call: u32, bad: Bad) {
    let mut sink = slow_sink(Calls::new(call, 1, bad));
    let found = write_slowly(level, below, &mut sink);
    let expected = if call <= 156 { (70, 1) } else { (0, 0) };
    let taken = call.min(157).saturating_sub(1);
    expect_equal(
        rt,
        call,
        (found, sink.taken, sink.flushes),
        (expected, taken, 0),
    );
}

#[test]
fn each_write_fails_in_turn(rt: HostRuntime) -> Result<(), Fail> {
    let shelf = right_shelf(rt.alloc())?;
    let level = level_of(&shelf, 1)?;
    let first = right_file(rt.alloc(), 0)?;
    let below = digest_in(&first);
    for k in 1..160u32 {
        expect_write(&rt, level, below, k, Bad::Fault(ErrorKind::BrokenPipe));
        expect_write(&rt, level, below, k, Bad::Nothing);
    }
    Ok(())
}

/// The same of a writer of this level.
fn interrupted_write(level: &Level, times: u32) -> (u8, u64) {
    let calls = Calls::new(100, times, Bad::Fault(ErrorKind::Interrupted));
    write_slowly(level, [0; 32], &mut slow_sink(calls))
}

#[test]
fn interrupted_writes_are_made_again(rt: HostRuntime) -> Result<(), Fail> {
    let shelf = right_shelf(rt.alloc())?;
    let level = level_of(&shelf, 1)?;
    expect_equal(&rt, 1000, interrupted_write(level, 1000), (0, 0));
    expect_equal(&rt, 1001, interrupted_write(level, 1001), (70, 1));
    Ok(())
}

/// Flushes a sink that answers such a fault in its first calls: whether that went well, the faults
/// that were counted, and the flushes that came to the sink.
fn flushed(times: u32, kind: ErrorKind) -> (bool, u64, u32) {
    let mut sink = slow_sink(Calls::new(1, times, Bad::Fault(kind)));
    let mut writer = Counted::new(&mut sink);
    let (ok, faults) = (writer.flush().is_ok(), writer.faults());
    (ok, faults, sink.flushes)
}

#[test]
fn flushes_are_passed_on(rt: HostRuntime) {
    expect_equal(&rt, "no fault", flushed(0, ErrorKind::Other), (true, 0, 1));
    expect_equal(&rt, "a fault", flushed(1, ErrorKind::Other), (false, 1, 1));
    expect_equal(
        &rt,
        1000,
        flushed(1000, ErrorKind::Interrupted),
        (true, 0, 1001),
    );
    expect_equal(
        &rt,
        1001,
        flushed(1001, ErrorKind::Interrupted),
        (false, 1, 1001),
    );
}

/// Places of the file of level 1 and bytes that are wrong there, with the call at which a fault of the
/// reader overtakes the fault of that field, which is the call for the field's last byte.
const OVERTAKEN: [(usize, u8, u32, u8); 8] = [
    (0, b'B', 4, 61),
    (4, 1, 6, 62),
    (6, 25, 7, 63),
    (7, 1, 8, 62),
    (8, 1, 16, 64),
    (53, 6, 58, 65),
    (119, 6, 124, 65),
    (124, 0, 156, 66),
];

/// Reads the bytes by a reader that fails at the call of this number.
fn read_until(alloc: Global, bytes: &[u8], call: u32) -> (u8, u64) {
    let bad = Bad::Fault(ErrorKind::UnexpectedEof);
    read_slowly(alloc, bytes, Calls::new(call, 1, bad))
}

/// A wrong file is read by a reader that fails at the call for the last byte of the field with the
/// fault, and by one that fails at the call after it.
fn expect_overtaken(rt: &impl Abort, alloc: Global, bytes: &[u8], last: u32, fault: u8) {
    expect_equal(rt, last, read_until(alloc, bytes, last), (68, 1));
    let (found, _) = read_until(alloc, bytes, last.saturating_add(1));
    expect_equal(rt, last, found, fault);
}

#[test]
fn a_field_is_judged_once_it_is_whole(rt: HostRuntime) -> Result<(), Fail> {
    let file = right_file(rt.alloc(), 1)?;
    for (place, byte, last, fault) in OVERTAKEN {
        let bytes = changed(rt.alloc(), &file, place, byte)?;
        expect_overtaken(&rt, rt.alloc(), &bytes, last, fault);
    }
    Ok(())
}

#[test]
fn the_byte_behind_the_digest_is_judged_once_it_is_there(rt: HostRuntime) -> Result<(), Fail> {
    let mut longer = right_file(rt.alloc(), 1)?;
    longer.push(0)?;
    expect_overtaken(&rt, rt.alloc(), &longer, 157, 67);
    Ok(())
}

/// Kinds of a fault, how many calls answer it, and of which kind a fault comes of it.
const KINDS: [(ErrorKind, u32, Option<ErrorKind>); 5] = [
    (ErrorKind::WouldBlock, 1, Some(ErrorKind::WouldBlock)),
    (ErrorKind::UnexpectedEof, 1, Some(ErrorKind::UnexpectedEof)),
    (ErrorKind::Other, 1, Some(ErrorKind::Other)),
    (ErrorKind::Interrupted, 1000, None),
    (ErrorKind::Interrupted, 1001, Some(ErrorKind::Other)),
];

/// The kind of a fault, none where there is none.
fn kind_of<T: Drop>(answer: io::Result<T>) -> Option<ErrorKind> {
    match answer {
        Ok(_) => None,
        Err(error) => Some(error.kind()),
    }
}

fn read_kind(calls: Calls) -> Option<ErrorKind> {
    let mut reader = Counted::new(Slow { bytes: b"x", calls });
    kind_of(reader.read(&mut [0]))
}

fn write_kind(calls: Calls) -> Option<ErrorKind> {
    kind_of(Counted::new(slow_sink(calls)).write(b"x"))
}

fn flush_kind(calls: Calls) -> Option<ErrorKind> {
    kind_of(Counted::new(slow_sink(calls)).flush())
}

fn write_all_kind(calls: Calls) -> Option<ErrorKind> {
    kind_of(Counted::new(slow_sink(calls)).write_all(b"x"))
}

/// The kind of the fault of each call in turn: `read`, `write`, `flush` and `write_all`.
fn kinds_of(times: u32, bad: Bad) -> [Option<ErrorKind>; 4] {
    let calls = Calls::new(1, times, bad);
    [
        read_kind(calls),
        write_kind(calls),
        flush_kind(calls),
        write_all_kind(calls),
    ]
}

#[test]
fn faults_keep_their_kind(rt: HostRuntime) {
    for (kind, calls, expected) in KINDS {
        expect_equal(&rt, calls, kinds_of(calls, Bad::Fault(kind)), [expected; 4]);
    }
    let none_taken = [None, None, None, Some(ErrorKind::WriteZero)];
    expect_equal(&rt, "nothing taken", kinds_of(1, Bad::Nothing), none_taken);
}
