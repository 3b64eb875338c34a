//! The service of a desk, also on streams that fail.

ghost use Rattle.std.specs.Prelude.{◌≡◌, IfOk};

use crate::expect::{expect, expect_equal};
use awari_build::build_alone;
use awari_desk::{Publisher, Reader, ServeFault, desk, serve};
use awari_streams::Counted;
use std::alloc::Global;
use std::io::{self, ErrorKind, Read, Write};
use std::process::Abort;
use std::sync::{Arc, Wait};
use std::test::Fail;

const INPUT: &str = "\
seen
ask 0,0,0,0,0,1/0,0,0,0,0,0
ask 1,0,0,0,0,0/1,0,0,0,0,0
ask 1
hello
quit
";

const OUTPUT: &str = "\
seen 2
-1 5 1
not yet 2
refused 1 Shape
what
bye
";

const MOVES_INPUT: &str = "\
moves 0,0,0,0,0,1/0,0,0,0,0,0
seen
";

const MOVES_OUTPUT: &str = "\
pit 5 captures 0 value -1 distance 1 plan

seen 2
";

const PROBES_INPUT: &str = "\
replies 0,0,0,0,0,1/0,0,0,0,0,0
probe 0,0,0,0,0,1/0,0,0,0,0,0
probe 0,0,0,0,0,0/0,0,1,0,0,0
probe 1,0,0,0,0,0/1,0,0,0,0,0
probe \"\\\u{7f}\u{e9}
probe
seen
";

const PROBES_OUTPUT: &str = r#"pit 5 captures 0 value -1 distance 1 replies 0 keep 0 plan

{"board":"0,0,0,0,0,1/0,0,0,0,0,0","value":-1,"plan":5,"distance":1,"moves":[{"pit":5,"captures":0,"value":-1,"distance":1,"plan":true}]}
{"board":"0,0,0,0,0,0/0,0,1,0,0,0","value":-1,"plan":null,"distance":0,"moves":[]}
{"request":"probe 1,0,0,0,0,0/1,0,0,0,0,0","refused":74,"name":"NotYet"}
{"request":"probe \u0022\u005c\u007f\u00c3\u00a9","refused":1,"name":"Shape"}
what
seen 2
"#;

/// Lines, and what is written of them by a reader that knows levels 0 and 1.
type Lines = (&'static str, &'static str);

const WORKED: Lines = (INPUT, OUTPUT);

const MOVES: Lines = (MOVES_INPUT, MOVES_OUTPUT);

const PROBES: Lines = (PROBES_INPUT, PROBES_OUTPUT);

/// What a stream answers at a bad call.
#[derive(Clone, Copy, Debug)]
enum Bad {
    Fault,
    Interrupted,
    /// Nothing is taken.
    Nothing,
}

impl Bad {
    fn answer(self) -> io::Result<usize>
        ensures { IfOk result (λ n. n ≡ 0) }
    {
        match self {
            Bad::Fault => Err(io::Error::other("refused")),
            Bad::Interrupted => Err(io::Error::from(ErrorKind::Interrupted)),
            Bad::Nothing => Ok(0),
        }
    }
}

/// Which read and which write is bad, none at 0, and how.
type Failing = (u32, u32, Bad);

const NONE_FAILS: Failing = (0, 0, Bad::Fault);

/// Gives one byte a call, but at the call of this number, none at 0.
#[derive(Drop)]
struct Slow<'a> {
    bytes: &'a [u8],
    calls: u32,
    fails_at: u32,
    bad: Bad,
}

impl Read for Slow<'_> {
    fn read(&mut self, buf: &mut [u8]) -> io::Result<usize> {
        self.calls = self.calls.saturating_add(1);
        if self.calls == self.fails_at {
            return self.bad.answer();
        }
        if buf.is_empty() || self.bytes.is_empty() {
            return Ok(0);
        }
        buf[0] = self.bytes[0];
        self.bytes = &self.bytes[1..];
        Ok(1)
    }
}

/// Takes one byte a call, but at the call of this number, none at 0.
#[derive(Drop)]
struct Stiff {
    bytes: Vec<u8>,
    calls: u32,
    fails_at: u32,
    bad: Bad,
}

impl Write for Stiff {
    fn write(&mut self, buf: &[u8]) -> io::Result<usize> {
        self.calls = self.calls.saturating_add(1);
        if self.calls == self.fails_at {
            return self.bad.answer();
        }
        if buf.is_empty() {
            return Ok(0);
        }
        self.bytes.push(buf[0])?;
        Ok(1)
    }

    fn flush(&mut self) -> io::Result<()> {
        Ok(())
    }
}

/// Gives this many bytes of one line, and then these.
#[derive(Drop)]
struct Long<'a> {
    before: usize,
    bytes: &'a [u8],
}

impl Read for Long<'_> {
    fn read(&mut self, buf: &mut [u8]) -> io::Result<usize> {
        if self.before == 0 {
            return self.bytes.read(buf);
        }
        let count = self.before.min(buf.len());
        buf[..count].fill(b'x');
        self.before -= count;
        Ok(count)
    }
}

/// Gives bytes without end.
#[derive(Clone, Copy)]
struct Endless;

impl Read for Endless {
    fn read(&mut self, buf: &mut [u8]) -> io::Result<usize> {
        buf.fill(b'x');
        Ok(buf.len())
    }
}

/// Builds the next level of the book, and publishes it.
pub(crate) fn publish_next<R: Wait + Drop>(
    alloc: Global,
    publisher: &mut Publisher<R>,
) -> Result<(), Fail> {
    let level = build_alone(alloc, publisher.book())?;
    let level = Arc::new(alloc, level)?;
    publisher.publish(level)?;
    Ok(())
}

/// Serves the lines where the read and the write of these numbers fail, and compares what is written
/// and answered.
fn expect_served(
    rt: &impl Abort,
    alloc: Global,
    reader: &mut Reader,
    input: &[u8],
    failing: Failing,
    output: &[u8],
    expected: Result<(), ServeFault>,
) {
    let mut input = Counted::new(Slow {
        bytes: input,
        calls: 0,
        fails_at: failing.0,
        bad: failing.2,
    });
    let mut written = Counted::new(Stiff {
        bytes: Vec::new(alloc),
        calls: 0,
        fails_at: failing.1,
        bad: failing.2,
    });
    let served = serve(reader, &mut input, &mut written);
    expect_equal(rt, failing, served, expected);
    expect_bytes(rt, failing, &written.into_inner().bytes, output);
}

/// These bytes were written.
fn expect_bytes(rt: &impl Abort, failing: Failing, written: &[u8], expected: &[u8]) {
    expect_equal(rt, failing, written, expected);
}

/// Requests, and what is written of them by a reader that knows levels 0 and 1.
const REQUESTS: [Lines; 8] = [
    WORKED,
    MOVES,
    PROBES,
    ("", ""),
    ("\nseen", "what\nseen 2\n"),
    ("quit\nseen\n", "bye\n"),
    (
        "moves 1,0,0,0,0,0/0,0,0,0,0,0\nseen\n",
        "ended 1\n\nseen 2\n",
    ),
    (
        "moves 1,0,0,0,0,0/1,0,0,0,0,0\nmoves 0\nmoves\n",
        "not yet 2\nrefused 1 Shape\nwhat\n",
    ),
];

/// Serves lines with a reader that knows levels 0 and 1, the last ones of 200 bytes and of one more.
fn expect_requests(rt: &impl Abort, alloc: Global, reader: &mut Reader) {
    for (input, output) in &REQUESTS {
        expect_written(rt, alloc, reader, input.as_bytes(), output);
    }
    let mut line = [b'x'; 201];
    line[..4].copy_from_slice(b"ask ");
    expect_written(rt, alloc, reader, &line[..200], "refused 1 Shape\n");
    expect_written(rt, alloc, reader, &line, "what\n");
}

/// Serves lines where no read and no write fails.
fn expect_written(rt: &impl Abort, alloc: Global, reader: &mut Reader, input: &[u8], output: &str) {
    let output = output.as_bytes();
    expect_served(rt, alloc, reader, input, NONE_FAILS, output, Ok(()));
}

/// Serves the worked lines where a read or a write goes wrong.
fn expect_worked(
    rt: &impl Abort,
    alloc: Global,
    reader: &mut Reader,
    failing: Failing,
    output: &[u8],
    expected: Result<(), ServeFault>,
) {
    let input = INPUT.as_bytes();
    expect_served(rt, alloc, reader, input, failing, output, expected);
}

/// Serves the lines where this write fails: the bytes before it are written, and there is no such write
/// of lines whose answers have fewer.
fn expect_write_fault(
    rt: &impl Abort,
    alloc: Global,
    reader: &mut Reader,
    (input, output): Lines,
    (written, call, bad): (usize, u32, Bad),
) {
    let failing = (0, call, bad);
    let input = input.as_bytes();
    match output.as_bytes().get(..written) {
        Some(front) if front.len() < output.len() => {
            let fault = Err(ServeFault::Write);
            expect_served(rt, alloc, reader, input, failing, front, fault);
        }
        _ => expect_served(rt, alloc, reader, input, failing, output.as_bytes(), Ok(())),
    }
}

/// Serves the lines with each write failing in turn. The answers to either have fewer than sixty bytes.
fn expect_write_faults(
    rt: &impl Abort,
    alloc: Global,
    reader: &mut Reader,
    lines: Lines,
    bad: Bad,
) {
    for (written, call) in (1..60u32).enumerate() {
        expect_write_fault(rt, alloc, reader, lines, (written, call, bad));
    }
}

/// Serves the worked lines with a read and a write that are interrupted, and so are made again.
fn expect_interruptions(rt: &impl Abort, alloc: Global, reader: &mut Reader) {
    for (read, write) in [(1, 0), (6, 0), (0, 1), (0, 8), (6, 8u32)] {
        let failing = (read, write, Bad::Interrupted);
        expect_worked(rt, alloc, reader, failing, OUTPUT.as_bytes(), Ok(()));
    }
}

/// Serves the worked lines with a read that fails, with each write failing in turn, and with
/// interruptions.
fn expect_faults(rt: &impl Abort, alloc: Global, reader: &mut Reader) {
    let failing = (6, 0, Bad::Fault);
    let fault = Err(ServeFault::Read);
    expect_worked(rt, alloc, reader, failing, b"seen 2\n", fault);
    expect_write_faults(rt, alloc, reader, WORKED, Bad::Fault);
    expect_write_faults(rt, alloc, reader, WORKED, Bad::Nothing);
    expect_interruptions(rt, alloc, reader);
}

/// Serves a line that asks for moves with each write failing in turn.
fn expect_moves_faults(rt: &impl Abort, alloc: Global, reader: &mut Reader) {
    expect_write_faults(rt, alloc, reader, MOVES, Bad::Fault);
    expect_write_faults(rt, alloc, reader, MOVES, Bad::Nothing);
}

/// Serves more bytes than a service takes.
fn expect_too_long(rt: &impl Abort, alloc: Global, reader: &mut Reader) {
    let mut output = Counted::new(Vec::new(alloc));
    let served = serve(reader, &mut Counted::new(Endless), &mut output);
    expect_equal(rt, "bytes without end", served, Err(ServeFault::TooLong));
    expect(rt, "nothing written", output.into_inner().is_empty());
}

/// How many bytes come before the read that goes over the greatest number. A service asks for 4096 at
/// once, and 256 more would be that number.
const WHOLE_READS: usize = 24_414 * 4096;

/// What comes with that read: the end of a long line, this line, another long one, and a `quit` whose line
/// feed is the first byte behind the greatest number.
fn last_read(line: &[u8; 5]) -> [u8; 4096] {
    let mut bytes = [b'x'; 4096];
    bytes[0] = b'\n';
    bytes[1..6].copy_from_slice(line);
    bytes[251..257].copy_from_slice(b"\nquit\n");
    bytes
}

/// Serves more bytes than a service takes, of which this line stands in the last read.
fn expect_long(
    rt: &impl Abort,
    alloc: Global,
    reader: &mut Reader,
    line: &[u8; 5],
    output: &[u8],
    expected: Result<(), ServeFault>,
) {
    let bytes = last_read(line);
    let mut input = Counted::new(Long {
        before: WHOLE_READS,
        bytes: &bytes,
    });
    let mut written = Counted::new(Vec::new(alloc));
    let served = serve(reader, &mut input, &mut written);
    expect_equal(rt, line, served, expected);
    expect_equal(rt, line, written.into_inner().as_slice(), output);
}

/// Lines that end within the greatest number of bytes are answered, and `quit` ends the service.
fn expect_last_lines(rt: &impl Abort, alloc: Global, reader: &mut Reader) {
    let too_long = Err(ServeFault::TooLong);
    expect_long(
        rt,
        alloc,
        reader,
        b"seen\n",
        b"what\nseen 2\nwhat\n",
        too_long,
    );
    expect_long(rt, alloc, reader, b"quit\n", b"what\nbye\n", Ok(()));
}

/// The publisher and the one reader of a new desk.
pub(crate) fn desk_of_one<R: Wait + Drop>(
    own: R,
    alloc: Global,
) -> Result<(Publisher<R>, Reader), Fail> {
    let (publisher, mut readers) = desk(own, alloc, 1)?;
    match readers.pop() {
        Some(reader) => Ok((publisher, reader)),
        None => Err(Fail::from("a desk without readers")),
    }
}

/// Builds and publishes levels 0 and 1.
pub(crate) fn publish_two<R: Wait + Drop>(
    alloc: Global,
    publisher: &mut Publisher<R>,
) -> Result<(), Fail> {
    publish_next(alloc, publisher)?;
    publish_next(alloc, publisher)
}

/// Publishes levels 0 and 1, and tells the reader of them.
fn tell_two<R: Wait + Drop>(
    alloc: Global,
    publisher: &mut Publisher<R>,
    reader: &mut Reader,
) -> Result<(), Fail> {
    publish_two(alloc, publisher)?;
    reader.learn(publisher.tell()?);
    Ok(())
}

#[test]
fn lines_are_served(rt: HostRuntime) -> Result<(), Fail> {
    let (mut publisher, mut reader) = desk_of_one(rt.clone()?, rt.alloc())?;
    tell_two(rt.alloc(), &mut publisher, &mut reader)?;
    expect_requests(&rt, rt.alloc(), &mut reader);
    publisher.close();
    Ok(())
}

#[test]
fn streams_that_fail_are_told(rt: HostRuntime) -> Result<(), Fail> {
    let (mut publisher, mut reader) = desk_of_one(rt.clone()?, rt.alloc())?;
    tell_two(rt.alloc(), &mut publisher, &mut reader)?;
    expect_faults(&rt, rt.alloc(), &mut reader);
    publisher.close();
    Ok(())
}

#[test]
fn a_write_of_moves_that_fails_is_told(rt: HostRuntime) -> Result<(), Fail> {
    let (mut publisher, mut reader) = desk_of_one(rt.clone()?, rt.alloc())?;
    tell_two(rt.alloc(), &mut publisher, &mut reader)?;
    expect_moves_faults(&rt, rt.alloc(), &mut reader);
    publisher.close();
    Ok(())
}

#[test]
fn lines_before_too_many_bytes_are_answered(rt: HostRuntime) -> Result<(), Fail> {
    let (mut publisher, mut reader) = desk_of_one(rt.clone()?, rt.alloc())?;
    tell_two(rt.alloc(), &mut publisher, &mut reader)?;
    expect_last_lines(&rt, rt.alloc(), &mut reader);
    publisher.close();
    Ok(())
}

#[test]
fn more_bytes_than_a_service_takes(rt: HostRuntime) -> Result<(), Fail> {
    let (mut publisher, mut reader) = desk_of_one(rt.clone()?, rt.alloc())?;
    tell_two(rt.alloc(), &mut publisher, &mut reader)?;
    expect_too_long(&rt, rt.alloc(), &mut reader);
    publisher.close();
    Ok(())
}
