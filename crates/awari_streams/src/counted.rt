//! A reader or a writer whose faults are counted, so that one who is lent it can be asked afterwards
//! whether a refusal was the stream's.

ghost use Rattle.std.specs.Prelude.{◌≡◌, ◌≢◌, ◌≤◌, ◌<◌, ℕ, List, Option, IfOk, IfErr, OnOk, OnErr, length, take};
ghost use Rattle.std.specs.IoError.{error_kind};
ghost use Rattle.std.specs.Io.{ReadsAtMost, WritesAtMost};
ghost use Rattle.std.specs.Io.KnownBytes.{ReadConsumes, WriteAppends, Keeps, Appends, Consumes, IsAtEnd};

use std::io::{self, Error, ErrorKind, Read, Write};

/// How often a call is made in a row while it is interrupted: once, and 1000 times again.
const TURNS: u32 = 1001;

/// Passes the calls of a reader or a writer on, and counts its faults: calls that answered a fault,
/// and writes of at least one byte that took none.
///
/// A call that is interrupted is made again, at most 1000 times in a row. Then it is answered as a
/// fault of kind `Other` and counted once. It takes no memory.
#[derive(Drop)]
pub struct Counted<T> {
    inner: T,
    count: u64,
}

impl<T> Counted<T> {
    ghost use Rattle.awari_streams.specs.Counted.{inner_of, faults_of, one_more};

    /// Takes this reader or writer, with no fault counted yet.
    pub fn new(inner: T) -> Self
        ensures inner { inner_of result ≡ inner }
        ensures faults { faults_of result ≡ 0 }
    {
        Counted { inner, count: 0 }
    }

    /// The reader or writer itself.
    pub fn into_inner(self) -> T
        ensures { result ≡ inner_of self }
    {
        self.inner
    }

    /// How many faults there were so far, at most the greatest u64.
    pub fn faults(&self) -> u64
        ensures { result ≡ faults_of self.now }
    {
        self.count
    }

    fn add_fault(&mut self)
        ensures inner { inner_of self.new ≡ inner_of self.old }
        ensures count { faults_of self.new ≡ one_more (faults_of self.old) }
        ensures never_less { faults_of self.old ≤ faults_of self.new }
    {
        self.count = self.count.saturating_add(1);
    }
}

fn gave_up() -> Error
    ensures { error_kind result ≡ ErrorKind.Other }
{
    Error::other("interrupted 1001 times in a row")
}

/// A call of a reader or a writer.
trait Call<T> {
    type Answer;

    /// The bytes that the stream has left, or holds.
    ghost bytes: { T → Option (List ℕ) };

    /// What such an answer says of those bytes, before and after, and of the room for what is read.
    ghost gives: { Option (List ℕ) → Option (List ℕ) → Self → List ℕ → Self.Answer → Type 0 };

    /// Makes the call. What is read goes to `room`, and nothing else does.
    fn make(&self, stream: &mut T, room: &mut [u8]) -> io::Result<Self::Answer>
        ensures given { IfOk result (λ answer. gives (bytes stream.old) (bytes stream.new) self.now room.new answer) }
        ensures kept { OnErr result (Keeps (bytes stream.old) (bytes stream.new)) };
}

#[derive(Drop)]
struct Reading;

impl<R: Read> Call<R> for Reading {
    type Answer = usize;

    ghost bytes = { R.remaining };

    ghost gives = { λ old new call room n. (n ≤ length room) × (n ≡ length (take n room)) × Consumes old new (take n room) × (n ≡ 0 → 0 < length room → IsAtEnd new) };

    fn make(&self, stream: &mut R, room: &mut [u8]) -> io::Result<usize> {
        stream.read(room)
    }
}

/// The bytes to be written.
#[derive(Drop)]
struct Writing<'a>(&'a [u8]);

impl<W: Write> Call<W> for Writing<'_> {
    type Answer = usize;

    ghost bytes = { W.contents };

    ghost gives = { λ old new call room n. (n ≤ length call.0.now) × Appends old new (take n call.0.now) };

    fn make(&self, stream: &mut W, _room: &mut [u8]) -> io::Result<usize> {
        stream.write(self.0)
    }
}

#[derive(Drop)]
struct Flushing;

impl<W: Write> Call<W> for Flushing {
    type Answer = ();

    ghost bytes = { W.contents };

    ghost gives = { λ old new call room answer. Keeps old new };

    fn make(&self, stream: &mut W, _room: &mut [u8]) -> io::Result<()> {
        stream.flush()
    }
}

impl<T> Counted<T> {
    ghost use Rattle.awari_streams.specs.Counted.{inner_of, faults_of, one_more};

    /// Makes the call, and makes it again while it is interrupted, at most 1001 times in all. A fault
    /// is counted.
    fn repeat<C: Call<T>>(&mut self, call: &C, room: &mut [u8]) -> io::Result<C::Answer>
        ensures given { IfOk result (λ answer. (mid : Option (List ℕ)) × Keeps (C.bytes (inner_of self.old)) mid
            × C.gives mid (C.bytes (inner_of self.new)) call.now room.new answer) }
        ensures kept { OnErr result (Keeps (C.bytes (inner_of self.old)) (C.bytes (inner_of self.new))) }
        ensures ok { OnOk result (faults_of self.new ≡ faults_of self.old) }
        ensures err { OnErr result (faults_of self.new ≡ one_more (faults_of self.old)) }
        ensures never_less { faults_of self.old ≤ faults_of self.new }
        ensures retried { IfErr result (λ e. error_kind e ≢ ErrorKind.Interrupted) }
    {
        for _ in 0..TURNS {
            match call.make(&mut self.inner, room) {
                Ok(answer) => return Ok(answer),
                Err(e) => {
                    if e.kind() != ErrorKind::Interrupted {
                        self.add_fault();
                        return Err(e);
                    }
                }
            }
        }
        self.add_fault();
        Err(gave_up())
    }
}

impl<R: Read> Read for Counted<R> {
    ghost use Rattle.awari_streams.specs.Counted.{inner_of, faults_of, one_more};

    ghost remaining = { λ c. R.remaining (inner_of c) };

    fn read(&mut self, buf: &mut [u8]) -> io::Result<usize>
        ensures bound { ReadsAtMost result buf.new }
        ensures bytes { ReadConsumes (R.remaining (inner_of self.old)) (R.remaining (inner_of self.new)) result buf.new }
        ensures ok { OnOk result (faults_of self.new ≡ faults_of self.old) }
        ensures err { OnErr result (faults_of self.new ≡ one_more (faults_of self.old)) }
        ensures never_less { faults_of self.old ≤ faults_of self.new }
        ensures retried { IfErr result (λ e. error_kind e ≢ ErrorKind.Interrupted) }
    {
        self.repeat(&Reading, buf)
    }
}

impl<W: Write> Write for Counted<W> {
    ghost use Rattle.awari_streams.specs.Counted.{AppendsFront, CountsWrite, inner_of, faults_of, one_more};

    ghost contents = { λ c. W.contents (inner_of c) };

    fn write(&mut self, buf: &[u8]) -> io::Result<usize>
        ensures bound { WritesAtMost result buf.now }
        ensures bytes { WriteAppends (W.contents (inner_of self.old)) (W.contents (inner_of self.new)) result buf.now }
        ensures counted { CountsWrite (length buf.now) result (faults_of self.old) (faults_of self.new) }
        ensures retried { IfErr result (λ e. error_kind e ≢ ErrorKind.Interrupted) }
    {
        let count = self.repeat(&Writing(buf), &mut [])?;
        if count == 0 && !buf.is_empty() {
            self.add_fault();
        }
        Ok(count)
    }

    fn flush(&mut self) -> io::Result<()>
        ensures bytes { Keeps (W.contents (inner_of self.old)) (W.contents (inner_of self.new)) }
        ensures ok { OnOk result (faults_of self.new ≡ faults_of self.old) }
        ensures err { OnErr result (faults_of self.new ≡ one_more (faults_of self.old)) }
        ensures never_less { faults_of self.old ≤ faults_of self.new }
        ensures retried { IfErr result (λ e. error_kind e ≢ ErrorKind.Interrupted) }
    {
        self.repeat(&Flushing, &mut [])
    }

    fn write_all(&mut self, buf: &[u8]) -> io::Result<()>
        ensures bytes { OnOk result (Appends (W.contents (inner_of self.old)) (W.contents (inner_of self.new)) buf.now) }
        ensures partly { OnErr result (AppendsFront (W.contents (inner_of self.old)) (W.contents (inner_of self.new)) buf.now) }
        ensures ok { OnOk result (faults_of self.new ≡ faults_of self.old) }
        ensures err { OnErr result (faults_of self.new ≡ one_more (faults_of self.old)) }
        ensures never_less { faults_of self.old ≤ faults_of self.new }
        ensures retried { IfErr result (λ e. error_kind e ≢ ErrorKind.Interrupted) }
    {
        let mut rest = buf;
        while !rest.is_empty() {
            let count = self.write(rest)?;
            if count == 0 {
                return Err(Error::from(ErrorKind::WriteZero));
            }
            rest = &rest[count..];
        }
        Ok(())
    }
}
