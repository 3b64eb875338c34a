//! The service: requests in, and an answer to each out.

ghost use Rattle.std.specs.Prelude.{◌≡◌, ◌++◌, ◌∷◌, [], ℕ, List, Option, OnOk, OnErr};
ghost use Rattle.std.specs.Io.KnownBytes.{Appends};
ghost use Rattle.awari_streams.specs.Counted.{AppendsFront, inner_of, faults_of};
ghost use Rattle.awari_desk.specs.Coming.{Holds, Serving, Responds, Feeds, Ends, Moves};
ghost use Rattle.awari_desk.specs.Service.{IsInput, HasServed, HasServedWithin, HasBegun, HasBegunWithin};
ghost use Rattle.awari_desk.specs.ServeFault.{TellsEnd, TellsWriter};

use crate::answers::{Answer, text_of_answer};
use crate::faults::ServeFault;
use crate::oracles::Oracle;
use crate::requests::Coming;
use awari_streams::Counted;
use std::io::{Read, Write};

/// The most bytes that a service takes.
pub const LONGEST_INPUT: u32 = 100_000_000;

/// How many bytes the input is asked for at once.
const BUFFER_LEN: usize = 4096;

/// Writes the bytes and has them passed on. If the writer refuses, it took a front of them.
fn send<W: Write>(output: &mut Counted<W>, bytes: &[u8]) -> Result<(), ServeFault>
    ensures wrote { OnOk result (Appends (W.contents (inner_of output.old)) (W.contents (inner_of output.new)) bytes.now) }
    ensures partly { OnErr result (AppendsFront (W.contents (inner_of output.old)) (W.contents (inner_of output.new)) bytes.now) }
    ensures told { TellsWriter result (faults_of output.old) (faults_of output.new) }
{
    let Ok(()) = output.write_all(bytes) else {
        return Err(ServeFault::Write);
    };
    match output.flush() {
        Ok(()) => Ok(()),
        Err(_) => Err(ServeFault::Write),
    }
}

/// Answers the request that has come in, and says whether it ends the service.
fn respond<O: Oracle, W: Write>(
    oracle: &mut O,
    coming: &Coming,
    output: &mut Counted<W>,
) -> Result<bool, ServeFault>
    ensures responds { (request : List ℕ) → Holds coming.now request
        → Responds O.answering oracle.old request result oracle.new (W.contents (inner_of output.old)) (W.contents (inner_of output.new)) }
    ensures told { TellsWriter result (faults_of output.old) (faults_of output.new) }
{
    let answer = coming.answer(oracle);
    send(output, text_of_answer::<O>(&answer).as_slice())?;
    Ok(matches!(answer, Answer::Bye))
}

/// Takes one byte, and says whether it ends the service.
fn take_byte<O: Oracle, W: Write>(
    oracle: &mut O,
    coming: &mut Coming,
    byte: u8,
    output: &mut Counted<W>,
) -> Result<bool, ServeFault>
    ensures feeds { (first : O) (before : Option (List ℕ)) (taken : List ℕ)
        → Serving O.answering first before taken (W.contents (inner_of output.old)) oracle.old coming.old
        → Feeds O.answering first before (taken ++ byte ∷ []) result (W.contents (inner_of output.new)) oracle.new coming.new }
    ensures told { TellsWriter result (faults_of output.old) (faults_of output.new) }
{
    if byte != b'\n' {
        coming.push(byte);
        return Ok(false);
    }
    let quit = respond(oracle, coming, output)?;
    *coming = Coming::new();
    Ok(quit)
}

/// Takes bytes until one ends the service, and says whether one did.
fn feed<O: Oracle, W: Write>(
    oracle: &mut O,
    coming: &mut Coming,
    bytes: &[u8],
    output: &mut Counted<W>,
) -> Result<bool, ServeFault>
    ensures feeds { (first : O) (before : Option (List ℕ)) (taken : List ℕ)
        → Serving O.answering first before taken (W.contents (inner_of output.old)) oracle.old coming.old
        → Feeds O.answering first before (taken ++ bytes.now) result (W.contents (inner_of output.new)) oracle.new coming.new }
    ensures told { TellsWriter result (faults_of output.old) (faults_of output.new) }
{
    for byte in bytes {
        if take_byte(oracle, coming, *byte, output)? {
            return Ok(true);
        }
    }
    Ok(false)
}

/// Answers a last request that has no line feed, if there is one.
fn finish<O: Oracle, W: Write>(
    oracle: &mut O,
    coming: &Coming,
    output: &mut Counted<W>,
) -> Result<(), ServeFault>
    ensures ends { (first : O) (before : Option (List ℕ)) (taken : List ℕ)
        → Serving O.answering first before taken (W.contents (inner_of output.old)) oracle.old coming.now
        → Ends O.answering first before taken result (W.contents (inner_of output.new)) oracle.new }
    ensures told { TellsWriter result (faults_of output.old) (faults_of output.new) }
{
    if coming.is_empty() {
        return Ok(());
    }
    respond(oracle, coming, output)?;
    Ok(())
}

/// Asks the input once for bytes, of which `left` more may come, and answers each request that ends in
/// them. Gives how many more may come then, or none if the service has ended.
fn take_some<O: Oracle, R: Read, W: Write>(
    oracle: &mut O,
    coming: &mut Coming,
    left: u32,
    input: &mut Counted<R>,
    output: &mut Counted<W>,
) -> Result<Option<u32>, ServeFault>
    ensures moves { (first : O) (before : Option (List ℕ)) (taken : List ℕ)
        → Serving O.answering first before taken (W.contents (inner_of output.old)) oracle.old coming.old
        → Moves O.answering first before taken left (R.remaining (inner_of input.old)) (R.remaining (inner_of input.new)) result (W.contents (inner_of output.new)) oracle.new coming.new }
    ensures clean { OnOk result ((faults_of input.new ≡ faults_of input.old) × (faults_of output.new ≡ faults_of output.old)) }
    ensures told { TellsEnd result left (R.remaining (inner_of input.old)) (faults_of input.old) (faults_of input.new) (faults_of output.old) (faults_of output.new) }
{
    let mut buffer = [0u8; BUFFER_LEN];
    let count = match input.read(&mut buffer) {
        Ok(count) => count,
        Err(_) => return Err(ServeFault::Read),
    };
    if count == 0 {
        finish(oracle, coming, output)?;
        return Ok(None);
    }
    let came = &buffer[..count];
    if count <= left as usize {
        if feed(oracle, coming, came, output)? {
            return Ok(None);
        }
        return Ok(Some(left - count as u32));
    }
    if feed(oracle, coming, &came[..left as usize], output)? {
        return Ok(None);
    }
    Err(ServeFault::TooLong)
}

/// Answers the requests of the input by what the oracle says, in order, until one says `quit` or the input
/// ends. It answers each complete request before it calls the input again. It takes no memory and never
/// waits, but for what the oracle does; a [`Reader`](crate::Reader) does neither.
///
/// After a refusal it reads and writes nothing more:
///
/// - 90 `Read`: the input answered a fault.
/// - 91 `TooLong`: more than `LONGEST_INPUT` bytes came.
/// - 92 `Write`: the writer answered a fault, or took no byte.
pub fn serve<O: Oracle, R: Read, W: Write>(
    oracle: &mut O,
    input: &mut Counted<R>,
    output: &mut Counted<W>,
) -> Result<(), ServeFault>
    // What was written is the output for the input, if that is known.
    ensures served { OnOk result ((bytes : List ℕ) × IsInput (R.remaining (inner_of input.old)) bytes
        × HasServed O.answering oracle.old (W.contents (inner_of output.old)) bytes (W.contents (inner_of output.new)) oracle.new) }

    // If it is refused, what was written is the front of an output for a front of the input.
    ensures begun { OnErr result ((bytes : List ℕ) × IsInput (R.remaining (inner_of input.old)) bytes
        × HasBegun O.answering oracle.old (W.contents (inner_of output.old)) bytes (W.contents (inner_of output.new)) oracle.new) }

    // Either goes by no more than the first `LONGEST_INPUT` bytes. Ok comes only if the input has no
    // more, or a request within them says `quit`. Before a refusal nothing behind them is answered.
    ensures served_within { OnOk result (HasServedWithin O.answering LONGEST_INPUT oracle.old (W.contents (inner_of output.old)) (R.remaining (inner_of input.old)) (W.contents (inner_of output.new)) oracle.new) }
    ensures begun_within { OnErr result (HasBegunWithin O.answering LONGEST_INPUT oracle.old (W.contents (inner_of output.old)) (R.remaining (inner_of input.old)) (W.contents (inner_of output.new)) oracle.new) }

    // 90 comes only if the input gave a fault, 91 only if too many bytes came, and 92 only if the
    // writer gave a fault or took no byte.
    ensures told { TellsEnd result LONGEST_INPUT (R.remaining (inner_of input.old)) (faults_of input.old) (faults_of input.new) (faults_of output.old) (faults_of output.new) }
{
    let mut coming = Coming::new();
    let mut left = LONGEST_INPUT;
    while let Some(fewer) = take_some(oracle, &mut coming, left, input, output)? {
        left = fewer;
    }
    Ok(())
}
