//! Lines written to the output.

ghost use Rattle.std.specs.Prelude.{◌≡◌, ◌≤◌, ◌++◌, ◌∷◌, [], ◌↔◌, true, false, codes, length, map, take, IfNone, IfSome};
ghost use Rattle.std.specs.Io.KnownBytes.{Appends};
ghost use Rattle.awari_faults.specs.Parts.{said as faults_said};
ghost use Rattle.awari_faults.specs.Refusals.{refusal_text};
ghost use Rattle.awari_members.specs.Members.{line_text, said};
ghost use Rattle.awari_members.specs.Forms.{form_of};
ghost use Rattle.awari_streams.specs.Counted.{AppendsFront};

use crate::remarking::{Explained, Remarks};
use arrayvec::ArrayString;
use awari_faults::Refusal;
use awari_members::{Line, Member, form_of};
use std::fmt::{self, Display, Write as _};
use std::io::{ErrorKind, Write};

/// How many bytes of lines are written at once.
const ROOM: usize = 4096;

/// Writes the lines and a line feed, and flushes. True if the writer took them. Up to 4096 bytes go to
/// the writer in one call, so that no line of another process comes between them. It takes no memory.
pub fn print<W: Write, T: Display>(writer: &mut W, lines: &T) -> bool
    ensures { result ≡ true → IfSome (T.output lines.now) (λ text. Appends (W.contents writer.old) (W.contents writer.new) (text ++ 10 ∷ [])) }
{
    let mut text = ArrayString::<ROOM>::new();
    match writeln!(text, "{lines}") {
        Ok(()) => print_bytes(writer, text.as_bytes()),
        Err(_) => print_in_pieces(writer, lines),
    }
}

/// Writes lines for which there is no room at once, and a line feed, and flushes. True if the writer
/// took them.
fn print_in_pieces<W: Write, T: Display>(writer: &mut W, lines: &T) -> bool
    ensures { result ≡ true → IfSome (T.output lines.now) (λ text. Appends (W.contents writer.old) (W.contents writer.new) (text ++ 10 ∷ [])) }
{
    match writeln!(writer, "{lines}") {
        Ok(()) => writer.flush().is_ok(),
        Err(_) => false,
    }
}

/// Prints members as a line or as a JSON object, and says whether the writer took that. It takes no memory.
pub fn print_members<W: Write>(members: &[Member<'_>], json: bool, writer: &mut W) -> bool
    ensures { result ≡ true → Appends (W.contents writer.old) (W.contents writer.new) (line_text (form_of json false) (map said members.now) ++ 10 ∷ []) }
{
    let form = form_of(json, false);
    print(writer, &Line { members, form })
}

/// Writes the bytes of lines, and flushes. True if the writer took them.
pub fn print_bytes<W: Write>(writer: &mut W, lines: &[u8]) -> bool
    ensures { result ≡ true → Appends (W.contents writer.old) (W.contents writer.new) lines.now }
{
    writer.write_all(lines).is_ok() && writer.flush().is_ok()
}

/// Writes a refusal's line and a line feed, and flushes. True if the writer took that; it took no more than a front
/// of it if not. There is room for the line of any refusal. It takes no memory.
pub(crate) fn print_line<W: Write, T: Display>(writer: &mut W, line: &T) -> bool
    ensures whole { result ≡ true → IfSome (T.output line.now) (λ text. Appends (W.contents writer.old) (W.contents writer.new) (text ++ 10 ∷ [])) }
    ensures front { IfSome (T.output line.now) (λ text. AppendsFront (W.contents writer.old) (W.contents writer.new) (text ++ 10 ∷ [])) }
{
    let mut text = ArrayString::<ROOM>::new();
    match writeln!(text, "{line}") {
        Ok(()) => write_front(writer, text.as_bytes()),
        Err(_) => false,
    }
}

/// Writes bytes, and flushes. True if the writer took them; it took no more than a front of them if not.
fn write_front<W: Write>(writer: &mut W, bytes: &[u8]) -> bool
    ensures whole { result ≡ true → Appends (W.contents writer.old) (W.contents writer.new) bytes.now }
    ensures front { AppendsFront (W.contents writer.old) (W.contents writer.new) bytes.now }
{
    if write_pieces(writer, bytes) {
        return writer.flush().is_ok();
    }
    false
}

/// Writes bytes. True if the writer took them; it took no more than a front of them if not.
fn write_pieces<W: Write>(writer: &mut W, bytes: &[u8]) -> bool
    ensures whole { result ≡ true → Appends (W.contents writer.old) (W.contents writer.new) bytes.now }
    ensures front { AppendsFront (W.contents writer.old) (W.contents writer.new) bytes.now }
{
    let mut rest = bytes;
    for _turn in 0..u64::MAX {
        if rest.is_empty() {
            return true;
        }
        match write_piece(writer, rest) {
            Some(count) => rest = &rest[count..],
            None => return false,
        }
    }
    false
}

/// Writes some of these bytes, at least one: how many, 0 if the call was interrupted. None if the writer refuses.
fn write_piece<W: Write>(writer: &mut W, bytes: &[u8]) -> Option<usize>
    ensures taken { IfSome result (λ count. (count ≤ length bytes.now) × Appends (W.contents writer.old) (W.contents writer.new) (take count bytes.now)) }
    ensures refused { IfNone result (Appends (W.contents writer.old) (W.contents writer.new) []) }
{
    match writer.write(bytes) {
        Ok(0) => None,
        Ok(count) => Some(count),
        Err(fault) => match fault.kind() {
            ErrorKind::Interrupted => Some(0),
            _ => None,
        },
    }
}

/// A refusal. It is printed as `refused` and the faults.
#[derive(Clone, Copy)]
pub(crate) struct Refused(pub(crate) Refusal);

impl Display for Refused {
    ghost use Rattle.std.specs.Prelude.{◌++◌, Some, codes};

    ghost output = { λ refused. Some (codes "refused " ++ refusal_text (faults_said refused.0)) };

    fn fmt<W: fmt::Write>(&self, f: &mut fmt::Formatter<W>) -> fmt::Result {
        write!(f, "refused {}", self.0)
    }
}

/// The status of a command: 0 if its lines were written, 1 if not.
pub fn status_of(written: bool) -> u8
    ensures status { result ≤ 1 }
    ensures written { result ≡ 0 ↔ written ≡ true }
{
    u8::from(!written)
}

/// Writes a refusal, and gives the status 1. The writer holds its line then, or a front of it if the writer
/// refused. What it means is told as a remark.
pub fn refuse<W: Remarks>(writer: &mut W, refusal: Refusal) -> u8
    ensures status { result ≡ 1 }
    ensures told { AppendsFront (W.contents writer.old) (W.contents writer.new) (codes "refused " ++ refusal_text (faults_said refusal) ++ 10 ∷ []) }
{
    print_line(writer, &Refused(refusal));
    writer.remark(&Explained(refusal));
    1
}
