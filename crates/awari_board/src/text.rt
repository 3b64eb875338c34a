//! Boards as text, as `0,0,0,0,0,12/4,0,0,0,0,0`.

ghost use Rattle.std.specs.Prelude.{◌≡◌, ◌≢◌, All, false, true, ℕ, ◌+◌, ◌*◌, ◌++◌, ◌<◌, ◌≤◌, ◌↔◌, IsTrue, IsNone, IfNone, IfSome, drop, length, slice_index, sum};
ghost use Rattle.arrayvec.specs.ArrayVec.{array_vec_len};
ghost use Rattle.awari_board.specs.BoardFault.{IsFaulty, number_of, reason_of};
ghost use Rattle.awari_faults.specs.Parts.{reason_said};
ghost use Rattle.awari_board.specs.Text.{IsReadAs, IsShaped, digits, is_separator, mark_after, marks};

use crate::sides::SIDE;
use arrayvec::ArrayVec;
use awari_faults::Reason;
use std::fmt;
use thiserror::Error;

/// The separators between the twelve pits of a text, in order.
const MARKS: [u8; 11] = *b",,,,,/,,,,,";

/// Why a text is not a board. A fault is answered only if none of those above it is due. It is
/// printed as its number and its name.
#[derive(Clone, Copy, Debug, PartialEq, Eq, Error)]
pub enum BoardFault {
    /// 1: the text is not twelve fields with five commas, a slash and five commas between them.
    Shape,
    /// 2: a field is neither `0` nor one or two digits that begin with 1 to 9.
    Number,
    /// 3: the numbers come to more than 48.
    TooMany,
}

impl BoardFault {
    /// The number of this refusal, 1 to 3.
    pub fn number(self) -> u8
        ensures { result ≡ number_of self }
    {
        match self {
            BoardFault::Shape => 1,
            BoardFault::Number => 2,
            BoardFault::TooMany => 3,
        }
    }

    /// What is told of it: its number.
    pub fn reason(self) -> Reason
        ensures { reason_said result ≡ reason_of self }
    {
        Reason::alone(self.number())
    }
}

impl fmt::Display for BoardFault {
    ghost use Rattle.std.specs.Prelude.{Some};
    ghost use Rattle.awari_faults.specs.Refusals.{words_text};
    ghost use Rattle.awari_board.specs.BoardFault.{reason_of};

    ghost output = { λ fault. Some (words_text (reason_of fault)) };

    fn fmt<W: fmt::Write>(&self, f: &mut fmt::Formatter<W>) -> fmt::Result {
        write!(f, "{}", self.reason())
    }
}

/// Whether `text` is twelve fields with five commas, a slash and five commas between them.
pub fn is_shaped(text: &[u8]) -> bool
    ensures { IsTrue result ↔ IsShaped text.now }
{
    let mut seen: usize = 0;
    for byte in text {
        if is_separator(*byte) {
            if !is_mark(seen, *byte) {
                return false;
            }
            seen += 1;
        }
    }
    seen == MARKS.len()
}

/// Whether `byte` is the separator that is due after `seen` others.
fn is_mark(seen: usize, byte: u8) -> bool
    ensures { IsTrue result ↔ ((seen < 11) × (byte ≡ slice_index marks seen)) }
{
    seen < MARKS.len() && byte == MARKS[seen]
}

fn is_separator(byte: u8) -> bool
    ensures { result ≡ is_separator byte }
{
    byte == b',' || byte == b'/'
}

/// The twelve numbers of a text of the right shape, or none if a field is not a number below 100.
pub fn read_pits(text: &[u8]) -> Option<[u8; 12]>
    requires { IsShaped text.now }
    ensures read { IfSome result (IsReadAs text.now) }
    ensures none { IfNone result (IsFaulty text.now BoardFault.Number) }
{
    let mut pits = [0; 12];
    let mut rest = text;
    for place in 0..12 {
        let (field, others) = split_field(rest);
        match number(field) {
            Some(stones) => pits[place] = stones,
            None => return None,
        }
        rest = after_first(others);
    }
    Some(pits)
}

/// The bytes of `text` before its first separator, and those from it on.
fn split_field(text: &[u8]) -> (&[u8], &[u8])
    ensures whole { text.now ≡ result.0.now ++ result.1.now }
    ensures field { All (λ b. is_separator b ≡ false) result.0.now }
    ensures stop { 0 < length result.1.now → is_separator (slice_index result.1.now 0) ≡ true }
{
    let mut end = 0;
    for byte in text {
        if is_separator(*byte) {
            break;
        }
        end += 1;
    }
    (&text[..end], &text[end..])
}

fn after_first(bytes: &[u8]) -> &[u8]
    ensures { result.now ≡ drop 1 bytes.now }
{
    if bytes.is_empty() { bytes } else { &bytes[1..] }
}

/// The number below 100 that `field` spells, without a leading zero.
fn number(field: &[u8]) -> Option<u8>
    ensures some { (n : ℕ) → (result ≡ Some n) ↔ ((n < 100) × (field.now ≡ digits n)) }
    ensures none { IsNone result → (n : ℕ) → n < 100 → field.now ≢ digits n }
{
    match field {
        [ones @ b'0'..=b'9'] => Some(*ones - b'0'),
        [tens @ b'1'..=b'9', ones @ b'0'..=b'9'] => Some((*tens - b'0') * 10 + (*ones - b'0')),
        _ => None,
    }
}

/// The numbers of a text together, which can be more than a board's stones.
pub fn total(pits: &[u8; 12]) -> u16
    ensures { result ≡ sum pits.now }
{
    let mut total: u16 = 0;
    for stones in pits {
        total += u16::from(*stones);
    }
    total
}

/// Writes the stones of pit `place`, and the separator before the next pit.
pub fn push_pit(text: &mut ArrayVec<u8, 35>, place: u8, stones: u8)
    requires place { place < 12 }
    requires stones { stones < 100 }
    requires room { array_vec_len text.old ≤ 3 * place }
    ensures items { text.new.items ≡ text.old.items ++ (digits stones ++ mark_after place) }
    ensures room { array_vec_len text.new ≤ 3 * place + 3 }
{
    push_number(text, stones);
    if place < 11 {
        text.push(if place == SIDE - 1 { b'/' } else { b',' });
    }
}

fn push_number(text: &mut ArrayVec<u8, 35>, number: u8)
    requires small { number < 100 }
    requires room { array_vec_len text.old ≤ 33 }
    ensures items { text.new.items ≡ text.old.items ++ digits number }
    ensures room { array_vec_len text.new ≤ array_vec_len text.old + 2 }
{
    if number >= 10 {
        text.push(b'0' + number / 10);
    }
    text.push(b'0' + number % 10);
}
