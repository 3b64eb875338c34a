//! A line of text, spelled piece by piece.

ghost use Rattle.std.specs.Prelude.{◌≡◌, ◌≤◌, ◌+◌, ◌++◌, ◌∷◌, [], length};
ghost use Rattle.std.specs.Fmt.{decimal, signed_decimal};
ghost use Rattle.arrayvec.specs.ArrayVec.{array_vec_len};

use arrayvec::ArrayVec;

/// Room for a line, in bytes.
pub const LINE_ROOM: usize = 80;

/// A line that is being spelled.
pub type TextLine = ArrayVec<u8, LINE_ROOM>;

/// Puts the text at the end of the line. Condition: the line has room for it.
pub fn push_text(line: &mut TextLine, text: &[u8])
    requires { array_vec_len line.old + length text.now ≤ LINE_ROOM }
    ensures items { line.new.items ≡ line.old.items ++ text.now }
    ensures len { array_vec_len line.new ≡ array_vec_len line.old + length text.now }
{
    let Ok(()) = line.try_extend_from_slice(text) else {
        unreachable!()
    };
}

/// Puts the number in decimal at the end of the line. Condition: the line has room for it.
#[tactic(auto, using(crate::proofs::Digits::one_digit, crate::proofs::Digits::more_digits))]
pub fn push_number(line: &mut TextLine, number: u64)
    requires { array_vec_len line.old + length (decimal number) ≤ LINE_ROOM }
    ensures items { line.new.items ≡ line.old.items ++ decimal number }
    ensures len { array_vec_len line.new ≡ array_vec_len line.old + length (decimal number) }
{
    if number < 10 {
        line.push(b'0' + number as u8);
        return;
    }
    push_number(line, number / 10);
    line.push(b'0' + (number % 10) as u8);
}

/// Puts the number in decimal, with its sign, at the end of the line. Condition: the line has room
/// for 6 bytes.
#[tactic(auto, using(crate::proofs::Digits::five_digits))]
pub fn push_signed(line: &mut TextLine, number: i16)
    requires { array_vec_len line.old + 6 ≤ LINE_ROOM }
    ensures items { line.new.items ≡ line.old.items ++ signed_decimal number }
    ensures len { array_vec_len line.new ≤ array_vec_len line.old + 6 }
{
    if number >= 0 {
        push_number(line, number as u64);
        return;
    }
    line.push(b'-');
    push_number(line, u64::from(number.unsigned_abs()));
}

/// The text, and the number in decimal behind it. Condition: the text has at most 76 bytes.
#[tactic(auto, using(crate::proofs::Digits::three_digits))]
pub fn numbered(text: &[u8], number: u8) -> TextLine
    requires { length text.now ≤ 76 }
    ensures items { result.items ≡ text.now ++ decimal number }
    ensures len { array_vec_len result ≤ length text.now + 3 }
{
    let mut line = TextLine::new();
    push_text(&mut line, text);
    push_number(&mut line, u64::from(number));
    line
}

/// The same with a line feed behind it. Condition: the text has at most 76 bytes.
pub fn numbered_line(text: &[u8], number: u8) -> TextLine
    requires { length text.now ≤ 76 }
    ensures { result.items ≡ text.now ++ decimal number ++ 10 ∷ [] }
{
    let mut line = numbered(text, number);
    line.push(b'\n');
    line
}
