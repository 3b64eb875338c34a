//! The text of an answer, made in place.

ghost use Rattle.std.specs.Prelude.{◌≡◌, ◌≤◌, ◌<◌, ◌+◌, ◌*◌, ◌++◌, length};
ghost use Rattle.arrayvec.specs.ArrayVec.{array_vec_len};
ghost use Rattle.awari_members.specs.Json.{hex_digit, is_plain, json_string, string_byte};

use arrayvec::ArrayVec;
use awari_streams::TextLine;

/// Room, in bytes, for the text of any answer. The longest is the refusal, in JSON, of a line of 200
/// bytes, each of which may take six.
pub const ANSWER_ROOM: usize = 1400;

/// The text of an answer.
pub type AnswerText = ArrayVec<u8, ANSWER_ROOM>;

/// Puts bytes behind others. Condition: the text has room for them. It takes no memory.
pub fn push_bytes(text: &mut AnswerText, bytes: &[u8])
    requires { array_vec_len text.old + length bytes.now ≤ ANSWER_ROOM }
    ensures items { text.new.items ≡ text.old.items ++ bytes.now }
    ensures len { array_vec_len text.new ≡ array_vec_len text.old + length bytes.now }
{
    let Ok(()) = text.try_extend_from_slice(bytes) else {
        unreachable!()
    };
}

/// A text of this one line, for an answer of one line. There is room for any line, and for a line feed
/// behind it. It takes no memory.
pub fn text_of_line(line: &TextLine) -> AnswerText
    ensures text { result.items ≡ line.now.items }
    ensures room { array_vec_len result < ANSWER_ROOM }
{
    let mut text = AnswerText::new();
    push_bytes(&mut text, line.as_slice());
    text
}

/// Puts any bytes as a string of JSON. Condition: there is room for six bytes for each, and for the quotes. It
/// takes no memory.
pub fn push_string(text: &mut AnswerText, bytes: &[u8])
    requires { array_vec_len text.old + (6 * length bytes.now + 2) ≤ ANSWER_ROOM }
    ensures items { text.new.items ≡ text.old.items ++ json_string bytes.now }
    ensures len { array_vec_len text.new ≤ array_vec_len text.old + (6 * length bytes.now + 2) }
{
    text.push(b'"');
    for byte in bytes {
        push_string_byte(text, *byte);
    }
    text.push(b'"');
}

/// Puts a byte of a string.
fn push_string_byte(text: &mut AnswerText, byte: u8)
    requires { array_vec_len text.old + 6 ≤ ANSWER_ROOM }
    ensures items { text.new.items ≡ text.old.items ++ string_byte byte }
    ensures len { array_vec_len text.new ≤ array_vec_len text.old + 6 }
{
    if is_plain(byte) {
        text.push(byte);
        return;
    }
    push_bytes(text, b"\\u00");
    text.push(hex_digit(byte / 16));
    text.push(hex_digit(byte % 16));
}

/// Whether the byte stands for itself in a string.
fn is_plain(byte: u8) -> bool
    ensures { result ≡ is_plain byte }
{
    32 <= byte && byte <= 126 && byte != b'"' && byte != b'\\'
}

/// A hexadecimal digit in lower case, as a byte of a text. Condition: the value is below 16.
pub fn hex_digit(value: u8) -> u8
    requires { value < 16 }
    ensures { result ≡ hex_digit value }
{
    if value < 10 {
        b'0' + value
    } else {
        b'a' + (value - 10)
    }
}
