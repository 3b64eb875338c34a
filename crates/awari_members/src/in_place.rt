//! Members put into a text in place, with no memory.

ghost use Rattle.std.specs.Prelude.{◌≡◌, ◌≤◌, ◌+◌, ◌*◌, ◌++◌, [], length, map};
ghost use Rattle.std.specs.Fmt.{decimal, signed_decimal};
ghost use Rattle.arrayvec.specs.ArrayVec.{array_vec_len};
ghost use Rattle.awari_members.specs.Json.{array, comma_before, quoted};
ghost use Rattle.awari_members.specs.Members.{board_in, marked, member_text, name_in, names_text, room_of, row_text, said, string, value_text, valued, width};

use crate::forms::Form;
use crate::lines::{Member, mark_of};
use crate::texts::{ANSWER_ROOM, AnswerText, push_bytes};
use crate::values::{Value, missing, truth_text};
use awari_board::Board;
use awari_streams::{TextLine, push_number};

/// Puts members in a form behind others, with `mark` before the first of them. Conditions: the mark has at most
/// one byte, and there is room for the members. It takes no memory.
pub fn push_members(text: &mut AnswerText, form: Form, mark: &[u8], members: &[Member<'_>])
    requires short { length mark.now ≤ 1 }
    requires room { array_vec_len text.old + room_of members.now ≤ ANSWER_ROOM }
    ensures items { text.new.items ≡ text.old.items ++ marked form mark.now (map said members.now) }
    ensures len { array_vec_len text.new ≤ array_vec_len text.old + room_of members.now }
{
    let mut next = mark;
    for member in members {
        push_bytes(text, next);
        push_member(text, form, member);
        next = mark_of(form).as_bytes();
    }
}

/// Puts members as a row of a table: their values alone with spaces or commas, or an object. Condition: there is
/// room for the members and two bytes. It takes no memory.
pub fn push_row(text: &mut AnswerText, form: Form, members: &[Member<'_>])
    requires { array_vec_len text.old + (2 + room_of members.now) ≤ ANSWER_ROOM }
    ensures items { text.new.items ≡ text.old.items ++ row_text form (map said members.now) }
    ensures len { array_vec_len text.new ≤ array_vec_len text.old + (2 + room_of members.now) }
{
    match form {
        Form::Text | Form::Csv => push_values(text, form, members),
        Form::Json => {
            text.push(b'{');
            push_members(text, form, b"", members);
            text.push(b'}');
        }
    }
}

/// Puts values alone, with marks between them.
fn push_values(text: &mut AnswerText, form: Form, members: &[Member<'_>])
    requires { array_vec_len text.old + room_of members.now ≤ ANSWER_ROOM }
    ensures items { text.new.items ≡ text.old.items ++ valued form [] (map said members.now) }
    ensures len { array_vec_len text.new ≤ array_vec_len text.old + room_of members.now }
{
    let mut between: &[u8] = b"";
    for member in members {
        push_bytes(text, between);
        push_value(text, form, &member.value);
        between = mark_of(form).as_bytes();
    }
}

/// Puts the names of members with commas between them, as they stand above rows of CSV. Condition: there is room
/// for the members. It takes no memory.
pub fn push_names(text: &mut AnswerText, members: &[Member<'_>])
    requires { array_vec_len text.old + room_of members.now ≤ ANSWER_ROOM }
    ensures items { text.new.items ≡ text.old.items ++ names_text (map said members.now) }
    ensures len { array_vec_len text.new ≤ array_vec_len text.old + room_of members.now }
{
    let mut next: &[u8] = b"";
    for member in members {
        push_bytes(text, next);
        push_bytes(text, member.name.as_bytes());
        next = b",";
    }
}

/// Puts a member.
fn push_member(text: &mut AnswerText, form: Form, member: &Member<'_>)
    requires { array_vec_len text.old + (3 + length member.now.name.now + width member.now.value) ≤ ANSWER_ROOM }
    ensures items { text.new.items ≡ text.old.items ++ member_text form (said member.now) }
    ensures len { array_vec_len text.new ≤ array_vec_len text.old + (3 + length member.now.name.now + width member.now.value) }
{
    push_name(text, form, member.name.as_bytes());
    push_value(text, form, &member.value);
}

/// Puts a name, and what stands behind it.
fn push_name(text: &mut AnswerText, form: Form, name: &[u8])
    requires { array_vec_len text.old + (3 + length name.now) ≤ ANSWER_ROOM }
    ensures items { text.new.items ≡ text.old.items ++ name_in form name.now }
    ensures len { array_vec_len text.new ≤ array_vec_len text.old + (3 + length name.now) }
{
    match form {
        Form::Text => {
            push_bytes(text, name);
            text.push(b' ');
        }
        Form::Csv => {}
        Form::Json => {
            push_string_of(text, form, name);
            text.push(b':');
        }
    }
}

/// Puts a value.
fn push_value(text: &mut AnswerText, form: Form, value: &Value<'_>)
    requires { array_vec_len text.old + width value.now ≤ ANSWER_ROOM }
    ensures items { text.new.items ≡ text.old.items ++ value_text value.now form }
    ensures len { array_vec_len text.new ≤ array_vec_len text.old + width value.now }
{
    match *value {
        Value::Number(number) => push_decimal(text, number),
        Value::Signed(number) => push_integer(text, number),
        Value::Text(word) => push_string_of(text, form, word.as_bytes()),
        Value::Board(board) => push_board(text, form, board),
        Value::Pits(pits) => push_pits(text, pits),
        Value::Truth(truth) => push_bytes(text, truth_text(truth).as_bytes()),
        Value::Missing => push_bytes(text, missing(form).as_bytes()),
    }
}

/// Puts a board, in quotes but in a line with spaces.
fn push_board(text: &mut AnswerText, form: Form, board: Board)
    requires { array_vec_len text.old + 37 ≤ ANSWER_ROOM }
    ensures items { text.new.items ≡ text.old.items ++ board_in board form }
    ensures len { array_vec_len text.new ≤ array_vec_len text.old + 37 }
{
    let pits = board.print();
    match form {
        Form::Text => push_bytes(text, pits.as_slice()),
        Form::Csv | Form::Json => push_quoted(text, pits.as_slice()),
    }
}

/// Puts a text of bytes that stand for themselves, in quotes in JSON.
fn push_string_of(text: &mut AnswerText, form: Form, bytes: &[u8])
    requires { array_vec_len text.old + (length bytes.now + 2) ≤ ANSWER_ROOM }
    ensures items { text.new.items ≡ text.old.items ++ string bytes.now form }
    ensures len { array_vec_len text.new ≤ array_vec_len text.old + (length bytes.now + 2) }
{
    if form != Form::Json {
        push_bytes(text, bytes);
        return;
    }
    push_quoted(text, bytes);
}

/// Puts a text of bytes that stand for themselves, in quotes.
fn push_quoted(text: &mut AnswerText, bytes: &[u8])
    requires { array_vec_len text.old + (length bytes.now + 2) ≤ ANSWER_ROOM }
    ensures items { text.new.items ≡ text.old.items ++ quoted bytes.now }
    ensures len { array_vec_len text.new ≡ array_vec_len text.old + (length bytes.now + 2) }
{
    text.push(b'"');
    push_bytes(text, bytes);
    text.push(b'"');
}

/// Puts pits as an array.
fn push_pits(text: &mut AnswerText, pits: &[u8])
    requires { array_vec_len text.old + (21 * length pits.now + 2) ≤ ANSWER_ROOM }
    ensures items { text.new.items ≡ text.old.items ++ array (map decimal pits.now) }
    ensures len { array_vec_len text.new ≤ array_vec_len text.old + (21 * length pits.now + 2) }
{
    text.push(b'[');
    for (index, pit) in pits.iter().enumerate() {
        push_comma(text, index);
        push_decimal(text, u64::from(*pit));
    }
    text.push(b']');
}

/// Puts the comma before an element of this index, if it is not the first. Condition: there is room for it. It
/// takes no memory.
pub fn push_comma(text: &mut AnswerText, index: usize)
    requires { array_vec_len text.old + 1 ≤ ANSWER_ROOM }
    ensures items { text.new.items ≡ text.old.items ++ comma_before index }
    ensures len { array_vec_len text.new ≤ array_vec_len text.old + 1 }
{
    if index > 0 {
        text.push(b',');
    }
}

/// Puts a number in decimal, with its sign.
fn push_integer(text: &mut AnswerText, number: i64)
    requires { array_vec_len text.old + 21 ≤ ANSWER_ROOM }
    ensures items { text.new.items ≡ text.old.items ++ signed_decimal number }
    ensures len { array_vec_len text.new ≤ array_vec_len text.old + 21 }
{
    if number < 0 {
        text.push(b'-');
    }
    push_decimal(text, number.unsigned_abs());
}

/// Puts a number in decimal.
#[tactic(auto, using(awari_streams::proofs::Digits::twenty_digits))]
fn push_decimal(text: &mut AnswerText, number: u64)
    requires { array_vec_len text.old + 20 ≤ ANSWER_ROOM }
    ensures items { text.new.items ≡ text.old.items ++ decimal number }
    ensures len { array_vec_len text.new ≤ array_vec_len text.old + 20 }
{
    let mut line = TextLine::new();
    push_number(&mut line, number);
    push_bytes(text, line.as_slice());
}
