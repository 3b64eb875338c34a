//! Answers as JSON, each a line.

ghost use Rattle.std.specs.Prelude.{◌≡◌, ◌≤◌, ◌+◌, ◌++◌, codes, length, map};
ghost use Rattle.arrayvec.specs.ArrayVec.{array_vec_len};
ghost use Rattle.awari_members.specs.Json.{commas};
ghost use Rattle.awari_members.specs.Members.{marked, room_of, said};
ghost use Rattle.awari_shown.specs.Json.{entry_json, entry_members, move_json, refusal_json, weighed_json};
ghost use Rattle.awari_members.specs.declared.forms.Form.TheVariants as form;

use crate::moves::{is_planned, push_worth};
use awari_board::Board;
use awari_faults::name_of;
use awari_members::{
    ANSWER_ROOM, AnswerText, Form, Member, push_bytes, push_comma, push_members, push_string,
};
use awari_play::{Weighed, WeighedMove};
use awari_table::Entry;

/// The line of a board and its entry. It takes no memory.
pub fn entry_json(board: &Board, entry: Entry) -> AnswerText
    ensures { result.items ≡ entry_json board.now entry }
{
    let mut text = AnswerText::new();
    push_entry(&mut text, board, entry);
    push_bytes(&mut text, b"}\n");
    text
}

/// The line of a board that was weighed: its entry, and each legal move with what is known of it. It
/// takes no memory.
pub fn weighed_json(board: &Board, weighed: &Weighed) -> AnswerText
    ensures { result.items ≡ weighed_json board.now weighed.now }
{
    let mut text = AnswerText::new();
    push_entry(&mut text, board, weighed.entry);
    push_bytes(&mut text, b",\"moves\":[");
    push_moves(&mut text, weighed.entry.plan, weighed.moves.as_slice());
    push_bytes(&mut text, b"]}\n");
    text
}

/// The line of a request that was refused: its bytes, and the number of the refusal with its name. Condition: the
/// request has at most 200 bytes. It takes no memory.
pub fn refusal_json(request: &[u8], number: u8) -> AnswerText
    requires { length request.now ≤ 200 }
    ensures { result.items ≡ refusal_json request.now number }
{
    let mut text = AnswerText::new();
    push_bytes(&mut text, b"{\"request\":");
    push_string(&mut text, request);
    let name = Member::text("name", name_of(number));
    let number = Member::number("refused", u64::from(number));
    push_members(&mut text, Form::Json, b",", &[number, name]);
    push_bytes(&mut text, b"}\n");
    text
}

/// The members of a board and its entry.
pub fn entry_members(board: &Board, entry: Entry) -> [Member<'static>; 4]
    ensures said { map said result ≡ entry_members board.now entry }
    ensures room { room_of result ≤ 136 }
{
    [
        Member::board("board", *board),
        Member::signed("value", i64::from(entry.value)),
        Member::pit("plan", entry.plan),
        Member::number("distance", u64::from(entry.dist)),
    ]
}

/// Opens an object, and puts the members of an entry.
fn push_entry(text: &mut AnswerText, board: &Board, entry: Entry)
    requires { array_vec_len text.old + 136 ≤ ANSWER_ROOM }
    ensures items { text.new.items ≡ text.old.items ++ marked form.Json (codes "{") (entry_members board.now entry) }
    ensures len { array_vec_len text.new ≤ array_vec_len text.old + 136 }
{
    push_members(text, Form::Json, b"{", &entry_members(board, entry));
}

/// Puts the moves, with commas between them.
fn push_moves(text: &mut AnswerText, plan: Option<u8>, moves: &[WeighedMove])
    requires few { length moves.now ≤ 6 }
    requires room { array_vec_len text.old + 1180 ≤ ANSWER_ROOM }
    ensures items { text.new.items ≡ text.old.items ++ commas (map (move_json plan) moves.now) }
    ensures len { array_vec_len text.new ≤ array_vec_len text.old + 1180 }
{
    for (index, weighed) in moves.iter().enumerate() {
        push_comma(text, index);
        push_move(text, plan, *weighed);
    }
}

/// Puts a move.
fn push_move(text: &mut AnswerText, plan: Option<u8>, weighed: WeighedMove)
    requires { array_vec_len text.old + 194 ≤ ANSWER_ROOM }
    ensures items { text.new.items ≡ text.old.items ++ move_json plan weighed }
    ensures len { array_vec_len text.new ≤ array_vec_len text.old + 194 }
{
    let is_plan = is_planned(plan, weighed.worth.pit);
    push_worth(text, Form::Json, b"{", weighed);
    push_members(text, Form::Json, b",", &[Member::truth("plan", is_plan)]);
    text.push(b'}');
}
