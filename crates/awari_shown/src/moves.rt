//! The lines that tell what the legal moves of a board are worth.

ghost use Rattle.std.specs.Prelude.{◌≡◌, ◌≤◌, ◌<◌, ◌+◌, ◌++◌, length};
ghost use Rattle.arrayvec.specs.ArrayVec.{array_vec_len};
ghost use Rattle.awari_members.specs.Members.{marked};
ghost use Rattle.awari_shown.specs.Moves.{end_line, is_planned, move_line, move_lines, plan_mark, weighed_text, worth_members};

use awari_members::{
    ANSWER_ROOM, AnswerText, Form, Member, push_bytes, push_members, text_of_line,
};
use awari_play::{Weighed, WeighedMove};
use awari_streams::{TextLine, push_signed, push_text};

/// A line for each move, with its line feed: the pit, what it captures, its value and its distance,
/// the replies to it if they were asked for, and whether it is the plan. If there is no move, it is
/// one line with what the mover gains by the end. It takes no memory.
pub fn weighed_text(weighed: &Weighed) -> AnswerText
    ensures text { result.items ≡ weighed_text weighed.now }
    ensures room { array_vec_len result < ANSWER_ROOM }
{
    if weighed.moves.is_empty() {
        return text_of_line(&line_of_end(weighed.entry.value));
    }
    lines_of(weighed.entry.plan, weighed.moves.as_slice())
}

/// The line of each move.
fn lines_of(plan: Option<u8>, moves: &[WeighedMove]) -> AnswerText
    requires { length moves.now ≤ 6 }
    ensures text { result.items ≡ move_lines plan moves.now }
    ensures room { array_vec_len result < ANSWER_ROOM }
{
    let mut text = AnswerText::new();
    for weighed in moves {
        push_move(&mut text, plan, *weighed);
    }
    text
}

/// Puts the line of a move behind others.
fn push_move(text: &mut AnswerText, plan: Option<u8>, weighed: WeighedMove)
    requires { array_vec_len text.old + 186 ≤ ANSWER_ROOM }
    ensures items { text.new.items ≡ text.old.items ++ move_line plan weighed }
    ensures len { array_vec_len text.new ≤ array_vec_len text.old + 186 }
{
    push_worth(text, Form::Text, b"", weighed);
    push_bytes(text, plan_mark(is_planned(plan, weighed.worth.pit)));
    text.push(b'\n');
}

/// Puts what is said of a move, with a mark before it.
pub(crate) fn push_worth(text: &mut AnswerText, form: Form, mark: &[u8], weighed: WeighedMove)
    requires short { length mark.now ≤ 1 }
    requires room { array_vec_len text.old + 180 ≤ ANSWER_ROOM }
    ensures items { text.new.items ≡ text.old.items ++ marked form mark.now (worth_members weighed) }
    ensures len { array_vec_len text.new ≤ array_vec_len text.old + 180 }
{
    let WeighedMove { worth, replies } = weighed;
    let pit = Member::number("pit", u64::from(worth.pit));
    let captures = Member::number("captures", u64::from(worth.captured));
    let value = Member::signed("value", i64::from(worth.value));
    let distance = Member::number("distance", worth.plies);
    let Some(replies) = replies else {
        push_members(text, form, mark, &[pit, captures, value, distance]);
        return;
    };
    let all = Member::number("replies", u64::from(replies.all));
    let keep = Member::number("keep", u64::from(replies.keep));
    push_members(
        text,
        form,
        mark,
        &[pit, captures, value, distance, all, keep],
    );
}

/// What marks the plan.
fn plan_mark(is_plan: bool) -> &'static [u8]
    ensures mark { result.now ≡ plan_mark is_plan }
    ensures len { length result.now ≤ 5 }
{
    if is_plan { b" plan" } else { b"" }
}

/// The line of a board that has no legal move, of which the mover gains this many stones.
fn line_of_end(gain: i8) -> TextLine
    ensures { result.items ≡ end_line gain }
{
    let mut line = TextLine::new();
    push_text(&mut line, b"ended ");
    push_signed(&mut line, i16::from(gain));
    line.push(b'\n');
    line
}

/// Whether this pit is the plan.
pub(crate) fn is_planned(plan: Option<u8>, pit: u8) -> bool
    ensures { result ≡ is_planned plan pit }
{
    match plan {
        Some(plan) => plan == pit,
        None => false,
    }
}
