//! Lines of boards, written many at once.

ghost use Rattle.std.specs.Prelude.{◌≡◌, ◌<◌, ◌≤◌, ◌+◌, ◌++◌, ◌∷◌, [], true, length, map};
ghost use Rattle.arrayvec.specs.ArrayVec.{array_vec_len};
ghost use Rattle.awari_members.specs.Members.{names_text, room_of, said};
ghost use Rattle.awari_levels.specs.Listing.{added_members, asked_member, header_text, line_members, line_of, names_asked};
ghost use Rattle.awari_levels.specs.Batches.{Passes};

use arrayvec::ArrayVec;
use awari_board::Board;
use awari_facts::member_of;
use awari_members::{AnswerText, Form, Member, push_names, push_row};
use awari_queries::{Added, Column};
use awari_shown::entry_members;
use awari_table::Entry;
use std::io::Write;

/// How many bytes of lines are kept before they are written.
const ROOM: usize = 4096;

/// Room for one line.
const LINE: usize = 384;

/// Lines that are not written yet.
pub(crate) type Batch = ArrayVec<u8, ROOM>;

/// The members of a board's line.
type LineMembers = ArrayVec<Member<'static>, 10>;

/// Puts text behind lines. Condition: there is room for it.
fn push_text(batch: &mut Batch, text: &[u8])
    requires { array_vec_len batch.old + length text.now ≤ ROOM }
    ensures items { batch.new.items ≡ batch.old.items ++ text.now }
    ensures len { array_vec_len batch.new ≡ array_vec_len batch.old + length text.now }
{
    let Ok(()) = batch.try_extend_from_slice(text) else {
        unreachable!()
    };
}

/// Writes the lines if there is no room for this many bytes more, and says whether the writer took them.
fn make_room<W: Write>(batch: &mut Batch, bytes: usize, writer: &mut W) -> bool
    requires { bytes ≤ ROOM }
    ensures written { result ≡ true → Passes (W.contents writer.old) (W.contents writer.new) batch.old.items batch.new.items [] }
    ensures room { result ≡ true → array_vec_len batch.new + bytes ≤ ROOM }
{
    if batch.len() <= ROOM - bytes {
        return true;
    }
    if writer.write_all(batch.as_slice()).is_err() {
        return false;
    }
    batch.clear();
    true
}

/// The numbers of a board's line.
#[derive(Clone, Copy)]
pub(crate) struct LineNumbers {
    /// Its entry.
    pub(crate) entry: Entry,
    /// How many moves are legal, if that is asked for.
    pub(crate) moves: Option<i64>,
    /// How many of these keep the value, likewise.
    pub(crate) keep: Option<i64>,
    /// The stones of the largest capture, likewise.
    pub(crate) greedy: Option<i64>,
    /// The stones that are thrown away by it, likewise.
    pub(crate) trap: Option<i64>,
    /// The value to the opponent, if the opponent were to move, likewise.
    pub(crate) other: Option<i64>,
    /// The stones that the mover loses by having to move, likewise.
    pub(crate) waits: Option<i64>,
}

/// Puts the member of a column behind others, if its number is asked for. Condition: there is room for it.
fn push_asked(members: &mut LineMembers, column: Column, number: Option<i64>)
    requires room { array_vec_len members.old < 10 }
    ensures items { map said members.new.items ≡ map said members.old.items ++ asked_member column number }
    ensures len { array_vec_len members.new ≤ array_vec_len members.old + 1 }
    ensures room { room_of members.new.items ≤ room_of members.old.items + 33 }
{
    if let Some(number) = number {
        members.push(member_of(column, number));
    }
}

/// Puts the members of all columns that are asked for behind others. Condition: there is room for them.
fn push_added(members: &mut LineMembers, numbers: LineNumbers)
    requires { array_vec_len members.old ≤ 4 }
    ensures items { map said members.new.items ≡ map said members.old.items ++ added_members numbers }
    ensures room { room_of members.new.items ≤ room_of members.old.items + 198 }
{
    push_asked(members, Column::Moves, numbers.moves);
    push_asked(members, Column::Keep, numbers.keep);
    push_asked(members, Column::Greedy, numbers.greedy);
    push_asked(members, Column::Trap, numbers.trap);
    push_asked(members, Column::Other, numbers.other);
    push_asked(members, Column::Waits, numbers.waits);
}

/// The members of a board's line.
fn members_of(board: &Board, numbers: LineNumbers) -> LineMembers
    ensures said { map said result.items ≡ line_members board.now numbers }
    ensures room { room_of result.items ≤ 334 }
{
    let mut members = LineMembers::new();
    let Ok(()) = members.try_extend_from_slice(&entry_members(board, numbers.entry)) else {
        unreachable!()
    };
    push_added(&mut members, numbers);
    members
}

/// Numbers of no board, for the names that lines with those that are asked for have.
fn names_asked(added: Added) -> LineNumbers
    ensures { result ≡ names_asked added }
{
    LineNumbers {
        entry: Entry::NONE,
        moves: added.moves.then_some(0),
        keep: added.keep.then_some(0),
        greedy: added.greedy.then_some(0),
        trap: added.trap.then_some(0),
        other: added.other.then_some(0),
        waits: added.waits.then_some(0),
    }
}

/// The names of the members of a line with these numbers, with a line feed.
fn names_of(numbers: LineNumbers) -> AnswerText
    ensures { result.items ≡ names_text (line_members [] numbers) ++ 10 ∷ [] }
{
    let mut names = AnswerText::new();
    push_names(
        &mut names,
        members_of(&Board::new([0; 12]), numbers).as_slice(),
    );
    names.push(b'\n');
    names
}

/// Lines that have what stands above those of boards.
#[tactic(auto, unfolding(crate::specs::Listing::header_text))]
pub(crate) fn new_batch(form: Form, added: Added) -> Batch
    ensures { result.items ≡ header_text form added }
{
    let mut batch = Batch::new();
    if form != Form::Csv {
        return batch;
    }
    push_text(&mut batch, names_of(names_asked(added)).as_slice());
    batch
}

/// Puts the line of a board behind others. These are written first if there is no room. True if the writer took
/// what was written.
pub(crate) fn push_board<W: Write>(
    batch: &mut Batch,
    form: Form,
    board: &Board,
    numbers: LineNumbers,
    writer: &mut W,
) -> bool
    ensures { result ≡ true → Passes (W.contents writer.old) (W.contents writer.new) batch.old.items batch.new.items (line_of form board.now numbers) }
{
    if !make_room(batch, LINE, writer) {
        return false;
    }
    push_line(batch, form, board, numbers);
    true
}

/// Puts the line of a board behind others. Condition: there is room for a line.
fn push_line(batch: &mut Batch, form: Form, board: &Board, numbers: LineNumbers)
    requires { array_vec_len batch.old + LINE ≤ ROOM }
    ensures { batch.new.items ≡ batch.old.items ++ line_of form board.now numbers }
{
    let mut line = AnswerText::new();
    push_row(&mut line, form, members_of(board, numbers).as_slice());
    line.push(b'\n');
    push_text(batch, line.as_slice());
}
