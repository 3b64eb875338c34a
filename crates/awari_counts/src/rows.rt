//! Rows of numbers of boards: a line for each number of a column that some boards have.

ghost use Rattle.std.specs.Prelude.{◌≡◌, ◌<◌, ◌≤◌, ◌++◌, ◌∷◌, [], ℕ, length, slice_index, true};
ghost use Rattle.std.specs.Io.KnownBytes.{Appends};
ghost use Rattle.awari_counts.specs.Ranges.{number_at};
ghost use Rattle.awari_counts.specs.RowHeads.{heads};
ghost use Rattle.awari_counts.specs.Rows.{row_lines, share_text};
ghost use Rattle.awari_facts.specs.Numbers.{column_member};
ghost use Rattle.awari_members.specs.Members.{said};

use crate::ranges::number_at;
use crate::shown::print_line;
use awari_facts::member_of;
use awari_members::{Form, Member};
use awari_queries::Column;
use std::io::Write;

/// A number of a column, by its place.
#[derive(Clone, Copy)]
pub(crate) struct Placed {
    pub(crate) column: Column,
    pub(crate) place: u32,
}

/// The member of a column with the number at a place.
fn member_at(placed: Placed) -> Member<'static>
    ensures { said result ≡ column_member placed.column (number_at placed.column placed.place) }
{
    let Placed { column, place } = placed;
    member_of(column, number_at(column, place))
}

/// A row of numbers of boards.
#[derive(Clone, Copy)]
pub(crate) struct Row {
    /// A number of another column that all these boards have, if there are two columns.
    pub(crate) beside: Option<Placed>,
    /// The column by whose numbers they are counted.
    pub(crate) column: Column,
}

/// Prints the number at a place and how many boards have it, and says whether the writer took that.
fn print_share<W: Write>(row: Row, place: u32, boards: u32, form: Form, writer: &mut W) -> bool
    ensures { result ≡ true → Appends (W.contents writer.old) (W.contents writer.new) (share_text form (heads form row) (column_member row.column (number_at row.column place)) boards ++ 10 ∷ []) }
{
    let column = row.column;
    let share = member_at(Placed { column, place });
    let boards = Member::number("boards", u64::from(boards));
    if let Some(other) = row.beside {
        return print_line(&[member_at(other), share, boards], form, writer);
    }
    match form {
        Form::Csv => {
            let name = Member::text("column", column.name());
            print_line(&[name, share, boards], form, writer)
        }
        Form::Text | Form::Json => print_line(&[share, boards], form, writer),
    }
}

/// Prints a line for each number of a row that some boards have, and says whether the writer took them. These
/// are how many boards have each, by its place.
pub(crate) fn print_row<W: Write>(counts: &[u32], row: Row, form: Form, writer: &mut W) -> bool
    requires { length counts.now ≤ 4294967296 }
    ensures { (boards : ℕ → ℕ) → ((k : ℕ) → k < length counts.now → slice_index counts.now k ≡ boards k) → result ≡ true
        → Appends (W.contents writer.old) (W.contents writer.new) (row_lines form (heads form row) row.column boards (length counts.now)) }
{
    for place in 0..counts.len() {
        let boards = counts[place];
        if boards == 0 {
            continue;
        }
        if !print_share(row, place as u32, boards, form, writer) {
            return false;
        }
    }
    true
}
