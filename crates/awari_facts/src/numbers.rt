//! Numbers of a board, by column.

ghost use Rattle.std.specs.Prelude.{◌≡◌, ◌<◌, ◌≤◌, ℕ, List, IfSome, IsNone, IsSome, false, length, sum, true};
ghost use Rattle.awari_board.specs.Rules.{IsBoard};
ghost use Rattle.awari_members.specs.Members.{room_for, said};
ghost use Rattle.awari_rank.specs.Rank.{rank_of, size_of};
ghost use Rattle.awari_table.specs.declared.TheConstants.{HIGHEST_LEVEL};
ghost use Rattle.awari_table.specs.declared.images.Image.{Image};
ghost use Rattle.awari_facts.specs.Numbers.{IsAt, IsNumber, column_member, is_none, is_own, number_in, or_less};
ghost use Rattle.awari_facts.specs.Sources.{images_of};

use crate::facts::{largest_capture, legal_moves, plan_captures};
use crate::looks::{gains_of, lost_by_moving, moves_gaining, other_value, trap_by};
use crate::sources::{Levels, levels_in};
use awari_members::{Member, Value};
use awari_packed::PackedBoard;
use awari_queries::Column;
use awari_table::Entry;

/// The entry of a rank of a level.
#[derive(Clone, Copy)]
pub struct Seen {
    /// The level.
    pub level: u8,
    /// The rank of the board among those of the level.
    pub rank: u32,
    /// What is said of it.
    pub entry: Entry,
}

impl Seen {
    /// The board. Conditions: the level is at most 24, and has that many boards.
    pub fn board(&self) -> PackedBoard
        requires level { self.now.level ≤ HIGHEST_LEVEL }
        requires rank { self.now.rank < size_of self.now.level }
        ensures board { IsBoard result }
        ensures stones { sum result ≡ self.now.level }
        ensures rank { rank_of result ≡ self.now.rank }
        ensures at { (images : List Image) (board : List ℕ) → IsAt images self.now.level self.now.rank board self.now.entry → result ≡ board }
    {
        PackedBoard::unrank(self.level, self.rank)
    }
}

/// A number, or -1 for none.
fn or_less(number: Option<u8>) -> i64
    ensures { result ≡ or_less number }
{
    match number {
        None => -1,
        Some(number) => i64::from(number),
    }
}

/// Whether an entry and the rules say the number of a column, without a look at other boards.
pub fn is_own(column: Column) -> bool
    ensures { result ≡ is_own column }
{
    match column {
        Column::Keep | Column::Trap | Column::Other | Column::Waits => false,
        Column::Rank
        | Column::Value
        | Column::Distance
        | Column::Plan
        | Column::Captures
        | Column::Greedy
        | Column::Moves => true,
    }
}

/// The number of a column, if an entry and the rules say it. Conditions: the level is at most 24, and has that
/// many boards.
pub fn own_number(column: Column, seen: &Seen) -> Option<i64>
    requires level { seen.now.level ≤ HIGHEST_LEVEL }
    requires rank { seen.now.rank < size_of seen.now.level }
    ensures number { (images : List Image) (board : List ℕ) → IsAt images seen.now.level seen.now.rank board seen.now.entry → IfSome result (λ n. n ≡ number_in images column board) }
    ensures none { IsNone result → is_own column ≡ false }
    ensures own { is_own column ≡ true → IsSome result }
    ensures least { IfSome result IsNumber }
{
    match column {
        Column::Rank => Some(i64::from(seen.rank)),
        Column::Value => Some(i64::from(seen.entry.value)),
        Column::Distance => Some(i64::from(seen.entry.dist)),
        Column::Plan => Some(or_less(seen.entry.plan)),
        Column::Captures => Some(or_less(plan_captures(&seen.board(), seen.entry.plan))),
        Column::Greedy => Some(or_less(largest_capture(&seen.board()))),
        Column::Moves => Some(i64::from(legal_moves(&seen.board()))),
        Column::Keep | Column::Trap | Column::Other | Column::Waits => None,
    }
}

/// The number of a column that other boards say. Conditions as for [`number_of`].
fn looked_up(levels: Levels<'_>, column: Column, seen: &Seen) -> i64
    requires level { seen.now.level < length (images_of levels) }
    requires rank { seen.now.rank < size_of seen.now.level }
    requires column { is_own column ≡ false }
    ensures number { (board : List ℕ) → IsAt (images_of levels.entry) seen.now.level seen.now.rank board seen.now.entry → result ≡ number_in (images_of levels.entry) column board }
    ensures least { IsNumber result }
{
    // For the proof: there are at most 25 levels.
    let _levels = levels_in(levels);
    let board = seen.board();
    let value = seen.entry.value;
    match column {
        Column::Keep => i64::from(moves_gaining(&gains_of(levels, &board), value)),
        Column::Trap => trap_by(&gains_of(levels, &board), value),
        Column::Other => i64::from(other_value(levels, &board)),
        Column::Waits => lost_by_moving(legal_moves(&board), value, other_value(levels, &board)),
        Column::Rank
        | Column::Value
        | Column::Distance
        | Column::Plan
        | Column::Captures
        | Column::Greedy
        | Column::Moves => unreachable!(),
    }
}

/// The number of a column. Conditions: the level is there, and has that many boards.
pub fn number_of(levels: Levels<'_>, column: Column, seen: &Seen) -> i64
    requires level { seen.now.level < length (images_of levels) }
    requires rank { seen.now.rank < size_of seen.now.level }
    ensures number { (board : List ℕ) → IsAt (images_of levels.entry) seen.now.level seen.now.rank board seen.now.entry → result ≡ number_in (images_of levels.entry) column board }
    ensures least { IsNumber result }
{
    // For the proof: there are at most 25 levels.
    let _levels = levels_in(levels);
    match own_number(column, seen) {
        Some(number) => number,
        None => looked_up(levels, column, seen),
    }
}

/// Whether the number of a column stands for none.
fn is_none(column: Column, number: i64) -> bool
    ensures { result ≡ is_none column number }
{
    match column {
        Column::Plan | Column::Captures | Column::Greedy => number < 0,
        Column::Rank
        | Column::Value
        | Column::Distance
        | Column::Moves
        | Column::Keep
        | Column::Trap
        | Column::Other
        | Column::Waits => false,
    }
}

/// A column with its number, as a member.
pub fn member_of(column: Column, number: i64) -> Member<'static>
    ensures said { said result ≡ column_member column number }
    ensures room { room_for result ≤ 33 }
{
    if is_none(column, number) {
        return Member {
            name: column.name(),
            value: Value::Missing,
        };
    }
    Member::signed(column.name(), number)
}
