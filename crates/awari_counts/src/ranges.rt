//! The numbers that a column may have, each by its place among them.

ghost use Rattle.std.specs.Prelude.{◌≡◌, ◌<◌, ◌≤◌, ℕ, IfSome, IsNone, pos};
ghost use Rattle.awari_counts.specs.Ranges.{below_of, number_at, width_of};

use awari_queries::Column;

/// How far below 0 the least number of a column is.
fn below_of(column: Column) -> i64
    ensures { result ≡ pos (below_of column) }
{
    match column {
        Column::Value | Column::Other => 128,
        Column::Plan | Column::Captures | Column::Greedy => 1,
        Column::Trap => 280,
        Column::Rank | Column::Distance | Column::Moves | Column::Keep | Column::Waits => 0,
    }
}

/// How many numbers a column may have, where no distance is above the limit. Boards are not counted by rank.
pub(crate) fn width_of(column: Column, limit: u32) -> usize
    ensures width { result ≡ width_of limit column }
    ensures few { result ≤ 4294967296 }
{
    match column {
        Column::Rank => 0,
        Column::Value | Column::Other => 256,
        Column::Trap => 535,
        Column::Waits => 257,
        Column::Distance => limit as usize + 1,
        Column::Captures | Column::Greedy => 26,
        Column::Plan | Column::Moves | Column::Keep => 7,
    }
}

/// The place of a number among those that a column may have, where no distance is above the limit. There is
/// none if it is none of them.
pub(crate) fn place_of(column: Column, limit: u32, number: i64) -> Option<usize>
    ensures inside { IfSome result (λ place. place < width_of limit column) }
    ensures number { IfSome result (λ place. number ≡ number_at column place) }
    ensures none { IsNone result → (place : ℕ) → place < width_of limit column → number ≡ number_at column place → ⊥ }
{
    let below = below_of(column);
    let end = width_of(column, limit) as i64 - below;
    if number < -below || number >= end {
        return None;
    }
    Some((number + below) as usize)
}

/// The number at a place among those that a column may have.
pub(crate) fn number_at(column: Column, place: u32) -> i64
    ensures { result ≡ number_at column place }
{
    i64::from(place) - below_of(column)
}
