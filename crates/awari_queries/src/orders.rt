//! By which number boards are sorted.

ghost use Rattle.std.specs.Prelude.{◌≡◌, ◌≤ℤ◌, IfErr, IfOk, IfSome, IsNone, neg_ℤ, pos};
ghost use Rattle.awari_queries.specs.Orders.{AsksForOrder, HasNoOrder, IsOrder, key_of};

use crate::columns::{Column, NoColumn, column_of};

/// The order in which boards are sorted.
#[derive(Clone, Copy, Debug, PartialEq, Eq)]
pub struct Order {
    /// The number by which they are sorted.
    pub by: Column,
    /// Whether the greatest comes first.
    pub descending: bool,
}

/// The order that a word names: a column's name, or `-` and a column's name.
fn order_of(word: &str) -> Option<Order>
    ensures some { IfSome result (IsOrder word.now) }
    ensures none { IsNone result → (order : Order) → IsOrder word.now order → ⊥ }
{
    match word.strip_prefix('-') {
        Some(name) => Some(Order {
            by: column_of(name)?,
            descending: true,
        }),
        None => Some(Order {
            by: column_of(word)?,
            descending: false,
        }),
    }
}

/// The order that a word asks for, if there is one. It is refused as 96 if the word names no column.
pub fn asked_order(word: Option<&str>) -> Result<Option<Order>, NoColumn>
    ensures asked { IfOk result (AsksForOrder word.entry) }
    ensures none { IfErr result (HasNoOrder word.entry) }
{
    let Some(word) = word else {
        return Ok(None);
    };
    match order_of(word) {
        Some(order) => Ok(Some(order)),
        None => Err(NoColumn::Sort),
    }
}

/// The number by which the first ones come, the least first: it is turned round where the greatest is wanted
/// first. Condition: the number is not below -2^32.
pub fn key_of(order: Order, number: i64) -> i64
    requires { neg_ℤ (pos 4294967296) ≤ℤ number }
    ensures { result ≡ key_of order number }
{
    if order.descending { -number } else { number }
}
