//! What is asked of the levels in a folder, in words. Of the boards of a level: spans of numbers, the order in
//! which they come, and what else a board has to have. Words of a command name it, and the commands that read
//! answer it. Nothing here looks at a level.
//!
//! Whether a number that a board may have is in a span, in `crates/awari_queries/src/spans.rt`:
//!
//!     pub fn has(span: Option<Span>, number: Option<u8>) -> bool
//!         ensures { result ≡ has span number }
//!     {
//!         match number {
//!             None => span.is_none(),
//!             Some(number) => is_in(span, i64::from(number)),
//!         }
//!     }
#![tactic(auto)]

mod boards;
mod columns;
mod draws;
mod holding;
mod orders;
mod questions;
mod spans;

pub use boards::{Added, BoardSpans, BoardsQuery, Spans, asked_spans};
pub use columns::{Column, NoColumn, Pair, asked_pair};
pub use draws::{Draw, draw_of, is_taken, samples_are_as_large_as_wanted};
pub use holding::{Held, Holding};
pub use orders::{Order, asked_order, key_of};
pub use questions::{
    AskQuery, CountsQuery, LineQuery, MovesQuery, ServeQuery, TextQuery, VerifyQuery,
};
pub use spans::{NoSpan, Span, has, is_in};
