//! The boards of a block of a level that is being built.
//!
//! A [`Block`] is the boards of a level from one rank up to, not including, another. Its [`Boards`]
//! keep a [`Cell`] for each of them, with what is known of the board. A board is *settled* once its
//! value and distance are known, and *fresh* until it is also spread. A [`FreshSet`] keeps which boards are
//! fresh, and how is its own affair. A [`Note`] says that a quiet move leads to a settled board.
//! `specs/Tally.antt` defines what a cell knows of the notes that its board heard.
//!
//! The nearer of two distances, in `crates/awari_block/src/dues.rt`:
//!
//!     pub fn nearer(one: Option<u32>, other: Option<u32>) -> Option<u32>
//!         ensures { result ≡ nearer_of one other }
//!     {
//!         match (one, other) {
//!             (Some(a), Some(b)) => Some(a.min(b)),
//!             (Some(a), None) => Some(a),
//!             (None, b) => b,
//!         }
//!     }
#![tactic(auto)]

mod awaited;
mod blocks;
mod boards;
mod cells;
mod closed;
mod dues;
mod fresh_sets;
mod in_order;
mod laws;
mod notes;
mod pits;
mod stakes;

pub use awaited::{NO_GAIN, awaited_gains, next_awaiting};
pub use blocks::{Block, block_length};
pub use boards::Boards;
pub use cells::{Cell, Mark};
pub use closed::ClosedPart;
pub use dues::nearer;
pub use fresh_sets::{ByKind, FreshSet};
pub use in_order::InOrder;
pub use laws::worked_examples;
pub use notes::{Kind, Note};
pub use pits::Pits;
pub use stakes::Stake;
