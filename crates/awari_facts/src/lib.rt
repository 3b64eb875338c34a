//! What is known of a board beside its entry: how many moves are legal and how many keep its value, what
//! the plan captures and the most that a move does, whether it is a burden to move, and what is thrown away by
//! capturing the most. What needs other boards looks them up in levels in memory, which were verified or only
//! read.
//!
//! What the move of a plan captures, in `crates/awari_facts/src/facts.rt`:
//!
//!     pub fn plan_captures(board: &PackedBoard, plan: Option<u8>) -> Option<u8>
//!         ensures { result ≡ captures_by board.now plan }
//!     {
//!         let pit = plan?;
//!         if !board.legal(pit) {
//!             return None;
//!         }
//!         Some(board.play(pit).captured)
//!     }
#![tactic(auto)]

mod facts;
mod loads;
mod looks;
mod numbers;
mod sources;

pub use facts::{largest_capture, legal_moves, own_stones, plan_captures};
pub use loads::{load_to, open_all, open_to};
pub use looks::{
    Gained, Gains, gains_of, is_zugzwang, lost_by_moving, moves_gaining, other_value, trap_by,
};
pub use numbers::{Seen, is_own, member_of, number_of, own_number};
pub use sources::{
    Levels, Source, count_levels, entry_at, entry_on, levels_in, limit_on, read_entry, read_limit,
    value_on,
};
