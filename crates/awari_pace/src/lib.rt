//! How the owners of a level work. A [`Pace`] is named by the words of a build as by the builder, and
//! starts no thread.
#![tactic(auto)]

mod laws;
mod paces;

pub use laws::paces_have_limits;
pub use paces::{MOST_OWNERS, MOST_ROOM, MOST_SWEEPS, Pace};
