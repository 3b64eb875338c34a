//! What the parts of a level in work have heard, and what follows of it once all gains are closed.
//!
//! Whichever way a level is settled, its parts are a [`ClosedPart`](awari_block::ClosedPart) each in the
//! end. `specs/Heard.antt` says what a part heard of the spread boards of another, `specs/Level.antt`
//! what all parts of a level heard together, and `specs/Finish.antt` what is then right of each board.
//! [`finish_closed`] and [`finish_parallel`] make the image of the level, and take memory for its
//! entries. A [`Progress`] hears how far a build is, and may stop it.
//!
//! The image that has the entries of closed parts, in `crates/awari_heard/src/entries.rt`:
//!
//!     pub fn kept_image(shelf: &Shelf, entries: Entries) -> Image
//!         requires low { length shelf.now ≤ HIGHEST_LEVEL }
//!         ensures { (parts : List Part) → AreWhole (length shelf.now) parts → PutsBlocks parts [] entries → IsKept shelf.now parts result }
//!     {
//!         Image {
//!             level: shelf.levels(),
//!             limit: entries.greatest_dist(),
//!             entries,
//!         }
//!     }
#![tactic(auto)]

mod entries;
mod laws;
mod parallel;
mod progress;

pub use entries::{finish_closed, push_block};
pub use laws::{closed_parts_are_right, distances_fit, one_part_hears_all, quiet_boards_are_right};
pub use parallel::finish_parallel;
pub use progress::{Progress, Silent, Stage};
