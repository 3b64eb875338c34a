//! A level in segments: what its builders do to them.
//!
//! The boards of a level are cut into segments of one length. Each has its fresh boards in lists by
//! distance. In a turn boards of the open wave are taken, and their notes are found and laid into a
//! [`Row`], a list for each segment: [`take_notes`]. Then the segments hear them: [`hear_rows`]. A segment
//! looks at each note before it hears it, so nothing has to be known of who tells. `specs/Tellings.antt`
//! says what is told and heard.
//!
//! A crew of `awari_crew` deals the segments out to its members. A [`SlicedLevel`] has all of them, and takes turns
//! some boards at a time. The calls need no handle. They take memory for the segments, nine bytes a board, for fresh boards and
//! for notes.
//!
//! Level 0, in `crates/awari_owner_tests/src/examples.rt`:
//!
//!     fn level_0_is_one_segment(rt: HostRuntime) -> Result<(), Fail> {
//!         let index = Index::of(rt.alloc(), 0)?;
//!         let segments = scanned_segments(rt.alloc(), &Shelf::empty(), &index, 1 << log_of(1))?;
//!         let due = nearest(segments.as_slice());
//!         expect_equal(&rt, "segments and due", (segments.len(), due), (1, None));
//!         Ok(())
//!     }
#![tactic(auto)]

mod by_distance;
mod chunks;
mod dues;
mod finding;
mod halts;
mod hearing;
mod lists;
mod openings;
mod rows;
mod scanning;
mod segments;
mod sliced;
mod taking;
mod turns;

pub use chunks::{Chunk, Finder};
pub use dues::{due_from, nearest};
pub use halts::Halt;
pub use hearing::hear_rows;
pub use openings::{open_gain, open_wave};
pub use rows::Row;
pub use scanning::{numbered_segment, scanned_segments, segments_in};
pub use segments::{Segment, closed_all, log_of};
pub use sliced::{SlicedLevel, spread_slices};
pub use turns::{Turn, take_notes};
