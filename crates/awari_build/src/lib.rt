//! The next level of a shelf, built whole: by one part, by a crew of one or more members, or by several
//! owners in threads.
//!
//! [`build_together`] is the fastest. One thread is a crew of one there, which starts no thread.
//! [`build_alone`] is the plainest, and needs no handle.
//!
//! The level is proved right, and to be the one with the lowest plans, so nothing verifies it when the
//! program runs. [`build_alone`] and [`build_together`] always return. Nothing proves that
//! [`build_level`] does: its contract says what holds if it returns.
//!
//! A shelf of as many levels as are asked for, each built on those below it, in
//! `crates/awari_owner_tests/src/shelves.rt`:
//!
//!     pub(crate) fn levels_below(alloc: Global, count: u8) -> Result<Shelf, Fail> {
//!         let mut shelf = Shelf::empty();
//!         for _level in 0..count {
//!             let level = build_alone(alloc, &shelf)?;
//!             shelf.push(Arc::new(alloc, level)?);
//!         }
//!         Ok(shelf)
//!     }
#![tactic(auto)]

mod alone;
mod faults;
mod levels;
mod owned;
mod teams;
mod telling;
mod together;

pub use alone::{build_alone, build_alone_with_progress};
pub use awari_pace::{MOST_OWNERS, MOST_ROOM, MOST_SWEEPS, Pace};
pub use faults::BuildFault;
pub use owned::{Watch, build_level, build_level_with_progress};
pub use teams::Team;
pub use together::{CrewBuilt, build_by_crew, build_together, build_together_with_progress};
