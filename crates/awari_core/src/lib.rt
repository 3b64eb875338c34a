//! A model that only tests run: 1 to 16 owners build a level by a list of events.
//!
//! A [`Core`] takes events in any order, and refuses those that are not possible now. Once all gains
//! are closed, [`Core::finish`] gives the level, whatever the events were. The program itself builds by
//! `awari_phase`, which keeps the same rules in threads.
//!
//! Between two lists of events, the next distance or gain is opened, in
//! `crates/awari_owner_tests/src/cores.rt`:
//!
//!     fn opens_last(core: &mut Core) -> bool {
//!         match core.next_wave() {
//!             Ok(None) => core.next_gain() == Ok(0),
//!             _ => false,
//!         }
//!     }
#![tactic(auto)]

mod cores;
mod events;
mod faults;
mod laws;
mod openings;
mod rings;
mod senders;

pub use awari_owner::coming_notes_are_expected;
pub use awari_pace::{MOST_OWNERS, MOST_ROOM};
pub use cores::{Core, Ran};
pub use events::Event;
pub use faults::CoreFault;
pub use laws::{opening_keeps_owners_sound, scanned_owners_are_sound, sound_cores_are_told};
