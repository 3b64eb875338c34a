//! A crew: threads that stay for a level, each with segments of its own, and tell each other what they
//! spread.
//!
//! [`closed_by_crew`] builds a level. A member scans the segments that are dealt to it. In a turn it takes
//! fresh boards of its own, so they are spread from then on, and writes their notes to all other members in
//! one letter. It hears its own notes, and one letter of each other member. A letter has what its sender
//! knows of the wave, so all come to the same next step, and nobody plans. Threads start once a level.
//!
//! How to think of it. Each contract speaks of one member: what it told is what its spread boards say, and
//! its cells are a tally of what it heard (`specs/Members.antt`). This holds whatever the others do. A member
//! looks at each note before it hears it: whether the board is its own, and whether the move was heard. So
//! nothing has to be known of the sender. Once all members are home, the rings are looked at: if each letter
//! was heard, all spread boards were heard of. A member that hears what does not fit, or waits in vain,
//! leaves, and so do the others; then the level is built otherwise.
//!
//! Level 0, which needs one turn, in `crates/awari_owner_tests/src/crews.rt`:
//!
//!     fn two_members_close_level_0(rt: HostRuntime) -> Result<(), Fail> {
//!         let crew = Crew {
//!             members: 2,
//!             patience: 1_000_000,
//!             soon: u64::MAX,
//!         };
//!         let built = closed_by_crew(&rt, rt.alloc(), &Shelf::empty(), crew, &mut Silent);
//!         expect(&rt, "closed", matches!(built, Ok(Some(_))));
//!         Ok(())
//!     }
#![tactic(auto)]

mod crews;
mod gathering;
mod homes;
mod letters;
mod listening;
mod making;
mod members;
mod posting;
mod starting;

pub use crews::{Crew, closed_by_crew};
