//! Owners that work side by side until a gain is closed.
//!
//! [`scanned_owners`] makes them, [`open_gain`] opens the next gain in all parts, and [`gain_phase`]
//! makes rounds until no board is fresh and nothing is on its way. Each is a [`round`]: each owner moves
//! into a thread of its own, and comes back by join. No contract says that rounds come to an end; each
//! says what holds of owners that come back.
//!
//! One round in which each owner makes one sweep, in `crates/awari_owner_tests/src/rounds.rt`:
//!
//!     pub(crate) fn next_round<R: Threads + Wait + Sync>(
//!         rt: &R,
//!         owners: Vec<Owner>,
//!     ) -> Result<Vec<Owner>, Fail>
//!         requires { IsGrid (all_ends owners.items) }
//!         ensures { IfOk result (λ all. AllGrown owners.items all.items) }
//!     {
//!         let owners = round(rt, owners, &Open, 1)?;
//!         Ok(owners)
//!     }
#![tactic(auto)]

mod faults;
mod gates;
mod laws;
mod making;
mod openings;
mod owners;
mod phases;
mod rounding;
mod settling;
mod starting;

pub use faults::PhaseFault;
pub use gates::{Gate, Open};
pub use laws::{finished_owners_are_right, owners_together_are_sound, sweeps_spread_64_boards};
pub use making::{closed_parts, scanned_owners};
pub use openings::open_gain;
pub use owners::Owner;
pub use phases::{gain_phase, gain_phase_with_progress};
pub use rounding::round;
pub use settling::settle_owners;
