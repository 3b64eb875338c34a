//! Rings among the owners of a level: a ring for each ordered pair of different owners. What goes over
//! them is of any type; each item goes by value, from the one owner to the other.
//!
//! [`grid`] makes the [`Ends`] of all owners, and takes all memory that the rings will ever need. Each
//! owner sends by its own ends and receives by them, in any thread. Once all ends are in one thread
//! again, [`settle`] looks whether anything still waits.
//!
//! Three owners whose rings have room for one number each, in
//! `crates/awari_owner_tests/src/examples.rt`:
//!
//!     fn rings_begin_empty(rt: HostRuntime) -> Result<(), Fail> {
//!         let mut all = grid::<u32>(rt.alloc(), 3, 1)?;
//!         expect_equal(&rt, "owners", all.len(), 3);
//!         expect(&rt, "nothing waits", settle(all.as_mut_slice()));
//!         Ok(())
//!     }
#![tactic(auto)]

mod ends;
mod looks;
mod making;

pub use ends::{Ends, RingPair};
pub use looks::settle;
pub use making::grid;
