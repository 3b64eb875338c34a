//! Says whether an image may stand as the next level of a shelf. If not, it says which board breaks a
//! rule first, and which rule.
//!
//! [`verify`] makes a level of an image that is right, and refuses any other. [`verify_parallel`]
//! answers the same with the boards shared among threads. [`fault_of`] and [`fault_of_parallel`] leave
//! the image with the caller. Only the calls that share boards take memory. A program with threads of
//! its own gives each a [`Share`], joins these, and asks [`fault_by`].
//!
//! An image is verified and put on top of its shelf, in `crates/awari_check/src/checks.rt`:
//!
//!     fn put_on(alloc: Global, shelf: &mut Shelf, image: Image) -> Result<(), CheckFault>
//!         ensures ok { OnOk result (Consistent shelf.old image) }
//!         ensures shelf { OnOk result (shelf.new ≡ shelf.old ++ image ∷ []) }
//!         ensures fault { IfErr result (Stops shelf.old image) }
//!     {
//!         let level = image.level;
//!         match verify(shelf, image) {
//!             Ok(verified) => {
//!                 shelf.push(Arc::new(alloc, verified)?);
//!                 Ok(())
//!             }
//!             Err(fault) => Err(CheckFault::Verify { level, fault }),
//!         }
//!     }
#![tactic(auto)]

mod laws;
mod older;
mod parallel;
mod pieces;
mod rules;
mod search;
mod shares;
mod sights;
mod verdicts;

pub use laws::one_fault_is_due;
pub use older::{one_old_fault_is_due, verify_old};
pub use parallel::{fault_beside, fault_of_parallel, verify_parallel};
pub use pieces::PIECES;
pub use rules::{Rule, Seen, first_broken_rule};
pub use shares::Share;
pub use verdicts::{VerifyFault, fault_by, fault_of, verify};
