//! Whether bytes are the text of levels that are right, and what the program prints of them.
//!
//! [`check`] gives the shelf of the levels, or the first fault. [`check_input`] does so for all that a
//! reader has left, and its [`Answer`] prints as one line.
//!
//! The command `check` prints that answer, in `crates/awari_cli/src/runs.rt`:
//!
//!     fn run_check<R: Read, W: Write, E: Write>(
//!         alloc: Global,
//!         reader: &mut R,
//!         writer: &mut W,
//!         errors: &mut E,
//!     ) -> u8
//!         ensures status { result ≤ 1 }
//!         ensures yes { result ≡ 0 → PrintsYes (R.remaining reader.old) (W.contents writer.old) (W.contents writer.new) }
//!     {
//!         let answer = check_input(alloc, &mut Counted::new(reader));
//!         if print(writer, &answer) {
//!             tell_answer(errors, answer);
//!             answer.status()
//!         } else {
//!             1
//!         }
//!     }
#![tactic(auto)]

mod answers;
mod checks;
mod laws;

pub use answers::{Answer, check_input};
pub use checks::{CheckFault, check};
pub use laws::one_check_fault_is_due;
