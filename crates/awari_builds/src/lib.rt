//! The commands that make levels: `build`, `migrate`, and `serve`, which answers beside a build. Each works on
//! folders and streams of any kind, and what it prints is right if it ends with status 0.
//!
//! The crate stands beside those of the commands that read, so both are proved at once.
//!
//! Levels are built up to `top` in a folder in memory, in `crates/awari_command_tests/src/plain.rt`:
//!
//!     fn build_to(
//!         rt: &(impl AllocGlobal + Threads + Clock + Wait + Sync + Send + Clone + Drop + 'static),
//!         folder: &mut MemoryFolder,
//!         top: u8,
//!         progress: &mut (impl BuildProgress + Send),
//!         output: &mut impl Remarks,
//!     ) -> u8 {
//!         let mut builder = Builder {
//!             rt,
//!             alloc: rt.alloc(),
//!             way: Way::of(2, OWNERLESS),
//!             progress,
//!         };
//!         run_build_in(&mut builder, folder, top, output)
//!     }
#![tactic(auto)]

mod beside;
mod building;
mod estimates;
mod faults;
mod lasting;
mod laws;
mod migrating;
mod progress;
mod serving;
mod ways;

pub use beside::BuildProgress;
pub use building::{Builder, build_up_in, run_build, run_build_in};
pub use estimates::{Estimate, warn_of_memory};
pub use laws::one_file_for_every_schedule;
pub use migrating::run_migrate;
pub use progress::{HowTold, ProgressLines};
pub use serving::run_serve;
pub use ways::Way;
