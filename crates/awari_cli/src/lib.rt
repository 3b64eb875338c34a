//! The commands of the program `awari`, over words, streams and folders that are lent to them.
//!
//! [`run`] reads the words and runs the command that they name, over the folders of a [`Host`]: what it
//! prints is held to the folders that the words name. [`Disk`] is the host of the program. The other
//! calls are single commands, for folders of any kind. What a command prints is right if it ends with
//! status 0.
//!
//! The program over the host's disk, in `crates/awari_cli_tests/src/plain.rt`:
//!
//!     pub(crate) fn run_on_disk<'a>(
//!         rt: &'a (impl Files<File = File>
//!             + Threads
//!             + Clock
//!             + Wait
//!             + Sync
//!             + Send
//!             + Clone
//!             + Drop
//!             + 'static),
//!         alloc: Global,
//!         words: &'a [&'a str],
//!         streams: &mut Streams<impl Read, impl Remarks, impl Write + Send>,
//!     ) -> u8 {
//!         run(rt, alloc, &mut Disk::new(rt, alloc), words, streams)
//!     }
#![tactic(auto)]

mod reading;
mod runs;
mod writing;

pub use awari_answers::{Answers, NoAnswer, Remarks, Streams};
pub use awari_boards::{Judgement, Played, judge, play_on, run_ask, run_line, run_moves};
pub use awari_builds::{
    BuildProgress, Builder, Estimate, HowTold, ProgressLines, Way, one_file_for_every_schedule,
    run_build_in, run_migrate, run_serve,
};
pub use awari_check::{CheckFault, check};
pub use awari_host::{Disk, Host, Machine, Purpose};
pub use awari_levels::{run_text, run_verify};
pub use awari_queries::{AskQuery, LineQuery, MovesQuery, ServeQuery, VerifyQuery};
pub use runs::run;
