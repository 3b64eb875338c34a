//! The folders that names stand for, on a host.
//!
//! A command asks a [`Host`] for the folder of a name, and closes it when it is done. So what a command does
//! is told by what is known of the folders that its words name, on any host. [`Disk`] is the host of the
//! program. Of its files no proof knows anything.
//!
//! The first level that a build in a folder begins with, in `crates/awari_cli/src/writing.rt`:
//!
//!     fn first_to_build<'a, H: Host<'a>, E: Write>(
//!         host: &mut H,
//!         folder: Option<&'a str>,
//!         errors: &mut E,
//!     ) -> Result<u8, FolderFault>
//!         ensures { AllStay H.keeps (H.holds host.old) (H.holds host.new) }
//!     {
//!         let Some(name) = folder else {
//!             return Ok(0);
//!         };
//!         let folder = host.open(name, Purpose::Write, errors);
//!         let first = host.levels_in(&folder);
//!         host.close(name, folder);
//!         if host.is_there(name) {
//!             Ok(first)
//!         } else {
//!             Err(FolderFault::Open { level: 0 })
//!         }
//!     }
#![tactic(auto)]

mod disk;
mod hosts;
mod machine;

pub use disk::Disk;
pub use hosts::{Host, Machine, Purpose};
