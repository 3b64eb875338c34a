//! The levels of one folder brought over to another.
//!
//! [`migrate`] reads the levels of older files, judges each by the rules of its version, and saves what
//! it becomes by the rules in force. It alone needs `awari_play`, which finds the least distances; who
//! loads a folder does not.
//!
//! One folder is brought over to another, in `crates/awari_file_tests/src/plain.rt`:
//!
//!     pub(crate) fn bring_over(
//!         alloc: Global,
//!         from: &mut impl Folder,
//!         to: &mut impl Folder,
//!     ) -> Result<Migrated, FolderFault> {
//!         migrate(alloc, from, to)
//!     }
#![tactic(auto)]

mod migrating;

pub use migrating::{Limits, Migrated, migrate};
