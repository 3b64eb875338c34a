//! A folder with the files of levels.
//!
//! [`load`] makes a shelf of the files, and verifies each level. [`save`] gives a level its file, whole
//! or not at all, at whatever moment the machine stops. A [`Folder`] is a trait, and [`HostFolder`] is
//! one on disk. The tests have one in memory. A [`Candidate`] is a file that was read, and whose level is
//! verified in parts by whoever has threads.
//!
//! Level 0 is saved and loaded again, in `crates/awari_file_tests/src/examples.rt`:
//!
//!     fn a_saved_level_is_loaded(rt: HostRuntime) -> Result<(), Fail> {
//!         let mut text = TableText::new(rt.alloc(), b"level 0 limit 0\n0 - 0\n");
//!         let image = text.next()?.ok_or("a level")?;
//!         let level = verify(&Shelf::empty(), image)?;
//!         let mut folder = MemoryFolder::new(rt.alloc());
//!         let digest = save(&mut folder, &level, [0; 32])?;
//!         let stored = load(&Alone, rt.alloc(), &mut folder, HIGHEST_LEVEL)?;
//!         expect_equal(&rt, "levels", stored.shelf.levels(), 1);
//!         expect_equal(&rt, "digest", stored.digest, digest);
//!         Ok(())
//!     }
#![tactic(auto)]

mod calls;
mod candidates;
mod faults;
mod host;
mod keeping;
mod laws;
mod loading;
mod names;
mod saving;
mod verifiers;
mod words;

pub use calls::{Draft, Folder, Refusal};
pub use candidates::{Candidate, PARTS};
pub use faults::FolderFault;
pub use host::{HostDraft, HostFile, HostFolder, LockFault};
pub use keeping::save_or_keep;
pub use laws::{folders_hold_one_shelf, stored_shelves_are_loaded};
pub use loading::{Stored, load, place};
pub use saving::save;
pub use verifiers::{Alone, Together, Verifier};
pub use words::{Named, Said};
