//! The file of one level, byte by byte.
//!
//! [`write_level`] writes the file, and [`read_image`] reads one or answers its first fault. A file
//! that is read may still say wrong things of boards: judging them is the verifier's business.
//! `docs/FORMATS.md` has the layout, and `specs/FileText.antt` defines it.
//!
//! Level 0 is written and read again, in `crates/awari_file_tests/src/examples.rt`:
//!
//!     fn a_level_is_written_and_read(rt: HostRuntime) -> Result<(), Fail> {
//!         let mut text = TableText::new(rt.alloc(), b"level 0 limit 0\n0 - 0\n");
//!         let image = text.next()?.ok_or("a level")?;
//!         let level = verify(&Shelf::empty(), image)?;
//!         let mut file = Vec::new(rt.alloc());
//!         let digest = write_level(&level, [0; 32], &mut Counted::new(&mut file))?;
//!         let loaded = read_image(rt.alloc(), &mut Counted::new(file.as_slice()))?;
//!         expect_equal(&rt, "digest", loaded.digest, digest);
//!         let entries = loaded.image.entries.to_vec(rt.alloc())?;
//!         expect_equal(&rt, "entries", entries, level.to_vec(rt.alloc())?);
//!         Ok(())
//!     }
#![tactic(auto)]

mod comparing;
mod contents;
mod faults;
mod fields;
mod laws;
mod reading;
mod sealing;
mod sizes;
mod source;
mod writing;

pub use comparing::compare_level;
pub use contents::{Header, Loaded};
pub use faults::FileFault;
pub use fields::{OLD_VERSION, entry_at, header_of};
pub use laws::{files_tell_images_apart, first_entries_are_680};
pub use reading::{read_image, read_unsealed};
pub use sealing::{Behind, Unsealed};
pub use sizes::{ENTRY_LEN, HEADER_LEN, entry_place, file_len};
pub use writing::write_level;
