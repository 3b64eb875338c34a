//! The image of a level whose gains are all closed, and why it is right. [`finish`] takes settled
//! values and distances, and looks for each board's lowest pit that serves as a plan. So it finds the
//! plans whatever notes the parts heard. `awari_heard` makes an image with the pits that the cells keep,
//! and [`kept_levels_are_right`] says that these are the same plans if the parts heard what was due.
//! The calls of `awari_play` that follow plans or lower distances have a path here too.
//!
//! The entries of a level with the plans that its cells keep, which [`finish`] then replaces, in
//! `crates/awari_plan/src/finishing.rt`:
//!
//!     fn kept_entries(alloc: Global, level: u8, parts: &[Part]) -> Result<Vec<Entry>, AllocError>
//!         requires low { level ≤ 24 }
//!         ensures { IfOk result (λ entries. PutsBlocks parts.now [] entries.items) }
//!     {
//!         let mut entries = Entries::from(Vec::with_capacity(alloc, size(level) as usize)?);
//!         for part in parts {
//!             push_block(alloc, &mut entries, part.cells())?;
//!         }
//!         let entries = entries.into_vec(alloc)?;
//!         Ok(entries)
//!     }
#![tactic(auto)]

mod finishing;
mod laws;

pub use awari_play::{
    Line, LineFault, MoveWorth, best_line, least, lowest_levels_are_one, lowest_plans_stay,
    move_worths,
};
pub use finishing::finish;
pub use laws::{finished_levels_are_consistent, kept_levels_are_right};
