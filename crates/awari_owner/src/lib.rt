//! The analysis of a level by its owners, backward from the ends of play and the captures.
//!
//! A level is shared out in blocks, and each owner has a [`Part`]: a cell for each board of its block.
//! Gains are opened from the greatest down to 1, and within a gain distances from 0 on. A settled board
//! tells the boards whose quiet moves lead to it that its mover won or lost that gain, which may settle
//! those. Notes to other owners' boards go to the [`Outboxes`]. `specs/Sound.antt` says what is true of
//! one owner after each step, and `specs/Owners.antt` of all owners with the notes on their way. Memory
//! is taken by `Part::scan`, `Part::scan_parallel` and `Outboxes::new`, and by `Part::spread_one` if
//! there is another owner.
//!
//! The first gain of a part of level 1 is opened, and its nearest boards are due at distance 0, in
//! `crates/awari_owner_tests/src/parts.rt`:
//!
//!     pub(crate) fn open_gain_1(rt: &impl Abort, part: &mut Part, outboxes: &Outboxes)
//!         requires made { IsPartOf part.old outboxes.now }
//!         ensures made { IsPartOf part.new outboxes.now }
//!         ensures wave { part.new.wave ≡ 0 }
//!     {
//!         assert!(rt; part.gain() == 2 && part.idle());
//!         part.open_gain(1);
//!         let standing = (part.gain(), part.wave(), part.due());
//!         expect_equal(rt, "gain, wave and due", standing, (1, 0, Some(0)));
//!     }
#![tactic(auto)]

mod batches;
mod faults;
mod laws;
mod outboxes;
mod parts;
mod queues;
mod spreads;

pub use batches::take_batch;
pub use faults::OwnerFault;
pub use laws::{
    batches_have_32_notes, coming_notes_are_expected, scanned_parts_are_whole, sound_parts_are_told,
};
pub use outboxes::Outboxes;
pub use parts::Part;
pub use queues::{Batch, MOST_NOTES};
// What a batch holds is named with it.
pub use awari_block::{Kind, Note};
