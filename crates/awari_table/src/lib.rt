//! Tables of Awari: what is known of each board of a level, and the shelf of finished levels.
//!
//! An [`Image`] holds entries that nobody has checked. A [`Level`] on a [`Shelf`] is consistent over
//! the levels below it: the shelf's type says so, and [`Shelf::entry`] looks a board up in it.
//! [`TableText`] reads levels from their text, and `write_shelf_text` writes it.
//!
//! A game's next move by the plan of a shelf, in `crates/awari_example/src/main.rt`:
//!
//!     fn reply(shelf: &Shelf, game: &mut Game) -> Option<u8>
//!         ensures plan { IfSome result (λ pit. (entry_of shelf.now game.old.board).plan ≡ Some pit) }
//!         ensures played { IfSome result (λ pit. (board pits : List ℕ) → Shows game.old board pits → Shows game.new board (pits ++ pit ∷ [])) }
//!         ensures unchanged { IsNone result → game.new ≡ game.old }
//!     {
//!         let pit = shelf.entry(&game.board()).ok()?.plan?;
//!         game.step(pit).ok()?;
//!         Some(pit)
//!     }
#![tactic(auto)]

mod blocks;
mod columns;
mod faults;
mod images;
mod laws;
mod levels;
mod lines;
mod rules;
mod shelves;
mod spelling;
mod text;

pub use awari_streams::{Counted, LINE_ROOM, TextLine, push_number, push_signed, push_text};
pub use faults::TableFault;
pub use images::{Counts, Entries, Entry, Image, greatest_dist};
pub use laws::{
    boards_are_right, fronts_are_shelves, highest_falling_level_is_12, highest_level_is_24,
    one_text_fault_is_due, texts_tell_images_apart, worked_examples,
};
pub use levels::Level;
pub use rules::Reached;
pub use shelves::{NotYet, Shelf};
pub use spelling::{line_of_entry, write_level_text, write_shelf_text};
pub use text::TableText;

/// The highest level that a shelf may hold, in stones. What reads or writes tables goes by this
/// constant. Boards, ranks and parts of levels are bounded by 24 stones; a law says that this is the
/// same number.
pub const HIGHEST_LEVEL: u8 = 24;

/// The highest level of older tables, whose distances only had to fall along the plans. A law says which
/// it is.
pub const HIGHEST_FALLING_LEVEL: u8 = 12;
