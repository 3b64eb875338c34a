//! Numbers the boards of Awari that have at most 24 stones.
//!
//! A level is all boards with as many stones. [`rank`] is the place of a board in its level, in
//! lexicographic order, and [`unrank`] the board at a place. [`successor`] is the board at the next
//! place, and [`size`] says how many there are. No call takes memory.
//!
//! All boards of five stones, in order of rank, in `crates/awari_tests/src/numbering.rt`:
//!
//!     fn a_level_in_order_of_rank(rt: HostRuntime) {
//!         let mut board = Board::new([0, 0, 0, 0, 0, 0, 0, 0, 0, 0, 0, 5]);
//!         for expected in 0..size(5) {
//!             assert_eq!(rt; board.stones(), 5);
//!             assert_eq!(rt; board, unrank(5, expected));
//!             assert_eq!(rt; rank(&board), expected);
//!             match successor(&board) {
//!                 Some(next) => board = next,
//!                 None => assert_eq!(rt; expected, 4367),
//!             }
//!         }
//!     }
#![tactic(auto)]

mod counts;
mod laws;
mod ranks;
mod successors;

pub use counts::MOST_STONES;
pub use laws::{
    ranks_are_places, ranks_keep_the_order, ranks_tell_boards_apart, same_lists_are_equal,
    tuples_are_counted_by_binomials, tuples_are_listed_once, worked_examples,
};
pub use ranks::{rank, size, unrank};
pub use successors::successor;
