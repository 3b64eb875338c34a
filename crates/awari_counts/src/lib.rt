//! The command `counts` of the program `awari`: how many boards of a level have each value and each distance, or
//! each pair of numbers of two columns. It prints to a writer that is lent to it, and gives the status that the
//! program ends with.
//!
//! One board more in a cell of a table, in `crates/awari_counts/src/tables.rt`:
//!
//!     pub(crate) fn count_cell(counts: &mut Vec<u32>, cell: usize)
//!         requires inside { cell < vec_len counts.old }
//!         requires few { sum counts.old.items < 4294967295 }
//!         ensures long { vec_len counts.new ≡ vec_len counts.old }
//!         ensures more { counts.new.items ≡ slice_set counts.old.items cell (slice_index counts.old.items cell + 1) }
//!         ensures all { sum counts.new.items ≡ sum counts.old.items + 1 }
//!     {
//!         counts[cell] += 1;
//!     }
#![tactic(auto)]

mod cells;
mod counts;
mod laws;
mod pairs;
mod ranges;
mod rows;
mod shown;
mod sums;
mod tables;

pub use counts::run_counts;
pub use laws::{counts_come_to_the_size, pairs_come_to_the_size};
pub use pairs::run_pairs;
