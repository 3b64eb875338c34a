//! What is found of boards before a level is in work: the cells of boards that heard no note yet, and
//! the boards whose quiet moves lead to a board.
//!
//! [`scanned_cells`] plays the moves of each board once. Its cell has the quiet moves and the best
//! captures by the shelf. [`find_all`] takes moves back. `specs/Scan.antt` says what a scanned cell and
//! a scanned part are, and `specs/Found.antt` what is found of a board. `scanned_cells` and
//! [`scanned_cells_parallel`] take memory; nothing else does.
//!
//! A board and its pit as a row of notes keeps them, in `crates/awari_scan/src/targets.rt`:
//!
//!     fn code(rank: u32, pit: u8) -> u32
//!         requires { (rank < 2 ^ 29) × (pit < 6) }
//!         ensures { result ≡ code_by rank pit }
//!     {
//!         rank * 8 + u32::from(pit)
//!     }
#![tactic(auto)]

mod outlooks;
mod parallel;
mod runs;
mod targets;

pub use parallel::scanned_cells_parallel;
pub use runs::scanned_cells;
pub use targets::{MOST_PREDECESSORS, find_all};
