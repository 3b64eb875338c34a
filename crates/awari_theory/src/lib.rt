//! What a right table means: who follows its plans secures its values, soon, its values are what the
//! positions are worth, and its distances are the least.
//!
//! The crate is laws alone. Each is a function that does nothing, and whose contract is proved; a
//! caller has the law by calling it. The definitions are in `specs/`. Two speak of no table:
//! `Worth.antt` says what a position is worth, and `Least.antt` how soon the side that it favours can
//! bring a capture or the end. Of a table `Secures.antt` says what following its plans secures, and
//! `Promises.antt` what its values are. `Truth.antt` says all of it of the levels of a shelf. Most proofs
//! go by the older rules, of `Older.antt`: they ask less, and the rules in force imply them.
#![tactic(auto)]

mod laws;
mod shelves;

pub use laws::{
    plans_are_soon, plans_come_to_the_value, plans_secure, plays_end, values_are_worths,
    worths_are_unique,
};
pub use shelves::{
    distances_are_least, shelves_agree, shelves_are_certificates, shelves_come_to_their_values,
    shelves_tell_the_truth,
};
