//! Tests of the files of levels and of folders of them, by public calls alone: each byte of a file, and
//! streams and folders that refuse. What a run of the program shows stands in `tests/rows`.
//! [`MemoryFolder`] is a folder in memory, of which chosen calls are refused.
#![tactic(auto)]

#[cfg(test)]
mod bytes;
#[cfg(test)]
mod calls;
#[cfg(test)]
mod examples;
#[cfg(test)]
mod expect;
#[cfg(test)]
mod levels;
mod memory;
#[cfg(test)]
mod plain;
#[cfg(test)]
mod refusals;
#[cfg(test)]
mod streams;

pub use memory::{MemoryDraft, MemoryFolder};
