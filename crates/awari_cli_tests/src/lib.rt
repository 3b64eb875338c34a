//! Tests of the program on a host whose folders are known, which is a [`MemoryHost`], and on streams that fail. What the
//! built program prints of its words stands in `tests/rows`.
#![tactic(auto)]

#[cfg(test)]
mod commands;
#[cfg(test)]
mod examples;
#[cfg(test)]
mod expect;
mod hosts;
#[cfg(test)]
mod named;
#[cfg(test)]
mod plain;

pub use hosts::{FIRST, MemoryHost, SECOND};
