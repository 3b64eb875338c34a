//! Tests of single commands, on folders and streams in memory, of which some refuse. The crate stands beside the
//! program's own, so these are proved while that is.
#![tactic(auto)]

#[cfg(test)]
mod broken;
#[cfg(test)]
mod calls;
#[cfg(test)]
mod expect;
#[cfg(test)]
mod meanwhile;
#[cfg(test)]
mod plain;
#[cfg(test)]
mod progress;
#[cfg(test)]
mod serving;
#[cfg(test)]
mod unverified_services;
#[cfg(test)]
mod wishes;
