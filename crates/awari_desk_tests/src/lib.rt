//! Tests of a desk and of its service, on streams in memory, of which some refuse. The crate stands beside
//! the commands, so these are proved while the commands are.
#![tactic(auto)]

#[cfg(test)]
mod desks;
#[cfg(test)]
mod expect;
#[cfg(test)]
mod refusals;
#[cfg(test)]
mod services;
