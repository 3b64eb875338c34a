//! Tests across the crates, by their public calls alone: of worked positions, what no command shows. What
//! a run of the program shows stands in `tests/rows`.
#![tactic(auto)]

#[cfg(test)]
mod examples;
#[cfg(test)]
mod expect;
#[cfg(test)]
mod moves;
#[cfg(test)]
mod numbering;
#[cfg(test)]
mod plays;
#[cfg(test)]
mod predecessors;
#[cfg(test)]
mod tables;
#[cfg(test)]
mod texts;
