//! Tests of parts of a level by public calls alone, on levels 0 and 1, where everything can be worked
//! out by hand, and of the levels that one part builds and that owners build by lists of events, also
//! by events that are drawn by chance.
#![tactic(auto)]

#[cfg(test)]
mod apart;
#[cfg(test)]
mod best_lines;
#[cfg(test)]
mod cores;
#[cfg(test)]
mod counts;
#[cfg(test)]
mod crews;
#[cfg(test)]
mod drawing;
#[cfg(test)]
mod examples;
#[cfg(test)]
mod expect;
#[cfg(test)]
mod false_notes;
#[cfg(test)]
mod grids;
#[cfg(test)]
mod hearing;
#[cfg(test)]
mod later_rounds;
#[cfg(test)]
mod notes;
#[cfg(test)]
mod outboxes;
#[cfg(test)]
mod parts;
#[cfg(test)]
mod pieces;
#[cfg(test)]
mod refusals;
#[cfg(test)]
mod rounds;
#[cfg(test)]
mod schedules;
#[cfg(test)]
mod shelves;
#[cfg(test)]
mod slices;
#[cfg(test)]
mod stops;
#[cfg(test)]
mod sweeps;
#[cfg(test)]
mod told;
#[cfg(test)]
mod wrong_builds;
