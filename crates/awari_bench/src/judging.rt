//! Levels that were built, judged again or lowered again, which `bench/run` times by the difference
//! that more rounds make.

use crate::counting::Counted;
use awari_build::build_alone;
use awari_play::least;
use awari_rank::size;
use awari_table::{Entries, Image, Level, Shelf};
use awari_verify::{verify, verify_old};
use std::alloc::{AllocError, Global};
use std::io;
use std::sync::Arc;

/// The levels that are gone over are 0 to 12, as `bench/run` builds them.
const LEVELS: u8 = 13;

/// What is done with each level.
#[derive(Clone, Copy)]
pub(crate) enum Work {
    /// The verifier judges what it says.
    Judge,
    /// All its distances are doubled, and brought down to the least again.
    Lower,
}

/// Builds the levels, and does the work with each this many times. Counts how often it went well, and
/// the boards of these levels.
pub(crate) fn each_level(alloc: Global, work: Work, rounds: u32) -> io::Result<Counted> {
    let mut counted = Counted::NONE;
    let mut shelf = Shelf::empty();
    for _level in 0..LEVELS {
        let Ok(level) = build_alone(alloc, &shelf) else {
            return Ok(counted);
        };
        for _round in 0..rounds {
            let went_well = match work {
                Work::Judge => is_judged_right(alloc, &shelf, &level)?,
                Work::Lower => is_lowered(alloc, &shelf, &level)?,
            };
            if went_well {
                counted.add(u64::from(size(level.number())));
            }
        }
        shelf.push(Arc::new(alloc, level)?);
    }
    Ok(counted)
}

/// Whether the verifier takes what the level says.
fn is_judged_right(alloc: Global, shelf: &Shelf, level: &Level) -> Result<bool, AllocError> {
    Ok(verify(shelf, image_of(alloc, level)?).is_ok())
}

/// Whether the level comes out again when its distances are doubled and brought down. It is judged
/// first whether the doubled level keeps the older rules.
fn is_lowered(alloc: Global, shelf: &Shelf, level: &Level) -> Result<bool, AllocError> {
    let farther = doubled(alloc, level)?;
    if verify_old(shelf, &farther).is_err() {
        return Ok(false);
    }
    let nearer = least(alloc, shelf, farther)?;
    Ok(nearer.entries.to_vec(alloc)? == level.to_vec(alloc)?)
}

/// A copy with each distance, and the limit, twice as great.
fn doubled(alloc: Global, level: &Level) -> Result<Image, AllocError> {
    let mut entries = level.to_vec(alloc)?;
    for entry in entries.iter_mut() {
        entry.dist = entry.dist.saturating_mul(2);
    }
    Ok(Image {
        level: level.number(),
        limit: level.limit().saturating_mul(2),
        entries: Entries::from(entries),
    })
}

/// A copy of what the level says, as it lies when it is loaded.
fn image_of(alloc: Global, level: &Level) -> Result<Image, AllocError> {
    let boards = size(level.number());
    let mut entries = Entries::with_capacity(alloc, boards as usize)?;
    for rank in 0..boards {
        entries.push(alloc, level.entry_at(rank))?;
    }
    Ok(Image {
        level: level.number(),
        limit: level.limit(),
        entries,
    })
}
