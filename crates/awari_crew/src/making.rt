//! The members of a crew, before they are started.

ghost use Rattle.std.specs.Prelude.{◌≡◌, ◌<◌, ◌≤◌, IfOk, length};
ghost use Rattle.std.specs.Arc.{arc_value};
ghost use Rattle.awari_crew.specs.Homes.{AreCrew};
ghost use Rattle.awari_table.specs.declared.TheConstants.{HIGHEST_LEVEL};

use crate::crews::Crew;
use crate::letters::Letter;
use crate::members::Member;
use awari_block::Stake;
use awari_index::Index;
use awari_lines::{Ends, grid};
use awari_rank::size;
use awari_segments::{Chunk, Halt, log_of};
use awari_table::Shelf;
use std::alloc::Global;
use std::sync::Arc;
use std::time::Duration;

/// A ring has room for two letters: no member is more than one turn ahead of another.
const LETTERS: u16 = 2;

/// Each member has so many segments at least, unless they are the smallest ones of a large level.
const SEGMENTS_A_MEMBER: u32 = 2;

const SMALLEST_LOG: u32 = 18;

/// What all members share of the level that they build.
#[derive(Drop)]
pub struct Task {
    /// The levels below.
    shelf: Shelf,
    /// The boards of the level by rank.
    index: Arc<Index>,
    level: u8,
    /// A segment has 2 to this power of boards.
    log: u32,
    /// Who builds it, and when they give up.
    crew: Crew,
    ghost indexed: { arc_value index ≡ level },
    ghost next: { length shelf ≡ level },
    ghost low: { level ≤ 24 },
    ghost short: { log < 32 },
}

impl Task {
    /// The shelf's next level, for this crew. Condition: the shelf has at most `HIGHEST_LEVEL` levels. Refused
    /// only if memory runs out.
    pub(crate) fn of(alloc: Global, shelf: &Shelf, crew: Crew) -> Result<Task, Halt>
        requires low { length shelf.now ≤ HIGHEST_LEVEL }
        ensures { IfOk result (λ task. task.shelf ≡ shelf.now) }
    {
        let level = shelf.levels();
        let index = Arc::new(alloc, Index::of(alloc, level)?)?;
        let shelf = shelf.share()?;
        Ok(Task {
            shelf,
            index,
            level,
            log: log_for(size(level), crew.members),
            crew,
        })
    }

    /// The stones on the boards of the level.
    pub(crate) fn level(&self) -> u8
        ensures level { result ≡ length self.now.shelf }
        ensures low { length self.now.shelf ≤ 24 }
    {
        self.level
    }

    /// The power of two that a segment has of boards.
    pub(crate) fn log(&self) -> u32
        ensures log { result ≡ self.now.log }
        ensures short { self.now.log < 32 }
    {
        self.log
    }
}

/// The power of two that a segment has of boards: that of [`log_of`], or a smaller one if some of these members
/// had too few segments.
fn log_for(boards: u32, members: u8) -> u32
    ensures { result < 32 }
{
    let segments = (u32::from(members) * SEGMENTS_A_MEMBER).max(1);
    let log = (boards / segments).max(1).ilog2().max(SMALLEST_LOG);
    log.min(log_of(boards))
}

/// This many members of a crew on one grid.
pub(crate) fn crew(alloc: Global, task: &Task, members: u8) -> Result<Vec<Member>, Halt>
    requires members { (1 ≤ members) × (members ≤ 16) }
    ensures { IfOk result (λ all. AreCrew task.now.shelf task.now.log all.items) }
{
    let grid = grid(alloc, members, LETTERS)?;
    let mut all = Vec::with_capacity(alloc, grid.len())?;
    for ends in grid {
        let member = member(alloc, task, ends)?;
        all.push(member)?;
    }
    Ok(all)
}

/// The member with these ends.
fn member(alloc: Global, task: &Task, ends: Ends<Letter>) -> Result<Member, Halt>
    ensures ends { IfOk result (λ member. member.ends ≡ ends) }
    ensures task { IfOk result (λ member. (member.shelf ≡ task.now.shelf) × (member.level ≡ length task.now.shelf) × (member.log ≡ task.now.log)) }
{
    let level = task.level;
    let shelf = task.shelf.share()?;
    let index = Arc::try_clone(&task.index)?;
    Ok(Member {
        ends,
        shelf,
        index,
        level,
        log: task.log,
        stake: Stake {
            level,
            gain: level + 1,
            wave: 0,
        },
        segments: Vec::new(alloc),
        chunk: Chunk::new(alloc),
        last: None,
        spare: None,
        crew: task.crew,
        begun: None,
        waited: Duration::ZERO,
        alloc,
    })
}
