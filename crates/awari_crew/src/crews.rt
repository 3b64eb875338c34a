//! A level built by a crew.

ghost use Rattle.std.specs.Prelude.{◌≡◌, ◌≤◌, All, Ok, None, IfOk, IfSome, length};
ghost use Rattle.awari_block.specs.Part.{IsClosed};
ghost use Rattle.awari_heard.specs.Level.{AreHeard, AreWhole};
ghost use Rattle.awari_table.specs.Images.{table_of};
ghost use Rattle.awari_table.specs.declared.TheConstants.{HIGHEST_LEVEL};

use crate::gathering::gather;
use crate::making::{Task, crew};
use crate::starting::stay_all;
use awari_block::ClosedPart;
use awari_heard::Progress;
use awari_segments::Halt;
use awari_table::Shelf;
use std::alloc::Global;
use std::thread::Threads;
use std::time::Clock;

/// How many members a crew has, and when it gives up.
#[derive(Clone, Copy, Debug, PartialEq, Eq)]
pub struct Crew {
    pub members: u8,
    /// How often each member looks for a letter before it leaves.
    pub patience: u64,
    /// After so many milliseconds the crew gives up if it takes longer than one thread would.
    pub soon: u64,
}

/// The closed parts of the shelf's next level, in order of rank, built by a crew. The first member works on
/// the caller's thread and tells `progress`, and each other one in a thread of its own. None if the level is
/// not wanted any more. It always returns, and every thread is joined before. A member that waits for long
/// sleeps by the clock of `rt`. Conditions: the shelf has at most `HIGHEST_LEVEL` levels, and the crew 1 to
/// 16 members.
///
/// Refused as `Memory` if memory runs out for a member, and as `Unfit` if a thread could not be started, a
/// member waited in vain, or the crew took longer than one thread would. It takes memory for nine bytes a
/// board, and for fresh boards and notes.
pub fn closed_by_crew<R: Threads + Clock + Send + Clone + Drop + 'static, P: Progress>(
    rt: &R,
    alloc: Global,
    shelf: &Shelf,
    members: Crew,
    progress: &mut P,
) -> Result<Option<Vec<ClosedPart>>, Halt>
    requires low { length shelf.now ≤ HIGHEST_LEVEL }
    requires members { (1 ≤ members.members) × (members.members ≤ 16) }
    ensures whole { IfOk result (λ parts. IfSome parts (λ parts. AreWhole (length shelf.now) parts.items)) }
    ensures closed { IfOk result (λ parts. IfSome parts (λ parts. All IsClosed parts.items)) }
    ensures heard { IfOk result (λ parts. IfSome parts (λ parts. AreHeard (table_of shelf.now).value parts.items)) }
    ensures unwanted { result ≡ Ok None → P.stops }
{
    let task = Task::of(alloc, shelf, members)?;
    let all = crew(alloc, &task, members.members)?;
    let Some(homes) = stay_all(rt, alloc, all, progress)? else {
        return Ok(None);
    };
    let parts = gather(alloc, task.level(), task.log(), homes)?;
    Ok(Some(parts))
}
