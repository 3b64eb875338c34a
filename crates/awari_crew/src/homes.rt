//! A member scans its segments, works at them, and brings them home.

ghost use Rattle.std.specs.Prelude.{◌≡◌, ◌<◌, ◌^◌, All, Ok, None, IfOk, IfSome};
ghost use Rattle.awari_crew.specs.Homes.{ComesHome};
ghost use Rattle.awari_crew.specs.Begun.{IsBegun};
ghost use Rattle.awari_table.specs.Images.{table_of};

use crate::letters::Letter;
use crate::members::Member;
use awari_heard::Progress;
use awari_lines::Ends;
use awari_rank::size;
use awari_segments::{Halt, Segment, numbered_segment, segments_in};
use std::time::{Clock, Instant};

/// What a member brings home: its ends of the rings, and its segments.
#[derive(Drop)]
pub struct Home {
    pub(crate) ends: Ends<Letter>,
    pub(crate) segments: Vec<Segment>,
}

/// The member scans its segments, works until all gains are closed, and comes home. None if the level is
/// not wanted any more. Refused as a member is.
pub(crate) fn stay<C: Clock, P: Progress>(
    clock: &C,
    mut member: Member,
    progress: &mut P,
) -> Result<Option<Home>, Halt>
    ensures home { IfOk result (λ home. IfSome home (ComesHome member)) }
    ensures unwanted { result ≡ Ok None → P.stops }
{
    member.begun = Instant::now(clock).ok();
    member.segments = scanned(&member)?;
    if !member.work(clock, progress)? {
        return Ok(None);
    }
    let Member { ends, segments, .. } = member;
    Ok(Some(Home { ends, segments }))
}

/// Its segments, scanned: of those of the level each that has its number, but for multiples of how many
/// members there are. Dealt so, each wave is shared evenly.
fn scanned(member: &Member) -> Result<Vec<Segment>, Halt>
    ensures { IfOk result (λ segments. All (IsBegun (table_of member.now.shelf).value member.now.level) segments.items) }
{
    let span = span_of(member.log);
    let count = segments_in(size(member.level), span);
    let Ok(members) = u32::try_from(member.ends.owners()) else {
        return Err(Halt::Unfit);
    };
    let mut segments = Vec::new(member.alloc);
    let mut number = u32::from(member.ends.owner());
    while number < count {
        let segment = numbered_segment(member.alloc, &member.shelf, &*member.index, span, number)?;
        segments.push(segment)?;
        number = number.saturating_add(members.max(1));
    }
    Ok(segments)
}

/// 2 to this power.
fn span_of(log: u32) -> u32
    requires { log < 32 }
    ensures span { result ≡ 2 ^ log }
    ensures some { 0 < result }
{
    1 << log
}
