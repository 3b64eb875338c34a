//! A turn: fresh boards are taken, and their notes found.

ghost use Rattle.std.specs.Prelude.{◌≡◌, ◌^◌, ◌<◌, ◌≤◌, OnOk};
ghost use Rattle.awari_segments.specs.Each.{PassesFirst};
ghost use Rattle.awari_segments.specs.Tellings.{Tells, telling_of};

use crate::chunks::{Chunk, Finder, find_row};
use crate::halts::Halt;
use crate::rows::Row;
use crate::segments::Segment;
use crate::taking::{are_below, take_boards};
use awari_block::Stake;
use awari_board::moves_keep_boards;
use awari_rank::{ranks_tell_boards_apart, size};

/// What is spread in a turn: boards of this stake, as many or a few more, since those of a segment are
/// spread together.
#[derive(Clone, Copy)]
pub struct Turn {
    pub stake: Stake,
    pub boards: usize,
}

/// Moves fresh boards of the open wave from the segments into the chunk, as many as the turn has, and
/// finds their notes for the row. True if boards of the wave may be left. Conditions: the finder is for the
/// level of the stake, and a gain is open. Refused as `Unfit` if a segment has another stake, and as
/// `Memory`; then the level is lost.
pub fn take_notes(
    finder: Finder<'_>,
    turn: Turn,
    segments: &mut [Segment],
    chunk: &mut Chunk,
    row: &mut Row,
) -> Result<bool, Halt>
    requires level { (turn.stake.level ≡ finder.index.now) × (turn.stake.level ≤ 24) }
    requires log { finder.log < 32 }
    requires opened { 1 ≤ turn.stake.gain }
    ensures tells { OnOk result (Tells turn.stake.level (2 ^ finder.entry.log) (telling_of turn.stake row.new) segments.old segments.new) }
    ensures first { OnOk result (1 ≤ turn.boards → PassesFirst turn.stake.wave segments.old segments.new) }
{
    moves_keep_boards();
    ranks_tell_boards_apart();
    let left = take_boards(turn.stake, turn.boards, segments, chunk)?;
    let (lost, won) = (chunk.lost.as_slice(), chunk.won.as_slice());
    let boards = size(turn.stake.level);
    if !are_below(lost, boards) || !are_below(won, boards) {
        return Err(Halt::Unfit);
    }
    find_row(finder, lost, won, row)?;
    Ok(left)
}
