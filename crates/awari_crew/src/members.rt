//! A member of a crew: its segments of a level, and its ends of the rings to the others.

ghost use Rattle.std.specs.Prelude.{◌≡◌, ◌<◌, ◌≤◌, false, length};
ghost use Rattle.std.specs.Arc.{arc_value};

use crate::crews::Crew;
use crate::letters::{Head, Letter};
use crate::listening::since;
use crate::posting::send_all;
use awari_block::Stake;
use awari_heard::{Progress, Stage};
use awari_index::Index;
use awari_lines::Ends;
use awari_segments::{
    Chunk, Finder, Halt, Row, Segment, Turn, hear_rows, nearest, open_gain, open_wave, take_notes,
};
use awari_table::Shelf;
use std::alloc::Global;
use std::sync::Arc;
use std::time::{Clock, Duration, Instant};

/// A member spreads this many boards in a turn, or a few more: those of a segment are spread together.
const BOARDS_A_TURN: usize = 65536;

/// No level takes as many turns.
const MOST_TURNS: u32 = 4294967295;

/// A member of a crew. It alone has its segments, and it is the only one that reads and writes their
/// cells.
#[derive(Drop)]
pub struct Member {
    pub(crate) ends: Ends<Letter>,
    /// The levels below, of which it asks what captures gain.
    pub(crate) shelf: Shelf,
    pub(crate) index: Arc<Index>,
    pub(crate) level: u8,
    /// A segment has 2 to this power of boards, the last one fewer.
    pub(crate) log: u32,
    /// What is open in each of its segments.
    pub(crate) stake: Stake,
    pub(crate) segments: Vec<Segment>,
    pub(crate) chunk: Chunk,
    /// The row of its last letters, and the one before. Once all members answered its last letters, they
    /// have heard the one before, and it is filled again.
    pub(crate) last: Option<Arc<Row>>,
    pub(crate) spare: Option<Arc<Row>>,
    /// When it gives up.
    pub(crate) crew: Crew,
    /// When it began with the level, if the clock says so, and how long it has waited for letters since.
    pub(crate) begun: Option<Instant>,
    pub(crate) waited: Duration,
    pub(crate) alloc: Global,
    ghost indexed: { arc_value index ≡ level },
    ghost next: { length shelf ≡ level },
    ghost low: { level ≤ 24 },
    ghost short: { log < 32 },
}

impl Member {
    ghost use Rattle.std.specs.Prelude.{◌≡◌, ◌<◌, ◌^◌, Ok, OnOk, false};
    ghost use Rattle.awari_crew.specs.Members.{Kept, SameTask, parts_of};
    ghost use Rattle.awari_segments.specs.Tellings.{Tells, telling_of};

    /// Takes turns until all gains are closed, or the level is not wanted any more. In a turn it tells the
    /// others what it spreads, and hears what they spread. As a gain is opened, and in the first turn of a
    /// farther wave that has boards, `progress` is told how many boards were spread before. Refused as
    /// `Unfit` if what comes does not fit or nothing comes, or if the crew is slow, and as `Memory`; then the
    /// level is lost.
    pub(crate) fn work<C: Clock, P: Progress>(
        &mut self,
        clock: &C,
        progress: &mut P,
    ) -> Result<bool, Halt>
        ensures kept { OnOk result (Kept self.old self.new) }
        ensures unwanted { result ≡ Ok false → P.stops }
    {
        let mut told = self.stake;
        let mut boards: usize = 0;
        for _turn in 0..MOST_TURNS {
            let own = self.tell()?;
            let heads = self.listen(clock, own)?;
            if self.is_slow(clock) {
                return Err(Halt::Unfit);
            }
            if heads.spread && told.wave < self.stake.wave {
                told = self.stake;
                if !is_wanted_at(told, boards, progress) {
                    return Ok(false);
                }
            }
            boards = heads.boards;
            if !self.go_on(heads)? {
                return Ok(true);
            }
            if self.stake.gain != told.gain {
                told = self.stake;
                if !is_wanted_at(told, boards, progress) {
                    return Ok(false);
                }
            }
        }
        Err(Halt::Unfit)
    }

    /// Whether the crew takes longer than one thread would, as the first member sees it: longer than all together
    /// have worked, and half as long again. It waits that long on a busy machine, where each turn waits for the
    /// member whose processor others use.
    fn is_slow<C: Clock>(&self, clock: &C) -> bool {
        if self.ends.owner() != 0 {
            return false;
        }
        let gone = since(clock, self.begun);
        let worked = gone.saturating_sub(self.waited).as_nanos();
        let alone = worked.saturating_mul(self.ends.owners() as u128);
        gone.as_millis() > u128::from(self.crew.soon) && gone.as_nanos() / 3 > alone / 2
    }

    /// Takes boards of the open wave, tells the others their notes, and hears what is for its own
    /// segments.
    fn tell(&mut self) -> Result<Head, Halt>
        ensures { OnOk result (Kept self.old self.new) }
    {
        let mut row = self.spare_row();
        let left = self.speak(&mut row)?;
        let head = self.head(left);
        let row = Arc::new(self.alloc, row)?;
        send_all(&mut self.ends, head, self.stake, &row)?;
        hear_rows(self.log, self.stake, &row, self.segments.as_mut_slice())?;
        self.spare = self.last.replace(row);
        Ok(head)
    }

    /// Takes boards of the open wave, and finds their notes for the row. True if boards of the wave may be
    /// left.
    fn speak(&mut self, row: &mut Row) -> Result<bool, Halt>
        ensures rest { OnOk result (SameTask self.old self.new) }
        ensures tells { OnOk result (Tells self.old.level (2 ^ self.old.log) (telling_of self.old.stake row.new) (parts_of self.old) (parts_of self.new)) }
    {
        if self.stake.level != self.level || self.stake.gain == 0 {
            return Err(Halt::Unfit);
        }
        let finder = Finder {
            index: &*self.index,
            log: self.log,
        };
        let turn = Turn {
            stake: self.stake,
            boards: BOARDS_A_TURN,
        };
        let segments = self.segments.as_mut_slice();
        let left = take_notes(finder, turn, segments, &mut self.chunk, row)?;
        Ok(left)
    }

    /// A row to be filled: one that was heard, or a new one.
    fn spare_row(&mut self) -> Row
        ensures { SameTask self.old self.new × (parts_of self.new ≡ parts_of self.old) }
    {
        match self.spare.take() {
            Some(row) => match Arc::try_unwrap(row) {
                Ok(row) => row,
                Err(_) => Row::new(self.alloc),
            },
            None => Row::new(self.alloc),
        }
    }

    /// How it stands, once it took its boards.
    fn head(&self, left: bool) -> Head {
        let mut boards: usize = 0;
        for segment in &self.segments {
            boards = boards.saturating_add(segment.boards_spread());
        }
        let spread = !self.chunk.lost.is_empty() || !self.chunk.won.is_empty();
        let least = if spread {
            None
        } else {
            nearest(self.segments.as_slice())
        };
        Head {
            spread,
            left,
            least,
            boards,
        }
    }

    /// Takes the next step, to which all members come: the same wave again, the next one, the least
    /// distance of a fresh board, or the next gain. False if the last gain is closed.
    fn go_on(&mut self, heads: Head) -> Result<bool, Halt>
        ensures { OnOk result (Kept self.old self.new) }
    {
        if heads.left {
            return Ok(true);
        }
        if heads.spread {
            self.open_wave(self.stake.wave.saturating_add(1))?;
            return Ok(true);
        }
        match heads.least {
            Some(dist) => self.open_wave(dist)?,
            None if self.stake.gain > 1 => self.open_gain()?,
            None => return Ok(false),
        }
        Ok(true)
    }

    /// Opens the wave of this distance.
    fn open_wave(&mut self, dist: u32) -> Result<(), Halt>
        ensures { OnOk result (Kept self.old self.new) }
    {
        open_wave(dist, self.segments.as_mut_slice())?;
        self.stake = Stake {
            wave: dist,
            ..self.stake
        };
        Ok(())
    }

    /// Opens the next smaller gain.
    fn open_gain(&mut self) -> Result<(), Halt>
        ensures { OnOk result (Kept self.old self.new) }
    {
        let gain = self.stake.gain.saturating_sub(1);
        open_gain(gain, self.segments.as_mut_slice())?;
        self.stake = Stake {
            gain,
            wave: 0,
            ..self.stake
        };
        Ok(())
    }
}

/// Tells that this many boards were spread as this is opened, and asks whether the level is still wanted.
fn is_wanted_at<P: Progress>(stake: Stake, boards: usize, progress: &mut P) -> bool
    ensures { result ≡ false → P.stops }
{
    progress.hear(Stage::Settled {
        gain: usize::from(stake.gain),
        boards,
    });
    progress.is_wanted()
}
