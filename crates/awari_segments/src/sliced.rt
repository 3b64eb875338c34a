//! A level that is built in slices. A caller that has one thread for all builds a bit of a level, and then does
//! something else. Each slice spreads boards of one distance, or opens a gain. What comes of it is what a build at
//! once gives, since its turns are those of a crew.

ghost use Rattle.std.specs.Prelude.{◌≡◌, ℕ, ℤ, ◌+◌, ◌≤◌, ◌<◌, ◌↔◌, List, All, IfOk, IsTrue, length};
ghost use Rattle.awari_block.specs.Counts.{spread_in};
ghost use Rattle.awari_block.specs.Each.{EachTo};
ghost use Rattle.awari_block.specs.Part.{IsClosed};
ghost use Rattle.awari_heard.specs.Kept.{IsKept};
ghost use Rattle.awari_heard.specs.Level.{AreHeard, AreWhole};
ghost use Rattle.awari_segments.specs.Each.{NoneAreFresh, PassesFirst, SameFresh};
ghost use Rattle.awari_segments.specs.Slices.{AreSlices, GoesOn, IsSlice};
ghost use Rattle.awari_table.specs.Images.{table_of};
ghost use Rattle.awari_table.specs.declared.TheConstants.{HIGHEST_LEVEL};

use crate::chunks::{Chunk, Finder};
use crate::dues::nearest;
use crate::halts::Halt;
use crate::hearing::hear_rows;
use crate::openings::{open_gain, open_wave};
use crate::rows::Row;
use crate::scanning::scanned_segments;
use crate::segments::{Segment, closed_all, log_of};
use crate::turns::{Turn, take_notes};
use awari_block::Stake;
use awari_heard::finish_closed;
use awari_index::Index;
use awari_rank::{ranks_tell_boards_apart, size};
use awari_table::{Image, Shelf};
use std::alloc::{AllocError, Global};
use std::marker::Model;

/// The next level of a shelf, while one thread builds it in slices.
#[derive(Drop)]
pub struct SlicedLevel {
    index: Index,
    /// A segment has 2 to this power of boards, the last one fewer.
    log: u32,
    /// What is open in each segment.
    stake: Stake,
    segments: Vec<Segment>,
    chunk: Chunk,
    row: Row,
}

impl Model for SlicedLevel {
    ghost use Rattle.awari_segments.specs.Slices.{SlicedView, IsSliced};

    ghost Value = { SlicedView };

    ghost view = { λ d. record { level = d.stake.level; gain = d.stake.gain; wave = d.stake.wave; parts = d.segments.items } };

    ghost invariant = { IsSliced };
}

impl SlicedLevel {
    /// The next level of the shelf, scanned, with no gain open. Condition: the shelf has at most
    /// `HIGHEST_LEVEL` levels. It takes memory for nine bytes a board, and is refused only if that runs
    /// out.
    pub fn begin(alloc: Global, shelf: &Shelf) -> Result<SlicedLevel, AllocError>
        requires low { length shelf.now ≤ HIGHEST_LEVEL }
        ensures level { IfOk result (λ draft. draft.level ≡ length shelf.now) }
        ensures heard { IfOk result (λ draft. AreHeard (table_of shelf.now).value draft.parts) }
    {
        let level = shelf.levels();
        let log = log_of(size(level));
        let index = Index::of(alloc, level)?;
        let segments = scanned_segments(alloc, shelf, &index, 1 << log)?;
        let stake = Stake {
            level,
            gain: level + 1,
            wave: 0,
        };
        Ok(SlicedLevel {
            index,
            log,
            stake,
            segments,
            chunk: Chunk::new(alloc),
            row: Row::new(alloc),
        })
    }

    /// The gain that is open, one more than the level if none was opened yet.
    pub fn gain(&self) -> u8
        ensures { result ≡ self.now.gain }
    {
        self.stake.gain
    }

    /// How many boards are settled and were spread.
    pub fn boards_spread(&self) -> usize
        ensures { result ≡ spread_in self.now.parts }
    {
        let mut boards: usize = 0;
        for segment in &self.segments {
            boards += segment.boards_spread();
        }
        boards
    }

    /// Whether all gains are closed.
    pub fn is_settled(&self) -> bool
        ensures { IsTrue result ↔ (self.now.gain ≡ 1) × NoneAreFresh self.now.parts }
    {
        self.stake.gain == 1 && nearest(self.segments.as_slice()).is_none()
    }

    /// Spreads boards of the nearest distance, this many or a few more, or all; or opens the next gain, if no
    /// board is fresh. A level that is settled stays as it is. It takes memory for fresh boards and for notes.
    /// Refused as `Memory` if that runs out, and as `Unfit` if a note does not fit, of which nothing is known;
    /// then the level is lost.
    pub fn spread(self, boards: usize) -> Result<SlicedLevel, Halt>
        ensures { IfOk result (IsSlice self) }
    {
        match nearest(self.segments.as_slice()) {
            Some(dist) => {
                let opened = self.at_wave(dist)?;
                let after = opened.spread_open(boards)?;
                Ok(after)
            }
            None if self.stake.gain > 1 => {
                let after = self.with_next_gain()?;
                Ok(after)
            }
            None => Ok(self),
        }
    }

    /// With the next smaller gain open.
    fn with_next_gain(mut self) -> Result<SlicedLevel, Halt>
        requires { 2 ≤ self.gain }
        ensures goes_on { IfOk result (GoesOn self) }
        ensures gain { IfOk result (λ after. after.gain + 1 ≡ self.gain) }
    {
        let gain = self.stake.gain - 1;
        open_gain(gain, self.segments.as_mut_slice())?;
        self.stake = Stake {
            gain,
            wave: 0,
            ..self.stake
        };
        Ok(self)
    }

    /// With the wave of this distance open.
    fn at_wave(mut self, dist: u32) -> Result<SlicedLevel, Halt>
        ensures goes_on { IfOk result (GoesOn self) }
        ensures wave { IfOk result (λ after. after.wave ≡ dist) }
        ensures fresh { IfOk result (λ after. EachTo SameFresh self.parts after.parts) }
    {
        if dist == self.stake.wave {
            return Ok(self);
        }
        open_wave(dist, self.segments.as_mut_slice())?;
        self.stake = Stake {
            wave: dist,
            ..self.stake
        };
        Ok(self)
    }

    /// With this many fresh boards of the open wave spread.
    fn spread_open(self, boards: usize) -> Result<SlicedLevel, Halt>
        ensures goes_on { IfOk result (GoesOn self) }
        ensures first { IfOk result (λ after. PassesFirst self.wave self.parts after.parts) }
    {
        ranks_tell_boards_apart();
        let SlicedLevel {
            index,
            log,
            stake,
            mut segments,
            mut chunk,
            mut row,
        } = self;
        let finder = Finder { index: &index, log };
        let turn = Turn {
            stake,
            boards: boards.max(1),
        };
        let all = segments.as_mut_slice();
        take_notes(finder, turn, all, &mut chunk, &mut row)?;
        hear_rows(log, stake, &row, all)?;
        Ok(SlicedLevel {
            index,
            log,
            stake,
            segments,
            chunk,
            row,
        })
    }

    /// The image of the level, once it is settled. Conditions: the shelf is that of the beginning, and all
    /// gains are closed. It takes memory for three bytes a board, or eight if a distance is above 8191,
    /// and is refused only if that runs out.
    pub fn finish(self, alloc: Global, shelf: &Shelf) -> Result<Image, AllocError>
        requires low { length shelf.now ≤ HIGHEST_LEVEL }
        requires level { self.level ≡ length shelf.now }
        requires closed { (self.gain ≡ 1) × NoneAreFresh self.parts }
        ensures kept { IfOk result (IsKept shelf.now self.parts) }
        ensures parts { IfOk result (λ image. All IsClosed self.parts × AreWhole self.level self.parts) }
    {
        let parts = closed_all(alloc, self.segments)?;
        let image = finish_closed(alloc, shelf, parts)?;
        Ok(image)
    }
}

/// The level after this many slices, each of this many boards.
pub fn spread_slices(draft: SlicedLevel, slices: u32, boards: usize) -> Result<SlicedLevel, Halt>
    ensures goes_on { IfOk result (GoesOn draft) }
    ensures slices { IfOk result (AreSlices slices draft) }
{
    let mut after = draft;
    for _slice in 0..slices {
        after = after.spread(boards)?;
    }
    Ok(after)
}
