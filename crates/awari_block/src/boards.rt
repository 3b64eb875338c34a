//! The boards of a block: what is known of each, which are fresh, and what is open.

ghost use Rattle.std.specs.Prelude.{◌≡◌, ◌+◌, ◌-◌, ◌^◌, ◌<◌, ◌≤◌, ◌↔◌, ◌++◌, ℕ, List, IsTrue, IfNone, IfOk, IfSome, OnErr, OnOk, All, true, [], length, vec_len, slice_set};
ghost use Rattle.awari_rank.specs.Rank.{size_of};
ghost use Rattle.awari_block.specs.Cells.{Fits, FitsBy, is_settled};
ghost use Rattle.awari_block.specs.Blocks.{due_dist};
ghost use Rattle.awari_block.specs.Part.{Part as PartView, AreFresh, InBlock, stored_at, IsClosed};
ghost use Rattle.awari_block.specs.Counts.{spread_of};
ghost use Rattle.awari_block.specs.Boards.{CanHear, CanPut, GivesFresh, HearsNote, Joins, OpensBoards, OpensCells, Settles, stake_of};

use crate::awaited::{awaited_gains, next_awaiting};
use crate::cells::Cell;
use crate::closed::ClosedPart;
use crate::fresh_sets::{ByKind, FreshSet};
use crate::notes::{Kind, Note};
use crate::stakes::Stake;
use std::alloc::{AllocError, Global};
use std::marker::Model;

/// The boards of a block: what is open, a cell for each board, and which boards are fresh, that is,
/// settled and not spread yet.
///
/// Stake, cells and fresh boards go together: a fresh board has the distance of its cell, and the open
/// gain limits what a cell may hold. The last two fields save time. One says
/// which gain each board awaits, and one how many boards were spread.
#[derive(Drop)]
pub struct Boards<F: FreshSet> {
    /// The rank of the first board.
    pub(crate) start: u32,
    pub(crate) stake: Stake,
    pub(crate) cells: Vec<Cell>,
    pub(crate) fresh: F,
    awaits: Vec<u8>,
    pub(crate) spread: usize,
}

impl<F: FreshSet> Model for Boards<F> {
    ghost use Rattle.awari_block.specs.Part.{Part as PartView, part_of};

    ghost Value = { PartView };

    ghost use Rattle.awari_block.specs.BoardsFields.{IsBoards};

    ghost view = { λ a. part_of a.stake a.start a.cells.items (F.dues a.fresh) };

    ghost invariant = { IsBoards F.dues F.right };
}

impl<F: FreshSet> Boards<F> {
    /// The boards of a block of this level, from rank `start` on, with no gain open and no board
    /// fresh. It takes a byte a board and what their set takes, and is refused only if memory runs out.
    ///
    /// Conditions: the level has at most 24 stones, the block lies within the level, and each cell fits a
    /// level with no gain open.
    pub fn unopened(
        alloc: Global,
        level: u8,
        start: u32,
        cells: Vec<Cell>,
    ) -> Result<Boards<F>, AllocError>
        requires low { level ≤ 24 }
        requires short { start + vec_len cells < 2 ^ 32 }
        requires within { start + vec_len cells ≤ size_of level }
        requires fit { All (λ c. FitsBy c.mark level (level + 1) c.score c.dist) cells.items }
        ensures { IfOk result (λ boards. boards ≡ record { level = level; gain = level + 1; wave = 0; start = start; cells = cells.items; fresh = [] }) }
    {
        let fresh = F::new(alloc, cells.len())?;
        let awaits = awaited_gains(alloc, level, cells.as_slice())?;
        Ok(Boards {
            start,
            stake: Stake {
                level,
                gain: level + 1,
                wave: 0,
            },
            cells,
            fresh,
            awaits,
            spread: 0,
        })
    }

    /// What is open.
    #[inline(always)]
    pub fn stake(&self) -> Stake
        ensures stake { result ≡ stake_of self.now }
        ensures low { self.now.level ≤ 24 }
        ensures range { (1 ≤ self.now.gain) × (self.now.gain ≤ self.now.level + 1) }
    {
        self.stake
    }

    /// Their ranks: from the first number up to, not including, the second.
    #[inline(always)]
    pub fn block(&self) -> (u32, u32)
        ensures start { result.0 ≡ self.now.start }
        ensures end { result.1 ≡ self.now.start + length self.now.cells }
        ensures within { result.1 ≤ size_of self.now.level }
    {
        let start = self.start;
        (start, start + self.cells.len() as u32)
    }

    /// Whether the board of this rank is one of them.
    #[inline(always)]
    pub fn holds(&self, rank: u32) -> bool
        ensures { IsTrue result ↔ InBlock self.now rank }
    {
        self.start <= rank && ((rank - self.start) as usize) < self.cells.len()
    }

    /// Their cells, in order of rank.
    pub fn cells(&self) -> &[Cell]
        ensures { result.now ≡ self.now.cells }
    {
        self.cells.as_slice()
    }

    /// What is known of the board of this rank, which is one of the block.
    #[inline(always)]
    pub fn cell(&self, rank: u32) -> Cell
        requires held { InBlock self.now rank }
        ensures stored { result ≡ stored_at self.now rank }
        ensures fits { Fits (stake_of self.now) result }
    {
        self.cells[(rank - self.start) as usize]
    }

    /// The open wave, and no fresh board is nearer.
    pub fn wave(&self) -> u32
        ensures wave { result ≡ self.now.wave }
        ensures from { All (λ f. self.now.wave ≤ due_dist f) self.now.fresh }
    {
        self.stake.wave
    }

    /// The fresh ones, as they are kept.
    pub fn fresh(&self) -> &F
        ensures dues { F.dues result.now ≡ self.now.fresh }
        ensures fresh { AreFresh self.now }
    {
        &self.fresh
    }

    /// How many are settled and were spread.
    pub fn boards_spread(&self) -> usize
        ensures count { result ≡ spread_of self.now }
        ensures few { result < 2 ^ 32 }
    {
        self.spread
    }

    /// A note of the open gain and wave, for the board of this rank in this block or another.
    #[inline(always)]
    pub fn note(&self, target: u32, pit: u8, kind: Kind) -> Note
        ensures { result ≡ record { level = self.now.level; target = target; pit = pit; kind = kind; gain = self.now.gain; dist = self.now.wave } }
    {
        Note {
            level: self.stake.level,
            target,
            pit,
            kind,
            gain: self.stake.gain,
            dist: self.stake.wave,
        }
    }

    /// The board of this rank hears that its quiet move from `pit` leads to a board that is won or
    /// lost, at the open gain and wave. This may settle it, and then it joins the fresh ones. Conditions:
    /// the board is in the block, the pit is below 6, a gain is open, and the open wave is not the
    /// greatest u32. If its set has no room for it nothing changes.
    #[inline(always)]
    pub fn hear(&mut self, target: u32, pit: u8, kind: Kind) -> Result<(), AllocError>
        requires { CanHear self.old target pit }
        ensures settles { OnOk result (Settles self.old self.new) }
        ensures hears { OnOk result (HearsNote self.old self.new target pit kind) }
        ensures joins { OnOk result (Joins (stored_at self.old target) (stored_at self.new target) target self.old.fresh self.new.fresh) }
        ensures lacks { OnErr result F.lacks }
        ensures same { OnErr result (self.new ≡ self.old) }
    {
        let mut cell = self.cell(target);
        cell.hear(self.stake(), pit, kind);
        self.put(target, cell)?;
        Ok(())
    }

    /// The same of a board that is settled: it joins no fresh ones.
    #[inline(always)]
    pub fn hear_settled(&mut self, target: u32, pit: u8, kind: Kind)
        requires can { CanHear self.old target pit }
        requires settled { is_settled (stored_at self.old target).mark ≡ true }
        ensures settles { Settles self.old self.new }
        ensures hears { HearsNote self.old self.new target pit kind }
        ensures same { self.new.fresh ≡ self.old.fresh }
    {
        let mut cell = self.cell(target);
        cell.hear(self.stake(), pit, kind);
        self.put_settled(target, cell);
    }

    /// Opens the next smaller gain. The boards that an end or a capture settles at that gain are
    /// settled, and so become fresh. Conditions: the gain is at least 1, and no board is fresh. If
    /// their set has no room for one of them the level is lost.
    pub fn open_gain(&mut self, gain: u8) -> Result<(), AllocError>
        requires idle { self.old.fresh ≡ [] }
        requires next { gain + 1 ≡ self.old.gain }
        requires positive { 1 ≤ gain }
        ensures opens { OnOk result (OpensBoards gain self.old self.new) }
        ensures fresh { OnOk result (AreFresh self.new) }
        ensures lacks { OnErr result F.lacks }
    {
        self.stake = Stake {
            gain,
            wave: 0,
            ..self.stake
        };
        self.open_cells()
    }

    /// Opens the wave of a greater distance. Condition: no fresh board has a smaller one.
    pub fn open_wave(&mut self, dist: u32)
        requires farther { self.old.wave < dist }
        requires nearest { All (λ f. dist ≤ due_dist f) self.old.fresh }
        ensures wave { self.new ≡ record self.old { wave = dist } }
        ensures fresh { AreFresh self.new }
    {
        self.stake = Stake {
            wave: dist,
            ..self.stake
        };
    }

    /// What is kept once all gains are closed. Conditions: gain 1 is open, and no board is fresh.
    pub fn close(self) -> ClosedPart
        requires { IsClosed self }
        ensures { result ≡ self }
    {
        ClosedPart {
            start: self.start,
            stake: self.stake,
            cells: self.cells,
        }
    }

    /// Opens the gain of the stake in each cell, in order of rank. Most boards do not await it, and
    /// their cells are not read.
    fn open_cells(&mut self) -> Result<(), AllocError>
        requires gain { self.old.gain ≤ self.old.level }
        requires opened { self.old.wave ≡ 0 }
        ensures settles { OnOk result (Settles self.old self.new) }
        ensures opens { OnOk result (OpensCells self.old self.new 0 (length self.old.cells)) }
        ensures lacks { OnErr result F.lacks }
    {
        let start = self.start;
        let stake = self.stake();
        let mut from = 0;
        while let Some(index) = self.next_awaiting(from) {
            let rank = start + index as u32;
            let cell = self.cell(rank);
            self.put(rank, cell.with_gain(stake))?;
            from = index + 1;
        }
        Ok(())
    }

    /// The index of the first board from this one on that awaits the gain of the stake.
    fn next_awaiting(&self, from: usize) -> Option<usize>
        ensures short { self.now.start + length self.now.cells < 2 ^ 32 }
        ensures some { IfSome result (λ index. (from ≤ index) × (index < length self.now.cells) × OpensCells self.now self.now from index) }
        ensures none { IfNone result (OpensCells self.now self.now from (length self.now.cells)) }
    {
        next_awaiting(self.stake.gain, self.awaits.as_slice(), from)
    }

    /// Replaces the cell of the board of this rank, which is settled.
    #[inline(always)]
    fn put_settled(&mut self, rank: u32, cell: Cell)
        requires can { CanPut self.old rank cell }
        requires settled { is_settled (stored_at self.old rank).mark ≡ true }
        ensures settles { Settles self.old self.new }
        ensures cells { self.new.cells ≡ slice_set self.old.cells (rank - self.old.start) cell }
        ensures same { self.new.fresh ≡ self.old.fresh }
    {
        F::depend_on_their_cells();
        let index = rank - self.start;
        self.cells[index as usize] = cell;
    }

    /// Replaces the cell of the board of this rank. A board that this settles becomes fresh. If its set
    /// has no room for it nothing changes.
    #[inline(always)]
    fn put(&mut self, rank: u32, cell: Cell) -> Result<(), AllocError>
        requires { CanPut self.old rank cell }
        ensures settles { OnOk result (Settles self.old self.new) }
        ensures cells { OnOk result (self.new.cells ≡ slice_set self.old.cells (rank - self.old.start) cell) }
        ensures joins { OnOk result (Joins (stored_at self.old rank) cell rank self.old.fresh self.new.fresh) }
        ensures lacks { OnErr result F.lacks }
        ensures same { OnErr result (self.new ≡ self.old) }
    {
        let index = rank - self.start;
        let was_settled = self.cells[index as usize].is_settled();
        if !cell.is_settled() || was_settled {
            F::depend_on_their_cells();
            self.cells[index as usize] = cell;
            return Ok(());
        }
        self.fresh.insert(rank, cell)?;
        self.cells[index as usize] = cell;
        Ok(())
    }
}

impl<F: ByKind> Boards<F> {
    /// Moves the fresh boards of the open wave that are lost, or those that are won, behind others: those
    /// whose notes are of this kind. Refused if there is no room for them there, and then nothing changes.
    pub fn give(&mut self, kind: Kind, to: &mut Vec<u32>) -> Result<(), AllocError>
        ensures given { OnOk result ((given : List ℕ) × (to.new.items ≡ to.old.items ++ given) × GivesFresh kind self.old self.new given) }
        ensures fresh { AreFresh self.old }
        ensures opened { 1 ≤ self.old.gain }
    {
        let wave = self.stake.wave;
        let count = self.fresh.give(kind, wave, to)?;
        self.spread += count;
        Ok(())
    }
}
