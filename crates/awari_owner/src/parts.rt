//! One owner's part of a level, and what is asked of it between two spreads.

ghost use Rattle.std.specs.Prelude.{◌≡◌, ℕ, ℤ, ◌+◌, ◌^◌, ◌<◌, ◌≤◌, ◌↔◌, IsTrue, OnOk, OnErr, IfOk, IfErr, IfSome, All, true, false, length, sum, vec_len, []};
ghost use Rattle.awari_board.specs.Rules.{IsBoard};
ghost use Rattle.awari_rank.specs.Rank.{rank_of, size_of};
ghost use Rattle.awari_block.specs.Cells.{IsWithin, IsBeyond};
ghost use Rattle.awari_block.specs.Blocks.{due_dist};
ghost use Rattle.awari_block.specs.Counts.{spread_of};
ghost use Rattle.awari_block.specs.Part.{Part as PartView, InBlock, Leaves, IsExpected, stored_at, settled_at, IsLeastDue, AreFresh, IsClosed};
ghost use Rattle.awari_owner.specs.OwnerFault.{IsFaultOf};
ghost use Rattle.awari_scan.specs.Scan.{AreScanned, IsScannedPart};
ghost use Rattle.awari_heard.specs.Level.{IsWhole};
ghost use Rattle.awari_owner.specs.Sound.{CanTake, IsScannedOwner, IsSpreadFault, OpensGain, OpensWave, SameStake, SpreadsFirst, TakesNote};
ghost use Rattle.awari_owner.specs.Spread.{IsPartOf};
ghost use Rattle.awari_table.specs.Images.{table_of};
ghost use Rattle.awari_table.specs.declared.TheConstants.{HIGHEST_LEVEL};
ghost use Rattle.awari_owner.specs.declared.faults.OwnerFault.{OwnerFault};

use crate::faults::OwnerFault;
use crate::outboxes::Outboxes;
use crate::queues::reserve_others;
use crate::spreads::{Predecessors, tell_all};
use awari_block::{Block, Boards, Cell, ClosedPart, InOrder, Note, block_length};
use awari_board::{SIDE, moves_keep_boards};
use awari_index::Index;
use awari_packed::PackedBoard;
use awari_rank::{ranks_tell_boards_apart, size};
use awari_scan::{scanned_cells, scanned_cells_parallel};
use awari_table::{Shelf, boards_are_right};
use std::alloc::{AllocError, Global};
use std::marker::Model;
use std::thread::Threads;

/// One owner's part of a level that is being built. It has what is known of each board of its block,
/// and which boards are fresh, that is, settled and not spread yet. And it has an index of the level,
/// which gives the board of a rank.
#[derive(Drop)]
pub struct Part {
    boards: Boards<InOrder>,
    index: Index,
}

impl Model for Part {
    ghost use Rattle.awari_block.specs.Part.{Part as PartView};

    ghost Value = { PartView };

    ghost use Rattle.awari_owner.specs.PartFields.{IsPart};

    ghost view = { λ a. a.boards };

    ghost invariant = { IsPart };
}

impl Part {
    /// The part of this owner, one of `owners`, of the shelf's next level: no board has heard a note,
    /// and no gain is open. Conditions: there are 1 to 16 owners, `owner` is below `owners`, and the
    /// shelf has at most `HIGHEST_LEVEL` levels. Refused as 33 `Memory` if memory runs out.
    ///
    /// It takes all the memory that the part will ever need: seventeen bytes a board, and an index of the
    /// level.
    pub fn scan(alloc: Global, shelf: &Shelf, owners: u8, owner: u8) -> Result<Part, OwnerFault>
        requires owners { (1 ≤ owners) × (owners ≤ 16) }
        requires owner { owner < owners }
        requires low { length shelf.now ≤ HIGHEST_LEVEL }
        ensures scanned { IfOk result (IsScannedOwner (table_of shelf.now).value (length shelf.now) owners owner) }
        ensures whole { owners ≡ 1 → IfOk result IsWhole }
        ensures memory { IfErr result (λ fault. fault ≡ OwnerFault.Memory) }
    {
        let level = shelf.levels();
        let block = Block::of(level, owners, owner);
        let index = Index::of(alloc, level)?;
        let cells = scanned_cells(alloc, shelf, &index, block.start, block.end)?;
        let part = scanned_part(alloc, shelf, index, block.start, cells)?;
        Ok(part)
    }

    /// Answers what [`Part::scan`] does, with the block shared among as many threads as there are
    /// processors.
    pub fn scan_parallel<R: Threads + Sync>(
        rt: &R,
        alloc: Global,
        shelf: &Shelf,
        owners: u8,
        owner: u8,
    ) -> Result<Part, OwnerFault>
        requires owners { (1 ≤ owners) × (owners ≤ 16) }
        requires owner { owner < owners }
        requires low { length shelf.now ≤ HIGHEST_LEVEL }
        ensures scanned { IfOk result (IsScannedOwner (table_of shelf.now).value (length shelf.now) owners owner) }
        ensures whole { owners ≡ 1 → IfOk result IsWhole }
        ensures memory { IfErr result (λ fault. fault ≡ OwnerFault.Memory) }
    {
        boards_are_right();
        let level = shelf.levels();
        let block = Block::of(level, owners, owner);
        let index = Index::of(alloc, level)?;
        let cells = scanned_cells_parallel(rt, alloc, shelf, &index, block)?;
        let part = scanned_part(alloc, shelf, index, block.start, cells)?;
        Ok(part)
    }

    /// Value in stones and distance in plies of the board of this rank, none if it is not settled.
    /// Condition: the board is in the block.
    pub fn settled(&self, rank: u32) -> Option<(i8, u32)>
        requires { InBlock self.now rank }
        ensures known { result ≡ settled_at self.now rank }
        ensures ranged { IfSome result (λ s. IsWithin self.now.level s.0 × IsBeyond self.now.gain s.0) }
    {
        self.boards.cell(rank).settled()
    }

    /// What is known of the board of this rank. Condition: the board is in the block.
    pub fn cell(&self, rank: u32) -> Cell
        requires { InBlock self.now rank }
        ensures { result ≡ stored_at self.now rank }
    {
        self.boards.cell(rank)
    }

    /// The cells of the boards of the block, in order of rank.
    pub fn cells(&self) -> &[Cell]
        ensures { result.now ≡ self.now.cells }
    {
        self.boards.cells()
    }

    /// The ranks of the boards of the block: from the first number up to, not including, the second.
    pub fn block(&self) -> (u32, u32)
        ensures start { result.0 ≡ self.now.start }
        ensures end { result.1 ≡ self.now.start + length self.now.cells }
    {
        self.boards.block()
    }

    /// The open gain in stones, one more than the level if none was opened yet.
    pub fn gain(&self) -> u8
        ensures gain { result ≡ self.now.gain }
        ensures range { (1 ≤ self.now.gain) × (self.now.gain ≤ self.now.level + 1) }
    {
        self.boards.stake().gain
    }

    /// The open wave in plies.
    pub fn wave(&self) -> u32
        ensures { result ≡ self.now.wave }
    {
        self.boards.stake().wave
    }

    /// Whether no board is fresh.
    pub fn idle(&self) -> bool
        ensures { IsTrue result ↔ (self.now.fresh ≡ []) }
    {
        self.boards.idle()
    }

    /// The least distance of a fresh board in plies, none if no board is fresh. It is that of a
    /// settled board of the block, and not below the open one.
    pub fn due(&self) -> Option<u32>
        ensures least { IsLeastDue self.now result }
        ensures timely { IfSome result (λ dist. self.now.wave ≤ dist) }
        ensures settled { IfSome result (λ dist. (rank : ℕ) × (v : ℤ) × InBlock self.now rank × (settled_at self.now rank ≡ Some (v, dist))) }
    {
        self.boards.due()
    }

    /// How many boards of the block are settled and were spread.
    pub fn boards_spread(&self) -> usize
        ensures count { result ≡ spread_of self.now }
        ensures few { result < 2 ^ 32 }
    {
        self.boards.boards_spread()
    }

    /// Opens the next smaller gain. The boards that an end or a capture settles at that gain are
    /// settled, and so become fresh. Conditions: the gain is at least 1, and no board is fresh. It
    /// takes no memory.
    pub fn open_gain(&mut self, gain: u8)
        requires idle { self.old.fresh ≡ [] }
        requires next { gain + 1 ≡ self.old.gain }
        requires positive { 1 ≤ gain }
        ensures { OpensGain gain self.old self.new }
    {
        let Ok(()) = self.boards.open_gain(gain) else {
            unreachable!()
        };
    }

    /// Opens the wave of a greater distance. Condition: no fresh board has a smaller one. It takes no memory.
    pub fn open_wave(&mut self, dist: u32)
        requires farther { self.old.wave < dist }
        requires nearest { All (λ f. dist ≤ due_dist f) self.old.fresh }
        ensures { OpensWave dist self.old self.new }
    {
        self.boards.open_wave(dist);
    }

    /// Hears a note of another owner, which may settle the board that it is for. It is refused as 30
    /// `Stranger`, else as 31 `Doubled`, else as 32 `Far`, and then nothing changes. It takes no
    /// memory.
    pub fn take(&mut self, note: Note) -> Result<(), OwnerFault>
        ensures taken { OnOk result (TakesNote note self.old self.new) }
        ensures can { OnOk result (CanTake self.old note) }
        ensures fresh { AreFresh self.new }
        ensures refused { IfErr result (IsFaultOf self.old note) }
        ensures err { OnErr result (self.new ≡ self.old) }
    {
        if !self.expects(&note) {
            return Err(OwnerFault::Stranger);
        }
        if !self.boards.cell(note.target).has_left(note.pit) {
            return Err(OwnerFault::Doubled);
        }
        if note.dist == u32::MAX {
            return Err(OwnerFault::Far);
        }
        let Ok(()) = self.boards.hear(note.target, note.pit, note.kind) else {
            unreachable!()
        };
        Ok(())
    }

    /// Spreads the first fresh board, which has the least distance and among those the least rank, if
    /// its distance is the open one. Its quiet predecessors hear of it, and it is fresh no longer.
    /// False if no board is fresh, or the first one has a greater distance.
    ///
    /// The outboxes are those of the part's owner. Predecessors in the block hear of the board at
    /// once. For each other predecessor a note goes to the outbox of its owner. They are told in the
    /// order of [`PackedUnmoves`](awari_unmove::PackedUnmoves), by pits ascending, which is that of
    /// [`Unmoves`](awari_unmove::Unmoves).
    ///
    /// Refused as 32 `Far` if the distance is the greatest u32, and as 33 `Memory` if there is no
    /// room for the notes, which is taken first. Then nothing changes. If there is no other owner, it
    /// takes no memory.
    pub fn spread_one(&mut self, outboxes: &mut Outboxes) -> Result<bool, OwnerFault>
        requires part { IsPartOf self.old outboxes.old }
        ensures spread { result ≡ Ok true → SpreadsFirst self.old self.new outboxes.old outboxes.new }
        ensures none { result ≡ Ok false → (IsLeastDue self.old (Some self.old.wave) → ⊥) × (self.new ≡ self.old) × (outboxes.new ≡ outboxes.old) }
        ensures stays { SameStake self.old self.new × (outboxes.new.owner ≡ outboxes.old.owner) × (length outboxes.new.queues ≡ length outboxes.old.queues) }
        ensures fault { IfErr result (IsSpreadFault self.old (length outboxes.old.queues)) }
        ensures err { OnErr result ((self.new ≡ self.old) × (outboxes.new ≡ outboxes.old)) }
    {
        let Some(dist) = self.boards.due() else {
            return Ok(false);
        };
        let stake = self.boards.stake();
        if dist != stake.wave {
            return Ok(false);
        }
        if dist == u32::MAX {
            return Err(OwnerFault::Far);
        }
        reserve_others(&mut outboxes.queues, outboxes.owner)?;
        moves_keep_boards();
        ranks_tell_boards_apart();
        let span = block_length(size(stake.level), outboxes.queues.len() as u8);
        let rank = self.boards.take_first();
        let predecessors = Predecessors::of(board_of(&self.boards, &self.index, rank));
        let kind = self.boards.cell(rank).kind();
        tell_all(
            &mut self.boards,
            &mut outboxes.queues,
            &predecessors,
            span,
            kind,
        );
        Ok(true)
    }

    /// What is kept of the part once all gains are closed; the rest of its memory is given back.
    /// Conditions: gain 1 is open, and no board is fresh.
    pub fn close(self) -> ClosedPart
        requires { IsClosed self }
        ensures { result ≡ self }
    {
        self.boards.close()
    }

    /// Whether the note is one that other owners may send now.
    fn expects(&self, note: &Note) -> bool
        ensures { IsTrue result ↔ IsExpected self.now note.now }
    {
        let stake = self.boards.stake();
        if note.level != stake.level || note.gain != stake.gain || stake.gain > stake.level {
            return false;
        }
        if note.dist != stake.wave || note.pit >= SIDE || !self.boards.holds(note.target) {
            return false;
        }
        self.leaves(note.target, note.pit)
    }

    /// Whether the move from `pit` of the board of this rank is quiet and leads to a board of another
    /// block.
    fn leaves(&self, target: u32, pit: u8) -> bool
        requires held { InBlock self.now target }
        requires own { pit < 6 }
        ensures { IsTrue result ↔ Leaves self.now target pit }
    {
        ranks_tell_boards_apart();
        let board = board_of(&self.boards, &self.index, target);
        if !board.legal(pit) {
            return false;
        }
        let moved = board.play(pit);
        moved.captured == 0 && !self.boards.holds(moved.board.rank())
    }
}

/// The board of this rank, which is one of these.
#[inline(always)]
fn board_of(boards: &Boards<InOrder>, index: &Index, rank: u32) -> PackedBoard
    requires held { InBlock boards.now rank }
    requires index { index.now ≡ boards.now.level }
    ensures board { IsBoard result }
    ensures stones { sum result ≡ boards.now.level }
    ensures rank { rank_of result ≡ rank }
{
    let _block = boards.block();
    index.board(rank)
}

/// The boards of the shelf's next level from rank `start` on that have these cells, with the index of that
/// level. They heard no note.
fn scanned_part(
    alloc: Global,
    shelf: &Shelf,
    index: Index,
    start: u32,
    cells: Vec<Cell>,
) -> Result<Part, AllocError>
    requires low { length shelf.now ≤ HIGHEST_LEVEL }
    requires index { index ≡ length shelf.now }
    requires short { start + vec_len cells < 2 ^ 32 }
    requires within { start + vec_len cells ≤ size_of (length shelf.now) }
    requires scanned { AreScanned (table_of shelf.now).value (length shelf.now) start (start + vec_len cells) cells.items }
    ensures { IfOk result (λ part. IsScannedPart (table_of shelf.now).value (length shelf.now) start (start + vec_len cells) part × AreFresh part) }
{
    let boards = Boards::unopened(alloc, shelf.levels(), start, cells)?;
    Ok(Part { boards, index })
}
