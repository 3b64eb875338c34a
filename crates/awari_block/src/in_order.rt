//! The boards of a block whose fresh ones come in order: by distance, and then by rank.

ghost use Rattle.std.specs.Prelude.{◌≡◌, ℕ, ℤ, ◌≤◌, ◌↔◌, [], IfSome, IsTrue, Some, length};
ghost use Rattle.awari_block.specs.Part.{AreFresh, InBlock, IsLeastDue, settled_at};
ghost use Rattle.awari_block.specs.Boards.{TakesFirst};

use crate::boards::Boards;
use crate::cells::Cell;
use crate::fresh_sets::FreshSet;
use std::alloc::{AllocError, Global};
use std::cmp::Reverse;
use std::collections::BinaryHeap;

/// The fresh boards of a block in a heap, the first one on top.
#[derive(Drop)]
pub struct InOrder {
    /// Distance and rank of each.
    heap: BinaryHeap<Reverse<(u32, u32)>>,
}

impl FreshSet for InOrder {
    ghost use Rattle.awari_block.specs.FreshHeap.{IsInOrder, fresh_of};

    ghost dues = { fresh_of };

    ghost right = { λ start cells fresh. IsInOrder cells fresh };

    ghost lacks = { ⊥ };

    /// It takes eight bytes a board.
    fn new(alloc: Global, boards: usize) -> Result<InOrder, AllocError> {
        let heap = BinaryHeap::with_capacity(alloc, boards)?;
        Ok(InOrder { heap })
    }

    /// There is room for each board, so it takes no memory.
    fn insert(&mut self, rank: u32, cell: Cell) -> Result<(), AllocError> {
        self.heap.push(Reverse((cell.dist, rank)))?;
        Ok(())
    }

    fn depend_on_their_cells() {}
}

impl Boards<InOrder> {
    /// Whether none is fresh.
    pub fn idle(&self) -> bool
        ensures { IsTrue result ↔ (self.now.fresh ≡ []) }
    {
        self.fresh.heap.is_empty()
    }

    /// The least distance of a fresh board, none if no board is fresh.
    pub fn due(&self) -> Option<u32>
        ensures least { IsLeastDue self.now result }
        ensures timely { IfSome result (λ dist. self.now.wave ≤ dist) }
        ensures settled { IfSome result (λ dist. (rank : ℕ) × (v : ℤ) × InBlock self.now rank × (settled_at self.now rank ≡ Some (v, dist))) }
    {
        let Reverse((dist, _rank)) = *self.fresh.heap.peek()?;
        Some(dist)
    }

    /// Makes the first fresh board fresh no longer, and gives its rank. Conditions: a board is fresh,
    /// and the first is of the open wave.
    pub fn take_first(&mut self) -> u32
        requires due { IsLeastDue self.old (Some self.old.wave) }
        ensures first { TakesFirst self.old self.new result }
        ensures held { InBlock self.new result }
        ensures fresh { AreFresh self.new }
    {
        let Some(Reverse((_dist, rank))) = self.fresh.heap.pop() else {
            unreachable!()
        };
        self.spread += 1;
        rank
    }
}
