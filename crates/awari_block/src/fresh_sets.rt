//! How a block keeps its fresh boards. Owners keep them in order, by distance and then by rank, and take
//! no memory once they begin. Segments keep them in lists by distance, and take them all at once.

ghost use Rattle.std.specs.Prelude.{◌≡◌, ℕ, ◌-◌, ◌^◌, ◌<◌, ◌∷◌, ◌++◌, [], List, IfOk, OnErr, OnOk, length, slice_set};
ghost use Rattle.std.specs.List.Sorted.{IsPermutation};
ghost use Rattle.awari_block.specs.FreshSets.{CanJoin, GivesAway, KeepFresh};

use crate::cells::Cell;
use crate::notes::Kind;
use std::alloc::{AllocError, Global};

/// The fresh boards of a block, as the block keeps them. Their values and distances stand in its cells too.
pub trait FreshSet: Drop {
    ghost use Rattle.awari_block.specs.declared.cells.Cell.{Cell as CellView};
    ghost use Rattle.awari_block.specs.Blocks.{Due};

    /// The fresh boards.
    ghost dues: { Self → List Due };

    /// What is kept is right for the block from this rank on that has these cells.
    ghost right: { ℕ → List CellView → Self → Type 0 };

    /// What holds if a board found no room. If ⊥, each finds some.
    ghost lacks: { Type 0 };

    /// None of this many boards. Refused only if memory runs out.
    fn new(alloc: Global, boards: usize) -> Result<Self, AllocError>
        requires { boards < 2 ^ 32 }
        ensures right { IfOk result (λ fresh. (start : ℕ) (cells : List CellView) → length cells ≡ boards → right start cells fresh) }
        ensures none { IfOk result (λ fresh. dues fresh ≡ []) };

    /// The board of this rank becomes fresh, as it gets this cell. If it is refused they stay as they were.
    fn insert(&mut self, rank: u32, cell: Cell) -> Result<(), AllocError>
        requires new { (start : ℕ) × (cells : List CellView) × CanJoin dues right start cells self.old rank cell }
        ensures joins { OnOk result (IsPermutation ((cell.dist, rank) ∷ dues self.old) (dues self.new)) }
        ensures right { OnOk result ((start : ℕ) (cells : List CellView) → CanJoin dues right start cells self.old rank cell → right start (slice_set cells (rank - start) cell) self.new) }
        ensures lacks { OnErr result lacks }
        ensures stays { OnErr result ((start : ℕ) (cells : List CellView) → right start cells self.old → right start cells self.new) }
        ensures same { OnErr result (dues self.new ≡ dues self.old) };

    /// A law, and no code. Of the cells, the scores of the fresh boards alone matter.
    fn depend_on_their_cells()
        ensures { (start : ℕ) (cells after : List CellView) (fresh : Self) → KeepFresh start cells after (dues fresh) → right start cells fresh → right start after fresh };
}

/// Fresh boards that are kept by kind: lost and won ones apart.
pub trait ByKind: FreshSet {
    /// Moves those of this wave whose notes are of this kind behind others, and answers how many they are.
    /// Refused if there is no room for them there, and then nothing changes.
    fn give(&mut self, kind: Kind, wave: u32, to: &mut Vec<u32>) -> Result<usize, AllocError>
        ensures given { IfOk result (λ count. (given : List ℕ) × (to.new.items ≡ to.old.items ++ given) × (count ≡ length given) × GivesAway Self.dues Self.right kind wave self.old self.new given) }
        ensures refused { OnErr result (self.new ≡ self.old) };
}
