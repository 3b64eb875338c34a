//! What is kept of a part once its gains are all closed.

ghost use Rattle.std.specs.Prelude.{◌≡◌, ◌+◌, ◌^◌, ◌<◌, [], vec_len};
ghost use Rattle.awari_block.specs.Part.{part_of};

use crate::cells::Cell;
use crate::stakes::Stake;
use std::marker::Model;

/// A part with all gains closed: gain 1 is open, and no board is fresh. It keeps the cells alone,
/// eight bytes a board, since nothing is heard or spread any more.
#[derive(Drop)]
pub struct ClosedPart {
    pub(crate) start: u32,
    pub(crate) stake: Stake,
    pub(crate) cells: Vec<Cell>,
}

impl Model for ClosedPart {
    ghost use Rattle.std.specs.Prelude.{[]};
    ghost use Rattle.awari_block.specs.Part.{Part as PartView, part_of};

    ghost Value = { PartView };

    ghost use Rattle.awari_block.specs.ClosedFields.{IsClosedPart};

    ghost view = { λ a. part_of a.stake a.start a.cells.items [] };

    ghost invariant = { IsClosedPart };
}

impl ClosedPart {
    /// The part of these cells from this rank on, if no board of them is fresh. Conditions: gain 1 is
    /// open, and the ranks fit in 32 bits.
    pub fn new(start: u32, stake: Stake, cells: Vec<Cell>) -> ClosedPart
        requires last { stake.gain ≡ 1 }
        requires short { start + vec_len cells < 2 ^ 32 }
        ensures { result ≡ part_of stake start cells.items [] }
    {
        ClosedPart {
            start,
            stake,
            cells,
        }
    }

    /// The cells of the boards of the block, in order of rank.
    pub fn cells(&self) -> &[Cell]
        ensures { result.now ≡ self.now.cells }
    {
        self.cells.as_slice()
    }
}
