//! The fresh boards of a block in lists by distance.

ghost use Rattle.std.specs.Prelude.{⊤};

use crate::lists::Lists;
use awari_block::{ByKind, Cell, FreshSet, Kind};
use std::alloc::{AllocError, Global};

/// The fresh boards of a block in lists by distance, lost and won ones apart.
#[derive(Drop)]
pub struct ByDistance {
    pub lost: Lists,
    pub won: Lists,
}

impl FreshSet for ByDistance {
    ghost use Rattle.awari_segments.specs.ByDistance.{AreSigned, listed_of};

    ghost dues = { listed_of };

    ghost right = { AreSigned };

    ghost lacks = { ⊤ };

    /// It takes memory as boards come.
    fn new(alloc: Global, _boards: usize) -> Result<ByDistance, AllocError> {
        Ok(ByDistance {
            lost: Lists::new(alloc),
            won: Lists::new(alloc),
        })
    }

    #[inline(always)]
    fn insert(&mut self, rank: u32, cell: Cell) -> Result<(), AllocError> {
        if cell.score < 0 {
            self.lost.put(cell.dist, rank)?;
            return Ok(());
        }
        self.won.put(cell.dist, rank)?;
        Ok(())
    }

    fn depend_on_their_cells() {}
}

impl ByKind for ByDistance {
    fn give(&mut self, kind: Kind, wave: u32, to: &mut Vec<u32>) -> Result<usize, AllocError> {
        match kind {
            Kind::Lost => {
                let lost = self.lost.give(wave, to)?;
                Ok(lost)
            }
            Kind::Won => {
                let won = self.won.give(wave, to)?;
                Ok(won)
            }
        }
    }
}
