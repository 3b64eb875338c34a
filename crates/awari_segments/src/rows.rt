//! The notes that were found, by segment.

ghost use Rattle.std.specs.Prelude.{◌≡◌, []};
ghost use Rattle.awari_segments.specs.Lists.{list_at};
ghost use Rattle.awari_segments.specs.Rows.{lists_by};

use crate::lists::Lists;
use awari_block::Kind;
use std::alloc::Global;

/// The notes that were found, of lost and of won boards, with a list for each segment.
#[derive(Drop)]
pub struct Row {
    pub lost: Lists,
    pub won: Lists,
}

impl Row {
    /// No note yet.
    pub fn new(alloc: Global) -> Row
        ensures { (result.lost ≡ []) × (result.won ≡ []) }
    {
        Row {
            lost: Lists::new(alloc),
            won: Lists::new(alloc),
        }
    }

    /// The notes of this kind for the segment of this number.
    pub fn list(&self, kind: Kind, number: usize) -> &[u32]
        ensures { result.now ≡ list_at (lists_by kind self.now) number }
    {
        match kind {
            Kind::Lost => self.lost.list(number),
            Kind::Won => self.won.list(number),
        }
    }
}
