//! What members of a crew write to each other.

use awari_block::{Stake, nearer};
use awari_segments::Row;
use std::sync::Arc;

/// How a member stands in a turn, once it took its boards. All members come to the same next step, since
/// each goes by the heads of all.
#[derive(Clone, Copy, Debug, PartialEq, Eq)]
pub struct Head {
    /// Whether it spread boards.
    pub spread: bool,
    /// Whether boards of the open wave may be left.
    pub left: bool,
    /// The least distance of a fresh board. If it spread boards none is told, since the next wave is opened
    /// then.
    pub least: Option<u32>,
    /// How many boards it spread so far.
    pub boards: usize,
}

impl Head {
    /// How two members stand together.
    pub fn beside(self, other: Head) -> Head {
        Head {
            spread: self.spread || other.spread,
            left: self.left || other.left,
            least: nearer(self.least, other.least),
            boards: self.boards.saturating_add(other.boards),
        }
    }
}

/// What a member tells another one in a turn: how it stands, and the notes of the boards that it spread,
/// by segment. All letters of a turn share one row, in which each member reads what is for its own
/// segments.
#[derive(Drop)]
pub struct Letter {
    pub head: Head,
    pub stake: Stake,
    pub row: Arc<Row>,
}
