//! A level with an entry for each board of its stones.

ghost use Rattle.std.specs.Prelude.{◌≡◌, ◌<◌, ◌≤◌, ◌+◌, IfOk, Some, length, take, drop, slice_get, slice_index_or};
ghost use Rattle.awari_rank.specs.Rank.{size_of};
ghost use Rattle.awari_table.specs.Images.{IsLevel, no_entry, won_boards, even_boards, lost_boards};

use crate::images::{Counts, Entry, Image};
use awari_rank::size;
use std::alloc::{AllocError, Global};
use std::marker::Model;

/// An image that has an entry for each board of its level, in which each plan is an own pit. A
/// contract sees a level as that image.
#[derive(Debug, Drop)]
pub struct Level {
    image: Image,
}

impl Model for Level {
    ghost use Rattle.awari_table.specs.declared.images.Image.{Image};
    ghost use Rattle.awari_table.specs.Images.{IsLevel};

    ghost Value = { Image };

    ghost view = { λ l. l.image };

    ghost invariant = { λ l. IsLevel l.image };
}

impl Level {
    /// The image as a level. It is taken over as it is, with no memory. Conditions: its level is at
    /// most `HIGHEST_LEVEL`, it has an entry for each board of the level, and each plan is absent or
    /// 0 to 5.
    pub fn new(image: Image) -> Self
        requires { IsLevel image }
        ensures { result ≡ image }
    {
        Level { image }
    }

    /// The stones on each board of the level.
    pub fn number(&self) -> u8
        ensures number { result ≡ self.now.level }
        ensures level { IsLevel self.now }
    {
        self.image.level
    }

    /// The limit that the image names. For a level on a shelf that is its greatest distance, in
    /// plies.
    pub fn limit(&self) -> u32
        ensures { result ≡ self.now.limit }
    {
        self.image.limit
    }

    /// A vector of the entries. It takes memory for eight bytes a board.
    pub fn to_vec(&self, alloc: Global) -> Result<Vec<Entry>, AllocError>
        ensures { IfOk result (λ v. v.items ≡ self.now.entries) }
    {
        self.image.entries.to_vec(alloc)
    }

    /// Copies the entries from this rank on into `run`, as many as it holds. Condition: the level has
    /// this many from there on. It takes no memory.
    pub fn copy_run(&self, from: u32, run: &mut [Entry])
        requires { from + length run.old ≤ size_of self.now.level }
        ensures { run.new ≡ take (length run.old) (drop from self.now.entries) }
    {
        self.image.entries.copy_run(from as usize, run);
    }

    /// The value of the board of this rank. Condition: the rank is below the number of boards of the
    /// level.
    #[inline(always)]
    pub fn value_at(&self, rank: u32) -> i8
        requires { rank < size_of self.now.level }
        ensures { result ≡ (slice_index_or self.now.entries rank no_entry).value }
    {
        self.image.entries.value(rank as usize)
    }

    /// The entry of the board of this rank. Condition: the rank is below the number of boards of the
    /// level.
    #[inline(always)]
    pub fn entry_at(&self, rank: u32) -> Entry
        requires { rank < size_of self.now.level }
        ensures { slice_get self.now.entries rank ≡ Some result }
    {
        self.image.entries.at(rank as usize)
    }

    /// How many boards are won, even and lost for the mover. It takes no memory.
    pub fn counts(&self) -> Counts
        ensures won { result.won ≡ won_boards self.now.entries }
        ensures even { result.even ≡ even_boards self.now.entries }
        ensures lost { result.lost ≡ lost_boards self.now.entries }
    {
        let boards = size(self.number());
        let mut won = 0u32;
        let mut lost = 0u32;
        for rank in 0..boards {
            let value = self.value_at(rank);
            won += u32::from(value > 0);
            lost += u32::from(value < 0);
        }
        let even = boards - won - lost;
        Counts { won, even, lost }
    }
}
