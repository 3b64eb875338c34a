//! Blocks of a level, one for each owner.

ghost use Rattle.std.specs.Prelude.{◌≡◌, ◌≤◌, ◌<◌, ◌+◌, ◌-◌, ◌/◌};
ghost use Rattle.awari_rank.specs.Rank.{size_of};
ghost use Rattle.awari_block.specs.Shares.{IsBlockOf, first_rank};

use awari_rank::size;

/// A block: the boards of a level from one rank up to, not including, another.
#[derive(Clone, Copy)]
pub struct Block {
    /// The rank of the first board.
    pub start: u32,
    /// One more than the rank of the last board.
    pub end: u32,
}

impl Block {
    /// The block of this owner, one of `owners`, in a level. Conditions: the level has at most 24
    /// stones, and `owner` is below `owners`.
    pub fn of(level: u8, owners: u8, owner: u8) -> Block
        requires low { level ≤ 24 }
        requires some { 1 ≤ owners }
        requires few { owner < owners }
        ensures start { result.start ≡ first_rank (size_of level) owners owner }
        ensures end { result.end ≡ first_rank (size_of level) owners (owner + 1) }
        ensures sound { IsBlockOf level result }
    {
        let boards = size(level);
        Block {
            start: first_rank(boards, owners, owner),
            end: first_rank(boards, owners, owner + 1),
        }
    }
}

/// The rank of the first board of an owner's block, if this many boards are shared out in blocks of one
/// length. It is the number of boards if the owner has none.
fn first_rank(boards: u32, owners: u8, owner: u8) -> u32
    requires some { 1 ≤ owners }
    requires few { owner ≤ owners }
    ensures rank { result ≡ first_rank boards owners owner }
    ensures within { result ≤ boards }
{
    let length = block_length(boards, owners);
    (u64::from(owner) * u64::from(length)).min(u64::from(boards)) as u32
}

/// How many boards a block has, if this many boards are shared out among this many owners. Only the last
/// blocks may have fewer. Condition: there is at least one owner.
pub fn block_length(boards: u32, owners: u8) -> u32
    requires some { 1 ≤ owners }
    ensures { result ≡ (boards + (owners - 1)) / owners }
{
    // This is asked for each board that is spread, and one owner needs no division.
    if owners == 1 {
        return boards;
    }
    ((u64::from(boards) + (u64::from(owners) - 1)) / u64::from(owners)) as u32
}
