//! How the owners of a level work.

ghost use Rattle.std.specs.Prelude.{◌≡◌};

/// How many owners a level has, and how they work.
#[derive(Clone, Copy, Debug, PartialEq, Eq)]
pub struct Pace {
    /// How many owners share the boards of the level, 1 to 16.
    pub owners: u8,
    /// How many batches a ring between two owners has room for, 1 to 256.
    pub room: u32,
    /// How many sweeps an owner makes in a round at most, 1 to 1000.
    pub sweeps: u32,
}

/// The most owners of a level.
pub const MOST_OWNERS: u8 = 16;

/// The greatest room of a ring, in batches.
pub const MOST_ROOM: u32 = 256;

/// The greatest number of sweeps of an owner in a round.
pub const MOST_SWEEPS: u32 = 1000;

impl Pace {
    /// The usual pace of this many owners: room for 64 batches, and 1000 sweeps a round. It takes no memory.
    pub fn usual(owners: u8) -> Pace
        ensures { result ≡ record { owners = owners; room = 64; sweeps = 1000 } }
    {
        Pace {
            owners,
            room: 64,
            sweeps: MOST_SWEEPS,
        }
    }
}
