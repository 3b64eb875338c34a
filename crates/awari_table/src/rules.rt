//! What the rules ask of a move.

ghost use Rattle.std.specs.Prelude.{ℕ, ◌≡◌, ◌≤◌};
ghost use Rattle.awari_table.specs.Certificate.{plies};
ghost use Rattle.awari_table.specs.Reached.{gain_of};

use crate::images::Entry;

/// A legal move: the stones that it captures, the value of the board that it leaves, and how many
/// plies it takes. It takes one if it captures, else one more than the distance of the board that it
/// leaves, which may be the greatest u32.
#[derive(Clone, Copy)]
pub struct Reached {
    pub captured: u8,
    pub value: i8,
    pub plies: u64,
}

impl Reached {
    /// The move that captures this many stones, and leaves a board of this entry.
    #[inline(always)]
    pub fn of(captured: u8, entry: Entry) -> Reached
        ensures captured { result.captured ≡ captured }
        ensures value { result.value ≡ entry.value }
        ensures plies { result.plies ≡ plies captured entry.dist }
    {
        let plies = match captured {
            0 => u64::from(entry.dist) + 1,
            _ => 1,
        };
        Reached {
            captured,
            value: entry.value,
            plies,
        }
    }

    /// The move that captures this many stones, at least one, and leaves a board of this value. The
    /// distance of that board is of no matter.
    #[inline(always)]
    pub fn by_capture(captured: u8, value: i8) -> Reached
        requires { 1 ≤ captured }
        ensures captured { result.captured ≡ captured }
        ensures value { result.value ≡ value }
        ensures plies { (dist : ℕ) → result.plies ≡ plies captured dist }
    {
        Reached {
            captured,
            value,
            plies: 1,
        }
    }

    /// What the mover gains by the move, in stones: those captured, less the value of the board that
    /// is left.
    pub fn gain(&self) -> i16
        ensures { result ≡ gain_of self.now }
    {
        i16::from(self.captured) - i16::from(self.value)
    }
}
