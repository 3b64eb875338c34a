//! Sets of own pits.

ghost use Rattle.std.specs.Prelude.{◌≡◌, ◌^◌, ◌<◌, ◌==◌, bit_or};
ghost use Rattle.awari_block.specs.Pits.{IsLowestIn, has_pit, with_pit, without_pit};

use std::marker::Model;

/// A set of own pits in one byte, a bit for each. Contracts see it as the number of these bits.
#[derive(Clone, Copy)]
pub struct Pits {
    bits: u8,
}

impl Model for Pits {
    ghost use Rattle.std.specs.Prelude.{ℕ};

    ghost Value = { ℕ };

    ghost view = { λ pits. pits.bits };

    ghost inverse = { λ bits. record { bits = bits } };
}

impl Pits {
    /// No pit.
    pub const NONE: Pits = Pits { bits: 0 };

    /// This pit alone. Condition: it is below 6.
    #[inline(always)]
    pub fn only(pit: u8) -> Pits
        requires { pit < 6 }
        ensures { result ≡ 2 ^ pit }
    {
        Pits { bits: 1 << pit }
    }

    /// These pits and this one. Condition: it is below 6.
    #[inline(always)]
    pub fn with(self, pit: u8) -> Pits
        requires { pit < 6 }
        ensures { result ≡ with_pit self pit }
    {
        self.with_all(Pits::only(pit))
    }

    /// These pits but this one. Condition: it is below 6.
    #[inline(always)]
    pub fn without(self, pit: u8) -> Pits
        requires { pit < 6 }
        ensures { result ≡ without_pit self pit }
    {
        Pits {
            bits: self.bits & !Pits::only(pit).bits,
        }
    }

    /// These pits and those.
    #[inline(always)]
    pub fn with_all(self, others: Pits) -> Pits
        ensures { result ≡ bit_or self others }
    {
        Pits {
            bits: self.bits | others.bits,
        }
    }

    /// Whether this pit is among them. Condition: it is below 6.
    #[inline(always)]
    pub fn has(self, pit: u8) -> bool
        requires { pit < 6 }
        ensures { result ≡ has_pit self pit }
    {
        self.bits & Pits::only(pit).bits != 0
    }

    /// Whether there are none.
    #[inline(always)]
    pub fn is_empty(self) -> bool
        ensures { result ≡ (self == 0) }
    {
        self.bits == 0
    }

    /// The lowest of them, none if there are none.
    #[inline(always)]
    pub fn lowest(self) -> Option<u8>
        ensures { IsLowestIn self result }
    {
        let lowest = self.bits.trailing_zeros() as u8;
        if lowest < 6 { Some(lowest) } else { None }
    }
}
