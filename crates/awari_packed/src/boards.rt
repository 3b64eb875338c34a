//! Positions in one number, and the moves from them.

ghost use Rattle.std.specs.Prelude.{◌≡◌, ◌≢◌, ℕ, ◌+◌, ◌-◌, ◌<◌, ◌≤◌, ◌↔◌, IsTrue, IfSome, IsNone, ◌++◌, List, sum, take, drop, slice_index, slice_set};
ghost use Rattle.awari_board.specs.Rules.{IsBoard, IsLegal, IsMove, captured_stones, last_pit, other_stones, turned};
ghost use Rattle.awari_rank.specs.Rank.{rank_of, size_of};
ghost use Rattle.awari_packed.specs.TakenBack.{taken_back};

use crate::captures::{capture, other_stones};
use crate::ranks::rank;
use crate::scattering::last_of;
use crate::successors::{REST, next};
use crate::taking_back::taken_back;
use crate::words::{joined, packed_to, pit, right_sums, sow, turned, with_stone_moved};
use awari_board::{Board, SIDE};
use awari_rank::unrank;
use std::marker::Model;

/// A position of at most 24 stones in one number. Contracts see it as the list of the twelve pits.
#[derive(Clone, Copy, PartialEq, Eq)]
pub struct PackedBoard {
    bits: u64,
}

impl Model for PackedBoard {
    ghost use Rattle.std.specs.Prelude.{List, ℕ};
    ghost use Rattle.std.proofs.Common.{ap};
    ghost use Rattle.awari_packed.specs.Packed.{IsPacking, packed, pits_of, packed-pits_of};

    ghost Value = { List ℕ };

    ghost view = { λ b. pits_of b.bits };

    ghost invariant = { λ b. IsPacking b.bits };

    ghost inverse = { λ pits. record { bits = packed pits } };

    ghost inverse_ok = { λ b h. ap (λ n. record { bits = n }) (packed-pits_of b.bits h.top) };
}

/// What playing a pit gives.
#[derive(Clone, Copy)]
pub struct PackedMove {
    /// The position after the move, as the other player sees it.
    pub board: PackedBoard,
    /// The stones captured, 0 for a quiet move.
    pub captured: u8,
}

impl PackedBoard {
    /// The same position, packed. Condition: at most 24 stones.
    pub fn new(board: &Board) -> Self
        requires { sum board.now ≤ 24 }
        ensures { result ≡ board.now }
    {
        PackedBoard {
            bits: packed_to(board),
        }
    }

    /// The same position, pit by pit.
    pub fn board(&self) -> Board
        ensures { result ≡ self.now }
    {
        let bits = self.bits;
        Board::new([
            pit(bits, 0),
            pit(bits, 1),
            pit(bits, 2),
            pit(bits, 3),
            pit(bits, 4),
            pit(bits, 5),
            pit(bits, 6),
            pit(bits, 7),
            pit(bits, 8),
            pit(bits, 9),
            pit(bits, 10),
            pit(bits, 11),
        ])
    }

    /// The board of this rank among those with this many stones. Conditions: at most 24 stones, and a
    /// rank below the number of such boards.
    pub fn unrank(stones: u8, rank: u32) -> Self
        requires few { stones ≤ 24 }
        requires in_range { rank < size_of stones }
        ensures board { IsBoard result }
        ensures stones { sum result ≡ stones }
        ensures rank { rank_of result ≡ rank }
    {
        PackedBoard::new(&unrank(stones, rank))
    }

    /// The stones in pit `i`. Condition: `i` is below 12.
    #[inline(always)]
    pub fn pit(&self, i: u8) -> u8
        requires { i < 12 }
        ensures { result ≡ slice_index self.now i }
    {
        pit(self.bits, i)
    }

    /// The stones on the board, 0 to 24.
    #[inline(always)]
    pub fn stones(&self) -> u8
        ensures stones { result ≡ sum self.now }
        ensures few { sum self.now ≤ 24 }
        ensures board { IsBoard self.now }
    {
        pit(right_sums(self.bits), 0)
    }

    /// The stones in the opponent's pits.
    #[inline(always)]
    pub fn other_stones(&self) -> u8
        ensures { result ≡ other_stones self.now }
    {
        other_stones(self.bits)
    }

    /// Whether the mover may play `pit`, which can be any number.
    #[inline(always)]
    pub fn legal(&self, pit: u8) -> bool
        ensures { IsTrue result ↔ IsLegal self.now pit }
    {
        if pit >= SIDE {
            return false;
        }
        let stones = self.pit(pit);
        stones > 0 && (pit + stones >= SIDE || other_stones(self.bits) > 0)
    }

    /// The pit that the last stone of a sowing from `origin` falls into. Condition: `origin` is below 6.
    #[inline(always)]
    pub fn last_pit(&self, origin: u8) -> u8
        requires { origin < 6 }
        ensures { result ≡ last_pit self.now origin }
    {
        last_of(origin, pit(self.bits, origin))
    }

    /// Plays `origin`: sows its stones, captures, and turns the board to the other player.
    /// Condition: the pit is legal.
    #[inline(always)]
    pub fn play(&self, origin: u8) -> PackedMove
        requires { IsLegal self.now origin }
        ensures moved { IsMove self.now origin result.captured result.board }
        ensures board { IsBoard result.board }
        ensures kept { sum result.board + result.captured ≡ sum self.now }
    {
        let bits = self.bits;
        let stones = pit(bits, origin);
        let strewn = sow(bits, origin, stones);
        let (left, captured) = capture(strewn, last_of(origin, stones));
        PackedMove {
            board: PackedBoard { bits: turned(left) },
            captured,
        }
    }

    /// The position as the other player sees it.
    #[inline(always)]
    pub fn turned(&self) -> PackedBoard
        ensures turned { result ≡ turned self.now }
        ensures board { IsBoard self.now }
    {
        PackedBoard {
            bits: turned(self.bits),
        }
    }

    /// The position with the mover's pits of this one and the opponent's pits of another. Condition:
    /// these hold at most 24 stones together.
    #[inline(always)]
    pub fn joined(&self, other: &PackedBoard) -> PackedBoard
        requires { sum (take 6 self.now ++ drop 6 other.now) ≤ 24 }
        ensures joined { result ≡ take 6 self.now ++ drop 6 other.now }
        ensures board { IsBoard result }
    {
        PackedBoard {
            bits: joined(self.bits, other.bits),
        }
    }

    /// The position with one stone moved from pit `from` to pit `to`. Conditions: both are below 12
    /// and differ, and `from` holds stones.
    #[inline(always)]
    pub fn with_stone_moved(&self, from: u8, to: u8) -> PackedBoard
        requires from { from < 12 }
        requires to { to < 12 }
        requires two { to ≢ from }
        requires held { 0 < slice_index self.now from }
        ensures { result ≡ slice_set (slice_set self.now from (slice_index self.now from - 1)) to (slice_index self.now to + 1) }
    {
        PackedBoard {
            bits: with_stone_moved(self.bits, from, to),
        }
    }

    /// The position with a stone of each pit after `origin` up to `last` taken back into `origin`.
    /// Conditions: `last` is below 6 and not before `origin`, and each of those pits holds stones.
    #[inline(always)]
    pub fn taken_back(&self, origin: u8, last: u8) -> PackedBoard
        requires from { origin ≤ last }
        requires own { last < 6 }
        requires held { (i : ℕ) → origin < i → i ≤ last → 0 < slice_index self.now i }
        ensures { result ≡ taken_back self.now origin (last - origin) }
    {
        PackedBoard {
            bits: taken_back(self.bits, origin, last),
        }
    }

    /// Whether a sowing that ended in pit `last` and gave this position captures nothing. Condition:
    /// `last` is below 12.
    #[inline(always)]
    pub fn captures_nothing(&self, last: u8) -> bool
        requires { last < 12 }
        ensures { IsTrue result ↔ (captured_stones self.now last ≡ 0) }
    {
        let (_left, captured) = capture(self.bits, last);
        captured == 0
    }

    /// The number of boards with as many stones that come before this one, its rank.
    #[inline(always)]
    pub fn rank(&self) -> u32
        ensures rank { result ≡ rank_of self.now }
        ensures below { result < size_of (sum self.now) }
    {
        rank(self.bits)
    }

    /// The board of the next rank among those with as many stones, or `None` if this is the last.
    #[inline(always)]
    pub fn successor(&self) -> Option<PackedBoard>
        ensures last { IsNone result ↔ (rank_of self.now + 1 ≡ size_of (sum self.now)) }
        ensures board { IfSome result (λ b. IsBoard b) }
        ensures stones { IfSome result (λ b. sum b ≡ sum self.now) }
        ensures rank { IfSome result (λ b. rank_of b ≡ rank_of self.now + 1) }
    {
        let bits = self.bits;
        if bits % REST == 0 {
            return None;
        }
        Some(PackedBoard { bits: next(bits) })
    }
}
