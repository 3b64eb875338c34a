//! Positions, and the moves from them.

ghost use Rattle.std.specs.Prelude.{◌≡◌, ℕ, ◌+◌, ◌<◌, ◌≤◌, ◌↔◌, Contains, IsTrue, ℤ, IsNone, IsOk, IfOk, IfErr, List, sum, slice_index};
ghost use Rattle.std.specs.List.Sorted.{IsStrictlyIncreasing};
ghost use Rattle.awari_board.specs.BoardFault.{IsFaulty};
ghost use Rattle.awari_board.specs.MoveFault.{IsDue};
ghost use Rattle.awari_board.specs.Rules.{IsBoard, IsEnd, IsLegal, IsMove};
ghost use Rattle.awari_board.specs.Text.{text_of};

use crate::captures::capture;
use crate::moves::{MoveFault, Moved};
use crate::sides::{SIDE, other_stones, own_stones, stones_in, turned};
use crate::sowing::sow;
use crate::text::{BoardFault, is_shaped, push_pit, read_pits, total};
use arrayvec::ArrayVec;
use std::marker::Model;
use std::{fmt, str};

/// A position: the stones in twelve pits, at most 48 in all. Pits 0 to 5 are the mover's, 6 to 11
/// the opponent's. Contracts see the list of the twelve numbers.
#[derive(Clone, Copy, Debug, PartialEq, Eq)]
pub struct Board {
    pits: [u8; 12],
}

impl Model for Board {
    ghost use Rattle.std.specs.Prelude.{List, ℕ};
    ghost use Rattle.awari_board.specs.Rules.{IsBoard};

    ghost Value = { List ℕ };

    ghost view = { λ b. b.pits };

    ghost invariant = { λ b. IsBoard b.pits };

    ghost inverse = { λ pits. record { pits = pits } };
}

impl Board {
    /// The position with these stones. Condition: at most 48 stones in all.
    pub fn new(pits: [u8; 12]) -> Self
        requires { sum pits ≤ 48 }
        ensures pits { result ≡ pits }
        ensures board { IsBoard result }
    {
        Board { pits }
    }

    /// The position with these stones. It is refused as 3 `TooMany` if they are more than 48.
    pub fn of(pits: [u8; 12]) -> Result<Self, BoardFault>
        ensures board { IfOk result (λ board. (board ≡ pits) × (sum pits ≤ 48)) }
        ensures many { IfErr result (λ fault. (fault ≡ BoardFault.TooMany) × (48 < sum pits)) }
    {
        if total(&pits) <= 48 {
            return Ok(Board::new(pits));
        }
        Err(BoardFault::TooMany)
    }

    /// The position that `text` spells, in the form that [`Board::print`] gives. It is the stones of
    /// the twelve pits in decimal, with commas between them and a slash between the two sides.
    ///
    /// It is refused as the first of these that is due:
    ///
    /// - 1 `Shape`: the text is not twelve such fields.
    /// - 2 `Number`: a field is not a number below 100 without a leading zero.
    /// - 3 `TooMany`: there are more than 48 stones.
    pub fn parse(text: &[u8]) -> Result<Self, BoardFault>
        ensures read { (board : List ℕ) → (result ≡ Ok board) ↔ (IsBoard board × (text.now ≡ text_of board)) }
        ensures faulty { IfErr result (IsFaulty text.now) }
    {
        if !is_shaped(text) {
            return Err(BoardFault::Shape);
        }
        let Some(pits) = read_pits(text) else {
            return Err(BoardFault::Number);
        };
        if total(&pits) > 48 {
            return Err(BoardFault::TooMany);
        }
        Ok(Board { pits })
    }

    /// The one text that [`Board::parse`] reads as this position, as `0,0,0,0,0,12/4,0,0,0,0,0`.
    pub fn print(&self) -> ArrayVec<u8, 35>
        ensures text { result.items ≡ text_of self.now }
        ensures board { IsBoard self.now }
    {
        let pits = self.pits;
        let mut text = ArrayVec::new();
        for place in 0..12 {
            push_pit(&mut text, place, pits[place as usize]);
        }
        text
    }

    /// The stones in each of the twelve pits.
    pub fn pits(&self) -> [u8; 12]
        ensures pits { result ≡ self.now }
        ensures board { IsBoard self.now }
    {
        let Board { pits } = *self;
        pits
    }

    /// The stones in pit `i`. Condition: `i` is below 12.
    pub fn pit(&self, i: u8) -> u8
        requires { i < 12 }
        ensures stones { result ≡ slice_index self.now i }
        ensures board { IsBoard self.now }
    {
        self.pits[i as usize]
    }

    /// The stones on the board, 0 to 48.
    pub fn stones(&self) -> u8
        ensures stones { result ≡ sum self.now }
        ensures board { IsBoard self.now }
    {
        stones_in(&self.pits)
    }

    /// Whether the mover may play `pit`, which can be any number.
    pub fn legal(&self, pit: u8) -> bool
        ensures { IsTrue result ↔ IsLegal self.now pit }
    {
        if pit >= SIDE {
            return false;
        }
        let stones = self.pits[pit as usize];
        stones > 0 && (pit + stones >= SIDE || other_stones(&self.pits) > 0)
    }

    /// The pits that the mover may play, ascending; none if the play has ended.
    pub fn moves(&self) -> ArrayVec<u8, 6>
        ensures legal { (pit : ℕ) → Contains result.items pit ↔ IsLegal self.now pit }
        ensures ascending { IsStrictlyIncreasing result.items }
    {
        let mut moves = ArrayVec::new();
        for pit in 0..SIDE {
            if self.legal(pit) {
                moves.push(pit);
            }
        }
        moves
    }

    /// What the mover gains, in stones, if no move is legal and so the play has ended; `None` if a
    /// move is legal. Each player takes the stones on their own side, and one of the sides is empty.
    pub fn end(&self) -> Option<i8>
        ensures none { IsNone result ↔ ((pit : ℕ) × IsLegal self.now pit) }
        ensures some { (gain : ℤ) → (result ≡ Some gain) ↔ IsEnd self.now gain }
    {
        if (0..SIDE).any(|pit| self.legal(pit)) {
            return None;
        }
        let stones = self.stones() as i8;
        Some(if own_stones(&self.pits) == 0 {
            -stones
        } else {
            stones
        })
    }

    /// Plays `pit`: sows its stones, captures, and turns the board to the other player.
    ///
    /// It is refused as the first of these that is due:
    ///
    /// - 4 `NoPit`: the pit is above 5.
    /// - 7 `Ended`: the play has ended.
    /// - 5 `EmptyPit`: the pit is empty.
    /// - 6 `MustFeed`: the opponent has no stones, and this pit gives none while another does.
    #[inline(always)]
    pub fn play(&self, pit: u8) -> Result<Moved, MoveFault>
        ensures ok { IsOk result ↔ IsLegal self.now pit }
        ensures moved { IfOk result (λ m. IsMove self.now pit m.captured m.board) }
        ensures board { IfOk result (λ m. IsBoard m.board) }
        ensures kept { IfOk result (λ m. sum m.board + m.captured ≡ sum self.now) }
        ensures refused { IfErr result (IsDue self.now pit) }
    {
        if !self.legal(pit) {
            return Err(self.fault(pit));
        }
        let mut pits = self.pits;
        let last = sow(&mut pits, pit);
        let captured = capture(&mut pits, last);
        Ok(Moved {
            board: Board {
                pits: turned(&pits),
            },
            captured,
        })
    }

    /// Why `pit` can't be played.
    fn fault(&self, pit: u8) -> MoveFault
        requires { IsLegal self.now pit → ⊥ }
        ensures { IsDue self.now pit result }
    {
        if pit >= SIDE {
            return MoveFault::NoPit;
        }
        if self.end().is_some() {
            return MoveFault::Ended;
        }
        if self.pits[pit as usize] == 0 {
            return MoveFault::EmptyPit;
        }
        MoveFault::MustFeed
    }
}

/// The text that [`Board::print`] gives.
impl fmt::Display for Board {
    ghost use Rattle.std.specs.Prelude.{Some};
    ghost use Rattle.awari_board.specs.Text.{text_of};

    ghost output = { λ board. Some (text_of board) };

    fn fmt<W: fmt::Write>(&self, f: &mut fmt::Formatter<W>) -> fmt::Result {
        let digits = self.print();
        let Ok(text) = str::from_utf8(digits.as_slice()) else {
            unreachable!();
        };
        f.write_str(text)
    }
}
