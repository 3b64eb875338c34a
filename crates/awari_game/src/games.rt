//! A play, move by move.

ghost use Rattle.std.specs.Prelude.{◌≡◌, ℕ, ◌+◌, ◌<◌, ◌≤◌, ◌↔◌, ◌==◌, if◌then◌else◌, min, [], ◌∷◌, ◌++◌, List, ℤ, pos, neg_ℤ, ◌≤ℤ◌, IsOk, OnOk, OnErr, IfErr, IsNone, Some};
ghost use Rattle.awari_board.specs.Rules.{IsBoard, IsLegal};
ghost use Rattle.awari_board.specs.MoveFault.{IsDue};
ghost use Rattle.awari_game.specs.Plays.{Standing, signed, IsOutcome};
ghost use Rattle.awari_game.specs.Shown.{IsShown, Shows};

use awari_board::{Board, MoveFault};
use std::marker::Model;

/// Where a play stands: the position, what was captured, who is to move, and how long ago the last
/// capture was. Contracts see it as a standing, and say which plays it shows.
#[derive(Clone, Copy, Debug, PartialEq, Eq)]
pub struct Game {
    board: Board,
    /// What the first mover captured less what the second captured.
    running: i16,
    first_moves: bool,
    /// The plies since the last capture or the start, at most the greatest u64.
    quiet: u64,
}

impl Model for Game {
    ghost use Rattle.awari_game.specs.Plays.{Standing};

    ghost Value = { Standing };

    ghost use Rattle.awari_game.specs.Kept.{standing_of, fields_of, KeepsStones};

    ghost view = { standing_of };

    ghost invariant = { KeepsStones };

    ghost inverse = { fields_of };
}

impl Game {
    /// The play that begins at this position, with no move made. Its mover is the first mover.
    pub fn start(board: Board) -> Self
        ensures { Shows result board [] }
    {
        // For the proof: a board has at most 48 stones.
        let _stones = board.stones();
        Game {
            board,
            running: 0,
            first_moves: true,
            quiet: 0,
        }
    }

    /// Plays `pit` for the player to move. A pit that can't be played is refused as [`Board::play`]
    /// refuses it, and the game stays as it was.
    pub fn step(&mut self, pit: u8) -> Result<(), MoveFault>
        ensures ok { IsOk result ↔ IsLegal self.old.board pit }
        ensures played { OnOk result ((board pits : List ℕ) → Shows self.old board pits → Shows self.new board (pits ++ pit ∷ [])) }
        ensures refused { IfErr result (IsDue self.old.board pit) }
        ensures unchanged { OnErr result (self.new ≡ self.old) }
    {
        let moved = self.board.play(pit)?;
        *self = Game {
            board: moved.board,
            running: with_taken(self.running, self.first_moves, i16::from(moved.captured)),
            first_moves: !self.first_moves,
            quiet: quiet_after(self.quiet, moved.captured),
        };
        Ok(())
    }

    /// The position, as the player to move sees it.
    pub fn board(&self) -> Board
        ensures shown { result ≡ self.now.board }
        ensures board { IsBoard self.now.board }
    {
        self.board
    }

    /// What the first mover captured less what the second captured. It fits, since no stone is lost.
    pub fn running(&self) -> i16
        ensures { result ≡ self.now.running }
    {
        self.running
    }

    /// The plies since the last capture, or since the start, at most the greatest u64.
    pub fn quiet(&self) -> u64
        ensures { result ≡ self.now.quiet }
    {
        self.quiet
    }

    /// The outcome, as the first mover sees it. If no move is legal, it is what was captured and what
    /// the mover gains, which counts against the first mover if the second is to move. Otherwise it
    /// is what was captured, once more than `limit` plies captured nothing. Before that there is
    /// none.
    pub fn outcome(&self, limit: u32) -> Option<i16>
        ensures none { IsNone result ↔ (((pit : ℕ) × IsLegal self.now.board pit) × (self.now.quiet ≤ limit)) }
        ensures some { (s : Standing) (outcome : ℤ) → IsShown self.now s → (result ≡ Some outcome) ↔ IsOutcome limit s outcome }
    {
        match self.board.end() {
            Some(gain) => Some(with_taken(self.running, self.first_moves, i16::from(gain))),
            None if self.quiet > u64::from(limit) => Some(self.running),
            None => None,
        }
    }
}

/// The first mover's running difference, after the player to move takes these stones.
fn with_taken(running: i16, first_moves: bool, stones: i16) -> i16
    requires running_low { neg_ℤ (pos 1000) ≤ℤ running }
    requires running_high { running ≤ℤ pos 1000 }
    requires stones_low { neg_ℤ (pos 1000) ≤ℤ stones }
    requires stones_high { stones ≤ℤ pos 1000 }
    ensures { result ≡ signed first_moves running stones }
{
    if first_moves {
        running + stones
    } else {
        running - stones
    }
}

/// The quiet plies after one more ply.
fn quiet_after(quiet: u64, captured: u8) -> u64
    ensures { result ≡ (if captured == 0 then min (quiet + 1) u64.MAX else 0) }
{
    match captured {
        0 => quiet.saturating_add(1),
        _ => 0,
    }
}
