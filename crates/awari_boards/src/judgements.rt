//! The command `judge`: where a play stands, and its outcome.

ghost use Rattle.std.specs.Prelude.{◌≡◌, ◌+◌, ◌≤◌, ◌++◌, ◌↔◌, ℕ, ℤ, List, length, IfOk, IfErr, OnOk, Some};
ghost use Rattle.awari_game.specs.Plays.{Standing, IsOutcome};
ghost use Rattle.awari_game.specs.Shown.{IsShown, Shows};
ghost use Rattle.awari_boards.specs.Judgement.{IsJudgement, IsJudgeFault, IsRefusedAt, bytes_of, pit_named, pits_named};

use awari_answers::NoAnswer;
use awari_board::{Board, MoveFault};
use awari_game::Game;
use std::fmt;

/// Where a play stands.
#[derive(Clone, Copy, Debug, PartialEq, Eq)]
pub struct Judgement {
    /// The position, as the player to move sees it.
    pub board: Board,
    /// The stones that the first mover captured less those of the second.
    pub running: i16,
    /// The plies since the last capture, or since the start.
    pub quiet: u64,
    /// The outcome in stones, as the first mover sees it, if the play has come to one.
    pub outcome: Option<i16>,
}

/// Plays the moves from the board that `text` spells, and says where the play then stands. It has an
/// outcome if the play has ended, or once more than `limit` plies captured nothing. The moves are the
/// bytes of all `words`, one word after the other: each is the digit of a pit, and any other byte is
/// 4 `NoPit`. It takes no memory.
///
/// A text that is not a board is refused as [`Board::parse`] refuses it. After that, the first move
/// that can't be played is refused.
pub fn judge(text: &[u8], limit: u32, words: &[&str]) -> Result<Judgement, NoAnswer>
    ensures judged { IfOk result (IsJudgement text.now limit (bytes_of words.now)) }
    ensures fault { IfErr result (IsJudgeFault text.now (bytes_of words.now)) }
{
    let board = Board::parse(text)?;
    let mut game = Game::start(board);
    let mut played: u128 = 0;
    for word in words {
        match play_word(&mut game, word.as_bytes()) {
            Ok(()) => played += word.len() as u128,
            Err(refused) => {
                return Err(NoAnswer::MoveAt {
                    fault: refused.fault,
                    number: played + refused.number as u128,
                });
            }
        }
    }
    Ok(judgement_of(&game, limit))
}

/// The first move of a word that can't be played, and its number, counted from 1 in this word.
#[derive(Clone, Copy)]
struct Refused {
    fault: MoveFault,
    number: usize,
}

/// Plays the moves that these bytes name, up to the first that can't be played.
fn play_word(game: &mut Game, word: &[u8]) -> Result<(), Refused>
    ensures played { OnOk result ((board pits : List ℕ) → Shows game.old board pits → Shows game.new board (pits ++ pits_named word.now)) }
    ensures refused { IfErr result (λ r. (board pits : List ℕ) → Shows game.old board pits → IsRefusedAt board (pits ++ pits_named word.now) (length pits + r.number) r.fault) }
    ensures inside { IfErr result (λ r. r.number ≤ length word.now) }
{
    let mut number: usize = 1;
    for byte in word {
        match game.step(pit_named(*byte)) {
            Ok(()) => number += 1,
            Err(fault) => return Err(Refused { fault, number }),
        }
    }
    Ok(())
}

/// Where the game stands.
fn judgement_of(game: &Game, limit: u32) -> Judgement
    ensures board { result.board ≡ game.now.board }
    ensures running { result.running ≡ game.now.running }
    ensures quiet { result.quiet ≡ game.now.quiet }
    ensures outcome { (s : Standing) (x : ℤ) → IsShown game.now s → (result.outcome ≡ Some x) ↔ IsOutcome limit s x }
{
    Judgement {
        board: game.board(),
        running: game.running(),
        quiet: game.quiet(),
        outcome: game.outcome(limit),
    }
}

/// The pit that a byte names, or 255, which is none.
fn pit_named(byte: u8) -> u8
    ensures { result ≡ pit_named byte }
{
    match byte {
        b'0'..=b'9' => byte - b'0',
        _ => 255,
    }
}

impl fmt::Display for Judgement {
    ghost use Rattle.std.specs.Prelude.{Some};
    ghost use Rattle.awari_boards.specs.Judgement.{judgement_text};

    ghost output = { λ judgement. Some (judgement_text judgement) };

    fn fmt<W: fmt::Write>(&self, f: &mut fmt::Formatter<W>) -> fmt::Result {
        let Judgement {
            board,
            running,
            quiet,
            outcome,
        } = *self;
        let outcome = Outcome(outcome);
        write!(
            f,
            "board {board}\nrunning {running}\nquiet {quiet}\noutcome {outcome}"
        )
    }
}

/// An outcome, or that there is none.
#[derive(Clone, Copy)]
struct Outcome(Option<i16>);

impl fmt::Display for Outcome {
    ghost use Rattle.std.specs.Prelude.{Some};
    ghost use Rattle.awari_boards.specs.Judgement.{outcome_text};

    ghost output = { λ outcome. Some (outcome_text outcome.0) };

    fn fmt<W: fmt::Write>(&self, f: &mut fmt::Formatter<W>) -> fmt::Result {
        match self.0 {
            Some(outcome) => write!(f, "{outcome}"),
            None => f.write_str("none"),
        }
    }
}
