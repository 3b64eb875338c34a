//! Play by the plans of both sides, up to the first outcome.

ghost use Rattle.std.specs.Prelude.{◌≡◌, ℕ, ◌<◌, ◌≤◌, ◌+◌, ◌↔◌, [], ◌∷◌, ◌++◌, List, IfOk, IfErr, Err, Some, length, sum, take};
ghost use Rattle.awari_board.specs.Rules.{IsBoard, IsLegal};
ghost use Rattle.awari_faults.specs.Parts.{reason_said};
ghost use Rattle.awari_game.specs.Plays.{IsPlay, Standing, start};
ghost use Rattle.awari_game.specs.Shown.{Shows};
ghost use Rattle.awari_table.specs.Images.{entry_of, greatest_limit, table_of};
ghost use Rattle.awari_table.specs.declared.images.Image.{Image};
ghost use Rattle.awari_play.specs.BestLine.{IsBestLine};
ghost use Rattle.awari_play.specs.LineFault.{IsDue};
ghost use Rattle.awari_play.specs.Unplayed.{IsUnplayed};

use crate::lookups::{Table, Unplayed};
use awari_board::Board;
use awari_faults::Reason;
use awari_game::Game;
use awari_table::Shelf;
use std::alloc::Global;
use std::fmt;
use thiserror::Error;

/// A play from some board to its first outcome.
#[derive(Debug, PartialEq, Eq, Drop)]
pub struct Line {
    /// The pits that are played, by the two players in turn. Each is from 0 to 5, as its player
    /// counts them.
    pub moves: Vec<u8>,
    /// The outcome, as the first mover sees it.
    pub outcome: i16,
}

/// Why there is no line. A fault is printed as its number, its name, and its field with its name.
#[derive(Clone, Copy, Debug, PartialEq, Eq, Error)]
pub enum LineFault {
    /// 56: the board's level is not on the shelf, which has this many levels.
    NotYet { levels: u8 },
    /// 57: there was no room.
    Memory,
}

impl LineFault {
    ghost use Rattle.awari_play.specs.LineFault.{number_of, reason_of};

    /// The number of this refusal, 56 or 57.
    pub fn number(self) -> u8
        ensures { result ≡ number_of self }
    {
        self.reason().number
    }

    /// What is told of it: its number, and how many levels there are.
    pub fn reason(self) -> Reason
        ensures { reason_said result ≡ reason_of self }
    {
        match self {
            LineFault::NotYet { levels } => Reason::with_number(56, "levels", u128::from(levels)),
            LineFault::Memory => Reason::alone(57),
        }
    }
}

impl fmt::Display for LineFault {
    ghost use Rattle.std.specs.Prelude.{Some};
    ghost use Rattle.awari_faults.specs.Refusals.{words_text};
    ghost use Rattle.awari_play.specs.LineFault.{reason_of};

    ghost output = { λ fault. Some (words_text (reason_of fault)) };

    fn fmt<W: fmt::Write>(&self, f: &mut fmt::Formatter<W>) -> fmt::Result {
        write!(f, "{}", self.reason())
    }
}

/// The play from the board in which both sides follow the shelf's plans, up to the first outcome by
/// this limit. It always returns. If the limit is at least that of each level up to the board's, as
/// the shelf's own limit is, the outcome is the board's value.
///
/// Refused as 56 `NotYet` if the board has at least as many stones as there are levels, else as 57
/// `Memory` if memory runs out. It takes memory for the moves, a byte each.
pub fn best_line(alloc: Global, shelf: &Shelf, board: Board, limit: u32) -> Result<Line, LineFault>
    ensures line { IfOk result (λ line. IsBestLine (table_of shelf.now) limit board line.moves.items line.outcome) }
    ensures value { IfOk result (λ line. greatest_limit (take (sum board + 1) shelf.now) ≤ limit → line.outcome ≡ (entry_of shelf.now board).value) }
    ensures not_yet { (result ≡ Err (LineFault.NotYet (length shelf.now))) ↔ (length shelf.now ≤ sum board) }
    ensures fault { IfErr result (IsDue (length shelf.now) (sum board)) }
{
    let levels = shelf.levels();
    if board.stones() >= levels {
        return Err(LineFault::NotYet { levels });
    }
    let mut table = shelf;
    match best_line_by(alloc, &mut table, board, limit) {
        Ok(line) => Ok(line),
        Err(Unplayed::Memory) => Err(LineFault::Memory),
        Err(Unplayed::Refused { .. }) => unreachable!(),
        Err(Unplayed::Illegal { .. }) => unreachable!(),
    }
}

/// The play from the board in which both sides follow the plans that a table says, up to the first outcome
/// by this limit. Condition: the board's level is there. It always returns, whatever the table says.
///
/// It is refused if a look-up is, or a plan is not legal, or memory runs out. It takes memory for the
/// moves, a byte each.
pub fn best_line_by<T: Table>(
    alloc: Global,
    table: &mut T,
    board: Board,
    limit: u32,
) -> Result<Line, Unplayed<T::Fault>>
    requires { sum board < T.saying.levels table.old }
    ensures line { (images : List Image) → T.saying.says table.old images → IfOk result (λ line. IsBestLine (table_of images) limit board line.moves.items line.outcome) }
    ensures play { IfOk result (λ line. (last : Standing) × IsPlay (start board) line.moves.items last) }
    ensures keeps { T.saying.keeps table.old table.new }
    ensures fault { IfErr result (IsUnplayed T.saying table.old) }
{
    let mut game = Game::start(board);
    let mut moves = Vec::new(alloc);
    loop {
        if let Some(outcome) = game.outcome(limit) {
            return Ok(Line { moves, outcome });
        }
        let pit = plan_by(table, &game.board())?;
        play_pit(&mut game, pit);
        match moves.push(pit) {
            Ok(()) => {}
            Err(_) => return Err(Unplayed::Memory),
        }
    }
}

/// The plan that a table says of a board, if it is legal. Conditions: the board's level is there, and some pit
/// is legal on the board.
fn plan_by<T: Table>(table: &mut T, board: &Board) -> Result<u8, Unplayed<T::Fault>>
    requires board { IsBoard board.now }
    requires known { sum board.now < T.saying.levels table.old }
    requires some { (pit : ℕ) × IsLegal board.now pit }
    ensures plan { (images : List Image) → T.saying.says table.old images → IfOk result (λ pit. (table_of images).plan board.now ≡ Some pit) }
    ensures legal { IfOk result (IsLegal board.now) }
    ensures keeps { T.saying.keeps table.old table.new }
    ensures fault { IfErr result (IsUnplayed T.saying table.old) }
{
    let entry = match table.entry(board) {
        Ok(entry) => entry,
        Err(fault) => return Err(Unplayed::Refused { fault }),
    };
    match entry.plan {
        Some(pit) if board.legal(pit) => Ok(pit),
        _ => Err(Unplayed::Illegal { board: *board }),
    }
}

/// Plays a pit of the game's board. Condition: it is legal. It takes no memory.
pub fn play_pit(game: &mut Game, pit: u8)
    requires { IsLegal game.old.board pit }
    ensures { (board pits : List ℕ) → Shows game.old board pits → Shows game.new board (pits ++ pit ∷ []) }
{
    let Ok(()) = game.step(pit) else {
        unreachable!()
    };
}
