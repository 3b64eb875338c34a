//! Play in which the favoured side follows its plans, and the other side holds out as long as it can.

ghost use Rattle.std.specs.Prelude.{◌≡◌, ◌<◌, ◌≤◌, ◌↔◌, ℕ, List, IsTrue, IsSome, IsSomeAnd, IfOk, IfErr, IfSome, Err, length, sum};
ghost use Rattle.awari_board.specs.Rules.{IsBoard, IsLegal};
ghost use Rattle.awari_game.specs.Plays.{IsPlay, Standing, start};
ghost use Rattle.awari_table.specs.Certificate.{IsRight, MovesIn, MovesNoLater};
ghost use Rattle.awari_table.specs.Images.{entry_of, table_of};
ghost use Rattle.awari_table.specs.declared.images.Image.{Image};
ghost use Rattle.awari_play.specs.Holding.{IsFar, TakesPlies};
ghost use Rattle.awari_play.specs.LineFault.{IsDue};
ghost use Rattle.awari_play.specs.LongestLine.{HoldsLongest, IsDuePit, IsLongestLine};
ghost use Rattle.awari_play.specs.Saying.{IsRefusedIn};
ghost use Rattle.awari_play.specs.Unplayed.{IsUnheld};

use crate::lines::{LineFault, play_pit};
use crate::lookups::{Judged, Table, Unplayed};
use crate::worths::reached;
use awari_board::{Board, SIDE};
use awari_game::Game;
use awari_table::{Entry, Shelf};
use std::alloc::Global;

/// The pits of the play from the board in which the side that its value favours follows the shelf's
/// plans. The other side plays the legal pit whose move takes the most plies, and the lowest of
/// those. A capture takes one ply, and a quiet move one more than the distance of the board that it
/// leaves. The play goes on to the first capture or the end, and so has exactly as many plies as the
/// distance of the board: none if the board's value is 0, or if play has ended.
///
/// Refused as 56 `NotYet` if the board has at least as many stones as there are levels, else as 57
/// `Memory` if memory runs out. It takes memory for the moves, a byte each.
pub fn longest_line(alloc: Global, shelf: &Shelf, board: Board) -> Result<Vec<u8>, LineFault>
    ensures line { IfOk result (λ moves. IsLongestLine (table_of shelf.now) board moves.items) }
    ensures not_yet { (result ≡ Err (LineFault.NotYet (length shelf.now))) ↔ (length shelf.now ≤ sum board) }
    ensures fault { IfErr result (IsDue (length shelf.now) (sum board)) }
{
    let levels = shelf.levels();
    if board.stones() >= levels {
        return Err(LineFault::NotYet { levels });
    }
    let mut table = shelf;
    match longest_line_by(alloc, &mut table, board) {
        Ok(moves) => Ok(moves),
        Err(Unplayed::Memory) => Err(LineFault::Memory),
        Err(Unplayed::Refused { .. }) => unreachable!(),
        Err(Unplayed::Illegal { .. }) => unreachable!(),
    }
}

/// The pits of the same play by what a table says, each board of which is judged. Condition: the board's
/// level is there. It always returns, whatever the table says.
///
/// It is refused if a look-up is or a board is misjudged, or no legal pit is due, or memory runs out. It
/// takes memory for the moves, a byte each.
pub fn longest_line_by<T: Judged>(
    alloc: Global,
    table: &mut T,
    board: Board,
) -> Result<Vec<u8>, Unplayed<T::Fault>>
    requires { sum board < T.saying.levels table.old }
    ensures line { (images : List Image) → T.saying.says table.old images → IfOk result (λ moves. IsLongestLine (table_of images) board moves.items) }
    ensures play { IfOk result (λ moves. (last : Standing) × IsPlay (start board) moves.items last) }
    ensures keeps { T.saying.keeps table.old table.new }
    ensures fault { IfErr result (IsUnheld T.saying T.misjudges table.old) }
{
    let mut entry = right_entry(table, &board)?;
    let plies = entry.dist;
    let mut game = Game::start(board);
    let mut moves = Vec::new(alloc);
    for _ in 0..plies {
        let pit = due_pit(table, &game.board(), entry)?;
        play_pit(&mut game, pit);
        match moves.push(pit) {
            Ok(()) => {}
            Err(_) => return Err(Unplayed::Memory),
        }
        entry = right_entry(table, &game.board())?;
    }
    Ok(moves)
}

/// The entry of a board, which is right. Condition: the board's level is there.
fn right_entry<T: Judged>(table: &mut T, board: &Board) -> Result<Entry, Unplayed<T::Fault>>
    requires { sum board.now < T.saying.levels table.old }
    ensures entry { (images : List Image) → T.saying.says table.old images → IfOk result (λ e. e ≡ entry_of images board.now) }
    ensures right { (images : List Image) → T.saying.says table.old images → IfOk result (λ _. IsRight (table_of images) board.now) }
    ensures keeps { T.saying.keeps table.old table.new }
    ensures fault { IfErr result (IsUnheld T.saying T.misjudges table.old) }
{
    match table.judged(board) {
        Ok(entry) => Ok(entry),
        Err(fault) => Err(Unplayed::Refused { fault }),
    }
}

/// The pit that is due on a board with this entry, if it is legal. Conditions: the board's level is there,
/// and by what the table says the entry is right and the distance is not 0.
fn due_pit<T: Judged>(table: &mut T, board: &Board, entry: Entry) -> Result<u8, Unplayed<T::Fault>>
    requires board { IsBoard board.now }
    requires known { sum board.now < T.saying.levels table.old }
    requires far { (images : List Image) → T.saying.says table.old images → IsFar images board.now entry }
    ensures due { (images : List Image) → T.saying.says table.old images → IfOk result (IsDuePit (table_of images) board.now) }
    ensures legal { IfOk result (IsLegal board.now) }
    ensures keeps { T.saying.keeps table.old table.new }
    ensures fault { IfErr result (IsUnheld T.saying T.misjudges table.old) }
{
    let pit = match pit_by(table, board, entry) {
        Ok(pit) => pit,
        Err(fault) => return Err(Unplayed::Refused { fault }),
    };
    match pit {
        Some(pit) if board.legal(pit) => Ok(pit),
        _ => Err(Unplayed::Illegal { board: *board }),
    }
}

/// The plan of a board that favours its mover, and the pit that holds out longest on any other.
fn pit_by<T: Table>(table: &mut T, board: &Board, entry: Entry) -> Result<Option<u8>, T::Fault>
    requires known { sum board.now < T.saying.levels table.old }
    requires far { (images : List Image) → T.saying.says table.old images → IsFar images board.now entry }
    ensures due { (images : List Image) → T.saying.says table.old images → IfOk result (λ pit. IsSomeAnd pit (IsDuePit (table_of images) board.now)) }
    ensures keeps { T.saying.keeps table.old table.new }
    ensures fault { IfErr result (IsRefusedIn T.saying table.old) }
{
    if entry.value > 0 {
        return Ok(entry.plan);
    }
    stubborn_pit(table, board, entry.dist)
}

/// The lowest pit whose move takes this many plies, which are those of the longest. Condition: the board's
/// level is there.
fn stubborn_pit<T: Table>(table: &mut T, board: &Board, plies: u32) -> Result<Option<u8>, T::Fault>
    requires { sum board.now < T.saying.levels table.old }
    ensures holds { (images : List Image) → T.saying.says table.old images → MovesNoLater (table_of images) board.now plies → IfOk result (λ pit. IfSome pit (HoldsLongest (table_of images) board.now)) }
    ensures some { (images : List Image) → T.saying.says table.old images → MovesIn (table_of images) board.now plies → IfOk result IsSome }
    ensures keeps { T.saying.keeps table.old table.new }
    ensures fault { IfErr result (IsRefusedIn T.saying table.old) }
{
    for pit in 0..SIDE {
        if takes(table, board, pit, plies)? {
            return Ok(Some(pit));
        }
    }
    Ok(None)
}

/// Whether the pit is legal, and its move takes this many plies. Condition: the board's level is there.
fn takes<T: Table>(table: &mut T, board: &Board, pit: u8, plies: u32) -> Result<bool, T::Fault>
    requires { sum board.now < T.saying.levels table.old }
    ensures takes { (images : List Image) → T.saying.says table.old images → IfOk result (λ yes. IsTrue yes ↔ TakesPlies (table_of images) board.now pit plies) }
    ensures keeps { T.saying.keeps table.old table.new }
    ensures fault { IfErr result (IsRefusedIn T.saying table.old) }
{
    if !board.legal(pit) {
        return Ok(false);
    }
    let move_of = reached(table, board, pit)?;
    Ok(move_of.plies == u64::from(plies))
}
