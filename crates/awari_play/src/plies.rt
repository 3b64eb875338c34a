//! A line of play ply by ply.

ghost use Rattle.std.specs.Prelude.{◌≡◌, ◌≤◌, ◌<◌, ◌++◌, ◌∷◌, [], ◌↔◌, ℕ, List, Err, IfOk, IfErr, IfSome, IsNone, Some, length, pos, slice_get, sum};
ghost use Rattle.std.specs.Ordering.{int_eq};
ghost use Rattle.awari_board.specs.Rules.{IsBoard, IsLegal};
ghost use Rattle.awari_game.specs.Plays.{IsPlay, Standing, start};
ghost use Rattle.awari_game.specs.Shown.{Shows};
ghost use Rattle.awari_table.specs.Images.{entry_of, greatest_limit};
ghost use Rattle.awari_play.specs.LineFault.{IsDue};
ghost use Rattle.awari_table.specs.declared.images.Image.{Image};
ghost use Rattle.awari_play.specs.Plies.{AreLinePlies, IsLineBy, IsRepeat, IsRepeatIf, boards_in, plies_of, ply_of};
ghost use Rattle.awari_play.specs.Saying.{IsRefusedIn};
ghost use Rattle.awari_play.specs.Unplayed.{IsUnlined, IsUntold};

use crate::lines::{LineFault, best_line_by};
use crate::longest::longest_line_by;
use crate::lookups::{Judged, Table, Unplayed};
use awari_board::Board;
use awari_game::Game;
use awari_table::{Entry, Shelf};
use std::alloc::Global;

/// A ply, and what stands then.
#[derive(Clone, Copy, Debug, PartialEq, Eq)]
pub struct Ply {
    /// The number of the ply, from 1 on.
    pub number: usize,
    /// The pit that is played, from 0 to 5, as its player counts.
    pub pit: u8,
    /// The stones that it captures.
    pub captured: u8,
    /// What the first mover has captured then, less what the second has.
    pub running: i16,
    /// The board then, as the side to move sees it.
    pub board: Board,
    /// What the levels say of that board.
    pub entry: Entry,
}

/// Where a line of play comes back to a board.
#[derive(Clone, Copy, Debug, PartialEq, Eq)]
pub struct Repeat {
    /// The plies after which the board stood already; 0 if it is the first board.
    pub first: usize,
    /// The plies after which it stands again.
    pub again: usize,
}

/// The plies of a line of play, and where it comes back to a board.
#[derive(Debug, PartialEq, Eq, Drop)]
pub struct LinePlies {
    /// All plies, in order.
    pub plies: Vec<Ply>,
    /// Where a board first comes again, if one does. It is looked for only in the line of a board whose
    /// value is 0.
    pub repeat: Option<Repeat>,
}

/// The plies of the best line of play from the board by the shelf's limit, or of the longest line.
///
/// It is refused as [`best_line`](crate::best_line) is: as 56 `NotYet` if the board has at least as many stones as there
/// are levels, else as 57 `Memory` if memory runs out. It takes memory for the plies.
pub fn line_plies(
    alloc: Global,
    shelf: &Shelf,
    board: Board,
    longest: bool,
) -> Result<LinePlies, LineFault>
    ensures plies { IfOk result (λ found. AreLinePlies longest shelf.now board found.plies.items found.repeat) }
    ensures known { IfOk result (λ _. sum board < length shelf.now) }
    ensures not_yet { (result ≡ Err (LineFault.NotYet (length shelf.now))) ↔ (length shelf.now ≤ sum board) }
    ensures fault { IfErr result (IsDue (length shelf.now) (sum board)) }
{
    let levels = shelf.levels();
    if board.stones() >= levels {
        return Err(LineFault::NotYet { levels });
    }
    let mut table = shelf;
    match line_plies_by(alloc, &mut table, board, shelf.limit(), longest) {
        Ok(plies) => Ok(plies),
        Err(Unplayed::Memory) => Err(LineFault::Memory),
        Err(Unplayed::Refused { .. }) => unreachable!(),
        Err(Unplayed::Illegal { .. }) => unreachable!(),
    }
}

/// The same by what a table says, with the best line by this limit. Condition: the board's level is there.
///
/// It is refused as [`best_line_by`] or [`longest_line_by`] is. It takes memory for the plies.
pub fn line_plies_by<T: Judged>(
    alloc: Global,
    table: &mut T,
    board: Board,
    limit: u32,
    longest: bool,
) -> Result<LinePlies, Unplayed<T::Fault>>
    requires { sum board < T.saying.levels table.old }
    ensures plies { (images : List Image) → T.saying.says table.old images → limit ≡ greatest_limit images
        → IfOk result (λ found. AreLinePlies longest images board found.plies.items found.repeat) }
    ensures within { IfOk result (λ found. IfSome found.repeat (λ r. r.again ≤ length found.plies.items)) }
    ensures keeps { T.saying.keeps table.old table.new }
    ensures fault { IfErr result (IsUnlined longest T.saying T.misjudges table.old) }
{
    let moves = moves_of(alloc, table, board, limit, longest)?;
    told_plies(alloc, table, board, moves.as_slice())
}

/// The pits of the line of play from a board, by the plans of both sides or with one that holds out.
fn moves_of<T: Judged>(
    alloc: Global,
    table: &mut T,
    board: Board,
    limit: u32,
    longest: bool,
) -> Result<Vec<u8>, Unplayed<T::Fault>>
    requires { sum board < T.saying.levels table.old }
    ensures line { (images : List Image) → T.saying.says table.old images → limit ≡ greatest_limit images → IfOk result (λ moves. IsLineBy longest images board moves.items) }
    ensures play { IfOk result (λ moves. (last : Standing) × IsPlay (start board) moves.items last) }
    ensures keeps { T.saying.keeps table.old table.new }
    ensures fault { IfErr result (IsUnlined longest T.saying T.misjudges table.old) }
{
    if longest {
        return longest_line_by(alloc, table, board);
    }
    let line = best_line_by(alloc, table, board, limit)?;
    Ok(line.moves)
}

/// The plies of a play from a board by a table, and where it comes back to a board if the value is 0.
/// Conditions: the board's level is there, and the moves are a play. It takes memory for the plies.
fn told_plies<T: Table>(
    alloc: Global,
    table: &mut T,
    board: Board,
    moves: &[u8],
) -> Result<LinePlies, Unplayed<T::Fault>>
    requires known { sum board < T.saying.levels table.old }
    requires play { (last : Standing) × IsPlay (start board) moves.now last }
    ensures each { (images : List Image) → T.saying.says table.old images → IfOk result (λ found. found.plies.items ≡ plies_of images 1 (start board) moves.now) }
    ensures repeats { (images : List Image) → T.saying.says table.old images → IfOk result (λ found. IsRepeatIf (int_eq (entry_of images board).value (pos 0)) (boards_in board found.plies.items) found.repeat) }
    ensures within { IfOk result (λ found. IfSome found.repeat (λ r. r.again ≤ length found.plies.items)) }
    ensures keeps { T.saying.keeps table.old table.new }
    ensures fault { IfErr result (IsUntold T.saying table.old) }
{
    let entry = match table.entry(&board) {
        Ok(entry) => entry,
        Err(fault) => return Err(Unplayed::Refused { fault }),
    };
    let plies = plies_of(alloc, table, board, moves)?;
    let repeat = repeat_of(entry.value, &board, plies.as_slice());
    Ok(LinePlies { plies, repeat })
}

/// The plies of a play from a board by a table.
fn plies_of<T: Table>(
    alloc: Global,
    table: &mut T,
    board: Board,
    moves: &[u8],
) -> Result<Vec<Ply>, Unplayed<T::Fault>>
    requires known { sum board < T.saying.levels table.old }
    requires play { (last : Standing) × IsPlay (start board) moves.now last }
    ensures plies { (images : List Image) → T.saying.says table.old images → IfOk result (λ plies. plies.items ≡ plies_of images 1 (start board) moves.now) }
    ensures keeps { T.saying.keeps table.old table.new }
    ensures fault { IfErr result (IsUntold T.saying table.old) }
{
    let mut game = Game::start(board);
    let mut plies = Vec::new(alloc);
    for index in 0..moves.len() {
        let ply = match play_ply(table, &mut game, index + 1, moves[index]) {
            Ok(ply) => ply,
            Err(fault) => return Err(Unplayed::Refused { fault }),
        };
        match plies.push(ply) {
            Ok(()) => {}
            Err(_) => return Err(Unplayed::Memory),
        }
    }
    Ok(plies)
}

/// Plays a legal pit, and says what stands then. Condition: the board's level is there.
fn play_ply<T: Table>(
    table: &mut T,
    game: &mut Game,
    number: usize,
    pit: u8,
) -> Result<Ply, T::Fault>
    requires known { sum game.old.board < T.saying.levels table.old }
    requires legal { IsLegal game.old.board pit }
    ensures board { IsBoard game.old.board }
    ensures ply { (images : List Image) → T.saying.says table.old images
        → IfOk result (λ ply. (board pits : List ℕ) (shows : Shows game.old board pits) → ply ≡ ply_of images number shows.standing pit) }
    ensures played { IfOk result (λ _. (board pits : List ℕ) → Shows game.old board pits → Shows game.new board (pits ++ pit ∷ [])) }
    ensures keeps { T.saying.keeps table.old table.new }
    ensures fault { IfErr result (IsRefusedIn T.saying table.old) }
{
    let Ok(moved) = game.board().play(pit) else {
        unreachable!()
    };
    let entry = table.entry(&moved.board)?;
    let Ok(()) = game.step(pit) else {
        unreachable!()
    };
    Ok(Ply {
        number,
        pit,
        captured: moved.captured,
        running: game.running(),
        board: moved.board,
        entry,
    })
}

/// The board that stands after this many of the plies from a board.
fn board_after(board: &Board, plies: &[Ply], count: usize) -> Board
    requires { count ≤ length plies.now }
    ensures { slice_get (boards_in board.now plies.now) count ≡ Some result }
{
    if count == 0 {
        return *board;
    }
    plies[count - 1].board
}

/// After how many plies, fewer than these, the board stood that stands after these.
fn stood(board: &Board, plies: &[Ply], again: usize) -> Option<usize>
    requires { again ≤ length plies.now }
    ensures some { IfSome result (λ first. first < again) }
    ensures same { IfSome result (λ first. slice_get (boards_in board.now plies.now) first ≡ slice_get (boards_in board.now plies.now) again) }
    ensures none { IsNone result → (first : ℕ) → first < again → slice_get (boards_in board.now plies.now) first ≡ slice_get (boards_in board.now plies.now) again → ⊥ }
{
    let now = board_after(board, plies, again);
    for first in 0..again {
        if board_after(board, plies, first) == now {
            return Some(first);
        }
    }
    None
}

/// Where the plies from a board first come back to a board that stood before.
fn first_repeat(board: &Board, plies: &[Ply]) -> Option<Repeat>
    ensures { IsRepeat (boards_in board.now plies.now) result }
{
    for index in 0..plies.len() {
        let again = index + 1;
        if let Some(first) = stood(board, plies, again) {
            return Some(Repeat { first, again });
        }
    }
    None
}

/// Where the plies from a board first come back to a board that stood before; but none is looked for
/// if the value is not 0. It takes no memory.
fn repeat_of(value: i8, board: &Board, plies: &[Ply]) -> Option<Repeat>
    ensures { IsRepeatIf (int_eq value (pos 0)) (boards_in board.now plies.now) result }
{
    match value {
        0 => first_repeat(board, plies),
        _ => None,
    }
}
