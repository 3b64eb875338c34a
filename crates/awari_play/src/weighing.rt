//! What the legal moves of a board are worth.

ghost use Rattle.std.specs.Prelude.{◌≡◌, ◌≤◌, ◌<◌, ◌↔◌, IsOk, IfOk, IfErr, List, length, sum, All, map};
ghost use Rattle.awari_board.specs.Rules.{IsLegal};
ghost use Rattle.awari_table.specs.declared.images.Image.{Image};
ghost use Rattle.awari_play.specs.Saying.{IsRefusedIn};
ghost use Rattle.awari_play.specs.Worths.{IsReplied, IsWeighed, worth_in};

use crate::lookups::Table;
use crate::replies::{Replies, replies_to};
use crate::worths::{MoveWorth, worths_of};
use arrayvec::ArrayVec;
use awari_board::Board;
use awari_table::{Entry, NotYet, Shelf};

/// A legal move of a board that was weighed.
#[derive(Clone, Copy, Debug, Default, PartialEq, Eq)]
pub struct WeighedMove {
    /// What it is worth.
    pub worth: MoveWorth,
    /// The replies to it, if they were asked for.
    pub replies: Option<Replies>,
}

/// A board's entry, and what each of its legal moves is worth, ascending by pit.
#[derive(Debug, PartialEq, Eq, Drop)]
pub struct Weighed {
    /// What the shelf says of the board itself.
    pub entry: Entry,
    /// Each legal move, none if the play has ended.
    pub moves: ArrayVec<WeighedMove, 6>,
}

/// What the shelf says of the board and of its legal moves, and of the replies to each if `replies` asks
/// for them. It is refused as 59 if the board has at least as many stones as there are levels, and only
/// then. It takes no memory.
pub fn weigh(shelf: &Shelf, board: &Board, replies: bool) -> Result<Weighed, NotYet>
    ensures known { IsOk result ↔ (sum board.now < length shelf.now) }
    ensures weighed { IfOk result (IsWeighed replies shelf.now board.now) }
    ensures not_yet { IfErr result (λ fault. fault.levels ≡ length shelf.now) }
{
    let levels = shelf.levels();
    if board.stones() >= levels {
        return Err(NotYet { levels });
    }
    let mut table = shelf;
    match weigh_by(&mut table, board, replies) {
        Ok(weighed) => Ok(weighed),
        Err(_) => unreachable!(),
    }
}

/// What a table says of the board and of its legal moves, and of the replies to each if `replies` asks for
/// them. Condition: the board's level is there. It is refused as a look-up is, and takes no memory of its own.
pub fn weigh_by<T: Table>(table: &mut T, board: &Board, replies: bool) -> Result<Weighed, T::Fault>
    requires { sum board.now < T.saying.levels table.old }
    ensures weighed { (images : List Image) → T.saying.says table.old images → IfOk result (IsWeighed replies images board.now) }
    ensures keeps { T.saying.keeps table.old table.new }
    ensures fault { IfErr result (IsRefusedIn T.saying table.old) }
{
    let entry = table.entry(board)?;
    let worths = worths_of(table, board)?;
    let moves = with_replies(table, board, worths.as_slice(), replies)?;
    Ok(Weighed { entry, moves })
}

/// The moves of a board with these worths, and the replies to each if `asked` says so.
fn with_replies<T: Table>(
    table: &mut T,
    board: &Board,
    worths: &[MoveWorth],
    asked: bool,
) -> Result<ArrayVec<WeighedMove, 6>, T::Fault>
    requires known { sum board.now < T.saying.levels table.old }
    requires few { length worths.now ≤ 6 }
    requires legal { All (λ w. IsLegal board.now w.pit) worths.now }
    ensures worths { IfOk result (λ moves. map worth_in moves.items ≡ worths.now) }
    ensures replies { (images : List Image) → T.saying.says table.old images → IfOk result (λ moves. All (IsReplied asked images board.now) moves.items) }
    ensures keeps { T.saying.keeps table.old table.new }
    ensures fault { IfErr result (IsRefusedIn T.saying table.old) }
{
    let mut moves = ArrayVec::new();
    for worth in worths {
        moves.push(weighed_move(table, board, *worth, asked)?);
    }
    Ok(moves)
}

/// The move of this worth, and the replies to it if `asked` says so.
fn weighed_move<T: Table>(
    table: &mut T,
    board: &Board,
    worth: MoveWorth,
    asked: bool,
) -> Result<WeighedMove, T::Fault>
    requires known { sum board.now < T.saying.levels table.old }
    requires legal { IsLegal board.now worth.pit }
    ensures worth { IfOk result (λ moves. moves.worth ≡ worth) }
    ensures replies { (images : List Image) → T.saying.says table.old images → IfOk result (IsReplied asked images board.now) }
    ensures keeps { T.saying.keeps table.old table.new }
    ensures fault { IfErr result (IsRefusedIn T.saying table.old) }
{
    if !asked {
        let replies = None;
        return Ok(WeighedMove { worth, replies });
    }
    let replies = Some(replies_to(table, board, worth.pit)?);
    Ok(WeighedMove { worth, replies })
}
