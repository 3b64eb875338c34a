//! What each legal move of a board is worth.

ghost use Rattle.std.specs.Prelude.{◌≡◌, ◌≢◌, ◌<◌, ◌↔◌, ℕ, All, Contains, List, Some, IsOk, IfOk, IfErr, length, map, pos, sum};
ghost use Rattle.std.specs.List.Sorted.{IsStrictlyIncreasing};
ghost use Rattle.awari_board.specs.Rules.{IsLegal};
ghost use Rattle.awari_table.specs.Reached.{Reaches, gain_of};
ghost use Rattle.awari_table.specs.Images.{table_of};
ghost use Rattle.awari_table.specs.declared.images.Image.{Image};
ghost use Rattle.awari_play.specs.MoveWorth.{IsMoveWorth, IsWorthOf, pit_of};
ghost use Rattle.awari_play.specs.Saying.{IsRefusedIn};
ghost use Rattle.awari_play.specs.Worths.{AreWorths};

use crate::lookups::Table;
use arrayvec::ArrayVec;
use awari_board::Board;
use awari_table::{NotYet, Reached, Shelf};

/// What a legal move is worth, by a shelf that has the board's level.
#[derive(Clone, Copy, Debug, Default, PartialEq, Eq)]
pub struct MoveWorth {
    /// The pit that is played, from 0 to 5.
    pub pit: u8,
    /// The stones that the move captures.
    pub captured: u8,
    /// What the mover gains, in stones: those captured, less the value of the board that is left.
    pub value: i16,
    /// The plies within which a capture or the end comes, while the favoured side follows the plans.
    /// It is one if the move captures, else one more than the distance of the board that is left. It
    /// is 0 if no side is favoured.
    pub plies: u64,
}

/// What each legal pit of the board is worth, ascending by pit; none if the play has ended. It is
/// refused as 59 if the board has at least as many stones as there are levels, and only then. It
/// takes no memory.
pub fn move_worths(shelf: &Shelf, board: &Board) -> Result<ArrayVec<MoveWorth, 6>, NotYet>
    ensures known { IsOk result ↔ (sum board.now < length shelf.now) }
    ensures legal { IfOk result (λ all. (pit : ℕ) → Contains (map pit_of all.items) pit ↔ IsLegal board.now pit) }
    ensures ascending { IfOk result (λ all. IsStrictlyIncreasing (map pit_of all.items)) }
    ensures worth { IfOk result (λ all. All (IsMoveWorth (table_of shelf.now) board.now) all.items) }
    ensures not_yet { IfErr result (λ fault. fault.levels ≡ length shelf.now) }
{
    let levels = shelf.levels();
    if board.stones() >= levels {
        return Err(NotYet { levels });
    }
    let mut table = shelf;
    match worths_of(&mut table, board) {
        Ok(worths) => Ok(worths),
        Err(_) => unreachable!(),
    }
}

/// What each legal pit of a board is worth by a table, ascending by pit. Condition: the board's level is
/// there.
pub(crate) fn worths_of<T: Table>(
    table: &mut T,
    board: &Board,
) -> Result<ArrayVec<MoveWorth, 6>, T::Fault>
    requires { sum board.now < T.saying.levels table.old }
    ensures legal { IfOk result (λ worths. All (λ w. IsLegal board.now w.pit) worths.items) }
    ensures worths { (images : List Image) → T.saying.says table.old images → IfOk result (λ worths. AreWorths images board.now worths.items) }
    ensures keeps { T.saying.keeps table.old table.new }
    ensures fault { IfErr result (IsRefusedIn T.saying table.old) }
{
    let mut worths = ArrayVec::new();
    let moves = board.moves();
    for pit in moves.as_slice() {
        worths.push(worth_in(table, board, *pit)?);
    }
    Ok(worths)
}

/// What a legal pit of a board is worth by a table. Condition: the board's level is there.
fn worth_in<T: Table>(table: &mut T, board: &Board, pit: u8) -> Result<MoveWorth, T::Fault>
    requires known { sum board.now < T.saying.levels table.old }
    requires legal { IsLegal board.now pit }
    ensures pit { IfOk result (λ worth. worth.pit ≡ pit) }
    ensures worth { (images : List Image) → T.saying.says table.old images → IfOk result (IsWorthOf (table_of images) board.now pit) }
    ensures keeps { T.saying.keeps table.old table.new }
    ensures fault { IfErr result (IsRefusedIn T.saying table.old) }
{
    Ok(worth_by(pit, reached(table, board, pit)?))
}

/// What a pit of a board is worth. Conditions: the board's level is on the shelf, and the pit is legal. It
/// takes no memory.
pub fn worth_of(shelf: &Shelf, board: &Board, pit: u8) -> MoveWorth
    requires known { sum board.now < length shelf.now }
    requires legal { IsLegal board.now pit }
    ensures { IsWorthOf (table_of shelf.now) board.now pit result }
{
    let mut table = shelf;
    match worth_in(&mut table, board, pit) {
        Ok(worth) => worth,
        Err(_) => unreachable!(),
    }
}

/// What a legal pit of a board captures and leads to, by a table. Condition: the board's level is there. It
/// takes no memory.
pub fn reached<T: Table>(table: &mut T, board: &Board, pit: u8) -> Result<Reached, T::Fault>
    requires known { sum board.now < T.saying.levels table.old }
    requires legal { IsLegal board.now pit }
    ensures reached { (images : List Image) → T.saying.says table.old images → IfOk result (λ m. Reaches (table_of images) board.now pit (Some m)) }
    ensures keeps { T.saying.keeps table.old table.new }
    ensures fault { IfErr result (IsRefusedIn T.saying table.old) }
{
    let Ok(moved) = board.play(pit) else {
        unreachable!()
    };
    let entry = table.entry(&moved.board)?;
    Ok(Reached::of(moved.captured, entry))
}

/// What a move of this pit is worth that captures and leads to this. It takes no memory.
pub(crate) fn worth_by(pit: u8, reached: Reached) -> MoveWorth
    ensures pit { result.pit ≡ pit }
    ensures captured { result.captured ≡ reached.captured }
    ensures gain { result.value ≡ gain_of reached }
    ensures even { result.value ≡ pos 0 → result.plies ≡ 0 }
    ensures uneven { result.value ≢ pos 0 → result.plies ≡ reached.plies }
{
    let value = reached.gain();
    let plies = match value {
        0 => 0,
        _ => reached.plies,
    };
    MoveWorth {
        pit,
        captured: reached.captured,
        value,
        plies,
    }
}
