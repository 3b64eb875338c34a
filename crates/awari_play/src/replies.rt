//! The replies that a move leaves to the opponent.

ghost use Rattle.std.specs.Prelude.{◌≡◌, ◌≤◌, ◌<◌, IfErr, IfOk, List, count_by, length, sum};
ghost use Rattle.awari_board.specs.Rules.{IsLegal};
ghost use Rattle.awari_table.specs.declared.images.Image.{Image};
ghost use Rattle.awari_play.specs.Saying.{IsRefusedIn};
ghost use Rattle.awari_play.specs.Worths.{AreReplies, keeps};

use crate::lookups::Table;
use crate::worths::{MoveWorth, worths_of};
use awari_board::Board;
use awari_table::Entry;

/// The replies to a move: the legal moves of the board that it leaves.
#[derive(Clone, Copy, Debug, Default, PartialEq, Eq)]
pub struct Replies {
    /// How many there are, 0 if play has ended.
    pub all: u8,
    /// How many of them gain what that board is worth.
    pub keep: u8,
}

/// The replies to the move from a pit of a board, by a table. Conditions: the board's level is there, and the
/// pit is legal. It takes no memory.
pub(crate) fn replies_to<T: Table>(
    table: &mut T,
    board: &Board,
    pit: u8,
) -> Result<Replies, T::Fault>
    requires known { sum board.now < T.saying.levels table.old }
    requires legal { IsLegal board.now pit }
    ensures replies { (images : List Image) → T.saying.says table.old images → IfOk result (AreReplies images board.now pit) }
    ensures keeps { T.saying.keeps table.old table.new }
    ensures fault { IfErr result (IsRefusedIn T.saying table.old) }
{
    let Ok(moved) = board.play(pit) else {
        unreachable!()
    };
    let entry = table.entry(&moved.board)?;
    let replies = worths_of(table, &moved.board)?;
    Ok(Replies {
        all: replies.len() as u8,
        keep: count_keeping(entry, replies.as_slice()),
    })
}

/// How many of these moves of a board gain what its entry says. Condition: there are at most six. It
/// takes no memory.
pub(crate) fn count_keeping(entry: Entry, replies: &[MoveWorth]) -> u8
    requires { length replies.now ≤ 6 }
    ensures { result ≡ count_by (keeps entry.value) replies.now }
{
    let value = i16::from(entry.value);
    let mut count = 0u8;
    for reply in replies {
        if reply.value == value {
            count += 1;
        }
    }
    count
}
