//! A board that is asked for, and the levels in a folder up to the board's, which nobody verifies.

ghost use Rattle.std.specs.Prelude.{◌≡◌, ◌≢◌, ◌≤◌, ◌<◌, ◌+◌, ◌↔◌, ◌⊎◌, ℕ, Err, IfErr, IfOk, sum};
ghost use Rattle.awari_board.specs.BoardFault.{IsFaulty};
ghost use Rattle.awari_board.specs.declared.text.BoardFault.{BoardFault};
ghost use Rattle.awari_folder.specs.Contents.{Same};
ghost use Rattle.awari_table.specs.declared.TheConstants.{HIGHEST_LEVEL};
ghost use Rattle.awari_boards.specs.Known.{IsOpened};
ghost use Rattle.awari_boards.specs.Refused.{IsBeyond, IsNotThere, IsUnopenedFor};
ghost use Rattle.awari_answers.specs.declared.asked.NoAnswer.TheVariants as no_answer;

use awari_answers::NoAnswer;
use awari_board::{Board, one_board_fault_is_due};
use awari_folder::Folder;
use awari_places::{Opened, open_levels};
use awari_play::LineFault;
use awari_table::{HIGHEST_LEVEL, NotYet};

/// A board, and the levels in a folder up to the board's, by their headers.
#[derive(Clone, Copy)]
pub(crate) struct OpenedFor {
    pub(crate) board: Board,
    pub(crate) opened: Opened,
}

/// The board that `text` spells, and the levels in the folder up to the board's. The text is read before
/// the folder.
pub(crate) fn open_for<F: Folder>(folder: &mut F, text: &[u8]) -> Result<OpenedFor, NoAnswer>
    ensures opened { IfOk result (λ found. IsOpened (F.state folder.old).stands text.now found.board found.opened) }
    ensures few { IfOk result (λ found. found.opened.levels ≤ HIGHEST_LEVEL + 1) }
    ensures same { Same (F.state folder.old).stands (F.state folder.new).stands }
    ensures board { (fault : BoardFault) → (result ≡ Err (no_answer.Board fault)) ↔ IsFaulty text.now fault }
    ensures fault { IfErr result (IsUnopenedFor (F.state folder.old).stands text.now) }
{
    // Ghost: a text has at most one fault.
    one_board_fault_is_due();
    let board = Board::parse(text)?;
    let opened = open_levels(folder, board.stones().min(HIGHEST_LEVEL))?;
    Ok(OpenedFor { board, opened })
}

/// The same, if the board's level is there. It is refused as 59 if not, or as 56 for a line.
pub(crate) fn open_level_of<F: Folder>(
    folder: &mut F,
    text: &[u8],
    line: bool,
) -> Result<OpenedFor, NoAnswer>
    ensures opened { IfOk result (λ found. IsOpened (F.state folder.old).stands text.now found.board found.opened) }
    ensures few { IfOk result (λ found. found.opened.levels ≤ HIGHEST_LEVEL + 1) }
    ensures known { IfOk result (λ found. sum found.board < found.opened.levels) }
    ensures same { Same (F.state folder.old).stands (F.state folder.new).stands }
    ensures board { (fault : BoardFault) → (result ≡ Err (no_answer.Board fault)) ↔ IsFaulty text.now fault }
    ensures fault { IfErr result (λ fault. IsUnopenedFor (F.state folder.old).stands text.now fault ⊎ IsNotThere line (F.state folder.old).stands text.now fault) }
{
    let found = open_for(folder, text)?;
    let levels = found.opened.levels;
    if found.board.stones() >= levels {
        return Err(not_there(levels, line));
    }
    Ok(found)
}

/// The refusal of a board whose level is not one of this many.
fn not_there(levels: u8, line: bool) -> NoAnswer
    ensures board { (fault : BoardFault) → result ≢ no_answer.Board fault }
    ensures beyond { (level : ℕ) → levels ≤ level → IsBeyond line levels level result }
{
    if line {
        return NoAnswer::Line {
            fault: LineFault::NotYet { levels },
        };
    }
    NoAnswer::NotYet {
        fault: NotYet { levels },
    }
}
