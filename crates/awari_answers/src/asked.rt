//! What the commands have in common that ask the levels in a folder about one board: the board, the
//! levels, and why a command gives no answer.

ghost use Rattle.std.specs.Prelude.{◌≡◌, ◌↔◌, Err, IfErr, IfOk};
ghost use Rattle.awari_board.specs.BoardFault.{IsFaulty};
ghost use Rattle.awari_board.specs.declared.text.BoardFault.{BoardFault};
ghost use Rattle.awari_folder.specs.Contents.{Lacks};
ghost use Rattle.awari_answers.specs.Asked.{IsAsked, IsUnasked, OnlyAsks};
ghost use Rattle.awari_answers.specs.declared.asked.NoAnswer.TheVariants as no_answer;

use crate::levels::load_levels;
use awari_board::{Board, BoardFault, MoveFault, one_board_fault_is_due};
use awari_faults::{Reason, Refusal};
use awari_folder::{Folder, FolderFault};
use awari_play::LineFault;
use awari_queries::{NoColumn, NoSpan};
use awari_table::{NotYet, Shelf};
use std::alloc::{AllocError, Global};
use std::fmt;
use std::thread::Threads;
use thiserror::Error;

/// A board, and the levels in a folder up to the board's.
#[derive(Drop)]
pub struct Asked {
    pub board: Board,
    pub shelf: Shelf,
}

/// Why a command that only reads gives no answer. It is printed as its refusal.
#[derive(Clone, Copy, Debug, PartialEq, Eq, Error)]
pub enum NoAnswer {
    /// The text is not a board.
    Board { fault: BoardFault },
    /// The pit can't be played.
    Move { fault: MoveFault },
    /// The move of this number, counted from 1 over all words, can't be played. The words may share
    /// their bytes, so the number need not fit into a `usize`.
    MoveAt { fault: MoveFault, number: u128 },
    /// The folder is not loaded, or a file of it not read.
    Folder { fault: FolderFault },
    /// 59: the folder lacks the level, or it is above the highest.
    NotYet { fault: NotYet },
    /// The levels have no line of play from the board, or there is no room for it.
    Line { fault: LineFault },
    /// 84: there is no memory.
    Memory,
    /// 93: the level has only this many boards, and the rank is none of theirs.
    NoRank { boards: u32 },
    /// 94: there are 2^64 plays or more.
    Overflow,
    /// 95: the word of an option is no span of numbers.
    Span { fault: NoSpan },
    /// 96: boards are not sorted or counted by what is asked for.
    Column { fault: NoColumn },
}

impl NoAnswer {
    ghost use Rattle.awari_faults.specs.Parts.{said};
    ghost use Rattle.awari_answers.specs.Asked.{refusal_of};

    /// What is told of it: what is told of the fault inside, and the number of a move among several.
    pub fn refusal(self) -> Refusal
        ensures { said result ≡ refusal_of self }
    {
        match self {
            NoAnswer::Board { fault } => Refusal::alone(fault.reason()),
            NoAnswer::Move { fault } => Refusal::alone(fault.reason()),
            NoAnswer::MoveAt { fault, number } => {
                Refusal::alone(Reason::with_number(fault.number(), "at", number))
            }
            NoAnswer::Folder { fault } => fault.refusal(),
            NoAnswer::NotYet { fault } => Refusal::alone(fault.reason()),
            NoAnswer::Line { fault } => Refusal::alone(fault.reason()),
            NoAnswer::Memory => Refusal::alone(Reason::alone(84)),
            NoAnswer::NoRank { boards } => {
                Refusal::alone(Reason::with_number(93, "boards", u128::from(boards)))
            }
            NoAnswer::Overflow => Refusal::alone(Reason::alone(94)),
            NoAnswer::Span { .. } => Refusal::alone(Reason::alone(95)),
            NoAnswer::Column { .. } => Refusal::alone(Reason::alone(96)),
        }
    }
}

impl From<BoardFault> for NoAnswer {
    ghost from_gives = { λ fault e. e ≡ no_answer.Board fault };

    fn from(fault: BoardFault) -> Self {
        NoAnswer::Board { fault }
    }
}

impl From<MoveFault> for NoAnswer {
    ghost from_gives = { λ fault e. e ≡ no_answer.Move fault };

    fn from(fault: MoveFault) -> Self {
        NoAnswer::Move { fault }
    }
}

impl From<FolderFault> for NoAnswer {
    ghost from_gives = { λ fault e. e ≡ no_answer.Folder fault };

    fn from(fault: FolderFault) -> Self {
        NoAnswer::Folder { fault }
    }
}

impl From<NotYet> for NoAnswer {
    ghost from_gives = { λ fault e. e ≡ no_answer.NotYet fault };

    fn from(fault: NotYet) -> Self {
        NoAnswer::NotYet { fault }
    }
}

impl From<LineFault> for NoAnswer {
    ghost from_gives = { λ fault e. e ≡ no_answer.Line fault };

    fn from(fault: LineFault) -> Self {
        NoAnswer::Line { fault }
    }
}

impl From<NoSpan> for NoAnswer {
    ghost from_gives = { λ fault e. e ≡ no_answer.Span fault };

    fn from(fault: NoSpan) -> Self {
        NoAnswer::Span { fault }
    }
}

impl From<NoColumn> for NoAnswer {
    ghost from_gives = { λ fault e. e ≡ no_answer.Column fault };

    fn from(fault: NoColumn) -> Self {
        NoAnswer::Column { fault }
    }
}

impl From<AllocError> for NoAnswer {
    ghost from_gives = { λ _ e. e ≡ no_answer.Memory };

    fn from(_error: AllocError) -> Self {
        NoAnswer::Memory
    }
}

impl fmt::Display for NoAnswer {
    ghost use Rattle.std.specs.Prelude.{Some};
    ghost use Rattle.awari_faults.specs.Refusals.{refusal_text};
    ghost use Rattle.awari_answers.specs.Asked.{refusal_of};

    ghost output = { λ fault. Some (refusal_text (refusal_of fault)) };

    fn fmt<W: fmt::Write>(&self, f: &mut fmt::Formatter<W>) -> fmt::Result {
        write!(f, "{}", self.refusal())
    }
}

/// The board that `text` spells, and the levels in the folder up to the board's. Files of higher levels
/// are not read. The text is read before the folder. If it is not a board, it is refused for that,
/// whatever the folder holds. It takes the memory that [`load_levels`] takes.
pub fn ask_folder<T: Threads + Sync, F: Folder>(
    rt: &T,
    alloc: Global,
    folder: &mut F,
    text: &[u8],
) -> Result<Asked, NoAnswer>
    ensures asked { IfOk result (λ found. IsAsked (F.state folder.old).stands text.now found.shelf found.board) }
    ensures fault { IfErr result (IsUnasked (Lacks (F.state folder.old).refusals (F.state folder.new).refusals) (F.state folder.old).stands text.now) }
    ensures asks { OnlyAsks result (F.state folder.old) (F.state folder.new) }
    ensures board { (fault : BoardFault) → (result ≡ Err (no_answer.Board fault)) ↔ IsFaulty text.now fault }
{
    // Ghost: a text has at most one fault.
    one_board_fault_is_due();
    let board = Board::parse(text)?;
    let shelf = load_levels(rt, alloc, folder, board.stones())?;
    Ok(Asked { board, shelf })
}
