//! The commands `rank` and `board`: a board's place in its level, and the board of a place.

ghost use Rattle.std.specs.Prelude.{◌≡◌, ◌≤◌, IfOk, IfErr};
ghost use Rattle.awari_boards.specs.Places.{IsBoardAt, IsNoBoard, IsNoPlace, IsPlaceOf, PrintsBoard, PrintsPlace};
ghost use Rattle.awari_answers.specs.declared.asked.NoAnswer.TheVariants as no_answer;

use awari_answers::{NoAnswer, Remarks, print, refuse, status_of};
use awari_board::Board;
use awari_rank::{rank, size, unrank};
use awari_table::{HIGHEST_LEVEL, NotYet};
use std::fmt;

/// How many levels have ranks: 0 to the highest.
const LEVELS: u8 = HIGHEST_LEVEL + 1;

/// A board's level, and its rank there. It is printed as these two numbers.
#[derive(Clone, Copy, Debug, PartialEq, Eq)]
pub struct Place {
    /// The stones on the board.
    pub level: u8,
    /// The number of the board among those with as many stones.
    pub rank: u32,
}

impl fmt::Display for Place {
    ghost use Rattle.std.specs.Prelude.{Some};
    ghost use Rattle.awari_boards.specs.Places.{place_text};

    ghost output = { λ place. Some (place_text place) };

    fn fmt<W: fmt::Write>(&self, f: &mut fmt::Formatter<W>) -> fmt::Result {
        write!(f, "{} {}", self.level, self.rank)
    }
}

/// The place of the board that `text` spells. A text that is not a board is refused as
/// [`Board::parse`] refuses it, and a board of more than 24 stones as 59. It takes no memory.
pub fn place_of(text: &[u8]) -> Result<Place, NoAnswer>
    ensures place { IfOk result (IsPlaceOf text.now) }
    ensures fault { IfErr result (IsNoPlace text.now) }
{
    let board = Board::parse(text)?;
    let level = board.stones();
    if level > HIGHEST_LEVEL {
        return Err(above_highest());
    }
    Ok(Place {
        level,
        rank: rank(&board),
    })
}

/// The board of this rank in this level. A level above 24 is refused as 59, and a rank that the level
/// does not have as 93. It takes no memory.
pub fn board_at(level: u8, rank: u32) -> Result<Board, NoAnswer>
    ensures board { IfOk result (IsBoardAt level rank) }
    ensures fault { IfErr result (IsNoBoard level rank) }
{
    if level > HIGHEST_LEVEL {
        return Err(above_highest());
    }
    let boards = size(level);
    if rank >= boards {
        return Err(NoAnswer::NoRank { boards });
    }
    Ok(unrank(level, rank))
}

/// The refusal of a level above the highest.
fn above_highest() -> NoAnswer
    ensures { result ≡ no_answer.NotYet (record { levels = 25 }) }
{
    NoAnswer::NotYet {
        fault: NotYet { levels: LEVELS },
    }
}

/// Prints the place of a board, or the refusal.
pub fn run_rank<W: Remarks>(board: &str, writer: &mut W) -> u8
    ensures status { result ≤ 1 }
    ensures placed { result ≡ 0 → PrintsPlace board.now (W.contents writer.old) (W.contents writer.new) }
{
    match place_of(board.as_bytes()) {
        Ok(place) => status_of(print(writer, &place)),
        Err(fault) => refuse(writer, fault.refusal()),
    }
}

/// Prints the board of a place, or the refusal.
pub fn run_board<W: Remarks>(level: u8, rank: u32, writer: &mut W) -> u8
    ensures status { result ≤ 1 }
    ensures found { result ≡ 0 → PrintsBoard level rank (W.contents writer.old) (W.contents writer.new) }
{
    match board_at(level, rank) {
        Ok(board) => status_of(print(writer, &board)),
        Err(fault) => refuse(writer, fault.refusal()),
    }
}
