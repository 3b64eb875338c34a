//! The command `move`: a move played on a board that is given as text.

ghost use Rattle.std.specs.Prelude.{◌≡◌, IfOk, IfErr};
ghost use Rattle.awari_boards.specs.Playing.{IsPlayed, IsPlayFault};

use awari_answers::NoAnswer;
use awari_board::{Board, Moved};
use std::fmt;

/// Plays `pit` on the board that `text` spells. A text that is not a board is refused as
/// [`Board::parse`] refuses it, and then the move as [`Board::play`] does. It takes no memory.
pub fn play_on(text: &[u8], pit: u8) -> Result<Moved, NoAnswer>
    ensures played { IfOk result (IsPlayed text.now pit) }
    ensures fault { IfErr result (IsPlayFault text.now pit) }
{
    let board = Board::parse(text)?;
    Ok(board.play(pit)?)
}

/// What `move` prints, without the line feed: the board after the move and the stones captured.
#[derive(Clone, Copy)]
pub struct Played(
    /// The board after the move, as the next mover sees it, and what the move captured.
    pub Moved,
);

impl fmt::Display for Played {
    ghost use Rattle.std.specs.Prelude.{Some};
    ghost use Rattle.awari_boards.specs.Playing.{play_text};

    ghost output = { λ played. Some (play_text played.0) };

    fn fmt<W: fmt::Write>(&self, f: &mut fmt::Formatter<W>) -> fmt::Result {
        write!(f, "{} {}", self.0.board, self.0.captured)
    }
}
