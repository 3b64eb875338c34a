//! One look at the book.

ghost use Rattle.std.specs.Prelude.{◌≡◌, ◌≤◌, ◌<◌, MatchOption, IfOk, IfErr, length, sum, ⊤};
ghost use Rattle.left_right.specs.Sides.{view};
ghost use Rattle.awari_table.specs.Images.{entry_of};
ghost use Rattle.awari_table.specs.Shelves.{IsShelf};
ghost use Rattle.awari_desk.specs.Books.{BeginsWith};
ghost use Rattle.awari_play.specs.Worths.{IsWeighed};

use crate::books::{Look, Seat};
use awari_board::Board;
use awari_play::{Weighed, weigh};
use awari_table::{Entry, NotYet};

/// What was seen: how many levels the book has, and what it says of the board.
#[derive(Drop)]
pub(crate) struct Seen<T: Drop> {
    pub levels: u8,
    pub answer: Result<T, NotYet>,
}

/// Looks a board up in the book that is published. Nothing is seen if the publisher is gone.
pub(crate) fn look(seat: Seat, board: &Board) -> (Seat, Option<Seen<Entry>>)
    ensures grows { MatchOption result.1 (view result.0.place ≡ view seat.place) (λ _. BeginsWith (view result.0.place) (view seat.place)) }
    ensures levels { MatchOption result.1 ⊤ (λ s. (s.levels ≡ length (view result.0.place)) × IsShelf (view result.0.place)) }
    ensures entry { MatchOption result.1 ⊤ (λ s. IfOk s.answer (λ e. (sum board.now < length (view result.0.place)) × (e ≡ entry_of (view result.0.place) board.now))) }
    ensures not_yet { MatchOption result.1 ⊤ (λ s. IfErr s.answer (λ _. length (view result.0.place) ≤ sum board.now)) }
{
    match seat.enter_as::<Look>() {
        Ok(reading) => {
            let book = reading.get();
            let levels = book.0.levels();
            let answer = book.0.entry(board);
            (reading.leave(), Some(Seen { levels, answer }))
        }
        Err(seat) => (seat, None),
    }
}

/// A board whose moves are asked for, and whether the replies to each are.
#[derive(Clone, Copy)]
pub(crate) struct Question {
    pub board: Board,
    pub replies: bool,
}

/// Weighs the moves of a board by the book that is published. Nothing is seen if the publisher is
/// gone.
pub(crate) fn look_at_moves(seat: Seat, asked: Question) -> (Seat, Option<Seen<Weighed>>)
    ensures grows { MatchOption result.1 (view result.0.place ≡ view seat.place) (λ _. BeginsWith (view result.0.place) (view seat.place)) }
    ensures levels { MatchOption result.1 ⊤ (λ s. (s.levels ≡ length (view result.0.place)) × IsShelf (view result.0.place)) }
    ensures weighed { MatchOption result.1 ⊤ (λ s. IfOk s.answer (IsWeighed asked.replies (view result.0.place) asked.board)) }
    ensures not_yet { MatchOption result.1 ⊤ (λ s. IfErr s.answer (λ _. length (view result.0.place) ≤ sum asked.board)) }
{
    match seat.enter_as::<Look>() {
        Ok(reading) => {
            let book = reading.get();
            let levels = book.0.levels();
            let answer = weigh(&book.0, &asked.board, asked.replies);
            (reading.leave(), Some(Seen { levels, answer }))
        }
        Err(seat) => (seat, None),
    }
}
