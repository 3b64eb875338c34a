//! What a request of the service is answered by.

ghost use Rattle.std.specs.Prelude.{◌≡◌, ◌≤◌, ◌++◌, ◌∷◌, [], codes, length};
ghost use Rattle.awari_board.specs.BoardFault.{reason_of};
ghost use Rattle.awari_faults.specs.Refusals.{words_text};
ghost use Rattle.awari_desk.specs.ProbeFault.{number_of as probe_number_of};
ghost use Rattle.awari_desk.specs.Service.{answer_text};
ghost use Rattle.awari_shown.specs.Moves.{weighed_text};

use crate::faults::ProbeFault;
use crate::oracles::Oracle;
use crate::requests::LONGEST_REQUEST;
use arrayvec::ArrayVec;
use awari_board::{Board, BoardFault};
use awari_members::{AnswerText, text_of_line};
use awari_play::Weighed;
use awari_shown::{push_reason, refusal_json, weighed_json, weighed_text};
use awari_streams::{TextLine, numbered_line, push_text};
use awari_table::{Entry, line_of_entry};

/// The answer to one request. `F` is why who is asked does not answer.
#[derive(Drop)]
pub enum Answer<F> {
    /// The entry of the board.
    Found {
        entry: Entry,
    },
    /// What the board's legal moves are worth.
    Moves {
        weighed: Weighed,
    },
    /// The board, its entry and what its legal moves are worth.
    Probed {
        board: Board,
        weighed: Weighed,
    },
    /// The request that asked for that, and why it has no such answer.
    Unprobed {
        request: ArrayVec<u8, LONGEST_REQUEST>,
        fault: ProbeFault<F>,
    },
    /// Who is asked does not answer.
    Unanswered {
        fault: F,
    },
    /// The text that was asked for is not a board.
    Refused {
        fault: BoardFault,
    },
    /// How many levels are known.
    Seen {
        levels: u8,
    },
    /// The service ends.
    Bye,
    /// The request asks for nothing.
    What,
}

pub(crate) fn line_of_text(text: &[u8]) -> TextLine
    requires { length text.now ≤ 20 }
    ensures { result.items ≡ text.now }
{
    let mut line = TextLine::new();
    push_text(&mut line, text);
    line
}

fn refused_line_of(fault: BoardFault) -> TextLine
    ensures { result.items ≡ codes "refused " ++ words_text (reason_of fault) ++ 10 ∷ [] }
{
    let mut line = TextLine::new();
    push_text(&mut line, b"refused ");
    push_reason(&mut line, fault.number());
    line.push(b'\n');
    line
}

/// The lines of an answer, each with its line feed; those of moves have an empty line behind them.
pub(crate) fn text_of_answer<O: Oracle>(answer: &Answer<O::Fault>) -> AnswerText
    ensures { result.items ≡ answer_text O.answering answer.now }
{
    match answer {
        Answer::Found { entry } => text_of_line(&line_of_entry(*entry)),
        Answer::Moves { weighed } => text_of_moves(weighed),
        Answer::Probed { board, weighed } => weighed_json(board, weighed),
        Answer::Unprobed { request, fault } => {
            refusal_json(request.as_slice(), probe_number::<O>(fault))
        }
        Answer::Unanswered { fault } => text_of_line(&O::line_of(fault)),
        Answer::Refused { fault } => text_of_line(&refused_line_of(*fault)),
        Answer::Seen { levels } => text_of_line(&numbered_line(b"seen ", *levels)),
        Answer::Bye => text_of_line(&line_of_text(b"bye\n")),
        Answer::What => text_of_line(&line_of_text(b"what\n")),
    }
}

/// The number of the fault inside it.
fn probe_number<O: Oracle>(fault: &ProbeFault<O::Fault>) -> u8
    ensures { result ≡ probe_number_of O.answering fault.now }
{
    match fault {
        ProbeFault::Board { fault } => fault.number(),
        ProbeFault::Ask { fault } => O::number_of(fault),
    }
}

/// The lines of the moves, and an empty line.
fn text_of_moves(weighed: &Weighed) -> AnswerText
    ensures { result.items ≡ weighed_text weighed.now ++ 10 ∷ [] }
{
    let mut text = weighed_text(weighed);
    text.push(b'\n');
    text
}
