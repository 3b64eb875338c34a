//! The requests that come in, and what they ask for.

ghost use Rattle.std.specs.Prelude.{◌≡◌, ◌≢◌, ◌≤◌, ◌++◌, ◌∷◌, [], ℕ, List, length, true, false};
ghost use Rattle.awari_desk.specs.Service.{asking, probing, weighing, IsAnswerTo, IsNoPlainRequest, IsRefusalOf};

use crate::answers::Answer;
use crate::faults::ProbeFault;
use crate::oracles::Oracle;
use arrayvec::ArrayVec;
use awari_board::Board;

/// The longest request that can ask for something, in bytes without its line feed. A longer one asks for
/// nothing.
pub const LONGEST_REQUEST: usize = 200;

/// The request that is coming in: its bytes, or that they are too many.
#[derive(Drop)]
pub(crate) struct Coming {
    bytes: ArrayVec<u8, LONGEST_REQUEST>,
    is_long: bool,
}

impl Coming {
    ghost use Rattle.awari_desk.specs.Coming.{Holds};

    /// No byte of the request has come.
    pub(crate) fn new() -> Self
        ensures { Holds result [] }
    {
        Coming {
            bytes: ArrayVec::new(),
            is_long: false,
        }
    }

    /// One more byte.
    pub(crate) fn push(&mut self, byte: u8)
        ensures { (request : List ℕ) → Holds self.old request → Holds self.new (request ++ byte ∷ []) }
    {
        if self.is_long {
            return;
        }
        if self.bytes.is_full() {
            self.is_long = true;
        } else {
            self.bytes.push(byte);
        }
    }

    /// Whether no byte has come.
    pub(crate) fn is_empty(&self) -> bool
        ensures { (request : List ℕ) → Holds self.now request → (result ≡ true → request ≡ []) × (result ≡ false → request ≢ []) }
    {
        !self.is_long && self.bytes.is_empty()
    }

    /// The answer to the request. If the request asks for a board, the oracle is asked.
    pub(crate) fn answer<O: Oracle>(&self, oracle: &mut O) -> Answer<O::Fault>
        ensures { (request : List ℕ) → Holds self.now request → IsAnswerTo O.answering oracle.old request result oracle.new }
    {
        if self.is_long {
            Answer::What
        } else {
            answer_to(self.bytes.as_slice(), oracle)
        }
    }
}

/// The answer to the bytes of a request.
fn answer_to<O: Oracle>(request: &[u8], oracle: &mut O) -> Answer<O::Fault>
    requires { length request.now ≤ LONGEST_REQUEST }
    ensures { IsAnswerTo O.answering oracle.old request.now result oracle.new }
{
    match request {
        [b'a', b's', b'k', b' ', text @ ..] => ask(text, oracle),
        [b'm', b'o', b'v', b'e', b's', b' ', text @ ..] => weigh_moves(text, false, oracle),
        [b's', b'e', b'e', b'n'] => Answer::Seen {
            levels: oracle.seen(),
        },
        [b'q', b'u', b'i', b't'] => Answer::Bye,
        _ => answer_to_other(request, oracle),
    }
}

/// The answer to the bytes of a request that asks for no entry, for no moves without replies, and for nothing
/// of the service itself.
fn answer_to_other<O: Oracle>(request: &[u8], oracle: &mut O) -> Answer<O::Fault>
    requires short { length request.now ≤ LONGEST_REQUEST }
    requires other { IsNoPlainRequest request.now }
    ensures { IsAnswerTo O.answering oracle.old request.now result oracle.new }
{
    match request {
        [b'r', b'e', b'p', b'l', b'i', b'e', b's', b' ', text @ ..] => {
            weigh_moves(text, true, oracle)
        }
        [b'p', b'r', b'o', b'b', b'e', b' ', text @ ..] => probe(request, text, oracle),
        _ => Answer::What,
    }
}

/// The answer to a request that asks for the board that `text` spells.
fn ask<O: Oracle>(text: &[u8], oracle: &mut O) -> Answer<O::Fault>
    requires { length (asking ++ text.now) ≤ LONGEST_REQUEST }
    ensures { IsAnswerTo O.answering oracle.old (asking ++ text.now) result oracle.new }
{
    match Board::parse(text) {
        Err(fault) => Answer::Refused { fault },
        Ok(board) => match oracle.ask(&board) {
            Ok(entry) => Answer::Found { entry },
            Err(fault) => Answer::Unanswered { fault },
        },
    }
}

/// The answer to a request that asks for the moves of the board that `text` spells, and for the replies to
/// each if `replies` says so.
fn weigh_moves<O: Oracle>(text: &[u8], replies: bool, oracle: &mut O) -> Answer<O::Fault>
    requires { length (weighing replies ++ text.now) ≤ LONGEST_REQUEST }
    ensures { IsAnswerTo O.answering oracle.old (weighing replies ++ text.now) result oracle.new }
{
    match Board::parse(text) {
        Err(fault) => Answer::Refused { fault },
        Ok(board) => match oracle.moves(&board, replies) {
            Ok(weighed) => Answer::Moves { weighed },
            Err(fault) => Answer::Unanswered { fault },
        },
    }
}

/// The answer to a request that asks for all of the board that `text` spells, as JSON.
fn probe<O: Oracle>(request: &[u8], text: &[u8], oracle: &mut O) -> Answer<O::Fault>
    requires request { request.now ≡ probing ++ text.now }
    requires short { length request.now ≤ LONGEST_REQUEST }
    ensures { IsAnswerTo O.answering oracle.old request.now result oracle.new }
{
    let board = match Board::parse(text) {
        Ok(board) => board,
        Err(fault) => return unprobed(request, ProbeFault::Board { fault }),
    };
    match oracle.moves(&board, false) {
        Ok(weighed) => Answer::Probed { board, weighed },
        Err(fault) => unprobed(request, ProbeFault::Ask { fault }),
    }
}

/// The refusal of a request.
fn unprobed<F: Drop>(request: &[u8], fault: ProbeFault<F>) -> Answer<F>
    requires { length request.now ≤ LONGEST_REQUEST }
    ensures { IsRefusalOf request.now fault result }
{
    let mut bytes = ArrayVec::new();
    let Ok(()) = bytes.try_extend_from_slice(request) else {
        unreachable!()
    };
    Answer::Unprobed {
        request: bytes,
        fault,
    }
}
