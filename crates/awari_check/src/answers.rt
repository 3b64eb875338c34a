//! What the program prints.

ghost use Rattle.std.specs.Prelude.{◌≡◌, ◌≢◌, ◌↔◌, IfSome};
ghost use Rattle.awari_streams.specs.Counted.{inner_of, faults_of, Grew};
ghost use Rattle.awari_check.specs.declared.answers.Answer.TheVariants as answer;
ghost use Rattle.awari_check.specs.Answer.{IsAnswer};

use crate::checks::{CheckFault, check};
use awari_faults::Reason;
use awari_table::{Counted, TableFault};
use awari_verify::VerifyFault;
use std::alloc::Global;
use std::fmt;
use std::io::Read;

/// What `check` says of its input. It is printed as one line, without the line feed.
#[derive(Clone, Copy, Debug, PartialEq, Eq)]
pub enum Answer {
    /// `yes levels M limit K`: the tables of this many levels are right, and this is their limit.
    Yes { levels: u8, limit: u32 },
    /// `no level L rank R rule Vx`, or a refusal.
    Fault { fault: CheckFault },
    /// 14: the reader gave a fault.
    Read,
}

impl Answer {
    ghost use Rattle.awari_check.specs.Answer.{status_of};

    /// The status that the program ends with: 0 for a yes, and 1 otherwise.
    pub fn status(&self) -> u8
        ensures { result ≡ status_of self.now }
    {
        match self {
            Answer::Yes { .. } => 0,
            Answer::Fault { .. } => 1,
            Answer::Read => 1,
        }
    }
}

impl fmt::Display for Answer {
    ghost use Rattle.std.specs.Prelude.{Some};
    ghost use Rattle.awari_check.specs.Answer.{answer_text};

    ghost output = { λ answer. Some (answer_text answer) };

    fn fmt<W: fmt::Write>(&self, f: &mut fmt::Formatter<W>) -> fmt::Result {
        match *self {
            Answer::Yes { levels, limit } => write!(f, "yes levels {levels} limit {limit}"),
            Answer::Fault { fault } => match fault {
                CheckFault::Verify {
                    level,
                    fault: VerifyFault::Refused { rank, rule },
                } => write!(f, "no level {level} rank {rank} rule {rule}"),
                CheckFault::Verify { fault, .. } => write!(f, "refused {fault}"),
                CheckFault::Table { fault } => write!(f, "refused {fault}"),
            },
            Answer::Read => write!(f, "refused {}", Reason::alone(14)),
        }
    }
}

/// The answer for the bytes that the reader has left, all of which it takes: 14 if the reader gave a
/// fault, and 15 if memory runs out.
pub fn check_input<R: Read>(alloc: Global, reader: &mut Counted<R>) -> Answer
    ensures answer { IfSome (R.remaining (inner_of reader.old)) (λ bytes. IsAnswer bytes result) }

    // It is 14 if the reader gave a fault, and only then.
    ensures read { (result ≡ answer.Read) ↔ Grew (faults_of reader.old) (faults_of reader.new) }
{
    let one_more = reader.faults().saturating_add(1);
    let mut bytes = Vec::new(alloc);
    let taken = reader.read_to_end(&mut bytes);
    if reader.faults() >= one_more {
        return Answer::Read;
    }
    match taken {
        Ok(_) => answer_of(alloc, bytes.as_slice()),
        Err(_) => Answer::Fault {
            fault: CheckFault::Table {
                fault: TableFault::Memory,
            },
        },
    }
}

fn answer_of(alloc: Global, bytes: &[u8]) -> Answer
    ensures answer { IsAnswer bytes.now result }
    ensures told { result ≢ answer.Read }
{
    match check(alloc, bytes) {
        Ok(shelf) => Answer::Yes {
            levels: shelf.levels(),
            limit: shelf.limit(),
        },
        Err(fault) => Answer::Fault { fault },
    }
}
