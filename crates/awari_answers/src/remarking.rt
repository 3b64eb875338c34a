//! What the error stream says beside a refusal, in words. Nothing is promised of it.

ghost use Rattle.std.specs.Prelude.{◌≡◌};

use crate::asked::NoAnswer;
use arrayvec::ArrayString;
use awari_faults::{Field, Fields, Inside, Reason, Refusal, Value, sentence, sentence_of_limit};
use awari_table::HIGHEST_LEVEL;
use std::fmt::{self, Display, Write as _};
use std::io::{self, ErrorKind, Write};
use std::str;

/// More bytes than one command tells of.
const REMARK_ROOM: usize = 2048;

/// A writer that answers go to. It may also keep remarks, which are told beside an answer.
pub trait Remarks: Write {
    /// Tells a remark, without its last line feed. A writer that keeps none leaves it out.
    fn remark<T: Display>(&mut self, _remark: &T)
        ensures { Self.contents self.new ≡ Self.contents self.old }
    {}
}

impl<W: Remarks> Remarks for &mut W {
    fn remark<T: Display>(&mut self, remark: &T) {
        (**self).remark(remark);
    }
}

impl Remarks for Vec<u8> {}

/// The output of a program. It keeps the remarks, and the last fault that the output gave, until these
/// are told.
#[derive(Drop)]
pub struct Answers<W> {
    output: W,
    remarks: ArrayString<REMARK_ROOM>,
    fault: Option<io::Error>,
}

impl<W: Write> Answers<W> {
    /// The output, with nothing to tell.
    pub fn new(output: W) -> Answers<W> {
        Answers {
            output,
            remarks: ArrayString::new(),
            fault: None,
        }
    }

    /// Tells why the output took no more, if it gave a fault, and the remarks that were kept.
    pub fn tell<E: Write>(&self, errors: &mut E) {
        // There is nowhere to say that this could not be written.
        if let Some(fault) = self.fault {
            let _ = writeln!(errors, "standard output: {fault}");
        }
        let _ = errors.write_all(self.remarks.as_bytes());
    }

    /// Keeps the fault that a call gave. A call that was interrupted is made again, and that a reader wants no
    /// more is nothing to tell.
    fn keep_fault(&mut self, fault: io::Error)
        ensures { self.new.output ≡ self.old.output }
    {
        match fault.kind() {
            ErrorKind::Interrupted | ErrorKind::BrokenPipe => {}
            _ => self.fault = Some(fault),
        }
    }
}

impl<W: Write> Write for Answers<W> {
    ghost contents = { λ answers. W.contents answers.output };

    fn write(&mut self, buf: &[u8]) -> io::Result<usize> {
        let written = self.output.write(buf);
        if let Err(fault) = written {
            self.keep_fault(fault);
        }
        written
    }

    fn flush(&mut self) -> io::Result<()> {
        let flushed = self.output.flush();
        if let Err(fault) = flushed {
            self.keep_fault(fault);
        }
        flushed
    }
}

impl<W: Write> Remarks for Answers<W> {
    fn remark<T: Display>(&mut self, remark: &T) {
        // There is room for all remarks of a command.
        let _ = writeln!(self.remarks, "{remark}");
    }
}

/// A refusal in words: a sentence for each fault, on lines of their own. It is printed without the last line
/// feed.
#[derive(Clone, Copy)]
pub(crate) struct Explained(pub(crate) Refusal);

impl Display for Explained {
    fn fmt<W: fmt::Write>(&self, f: &mut fmt::Formatter<W>) -> fmt::Result {
        write!(f, "{}", Sentence(self.0.reason))?;
        match self.0.inside {
            Inside::None => Ok(()),
            Inside::One(first) => write!(f, "\n{}", Sentence(first)),
            Inside::Two(first, second) => write!(f, "\n{}\n{}", Sentence(first), Sentence(second)),
        }
    }
}

/// Why a command gives no answer, in words: of an option whose word is at fault, which one and what is wrong;
/// else its refusal is explained.
#[derive(Clone, Copy)]
pub(crate) struct Unanswered(pub(crate) NoAnswer);

impl Display for Unanswered {
    fn fmt<W: fmt::Write>(&self, f: &mut fmt::Formatter<W>) -> fmt::Result {
        let explained = Explained(self.0.refusal());
        match self.0 {
            NoAnswer::Span { fault } => write!(f, "{}: {explained}", fault.option()),
            NoAnswer::Column { fault } => write!(f, "{}: {}", fault.option(), fault.sentence()),
            _ => write!(f, "{explained}"),
        }
    }
}

/// The sentence of a fault. Of one that says how many levels there are, it says which.
#[derive(Clone, Copy)]
struct Sentence(Reason);

impl Display for Sentence {
    fn fmt<W: fmt::Write>(&self, f: &mut fmt::Formatter<W>) -> fmt::Result {
        let text = str::from_utf8(sentence(self.0.number)).unwrap_or("");
        match self.0.fields {
            Fields::Two(_, Field { value, .. }) if is_limit(value) => {
                f.write_str(sentence_of_limit())
            }
            Fields::One(Field { name, value }) if name == "levels" => {
                write!(f, "{text}: {}", Levels(value))
            }
            _ => write!(f, "{text}"),
        }
    }
}

/// Whether a field names the rule of a level's limit.
fn is_limit(value: Value) -> bool {
    match value {
        Value::Word(word) => word == "V7",
        Value::Number(_) => false,
    }
}

/// Which levels there are, if there are so many.
#[derive(Clone, Copy)]
struct Levels(Value);

impl Display for Levels {
    fn fmt<W: fmt::Write>(&self, f: &mut fmt::Formatter<W>) -> fmt::Result {
        match self.0 {
            Value::Number(0) => f.write_str("there is no level"),
            Value::Number(levels) if levels <= u128::from(HIGHEST_LEVEL) => write!(
                f,
                "there are levels 0 to {}, and none is above {HIGHEST_LEVEL}",
                levels - 1
            ),
            _ => write!(f, "no level is above {HIGHEST_LEVEL}"),
        }
    }
}
