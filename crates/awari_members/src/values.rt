//! The values of members.

ghost use Rattle.std.specs.Prelude.{◌≡◌, ◌≤◌, length};
ghost use Rattle.awari_members.specs.Json.{truth_text};
ghost use Rattle.awari_members.specs.Members.{missing};

use crate::forms::Form;
use awari_board::Board;
use std::fmt;

/// The value of a member.
#[derive(Clone, Copy, Default)]
pub enum Value<'a> {
    /// A number.
    Number(u64),
    /// A number with a sign.
    Signed(i64),
    /// A text of bytes that stand for themselves in JSON.
    Text(&'a str),
    /// A board.
    Board(Board),
    /// Pits that are played one after the other.
    Pits(&'a [u8]),
    /// True or false.
    Truth(bool),
    /// There is none.
    #[default]
    Missing,
}

/// A value in a form.
#[derive(Clone, Copy)]
pub(crate) struct InForm<'a>(pub(crate) &'a Value<'a>, pub(crate) Form);

impl fmt::Display for InForm<'_> {
    ghost use Rattle.std.specs.Prelude.{Some};
    ghost use Rattle.awari_members.specs.Members.{value_text};

    ghost output = { λ shown. Some (value_text shown.0.now shown.1) };

    fn fmt<W: fmt::Write>(&self, f: &mut fmt::Formatter<W>) -> fmt::Result {
        let InForm(value, form) = *self;
        match *value {
            Value::Number(number) => write!(f, "{number}"),
            Value::Signed(number) => write!(f, "{number}"),
            Value::Text(text) => match form {
                Form::Json => write!(f, "\"{text}\""),
                Form::Text | Form::Csv => write!(f, "{text}"),
            },
            Value::Board(board) => match form {
                Form::Csv | Form::Json => write!(f, "\"{board}\""),
                Form::Text => write!(f, "{board}"),
            },
            Value::Pits(pits) => write!(f, "[{}]", Pits(pits)),
            Value::Truth(truth) => write!(f, "{}", truth_text(truth)),
            Value::Missing => write!(f, "{}", missing(form)),
        }
    }
}

pub(crate) fn truth_text(truth: bool) -> &'static str
    ensures text { result.now ≡ truth_text truth }
    ensures short { length result.now ≤ 5 }
{
    if truth { "true" } else { "false" }
}

/// What stands for no value.
pub(crate) fn missing(form: Form) -> &'static str
    ensures text { result.now ≡ missing form }
    ensures short { length result.now ≤ 4 }
{
    match form {
        Form::Text => "-",
        Form::Csv => "",
        Form::Json => "null",
    }
}

/// Pits with commas between them.
#[derive(Clone, Copy)]
struct Pits<'a>(&'a [u8]);

impl fmt::Display for Pits<'_> {
    ghost use Rattle.std.specs.Prelude.{Some};
    ghost use Rattle.awari_members.specs.Members.{pits_text};

    ghost output = { λ pits. Some (pits_text pits.0.now) };

    fn fmt<W: fmt::Write>(&self, f: &mut fmt::Formatter<W>) -> fmt::Result {
        match self.0 {
            [] => Ok(()),
            [first, later @ ..] => write!(f, "{first}{}", LaterPits(later)),
        }
    }
}

/// Pits behind another. Each is printed after a comma.
#[derive(Clone, Copy)]
struct LaterPits<'a>(&'a [u8]);

impl fmt::Display for LaterPits<'_> {
    ghost use Rattle.std.specs.Prelude.{Some};
    ghost use Rattle.awari_members.specs.Members.{later_pits};

    ghost output = { λ pits. Some (later_pits pits.0.now) };

    fn fmt<W: fmt::Write>(&self, f: &mut fmt::Formatter<W>) -> fmt::Result {
        for pit in self.0 {
            write!(f, ",{pit}")?;
        }
        Ok(())
    }
}
