//! Lines of members.

ghost use Rattle.std.specs.Prelude.{◌≡◌, ◌≤◌, ◌+◌, ◌*◌, length};
ghost use Rattle.awari_members.specs.Members.{board, mark_of, number, pit, pits, room_for, said, signed, text, truth};

use crate::forms::Form;
use crate::values::{InForm, Value};
use awari_board::Board;
use std::fmt;

/// A name and a value.
#[derive(Clone, Copy, Default)]
pub struct Member<'a> {
    /// Its name: bytes that stand for themselves in JSON.
    pub name: &'a str,
    /// Its value.
    pub value: Value<'a>,
}

impl<'a> Member<'a> {
    /// A member with a number.
    pub fn number(name: &'a str, value: u64) -> Member<'a>
        ensures said { said result ≡ number name.entry.now value }
        ensures room { room_for result ≡ length name.entry.now + 24 }
    {
        Member {
            name,
            value: Value::Number(value),
        }
    }

    /// A member with a number that has a sign.
    pub fn signed(name: &'a str, value: i64) -> Member<'a>
        ensures said { said result ≡ signed name.entry.now value }
        ensures room { room_for result ≡ length name.entry.now + 25 }
    {
        Member {
            name,
            value: Value::Signed(value),
        }
    }

    /// A member with a text of bytes that stand for themselves in JSON.
    pub fn text(name: &'a str, value: &'a str) -> Member<'a>
        ensures said { said result ≡ text name.entry.now value.entry.now }
        ensures room { room_for result ≡ length name.entry.now + (6 + length value.entry.now) }
    {
        Member {
            name,
            value: Value::Text(value),
        }
    }

    /// A member with pits that are played one after the other.
    pub fn pits(name: &'a str, value: &'a [u8]) -> Member<'a>
        ensures said { said result ≡ pits name.entry.now value.entry.now }
        ensures room { room_for result ≡ length name.entry.now + (6 + 21 * length value.entry.now) }
    {
        Member {
            name,
            value: Value::Pits(value),
        }
    }

    /// A member with a board.
    pub fn board(name: &'a str, value: Board) -> Member<'a>
        ensures said { said result ≡ board name.entry.now value }
        ensures room { room_for result ≡ length name.entry.now + 41 }
    {
        Member {
            name,
            value: Value::Board(value),
        }
    }

    /// A member with a pit, if there is one.
    pub fn pit(name: &'a str, value: Option<u8>) -> Member<'a>
        ensures said { said result ≡ pit name.entry.now value }
        ensures room { room_for result ≤ length name.entry.now + 24 }
    {
        match value {
            Some(pit) => Member::number(name, u64::from(pit)),
            None => Member {
                name,
                value: Value::Missing,
            },
        }
    }

    /// A member that is true or false.
    pub fn truth(name: &'a str, value: bool) -> Member<'a>
        ensures said { said result ≡ truth name.entry.now value }
        ensures room { room_for result ≡ length name.entry.now + 9 }
    {
        Member {
            name,
            value: Value::Truth(value),
        }
    }
}

/// A line of members. It is printed without its line feed.
#[derive(Clone, Copy)]
pub struct Line<'a> {
    /// Its members, in their order.
    pub members: &'a [Member<'a>],
    /// How they are printed.
    pub form: Form,
}

impl fmt::Display for Line<'_> {
    ghost use Rattle.std.specs.Prelude.{Some, map};
    ghost use Rattle.awari_members.specs.Members.{line_text, said};

    ghost output = { λ line. Some (line_text line.form (map said line.members.now)) };

    fn fmt<W: fmt::Write>(&self, f: &mut fmt::Formatter<W>) -> fmt::Result {
        let members = Marked(self.members, self.form);
        match self.form {
            Form::Text => write!(f, "{members}"),
            Form::Csv => write!(f, "{members}"),
            Form::Json => write!(f, "{{{members}}}"),
        }
    }
}

/// Members in a form, with marks between them.
#[derive(Clone, Copy)]
struct Marked<'a>(&'a [Member<'a>], Form);

impl fmt::Display for Marked<'_> {
    ghost use Rattle.std.specs.Prelude.{[], Some, map};
    ghost use Rattle.awari_members.specs.Members.{marked, said};

    ghost output = { λ shown. Some (marked shown.1 [] (map said shown.0.now)) };

    fn fmt<W: fmt::Write>(&self, f: &mut fmt::Formatter<W>) -> fmt::Result {
        let Marked(members, form) = *self;
        let mut mark = "";
        for member in members {
            write!(f, "{mark}{}", Placed(member, form))?;
            mark = mark_of(form);
        }
        Ok(())
    }
}

/// What stands between two members.
pub(crate) fn mark_of(form: Form) -> &'static str
    ensures mark { result.now ≡ mark_of form }
    ensures short { length result.now ≤ 1 }
{
    match form {
        Form::Text => " ",
        Form::Csv | Form::Json => ",",
    }
}

/// A member in a form.
#[derive(Clone, Copy)]
struct Placed<'a>(&'a Member<'a>, Form);

impl fmt::Display for Placed<'_> {
    ghost use Rattle.std.specs.Prelude.{Some};
    ghost use Rattle.awari_members.specs.Members.{member_text, said};

    ghost output = { λ placed. Some (member_text placed.1 (said placed.0.now)) };

    fn fmt<W: fmt::Write>(&self, f: &mut fmt::Formatter<W>) -> fmt::Result {
        let Placed(member, form) = *self;
        let name = member.name;
        let value = InForm(&member.value, form);
        match form {
            Form::Text => write!(f, "{name} {value}"),
            Form::Csv => write!(f, "{value}"),
            Form::Json => write!(f, "\"{name}\":{value}"),
        }
    }
}
