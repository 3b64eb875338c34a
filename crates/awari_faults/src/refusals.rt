//! What is told of a refusal.

ghost use Rattle.std.specs.Prelude.{◌≡◌, ◌≤◌, ◌∷◌, [], length};
ghost use Rattle.awari_faults.specs.Meanings.{name_of};
ghost use Rattle.awari_faults.specs.Parts.{reason_said, said};
ghost use Rattle.awari_faults.specs.Refusals.{alone, with_number};

use crate::meanings::name_of;
use std::fmt;

/// What is told of a fault, and of those inside it. It is printed as each of them, with colons between.
#[derive(Clone, Copy)]
pub struct Refusal {
    /// The fault.
    pub reason: Reason,
    /// The faults inside it.
    pub inside: Inside,
}

/// The faults inside another, each inside the one before it.
#[derive(Clone, Copy)]
pub enum Inside {
    None,
    One(Reason),
    Two(Reason, Reason),
}

/// What is told of a fault, but for the fault inside it. It is printed as its number, its name, and each field
/// with its name.
#[derive(Clone, Copy)]
pub struct Reason {
    /// Its number.
    pub number: u8,
    /// Its fields.
    pub fields: Fields,
}

/// The fields of a fault, in their order.
#[derive(Clone, Copy)]
pub enum Fields {
    None,
    One(Field),
    Two(Field, Field),
}

/// A field of a fault. Its name and a word are bytes that stand for themselves in JSON.
#[derive(Clone, Copy)]
pub struct Field {
    /// Its name.
    pub name: &'static str,
    /// Its value.
    pub value: Value,
}

/// The value of a field.
#[derive(Clone, Copy)]
pub enum Value {
    Number(u128),
    Word(&'static str),
}

impl Refusal {
    /// A fault with none inside it.
    pub fn alone(reason: Reason) -> Refusal
        ensures { said result ≡ reason_said reason ∷ [] }
    {
        Refusal {
            reason,
            inside: Inside::None,
        }
    }

    /// A fault with this one inside it.
    pub fn around(reason: Reason, inside: Reason) -> Refusal
        ensures { said result ≡ reason_said reason ∷ reason_said inside ∷ [] }
    {
        Refusal {
            reason,
            inside: Inside::One(inside),
        }
    }
}

impl Reason {
    /// A fault without fields.
    pub fn alone(number: u8) -> Reason
        ensures { reason_said result ≡ alone number }
    {
        Reason {
            number,
            fields: Fields::None,
        }
    }

    /// A fault with a field that is a number.
    pub fn with_number(number: u8, name: &'static str, value: u128) -> Reason
        ensures { reason_said result ≡ with_number number name.entry.now value }
    {
        let value = Value::Number(value);
        let fields = Fields::One(Field { name, value });
        Reason { number, fields }
    }

    /// The name of its number.
    pub fn name(self) -> &'static str
        ensures name { result.now ≡ name_of self.number }
        ensures short { length result.now ≤ 15 }
    {
        name_of(self.number)
    }
}

impl fmt::Display for Refusal {
    ghost use Rattle.std.specs.Prelude.{Some};
    ghost use Rattle.awari_faults.specs.Parts.{said};
    ghost use Rattle.awari_faults.specs.Refusals.{refusal_text};

    ghost output = { λ refusal. Some (refusal_text (said refusal)) };

    fn fmt<W: fmt::Write>(&self, f: &mut fmt::Formatter<W>) -> fmt::Result {
        write!(f, "{}{}", self.reason, self.inside)
    }
}

impl fmt::Display for Reason {
    ghost use Rattle.std.specs.Prelude.{Some};
    ghost use Rattle.awari_faults.specs.Parts.{reason_said};
    ghost use Rattle.awari_faults.specs.Refusals.{words_text};

    ghost output = { λ reason. Some (words_text (reason_said reason)) };

    fn fmt<W: fmt::Write>(&self, f: &mut fmt::Formatter<W>) -> fmt::Result {
        let name = self.name();
        write!(f, "{} {name}{}", self.number, self.fields)
    }
}

impl fmt::Display for Fields {
    ghost use Rattle.std.specs.Prelude.{Some};
    ghost use Rattle.std.specs.List.{flat_map};
    ghost use Rattle.awari_faults.specs.Parts.{fields_said};
    ghost use Rattle.awari_faults.specs.Refusals.{field_text};

    ghost output = { λ fields. Some (flat_map field_text (fields_said fields)) };

    fn fmt<W: fmt::Write>(&self, f: &mut fmt::Formatter<W>) -> fmt::Result {
        match *self {
            Fields::None => Ok(()),
            Fields::One(field) => write!(f, "{field}"),
            Fields::Two(first, second) => write!(f, "{first}{second}"),
        }
    }
}

impl fmt::Display for Field {
    ghost use Rattle.std.specs.Prelude.{Some};
    ghost use Rattle.awari_faults.specs.Parts.{shown};
    ghost use Rattle.awari_faults.specs.Refusals.{field_text};

    ghost output = { λ field. Some (field_text (shown field)) };

    fn fmt<W: fmt::Write>(&self, f: &mut fmt::Formatter<W>) -> fmt::Result {
        write!(f, " {} {}", self.name, self.value)
    }
}

impl fmt::Display for Value {
    ghost use Rattle.std.specs.Prelude.{Some};
    ghost use Rattle.awari_faults.specs.Parts.{value_text};

    ghost output = { λ value. Some (value_text value) };

    fn fmt<W: fmt::Write>(&self, f: &mut fmt::Formatter<W>) -> fmt::Result {
        match *self {
            Value::Number(number) => write!(f, "{number}"),
            Value::Word(word) => write!(f, "{word}"),
        }
    }
}

impl fmt::Display for Inside {
    ghost use Rattle.std.specs.Prelude.{Some};
    ghost use Rattle.awari_faults.specs.Parts.{inside_said};
    ghost use Rattle.awari_faults.specs.Refusals.{inside_text};

    ghost output = { λ inside. Some (inside_text (inside_said inside)) };

    fn fmt<W: fmt::Write>(&self, f: &mut fmt::Formatter<W>) -> fmt::Result {
        match *self {
            Inside::None => Ok(()),
            Inside::One(reason) => write!(f, ": {reason}"),
            Inside::Two(first, second) => write!(f, ": {first}: {second}"),
        }
    }
}
