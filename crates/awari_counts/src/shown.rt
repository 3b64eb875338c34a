//! What is told of levels, and what stands above the lines of their numbers.

ghost use Rattle.std.specs.Prelude.{◌≡◌, ◌++◌, ◌∷◌, [], map, true};
ghost use Rattle.std.specs.Io.KnownBytes.{Appends};
ghost use Rattle.awari_counts.specs.Counts.{names_of_levels, shown_told, top_of};
ghost use Rattle.awari_members.specs.Members.{line_text, said};

use awari_answers::{LevelLine, print};
use awari_members::{Form, Line, Member};
use awari_queries::Pair;
use std::fmt;
use std::io::Write;

/// Prints members as a line of this form, and says whether the writer took it.
pub(crate) fn print_line<W: Write>(members: &[Member<'_>], form: Form, writer: &mut W) -> bool
    ensures { result ≡ true → Appends (W.contents writer.old) (W.contents writer.new) (line_text form (map said members.now) ++ 10 ∷ []) }
{
    print(writer, &Line { members, form })
}

/// Prints what is told of a level, and says whether the writer took it.
pub(crate) fn print_level<W: Write>(told: LevelLine, form: Form, writer: &mut W) -> bool
    ensures { result ≡ true → Appends (W.contents writer.old) (W.contents writer.new) (shown_told form told ++ 10 ∷ []) }
{
    print_line(&told.members(), form, writer)
}

/// Prints what stands above the lines of levels, and says whether the writer took it.
#[tactic(auto, unfolding(crate::specs::Counts::names_of_levels))]
pub(crate) fn print_names<W: Write>(form: Form, writer: &mut W) -> bool
    ensures { result ≡ true → Appends (W.contents writer.old) (W.contents writer.new) (names_of_levels form) }
{
    match form {
        Form::Csv => print(writer, &"level,boards,won,even,lost,limit"),
        Form::Text | Form::Json => true,
    }
}

/// Prints what stands above the values and distances of a level, and says whether the writer took it.
#[tactic(auto, unfolding(crate::specs::Counts::top_of))]
pub(crate) fn print_top<W: Write>(told: LevelLine, form: Form, writer: &mut W) -> bool
    ensures { result ≡ true → Appends (W.contents writer.old) (W.contents writer.new) (top_of form told) }
{
    match form {
        Form::Csv => print(writer, &"column,number,boards"),
        Form::Text | Form::Json => print_level(told, form, writer),
    }
}

/// The names of two columns above lines with commas. It is printed without its line feed.
#[derive(Clone, Copy)]
pub(crate) struct Names(pub(crate) Pair);

impl fmt::Display for Names {
    ghost use Rattle.std.specs.Prelude.{Some};
    ghost use Rattle.awari_counts.specs.Pairs.{names_text};

    ghost output = { λ names. Some (names_text names.0) };

    fn fmt<W: fmt::Write>(&self, f: &mut fmt::Formatter<W>) -> fmt::Result {
        write!(f, "{},{},boards", self.0.first.name(), self.0.second.name())
    }
}
