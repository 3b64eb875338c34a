//! How a line is printed.

ghost use Rattle.std.specs.Prelude.{◌≡◌};
ghost use Rattle.awari_members.specs.Forms.{form_of};

/// How a line is printed.
#[derive(Clone, Copy, Debug, PartialEq, Eq)]
pub enum Form {
    /// A line with spaces.
    Text,
    /// Values with commas, below a line of names.
    Csv,
    /// An object a line.
    Json,
}

/// The form that is asked for.
pub fn form_of(json: bool, csv: bool) -> Form
    ensures { result ≡ form_of json csv }
{
    if json {
        return Form::Json;
    }
    if csv { Form::Csv } else { Form::Text }
}
