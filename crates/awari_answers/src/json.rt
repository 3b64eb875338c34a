//! Refusals as text, as a row of CSV, and as JSON.

ghost use Rattle.std.specs.Prelude.{◌≡◌, ◌≤◌, ◌∷◌, [], ◌++◌, true, false, length, take};
ghost use Rattle.std.specs.Io.KnownBytes.{Appends};
ghost use Rattle.std.specs.Str.{IsUtf8};
ghost use Rattle.awari_answers.specs.Asked.{refusal_of};
ghost use Rattle.awari_answers.specs.Refusals.{level_word, refusal_line, request_text};
ghost use Rattle.awari_members.specs.Forms.{form_of};
ghost use Rattle.awari_members.specs.Json.{json_string};
ghost use Rattle.awari_streams.specs.Counted.{AppendsFront};

use crate::asked::NoAnswer;
use crate::printing::print_line;
use crate::remarking::{Remarks, Unanswered};
use arrayvec::ArrayVec;
use awari_faults::{Field, Fields, Inside, Reason, Refusal, Value};
use awari_members::{AnswerText, Form, form_of, push_string};
use awari_streams::{TextLine, numbered};
use std::io::Write;
use std::{fmt, str};

/// How many bytes of a request are told with its refusal, as in the service.
const REQUEST_ROOM: usize = 200;

/// Writes a refusal, as JSON if `json` says so, and gives the status 1. The request, a command and a word, is
/// told with JSON alone. The writer holds its line then, or a front of it if the writer refused.
pub fn refuse_as<W: Remarks>(
    writer: &mut W,
    json: bool,
    command: &str,
    word: &str,
    fault: NoAnswer,
) -> u8
    ensures status { result ≡ 1 }
    ensures told { AppendsFront (W.contents writer.old) (W.contents writer.new) (refusal_line (form_of json false) (take 200 (request_text command.now word.now)) (refusal_of fault) ++ 10 ∷ []) }
{
    refuse_in(
        writer,
        form_of(json, false),
        command,
        word.as_bytes(),
        fault,
    )
}

/// Writes a refusal of a command about a level, or about all, in this form, and gives the status 1. The writer
/// holds its line then, or a front of it if the writer refused.
pub fn refuse_level<W: Remarks>(
    writer: &mut W,
    form: Form,
    command: &str,
    level: Option<u8>,
    fault: NoAnswer,
) -> u8
    ensures status { result ≡ 1 }
    ensures told { AppendsFront (W.contents writer.old) (W.contents writer.new) (refusal_line form (take 200 (request_text command.now (level_word level))) (refusal_of fault) ++ 10 ∷ []) }
{
    let word = word_of(level);
    refuse_in(writer, form, command, word.as_slice(), fault)
}

/// The word of a request about a level, or about all.
fn word_of(level: Option<u8>) -> TextLine
    ensures { result.items ≡ level_word level }
{
    match level {
        Some(level) => numbered(b"", level),
        None => TextLine::new(),
    }
}

/// Writes a refusal in this form, and gives the status 1, whether the writer took that or not. What the refusal
/// means is told as a remark.
fn refuse_in<W: Remarks>(
    writer: &mut W,
    form: Form,
    command: &str,
    word: &[u8],
    fault: NoAnswer,
) -> u8
    ensures status { result ≡ 1 }
    ensures told { AppendsFront (W.contents writer.old) (W.contents writer.new) (refusal_line form (take 200 (request_text command.now word.now)) (refusal_of fault) ++ 10 ∷ []) }
{
    print_refusal(writer, form, command, word, fault);
    writer.remark(&Unanswered(fault));
    1
}

/// Writes a refusal in this form. JSON has the request, which is a command and a word, without a word that is
/// empty, and cut at 200 bytes. True if the writer took that.
fn print_refusal<W: Write>(
    writer: &mut W,
    form: Form,
    command: &str,
    word: &[u8],
    fault: NoAnswer,
) -> bool
    ensures whole { result ≡ true → Appends (W.contents writer.old) (W.contents writer.new) (refusal_line form (take 200 (request_text command.now word.now)) (refusal_of fault) ++ 10 ∷ []) }
    ensures front { AppendsFront (W.contents writer.old) (W.contents writer.new) (refusal_line form (take 200 (request_text command.now word.now)) (refusal_of fault) ++ 10 ∷ []) }
{
    let request = request_of(command.as_bytes(), word);
    let string = string_of(request.as_slice());
    let Ok(request) = str::from_utf8(string.as_slice()) else {
        // A string of JSON is ASCII.
        unreachable!()
    };
    let shown = Shown {
        refusal: fault.refusal(),
        form,
        request,
    };
    print_line(writer, &shown)
}

/// A request as a string of JSON, which is text.
fn string_of(request: &[u8]) -> AnswerText
    requires { length request.now ≤ REQUEST_ROOM }
    ensures items { result.items ≡ json_string request.now }
    ensures text { IsUtf8 result.items }
{
    let mut string = AnswerText::new();
    push_string(&mut string, request);
    string
}

/// A request of a command and a word, as it is told with its refusal.
fn request_of(command: &[u8], word: &[u8]) -> ArrayVec<u8, REQUEST_ROOM>
    ensures { result.items ≡ take 200 (request_text command.now word.now) }
{
    let mut request = ArrayVec::<u8, REQUEST_ROOM>::new();
    push_cut(&mut request, command);
    if !word.is_empty() {
        push_cut(&mut request, b" ");
        push_cut(&mut request, word);
    }
    request
}

/// Puts bytes behind others, as many as there is room for.
fn push_cut(text: &mut ArrayVec<u8, REQUEST_ROOM>, bytes: &[u8])
    ensures { text.new.items ≡ take 200 (text.old.items ++ bytes.now) }
{
    let count = bytes.len().min(text.remaining_capacity());
    // There is room for this many.
    let _ = text.try_extend_from_slice(&bytes[..count]);
}

/// A refusal in a form, with the request as a string of JSON, which JSON alone has.
#[derive(Clone, Copy)]
struct Shown<'a> {
    refusal: Refusal,
    form: Form,
    request: &'a str,
}

impl fmt::Display for Shown<'_> {
    ghost use Rattle.std.specs.Prelude.{Some};
    ghost use Rattle.awari_faults.specs.Parts.{said};
    ghost use Rattle.awari_answers.specs.Parts.{shown_text};

    ghost output = { λ shown. Some (shown_text shown.form shown.request.now (said shown.refusal)) };

    fn fmt<W: fmt::Write>(&self, f: &mut fmt::Formatter<W>) -> fmt::Result {
        let Shown {
            refusal,
            request,
            ..
        } = *self;
        match self.form {
            Form::Text => write!(f, "refused {refusal}"),
            Form::Csv => write!(f, "refused{}", Rows(refusal)),
            Form::Json => write!(f, "{{\"request\":{request},{}}}", Object(refusal)),
        }
    }
}

/// The rows of a fault and of those inside it.
#[derive(Clone, Copy)]
struct Rows(Refusal);

impl fmt::Display for Rows {
    ghost use Rattle.std.specs.Prelude.{Some};
    ghost use Rattle.std.specs.List.{flat_map};
    ghost use Rattle.awari_faults.specs.Parts.{said};
    ghost use Rattle.awari_answers.specs.Refusals.{row_of};

    ghost output = { λ rows. Some (flat_map row_of (said rows.0)) };

    fn fmt<W: fmt::Write>(&self, f: &mut fmt::Formatter<W>) -> fmt::Result {
        let reason = Row(self.0.reason);
        match self.0.inside {
            Inside::None => write!(f, "{reason}"),
            Inside::One(first) => write!(f, "{reason}{}", Row(first)),
            Inside::Two(first, second) => write!(f, "{reason}{}{}", Row(first), Row(second)),
        }
    }
}

/// The row of a fault.
#[derive(Clone, Copy)]
struct Row(Reason);

impl fmt::Display for Row {
    ghost use Rattle.std.specs.Prelude.{Some};
    ghost use Rattle.awari_faults.specs.Parts.{reason_said};
    ghost use Rattle.awari_answers.specs.Refusals.{row_of};

    ghost output = { λ row. Some (row_of (reason_said row.0)) };

    fn fmt<W: fmt::Write>(&self, f: &mut fmt::Formatter<W>) -> fmt::Result {
        let Row(reason) = *self;
        let name = reason.name();
        write!(f, ",{},{name}{}", reason.number, RowFields(reason.fields))
    }
}

/// The fields of a fault in its row.
#[derive(Clone, Copy)]
struct RowFields(Fields);

impl fmt::Display for RowFields {
    ghost use Rattle.std.specs.Prelude.{Some};
    ghost use Rattle.std.specs.List.{flat_map};
    ghost use Rattle.awari_faults.specs.Parts.{fields_said};
    ghost use Rattle.awari_answers.specs.Refusals.{field_in_row};

    ghost output = { λ fields. Some (flat_map field_in_row (fields_said fields.0)) };

    fn fmt<W: fmt::Write>(&self, f: &mut fmt::Formatter<W>) -> fmt::Result {
        match self.0 {
            Fields::None => Ok(()),
            Fields::One(Field { name, value }) => write!(f, ",{name},{value}"),
            Fields::Two(first, second) => write!(
                f,
                ",{},{},{},{}",
                first.name, first.value, second.name, second.value
            ),
        }
    }
}

/// The members of a fault, with those of the faults inside it as objects.
#[derive(Clone, Copy)]
struct Object(Refusal);

impl fmt::Display for Object {
    ghost use Rattle.std.specs.Prelude.{Some};
    ghost use Rattle.awari_faults.specs.Parts.{said};
    ghost use Rattle.awari_answers.specs.Parts.{object_of};

    ghost output = { λ object. Some (object_of (said object.0)) };

    fn fmt<W: fmt::Write>(&self, f: &mut fmt::Formatter<W>) -> fmt::Result {
        let reason = Members(self.0.reason);
        write!(f, "{reason}{}", InsideObject(self.0.inside))
    }
}

/// The faults inside another as objects, behind its members.
#[derive(Clone, Copy)]
struct InsideObject(Inside);

impl fmt::Display for InsideObject {
    ghost use Rattle.std.specs.Prelude.{Some};
    ghost use Rattle.awari_faults.specs.Parts.{inside_said};
    ghost use Rattle.awari_answers.specs.Parts.{inside_object};

    ghost output = { λ object. Some (inside_object (inside_said object.0)) };

    fn fmt<W: fmt::Write>(&self, f: &mut fmt::Formatter<W>) -> fmt::Result {
        match self.0 {
            Inside::None => Ok(()),
            Inside::One(first) => write!(f, "{}", Inmost(first)),
            Inside::Two(first, second) => {
                write!(f, ",\"inside\":{{{}{}}}", Members(first), Inmost(second))
            }
        }
    }
}

/// A fault with none inside it as an object, behind members.
#[derive(Clone, Copy)]
struct Inmost(Reason);

impl fmt::Display for Inmost {
    ghost use Rattle.std.specs.Prelude.{[], ◌∷◌, Some};
    ghost use Rattle.awari_faults.specs.Parts.{reason_said};
    ghost use Rattle.awari_answers.specs.Parts.{inside_object};

    ghost output = { λ inmost. Some (inside_object (reason_said inmost.0 ∷ [])) };

    fn fmt<W: fmt::Write>(&self, f: &mut fmt::Formatter<W>) -> fmt::Result {
        write!(f, ",\"inside\":{{{}}}", Members(self.0))
    }
}

/// The members of a fault.
#[derive(Clone, Copy)]
struct Members(Reason);

impl fmt::Display for Members {
    ghost use Rattle.std.specs.Prelude.{[], Some};
    ghost use Rattle.awari_faults.specs.Parts.{reason_said};
    ghost use Rattle.awari_members.specs.Members.{marked};
    ghost use Rattle.awari_members.specs.declared.forms.Form.TheVariants as form;
    ghost use Rattle.awari_answers.specs.Refusals.{members_of};

    ghost output = { λ members. Some (marked form.Json [] (members_of (reason_said members.0))) };

    fn fmt<W: fmt::Write>(&self, f: &mut fmt::Formatter<W>) -> fmt::Result {
        let Members(reason) = *self;
        let name = reason.name();
        let number = reason.number;
        let fields = MemberFields(reason.fields);
        write!(f, "\"refused\":{number},\"name\":\"{name}\"{fields}")
    }
}

/// The fields of a fault as members, each behind a comma.
#[derive(Clone, Copy)]
struct MemberFields(Fields);

impl fmt::Display for MemberFields {
    ghost use Rattle.std.specs.Prelude.{Some, codes, map};
    ghost use Rattle.awari_faults.specs.Parts.{fields_said};
    ghost use Rattle.awari_members.specs.Members.{marked};
    ghost use Rattle.awari_members.specs.declared.forms.Form.TheVariants as form;
    ghost use Rattle.awari_answers.specs.Refusals.{named};

    ghost output = { λ fields. Some (marked form.Json (codes ",") (map named (fields_said fields.0))) };

    fn fmt<W: fmt::Write>(&self, f: &mut fmt::Formatter<W>) -> fmt::Result {
        match self.0 {
            Fields::None => Ok(()),
            Fields::One(field) => write!(f, "{}", MemberField(field)),
            Fields::Two(first, second) => {
                write!(f, "{}{}", MemberField(first), MemberField(second))
            }
        }
    }
}

/// A field of a fault as a member, behind a comma.
#[derive(Clone, Copy)]
struct MemberField(Field);

impl fmt::Display for MemberField {
    ghost use Rattle.std.specs.Prelude.{[], ◌∷◌, Some, codes};
    ghost use Rattle.awari_faults.specs.Parts.{shown};
    ghost use Rattle.awari_members.specs.Members.{marked};
    ghost use Rattle.awari_members.specs.declared.forms.Form.TheVariants as form;
    ghost use Rattle.awari_answers.specs.Refusals.{named};

    ghost output = { λ field. Some (marked form.Json (codes ",") (named (shown field.0) ∷ [])) };

    fn fmt<W: fmt::Write>(&self, f: &mut fmt::Formatter<W>) -> fmt::Result {
        let MemberField(Field { name, value }) = *self;
        match value {
            Value::Number(number) => write!(f, ",\"{name}\":{number}"),
            Value::Word(word) => write!(f, ",\"{name}\":\"{word}\""),
        }
    }
}
