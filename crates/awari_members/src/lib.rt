//! Lines that are lists of members. A member has a name and a value. Such a line is printed in one of three
//! forms: names and values with spaces between them, values with commas, or a JSON object. All forms are of one
//! list, so the object has the names of the line, in its order. A [`Line`] is written to any writer;
//! [`push_members`] puts members into a text in place, which takes no memory, and [`push_row`] their values alone.
//!
//! Members as a line or as an object, in `crates/awari_answers/src/printing.rt`:
//!
//!     pub fn print_members<W: Write>(members: &[Member<'_>], json: bool, writer: &mut W) -> bool
//!         ensures { result ≡ true → Appends (W.contents writer.old) (W.contents writer.new) (line_text (form_of json false) (map said members.now) ++ 10 ∷ []) }
//!     {
//!         let form = form_of(json, false);
//!         print(writer, &Line { members, form })
//!     }
#![tactic(auto)]

mod forms;
mod in_place;
mod lines;
mod texts;
mod values;

pub use forms::{Form, form_of};
pub use in_place::{push_comma, push_members, push_names, push_row};
pub use lines::{Line, Member};
pub use texts::{ANSWER_ROOM, AnswerText, hex_digit, push_bytes, push_string, text_of_line};
pub use values::Value;
