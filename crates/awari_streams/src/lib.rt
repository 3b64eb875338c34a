//! Streams whose faults are counted, and lines of text.
//!
//! [`Counted`] counts the faults of a reader or writer that is lent. A [`TextLine`] is spelled by
//! [`push_text`], [`push_number`] and [`push_signed`]. [`read_number`] and [`after_word`] read what
//! stands at the start of a text.
//!
//! A line with a number at its end, in `crates/awari_streams/src/lines.rt`:
//!
//!     pub fn numbered_line(text: &[u8], number: u8) -> TextLine
//!         requires { length text.now ≤ 76 }
//!         ensures { result.items ≡ text.now ++ decimal number ++ 10 ∷ [] }
//!     {
//!         let mut line = numbered(text, number);
//!         line.push(b'\n');
//!         line
//!     }
#![tactic(auto)]

mod counted;
mod lines;
mod reading;

pub use counted::Counted;
pub use lines::{
    LINE_ROOM, TextLine, numbered, numbered_line, push_number, push_signed, push_text,
};
pub use reading::{after_byte, after_word, read_number};
