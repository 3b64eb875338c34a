//! One line of a table's text.

ghost use Rattle.std.specs.Prelude.{◌≡◌};
ghost use Rattle.std.specs.Option.{option_map};
ghost use Rattle.awari_table.specs.Reading.{value_at, plan_at, entry_at, header_at};

use crate::images::Entry;
use awari_streams::{after_byte, after_word, read_number};

#[derive(Clone, Copy)]
pub(crate) struct Header {
    pub level: u8,
    pub limit: u32,
}

/// A value, and what follows the space behind it.
#[inline]
fn value(text: &[u8]) -> Option<(i8, &[u8])>
    ensures { option_map (λ x. (x.0, x.1.now)) result ≡ value_at text.now }
{
    if let Some(text) = after_byte(b'-', text) {
        let (size, rest) = read_number(b' ', text)?;
        if size == 0 || size > 128 {
            return None;
        }
        Some(((-(size as i32)) as i8, rest))
    } else {
        let (size, rest) = read_number(b' ', text)?;
        if size > 127 {
            return None;
        }
        Some((size as i8, rest))
    }
}

/// A plan, and what follows the space behind it.
#[inline]
fn plan(text: &[u8]) -> Option<(Option<u8>, &[u8])>
    ensures { option_map (λ x. (x.0, x.1.now)) result ≡ plan_at text.now }
{
    if let Some(rest) = after_byte(b'-', text) {
        Some((None, after_byte(b' ', rest)?))
    } else {
        let (pit, rest) = read_number(b' ', text)?;
        if pit > 5 {
            return None;
        }
        Some((Some(pit as u8), rest))
    }
}

/// An entry's line, and what follows it.
#[inline]
#[tactic(auto, unfolding(crate::specs::Reading::entry_at))]
pub(crate) fn read_entry(text: &[u8]) -> Option<(Entry, &[u8])>
    ensures { option_map (λ x. (x.0, x.1.now)) result ≡ entry_at text.now }
{
    let (value, text) = value(text)?;
    let (plan, text) = plan(text)?;
    let (dist, rest) = read_number(b'\n', text)?;
    Some((Entry { value, plan, dist }, rest))
}

/// A header's line, and what follows it.
#[tactic(auto, unfolding(crate::specs::Reading::header_at))]
pub(crate) fn read_header(text: &[u8]) -> Option<(Header, &[u8])>
    ensures { option_map (λ x. (x.0, x.1.now)) result ≡ header_at text.now }
{
    let text = after_word(b"level ", text)?;
    let (level, text) = read_number(b' ', text)?;
    let text = after_word(b"limit ", text)?;
    let (limit, rest) = read_number(b'\n', text)?;
    if level > 255 {
        return None;
    }
    let level = level as u8;
    Some((Header { level, limit }, rest))
}
