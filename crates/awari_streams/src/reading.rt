//! Words and numbers at the start of a text.

ghost use Rattle.std.specs.Prelude.{◌≡◌, ◌<◌};
ghost use Rattle.std.specs.Option.{option_map};
ghost use Rattle.awari_streams.specs.Reading.{after_byte, after_text, digits_at, number_at};

/// What follows the byte, none if the text begins with another or is empty.
#[inline]
pub fn after_byte(byte: u8, text: &[u8]) -> Option<&[u8]>
    ensures { option_map (λ rest. rest.now) result ≡ after_byte byte text.now }
{
    match text {
        [first, rest @ ..] if *first == byte => Some(rest),
        _ => None,
    }
}

/// What follows the word, none if the text does not begin with it.
pub fn after_word<'a>(word: &[u8], text: &'a [u8]) -> Option<&'a [u8]>
    ensures { option_map (λ rest. rest.now) result ≡ after_text word.now text.now }
{
    let mut rest = text;
    for byte in word {
        rest = after_byte(*byte, rest)?;
    }
    Some(rest)
}

/// The number of the digits so far and those up to the byte `end`, and what follows that byte.
#[inline]
fn digits(first: u8, end: u8, text: &[u8]) -> Option<(u32, &[u8])>
    requires { first < 10 }
    ensures { option_map (λ x. (x.0, x.1.now)) result ≡ digits_at end first text.now }
{
    let mut value = first as u32;
    for (i, byte) in text.iter().enumerate() {
        if *byte == end {
            return Some((value, &text[i + 1..]));
        }
        if *byte < b'0' || *byte > b'9' {
            return None;
        }
        let next = value as u64 * 10 + (*byte - b'0') as u64;
        if next > u32::MAX as u64 {
            return None;
        }
        value = next as u32;
    }
    None
}

/// The number below 2^32 that stands in decimal up to the byte `end`, and what follows that byte. None
/// if there is none, or if it begins with a zero and is not 0.
#[inline]
pub fn read_number(end: u8, text: &[u8]) -> Option<(u32, &[u8])>
    ensures { option_map (λ x. (x.0, x.1.now)) result ≡ number_at end text.now }
{
    match text {
        [] => None,
        [b'0', rest @ ..] => Some((0, after_byte(end, rest)?)),
        [first, rest @ ..] => {
            if *first < b'1' || *first > b'9' {
                return None;
            }
            digits(*first - b'0', end, rest)
        }
    }
}
