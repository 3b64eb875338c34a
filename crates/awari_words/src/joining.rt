//! Values that begin with a hyphen, joined to the option that takes them.

ghost use Rattle.std.specs.Prelude.{◌≡◌, ◌≤◌, ◌∷◌, ◌++◌, IfOk, codes, false, length, map};
ghost use Rattle.std.specs.Str.{bytes_eq};
ghost use Rattle.std.specs.String.{string_bytes};
ghost use Rattle.awari_words.specs.Joined.{is_below_zero, is_joined, is_descending, joined, takes_span};

use std::alloc::{AllocError, Global};
use std::convert::AsStr;

/// The words, with each value that begins with a hyphen joined by `=` to the option before it: a span below
/// zero, as `--value=-3..2` of `--value` and `-3..2`, or an order, as `--sort=-value` of `--sort` and
/// `-value`. For `clap` takes a word that begins with a hyphen for an option. From a word `--` on, which ends
/// the options, no word is joined. It takes memory for the words.
pub fn joined<S: AsStr>(alloc: Global, words: &[S]) -> Result<Vec<String>, AllocError>
    ensures { IfOk result (λ all. map string_bytes all.items ≡ joined (map S.text words.now)) }
{
    let mut all = Vec::new(alloc);
    let mut rest = words;
    while let [word, after @ ..] = rest {
        if word.as_str() == "--" {
            return with_words(alloc, all, rest);
        }
        let (text, others) = next_word(alloc, word.as_str(), after)?;
        all.push(text)?;
        rest = others;
    }
    Ok(all)
}

/// These words, and behind them others as they are.
fn with_words<S: AsStr>(
    alloc: Global,
    words: Vec<String>,
    others: &[S],
) -> Result<Vec<String>, AllocError>
    ensures { IfOk result (λ all. map string_bytes all.items ≡ map string_bytes words.items ++ map S.text others.now) }
{
    let mut all = words;
    for word in others {
        all.push(String::from_str(alloc, word.as_str())?)?;
    }
    Ok(all)
}

/// The word, joined with the one after it if that is its value, and the words that are left.
fn next_word<'w, S: AsStr>(
    alloc: Global,
    word: &str,
    after: &'w [S],
) -> Result<(String, &'w [S]), AllocError>
    requires { bytes_eq word.now (codes "--") ≡ false }
    ensures joined { IfOk result (λ next. string_bytes next.0 ∷ joined (map S.text next.1.now) ≡ joined (word.now ∷ map S.text after.now)) }
    ensures fewer { IfOk result (λ next. length next.1.now ≤ length after.now) }
{
    match after.split_first() {
        Some((value, others)) if is_joined(word, value.as_str()) => {
            Ok((with_value(alloc, word, value.as_str())?, others))
        }
        _ => Ok((String::from_str(alloc, word)?, after)),
    }
}

/// The option and its value in one word.
fn with_value(alloc: Global, option: &str, value: &str) -> Result<String, AllocError>
    ensures { IfOk result (λ word. string_bytes word ≡ option.now ++ (codes "=" ++ value.now)) }
{
    let mut word = String::from_str(alloc, option)?;
    word.push_str("=")?;
    word.push_str(value)?;
    Ok(word)
}

/// Whether the second word is a value that begins with a hyphen, and the first an option that takes it: a
/// span below zero, or the order from the greatest on.
fn is_joined(option: &str, value: &str) -> bool
    ensures { result ≡ is_joined option.now value.now }
{
    if option == "--sort" {
        return is_descending(value.as_bytes());
    }
    takes_span(option) && is_below_zero(value.as_bytes())
}

fn takes_span(option: &str) -> bool
    ensures { result ≡ takes_span option.now }
{
    option == "--value"
        || option == "--distance"
        || option == "--plan"
        || option == "--captures"
        || option == "--greedy"
        || option == "--side"
        || option == "--moves"
        || option == "--keep"
        || option == "--trap"
        || option == "--other"
}

/// Whether the text begins with a hyphen and a digit.
fn is_below_zero(text: &[u8]) -> bool
    ensures { result ≡ is_below_zero text.now }
{
    match text {
        [b'-', digit, ..] => digit.is_ascii_digit(),
        _ => false,
    }
}

/// Whether the text begins with a hyphen and a small letter.
fn is_descending(text: &[u8]) -> bool
    ensures { result ≡ is_descending text.now }
{
    match text {
        [b'-', letter, ..] => letter.is_ascii_lowercase(),
        _ => false,
    }
}
