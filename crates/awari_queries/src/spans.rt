//! Spans of numbers, as `boards` is asked for them.

ghost use Rattle.std.specs.Prelude.{◌≡◌, ◌≤ℤ◌, IfErr, IfOk, IfSome, IsNone, ℤ};
ghost use Rattle.awari_queries.specs.Spans.{AsksFor, AsksForNone, IsEnd, IsRange, IsSpan, SpellsNumber, has, is_in, option_of};

/// The numbers from `low` to `high`, both of them too.
#[derive(Clone, Copy, Debug, PartialEq, Eq)]
pub struct Span {
    /// The least of them.
    pub low: i64,
    /// The greatest of them.
    pub high: i64,
}

/// Whether the number is in the span, if there is one.
pub fn is_in(span: Option<Span>, number: i64) -> bool
    ensures { result ≡ is_in span number }
{
    match span {
        None => true,
        Some(Span { low, high }) => low <= number && number <= high,
    }
}

/// Whether there is a number and it is in the span, if there is one.
pub fn has(span: Option<Span>, number: Option<u8>) -> bool
    ensures { result ≡ has span number }
{
    match number {
        None => span.is_none(),
        Some(number) => is_in(span, i64::from(number)),
    }
}

/// The option whose word is no span of numbers. Numbers end at 64 bits.
#[derive(Clone, Copy, Debug, PartialEq, Eq)]
pub enum NoSpan {
    /// `--value`.
    Value,
    /// `--distance`.
    Distance,
    /// `--plan`.
    Plan,
    /// `--captures`.
    Captures,
    /// `--greedy`.
    Greedy,
    /// `--side`.
    Side,
    /// `--moves`.
    Moves,
    /// `--keep`.
    Keep,
    /// `--trap`.
    Trap,
    /// `--other`.
    Other,
}

impl NoSpan {
    /// The option, as it is written.
    pub fn option(self) -> &'static str
        ensures { result.now ≡ option_of self }
    {
        match self {
            NoSpan::Value => "--value",
            NoSpan::Distance => "--distance",
            NoSpan::Plan => "--plan",
            NoSpan::Captures => "--captures",
            NoSpan::Greedy => "--greedy",
            NoSpan::Side => "--side",
            NoSpan::Moves => "--moves",
            NoSpan::Keep => "--keep",
            NoSpan::Trap => "--trap",
            NoSpan::Other => "--other",
        }
    }
}

/// The number that the text spells.
fn number_of(text: &str) -> Option<i64>
    ensures some { IfSome result (SpellsNumber text.now) }
    ensures none { IsNone result → (number : ℤ) → SpellsNumber text.now number → ⊥ }
{
    text.parse::<i64>().ok()
}

/// The end of a span that the text spells; an empty text leaves it open, so that it is the one given.
fn end_of(text: &str, otherwise: i64) -> Option<i64>
    ensures some { IfSome result (IsEnd otherwise text.now) }
    ensures none { IsNone result → (number : ℤ) → IsEnd otherwise text.now number → ⊥ }
{
    if text.is_empty() {
        return Some(otherwise);
    }
    number_of(text)
}

/// The span of these ends, if the lower one is first.
fn ordered(low: i64, high: i64) -> Option<Span>
    ensures some { IfSome result (λ span. (span.low ≡ low) × (span.high ≡ high) × (low ≤ℤ high)) }
    ensures none { IsNone result → low ≤ℤ high → ⊥ }
{
    if low > high {
        return None;
    }
    Some(Span { low, high })
}

/// The span whose ends are spelled before and behind two dots, of which the second begins the rest.
fn range_of(low: &str, rest: &str) -> Option<Span>
    ensures some { IfSome result (IsRange low.now rest.now) }
    ensures none { IsNone result → (span : Span) → IsRange low.now rest.now span → ⊥ }
{
    let high = rest.strip_prefix('.')?;
    if low.is_empty() && high.is_empty() {
        return None;
    }
    ordered(end_of(low, i64::MIN)?, end_of(high, i64::MAX)?)
}

/// One number, as both ends.
fn one_number(text: &str) -> Option<Span>
    ensures some { IfSome result (λ span. SpellsNumber text.now span.low × (span.high ≡ span.low)) }
    ensures none { IsNone result → (number : ℤ) → SpellsNumber text.now number → ⊥ }
{
    let number = number_of(text)?;
    Some(Span {
        low: number,
        high: number,
    })
}

/// The span that the text names: `A..B`, `A..` or `..B` with the lower end first, or `A` alone.
fn span_of(text: &str) -> Option<Span>
    ensures some { IfSome result (IsSpan text.now) }
    ensures none { IsNone result → (span : Span) → IsSpan text.now span → ⊥ }
{
    match text.split_once('.') {
        Some((low, rest)) => range_of(low, rest),
        None => one_number(text),
    }
}

/// The span that is asked for, if there is one. It is refused by this fault if the text is no span.
pub(crate) fn asked_span(text: Option<&str>, fault: NoSpan) -> Result<Option<Span>, NoSpan>
    ensures asked { IfOk result (AsksFor text.entry) }
    ensures none { IfErr result (λ told. (told ≡ fault) × AsksForNone text.entry) }
{
    let Some(text) = text else {
        return Ok(None);
    };
    match span_of(text) {
        Some(span) => Ok(Some(span)),
        None => Err(fault),
    }
}
