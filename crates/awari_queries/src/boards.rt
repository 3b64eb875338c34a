//! Which boards of a level are asked for.

ghost use Rattle.std.specs.Prelude.{IfErr, IfOk};
ghost use Rattle.awari_queries.specs.Boards.{AreAskedFor, HasNoSpan};

use crate::spans::{NoSpan, Span, asked_span};

/// Which boards of a level are asked for, in words. A span is `-3..2`, `1..`, `..0` or `5`.
#[derive(Clone, Copy)]
pub struct BoardsQuery<'a> {
    /// The stones on each board.
    pub level: u8,
    /// Spans that a board has to be in.
    pub spans: BoardSpans<'a>,
    /// Those for whom it is a burden to move: a move is legal, and their value is less than if the opponent had to
    /// move.
    pub waits: bool,
    /// Those where the play has ended.
    pub ended: bool,
    /// Those where it has not.
    pub running: bool,
    /// Those of the greatest distance alone, among those that have the rest.
    pub farthest: bool,
    /// One in this many of them; 0 counts as 1.
    pub every: u32,
    /// This many of them, drawn by chance; 0 is all.
    pub random: u32,
    /// The number that decides which are drawn.
    pub seed: u32,
    /// The column by which they are sorted, with `-` before it for the greatest first.
    pub sort: Option<&'a str>,
    /// This many of the first ones, by rank or as they are sorted; 0 is all.
    pub most: u32,
    /// Which further numbers each line has.
    pub added: Added,
    /// How many there are, and not the boards.
    pub count: bool,
    /// Lines of JSON.
    pub json: bool,
    /// Lines of CSV below a header, unless JSON is asked for.
    pub csv: bool,
    /// Whether files answer that nobody verified.
    pub unverified: bool,
}

/// Which further numbers a board's line has, behind its entry.
#[derive(Clone, Copy, Debug, Default, PartialEq, Eq)]
pub struct Added {
    /// The number of legal moves.
    pub moves: bool,
    /// The number of those that keep the value.
    pub keep: bool,
    /// The stones of the largest capture.
    pub greedy: bool,
    /// The stones that are thrown away by it.
    pub trap: bool,
    /// The value to the opponent, if the opponent were to move.
    pub other: bool,
    /// The stones that the mover loses by having to move.
    pub waits: bool,
}

/// Spans, in words, of numbers that are known of each board.
#[derive(Clone, Copy, Default)]
pub struct BoardSpans<'a> {
    /// Values.
    pub value: Option<&'a str>,
    /// Distances.
    pub distance: Option<&'a str>,
    /// Pits of the plan.
    pub plan: Option<&'a str>,
    /// Stones that the plan's move captures.
    pub captures: Option<&'a str>,
    /// Stones of the largest capture.
    pub greedy: Option<&'a str>,
    /// Stones on the mover's side.
    pub side: Option<&'a str>,
    /// Legal moves.
    pub moves: Option<&'a str>,
    /// Legal moves that gain what the board is worth.
    pub keep: Option<&'a str>,
    /// Stones that are thrown away by whoever captures the most.
    pub trap: Option<&'a str>,
    /// Values to the opponent, if the opponent were to move.
    pub other: Option<&'a str>,
}

/// Spans of numbers that are known of each board.
#[derive(Clone, Copy, Debug, Default, PartialEq, Eq)]
pub struct Spans {
    /// Values.
    pub value: Option<Span>,
    /// Distances.
    pub distance: Option<Span>,
    /// Pits of the plan.
    pub plan: Option<Span>,
    /// Stones that the plan's move captures.
    pub captures: Option<Span>,
    /// Stones of the largest capture.
    pub greedy: Option<Span>,
    /// Stones on the mover's side.
    pub side: Option<Span>,
    /// Legal moves.
    pub moves: Option<Span>,
    /// Legal moves that gain what the board is worth.
    pub keep: Option<Span>,
    /// Stones that are thrown away by whoever captures the most.
    pub trap: Option<Span>,
    /// Values to the opponent, if the opponent were to move.
    pub other: Option<Span>,
}

/// The spans that the words name. They are refused as 95, for the first option whose word is no span.
pub fn asked_spans(words: &BoardSpans<'_>) -> Result<Spans, NoSpan>
    ensures asked { IfOk result (AreAskedFor words.now) }
    ensures none { IfErr result (HasNoSpan words.now) }
{
    Ok(Spans {
        value: asked_span(words.value, NoSpan::Value)?,
        distance: asked_span(words.distance, NoSpan::Distance)?,
        plan: asked_span(words.plan, NoSpan::Plan)?,
        captures: asked_span(words.captures, NoSpan::Captures)?,
        greedy: asked_span(words.greedy, NoSpan::Greedy)?,
        side: asked_span(words.side, NoSpan::Side)?,
        moves: asked_span(words.moves, NoSpan::Moves)?,
        keep: asked_span(words.keep, NoSpan::Keep)?,
        trap: asked_span(words.trap, NoSpan::Trap)?,
        other: asked_span(words.other, NoSpan::Other)?,
    })
}
