//! The command `line`: a play in which both sides follow the plans of the levels in a folder, or one
//! side holds out.

ghost use Rattle.std.specs.Prelude.{◌≡◌, ◌≤◌, ◌↔◌, ◌++◌, ◌∷◌, [], ℕ, List, true, false, Err, IfErr, IfOk};
ghost use Rattle.std.specs.Io.KnownBytes.{Appends};
ghost use Rattle.awari_board.specs.BoardFault.{IsFaulty};
ghost use Rattle.awari_board.specs.declared.text.BoardFault.{BoardFault};
ghost use Rattle.awari_folder.specs.Contents.{Lacks, Same};
ghost use Rattle.awari_places.specs.Faults.{IsPliesFault};
ghost use Rattle.awari_answers.specs.declared.asked.NoAnswer.TheVariants as no_answer;
ghost use Rattle.awari_boards.specs.Known.{IsKnown};
ghost use Rattle.awari_boards.specs.Refused.{IsUnknown};
ghost use Rattle.awari_boards.specs.Lines.{IsLineOf, PrintsLine, PrintsLineBy, SayLongest, line_json, longest_json, shown_best, shown_longest};

use crate::opening::{OpenedFor, open_level_of};
use crate::plies::run_plies;
use awari_answers::{
    Asked, NoAnswer, Remarks, ask_folder, print, print_members, refuse_as, status_of,
};
use awari_folder::Folder;
use awari_members::Member;
use awari_play::{Line, best_line, longest_line};
use awari_queries::LineQuery;
use awari_table::Entry;
use std::alloc::Global;
use std::fmt;
use std::io::Write;
use std::thread::Threads;

/// The entry of a board, and the line of play from it. It is printed as three lines, without the last
/// line feed.
#[derive(Drop)]
struct ValuedLine {
    entry: Entry,
    line: Line,
}

impl fmt::Display for ValuedLine {
    ghost use Rattle.std.specs.Prelude.{Some};
    ghost use Rattle.awari_boards.specs.Lines.{line_text};

    ghost output = { λ found. Some (line_text found.entry.value found.line.moves.items found.line.outcome) };

    fn fmt<W: fmt::Write>(&self, f: &mut fmt::Formatter<W>) -> fmt::Result {
        let value = self.entry.value;
        let moves = Moves(self.line.moves.as_slice());
        let outcome = self.line.outcome;
        write!(f, "value {value}\nmoves{moves}\noutcome {outcome}")
    }
}

/// The entry of a board, and the pits of the longest line of play from it. It is printed as three
/// lines, without the last line feed.
#[derive(Drop)]
struct LongestLine {
    entry: Entry,
    moves: Vec<u8>,
}

impl fmt::Display for LongestLine {
    ghost use Rattle.std.specs.Prelude.{Some};
    ghost use Rattle.awari_boards.specs.Lines.{longest_text};

    ghost output = { λ found. Some (longest_text found.entry.value found.entry.dist found.moves.items) };

    fn fmt<W: fmt::Write>(&self, f: &mut fmt::Formatter<W>) -> fmt::Result {
        let value = self.entry.value;
        let distance = self.entry.dist;
        let moves = Moves(self.moves.as_slice());
        write!(f, "value {value}\ndistance {distance}\nmoves{moves}")
    }
}

/// The pits of a line. Each is printed after a space.
#[derive(Clone, Copy)]
struct Moves<'a>(&'a [u8]);

impl fmt::Display for Moves<'_> {
    ghost use Rattle.std.specs.Prelude.{Some};
    ghost use Rattle.awari_boards.specs.Lines.{moves_text};

    ghost output = { λ moves. Some (moves_text moves.0.now) };

    fn fmt<W: fmt::Write>(&self, f: &mut fmt::Formatter<W>) -> fmt::Result {
        for pit in self.0 {
            write!(f, " {pit}")?;
        }
        Ok(())
    }
}

/// The line of play by the plans of both sides that is asked for: by right levels in the folder and their
/// limit, or unverified, by what the files say.
fn line_of<T: Threads + Sync, F: Folder>(
    rt: &T,
    alloc: Global,
    folder: &mut F,
    query: LineQuery<'_>,
) -> Result<ValuedLine, NoAnswer>
    ensures same { Same (F.state folder.old).stands (F.state folder.new).stands }
    ensures line { IfOk result (λ found. IsLineOf query.entry.unverified (F.state folder.old).stands query.entry.board.now found.entry.value found.line.moves.items found.line.outcome) }
    ensures board { (fault : BoardFault) → (result ≡ Err (no_answer.Board fault)) ↔ IsFaulty query.entry.board.now fault }
    ensures fault { IfErr result (IsUnknown true query.entry.unverified (Lacks (F.state folder.old).refusals (F.state folder.new).refusals) (F.state folder.old).stands query.entry.board.now (λ levels _. IsPliesFault false levels (F.state folder.old).stands)) }
{
    let text = query.board.as_bytes();
    if query.unverified {
        let OpenedFor { board, opened } = open_level_of(folder, text, true)?;
        let entry = awari_places::entry(folder, opened.levels, &board)?;
        let line = awari_places::best_line(alloc, folder, opened, board)?;
        return Ok(ValuedLine { entry, line });
    }
    let Asked { board, shelf } = ask_folder(rt, alloc, folder, text)?;
    let line = best_line(alloc, &shelf, board, shelf.limit())?;
    match shelf.entry(&board) {
        Ok(entry) => Ok(ValuedLine { entry, line }),
        Err(_) => unreachable!(),
    }
}

/// The line of play in which one side holds out that is asked for, likewise.
fn longest_line_of<T: Threads + Sync, F: Folder>(
    rt: &T,
    alloc: Global,
    folder: &mut F,
    query: LineQuery<'_>,
) -> Result<LongestLine, NoAnswer>
    ensures same { Same (F.state folder.old).stands (F.state folder.new).stands }
    ensures line { IfOk result (λ found. (board : List ℕ) × IsKnown query.entry.unverified (F.state folder.old).stands query.entry.board.now board (SayLongest board found.entry.value found.entry.dist found.moves.items)) }
    ensures board { (fault : BoardFault) → (result ≡ Err (no_answer.Board fault)) ↔ IsFaulty query.entry.board.now fault }
    ensures fault { IfErr result (IsUnknown true query.entry.unverified (Lacks (F.state folder.old).refusals (F.state folder.new).refusals) (F.state folder.old).stands query.entry.board.now (λ levels _. IsPliesFault true levels (F.state folder.old).stands)) }
{
    let text = query.board.as_bytes();
    if query.unverified {
        let OpenedFor { board, opened } = open_level_of(folder, text, true)?;
        let entry = awari_places::entry(folder, opened.levels, &board)?;
        let moves = awari_places::longest_line(alloc, folder, opened.levels, board)?;
        return Ok(LongestLine { entry, moves });
    }
    let Asked { board, shelf } = ask_folder(rt, alloc, folder, text)?;
    let moves = longest_line(alloc, &shelf, board)?;
    match shelf.entry(&board) {
        Ok(entry) => Ok(LongestLine { entry, moves }),
        Err(_) => unreachable!(),
    }
}

/// Prints a line of play from the board of this text as a JSON object, and says whether the writer took it.
fn print_line_json<W: Write>(board: &str, found: &ValuedLine, writer: &mut W) -> bool
    ensures { result ≡ true → Appends (W.contents writer.old) (W.contents writer.new)
        (line_json board.now found.now.entry.value found.now.line.moves.items found.now.line.outcome ++ 10 ∷ []) }
{
    let members = [
        Member::text("board", board),
        Member::signed("value", i64::from(found.entry.value)),
        Member::pits("moves", found.line.moves.as_slice()),
        Member::signed("outcome", i64::from(found.line.outcome)),
    ];
    print_members(&members, true, writer)
}

/// Prints a line of play in which one side holds out likewise.
fn print_longest_json<W: Write>(board: &str, found: &LongestLine, writer: &mut W) -> bool
    ensures { result ≡ true → Appends (W.contents writer.old) (W.contents writer.new)
        (longest_json board.now found.now.entry.value found.now.entry.dist found.now.moves.items ++ 10 ∷ []) }
{
    let members = [
        Member::text("board", board),
        Member::signed("value", i64::from(found.entry.value)),
        Member::number("distance", u64::from(found.entry.dist)),
        Member::pits("moves", found.moves.as_slice()),
    ];
    print_members(&members, true, writer)
}

/// Prints a line by the plans of both sides, and says whether the writer took it.
fn print_best<W: Write>(found: &ValuedLine, query: LineQuery<'_>, writer: &mut W) -> bool
    ensures { result ≡ true → Appends (W.contents writer.old) (W.contents writer.new) (shown_best query.entry.json query.entry.board.now found.now.entry.value found.now.line.moves.items found.now.line.outcome ++ 10 ∷ []) }
{
    if !query.json {
        return print(writer, found);
    }
    print_line_json(query.board, found, writer)
}

/// Prints a line in which one side holds out, and says whether the writer took it.
fn print_longest<W: Write>(found: &LongestLine, query: LineQuery<'_>, writer: &mut W) -> bool
    ensures { result ≡ true → Appends (W.contents writer.old) (W.contents writer.new) (shown_longest query.entry.json query.entry.board.now found.now.entry.value found.now.entry.dist found.now.moves.items ++ 10 ∷ []) }
{
    if !query.json {
        return print(writer, found);
    }
    print_longest_json(query.board, found, writer)
}

/// Prints the value of a board and the line of play from it, or the refusal: by the plans of both sides, or
/// with one that holds out, or ply by ply; as lines or as JSON. Who answers is as for `run_ask`. It also
/// takes memory for the moves.
pub fn run_line<T: Threads + Sync, F: Folder, W: Remarks>(
    rt: &T,
    alloc: Global,
    folder: &mut F,
    query: LineQuery<'_>,
    writer: &mut W,
) -> u8
    ensures status { result ≤ 1 }
    ensures same { Same (F.state folder.old).stands (F.state folder.new).stands }
    ensures found { result ≡ 0 → PrintsLine query.entry (F.state folder.old).stands (W.contents writer.old) (W.contents writer.new) }
{
    match (query.plies, query.longest) {
        (true, _) => run_plies(rt, alloc, folder, query, writer),
        (false, true) => run_longest(rt, alloc, folder, query, writer),
        (false, false) => run_best(rt, alloc, folder, query, writer),
    }
}

/// Prints the line by the plans of both sides, or the refusal.
fn run_best<T: Threads + Sync, F: Folder, W: Remarks>(
    rt: &T,
    alloc: Global,
    folder: &mut F,
    query: LineQuery<'_>,
    writer: &mut W,
) -> u8
    ensures status { result ≤ 1 }
    ensures same { Same (F.state folder.old).stands (F.state folder.new).stands }
    ensures found { result ≡ 0 → PrintsLineBy false false query.entry (F.state folder.old).stands (W.contents writer.old) (W.contents writer.new) }
{
    match line_of(rt, alloc, folder, query) {
        Ok(found) => status_of(print_best(&found, query, writer)),
        Err(fault) => refuse_as(writer, query.json, "line", query.board, fault),
    }
}

/// Prints the line in which one side holds out, or the refusal.
fn run_longest<T: Threads + Sync, F: Folder, W: Remarks>(
    rt: &T,
    alloc: Global,
    folder: &mut F,
    query: LineQuery<'_>,
    writer: &mut W,
) -> u8
    ensures status { result ≤ 1 }
    ensures same { Same (F.state folder.old).stands (F.state folder.new).stands }
    ensures found { result ≡ 0 → PrintsLineBy false true query.entry (F.state folder.old).stands (W.contents writer.old) (W.contents writer.new) }
{
    match longest_line_of(rt, alloc, folder, query) {
        Ok(found) => status_of(print_longest(&found, query, writer)),
        Err(fault) => refuse_as(writer, query.json, "line", query.board, fault),
    }
}
