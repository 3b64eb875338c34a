//! The command `line` with `--plies`: a line of play ply by ply.

ghost use Rattle.std.specs.Prelude.{◌≡◌, ◌≤◌, ◌↔◌, ◌++◌, ◌∷◌, [], ℕ, List, true, Err, IfErr, IfOk, IfSome, length};
ghost use Rattle.std.specs.Io.KnownBytes.{Appends};
ghost use Rattle.awari_board.specs.BoardFault.{IsFaulty};
ghost use Rattle.awari_board.specs.declared.text.BoardFault.{BoardFault};
ghost use Rattle.awari_folder.specs.Contents.{Lacks, Same};
ghost use Rattle.awari_places.specs.Faults.{IsPliesFault};
ghost use Rattle.awari_play.specs.Plies.{AreLinePlies};
ghost use Rattle.awari_answers.specs.declared.asked.NoAnswer.TheVariants as no_answer;
ghost use Rattle.awari_boards.specs.Known.{IsKnown};
ghost use Rattle.awari_boards.specs.Lines.{PrintsLineBy};
ghost use Rattle.awari_boards.specs.Refused.{IsUnknown};
ghost use Rattle.awari_boards.specs.Plies.{shown_line, shown_plies, shown_ply, shown_repeat};

use crate::opening::{OpenedFor, open_level_of};
use awari_answers::{Asked, NoAnswer, Remarks, ask_folder, print_members, refuse_as, status_of};
use awari_folder::Folder;
use awari_members::Member;
use awari_play::{LinePlies, Ply, Repeat, line_plies};
use awari_queries::LineQuery;
use std::alloc::Global;
use std::io::Write;
use std::thread::Threads;

/// The plies of the line of play that is asked for: by right levels in the folder, or unverified, by what the
/// files say.
fn plies_of<T: Threads + Sync, F: Folder>(
    rt: &T,
    alloc: Global,
    folder: &mut F,
    query: LineQuery<'_>,
) -> Result<LinePlies, NoAnswer>
    ensures same { Same (F.state folder.old).stands (F.state folder.new).stands }
    ensures plies { IfOk result (λ found. (board : List ℕ) × IsKnown query.entry.unverified (F.state folder.old).stands query.entry.board.now board (λ images. AreLinePlies query.entry.longest images board found.plies.items found.repeat)) }
    ensures within { IfOk result (λ found. IfSome found.repeat (λ r. r.again ≤ length found.plies.items)) }
    ensures board { (fault : BoardFault) → (result ≡ Err (no_answer.Board fault)) ↔ IsFaulty query.entry.board.now fault }
    ensures fault { IfErr result (IsUnknown true query.entry.unverified (Lacks (F.state folder.old).refusals (F.state folder.new).refusals) (F.state folder.old).stands query.entry.board.now (λ levels _. IsPliesFault query.entry.longest levels (F.state folder.old).stands)) }
{
    let text = query.board.as_bytes();
    if query.unverified {
        let OpenedFor { board, opened } = open_level_of(folder, text, true)?;
        let plies = awari_places::line_plies(alloc, folder, opened, board, query.longest)?;
        return Ok(plies);
    }
    let Asked { board, shelf } = ask_folder(rt, alloc, folder, text)?;
    let plies = line_plies(alloc, &shelf, board, query.longest)?;
    Ok(plies)
}

/// Prints a ply, and says whether the writer took it.
fn print_ply<W: Write>(ply: &Ply, json: bool, writer: &mut W) -> bool
    ensures { result ≡ true → Appends (W.contents writer.old) (W.contents writer.new) (shown_ply json ply.now ++ 10 ∷ []) }
{
    let members = [
        Member::number("ply", ply.number as u64),
        Member::number("pit", u64::from(ply.pit)),
        Member::number("captures", u64::from(ply.captured)),
        Member::signed("running", i64::from(ply.running)),
        Member::board("board", ply.board),
        Member::signed("value", i64::from(ply.entry.value)),
        Member::number("distance", u64::from(ply.entry.dist)),
    ];
    print_members(&members, json, writer)
}

/// Prints where a line comes back to a board, and says whether the writer took that.
fn print_repeat<W: Write>(repeat: Repeat, json: bool, writer: &mut W) -> bool
    ensures { result ≡ true → Appends (W.contents writer.old) (W.contents writer.new) (shown_repeat json repeat ++ 10 ∷ []) }
{
    let members = [Member::number("repeats", repeat.first as u64)];
    print_members(&members, json, writer)
}

/// Prints each ply, and says whether the writer took them.
fn print_plies<W: Write>(plies: &[Ply], json: bool, writer: &mut W) -> bool
    ensures { result ≡ true → Appends (W.contents writer.old) (W.contents writer.new) (shown_plies json plies.now) }
{
    for ply in plies {
        if !print_ply(ply, json, writer) {
            return false;
        }
    }
    true
}

/// Prints the plies up to the repeat, or all of them, and says whether the writer took that.
fn print_line<W: Write>(found: &LinePlies, json: bool, writer: &mut W) -> bool
    requires { IfSome found.now.repeat (λ r. r.again ≤ length found.now.plies.items) }
    ensures { result ≡ true → Appends (W.contents writer.old) (W.contents writer.new) (shown_line json found.now.plies.items found.now.repeat) }
{
    let plies = found.plies.as_slice();
    match found.repeat {
        None => print_plies(plies, json, writer),
        Some(repeat) => {
            print_plies(&plies[..repeat.again], json, writer) && print_repeat(repeat, json, writer)
        }
    }
}

/// Prints a line or a JSON object for each ply of the line of play from a board, or the refusal. If the
/// board's value is 0, it ends where a board comes again, and says so.
pub(crate) fn run_plies<T: Threads + Sync, F: Folder, W: Remarks>(
    rt: &T,
    alloc: Global,
    folder: &mut F,
    query: LineQuery<'_>,
    writer: &mut W,
) -> u8
    ensures status { result ≤ 1 }
    ensures same { Same (F.state folder.old).stands (F.state folder.new).stands }
    ensures found { result ≡ 0 → PrintsLineBy true query.entry.longest query.entry (F.state folder.old).stands (W.contents writer.old) (W.contents writer.new) }
{
    match plies_of(rt, alloc, folder, query) {
        Ok(found) => status_of(print_line(&found, query.json, writer)),
        Err(fault) => refuse_as(writer, query.json, "line", query.board, fault),
    }
}
