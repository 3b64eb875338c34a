//! The command `moves`: what each legal move of a board is worth.

ghost use Rattle.std.specs.Prelude.{◌≡◌, ◌≤◌, ◌↔◌, false, true, Err, IfErr, IfOk};
ghost use Rattle.std.specs.Io.KnownBytes.{Appends};
ghost use Rattle.awari_board.specs.BoardFault.{IsFaulty};
ghost use Rattle.awari_board.specs.declared.text.BoardFault.{BoardFault};
ghost use Rattle.awari_folder.specs.Contents.{Lacks, Same};
ghost use Rattle.awari_places.specs.Faults.{IsLookFault};
ghost use Rattle.awari_play.specs.Worths.{IsWeighed};
ghost use Rattle.awari_answers.specs.declared.asked.NoAnswer.TheVariants as no_answer;
ghost use Rattle.awari_boards.specs.Known.{IsKnown};
ghost use Rattle.awari_boards.specs.Refused.{IsUnknown};
ghost use Rattle.awari_boards.specs.Worths.{PrintsWorths, shown_worths};

use crate::opening::{OpenedFor, open_level_of};
use awari_answers::{Asked, NoAnswer, Remarks, ask_folder, print_bytes, refuse_as, status_of};
use awari_board::Board;
use awari_folder::Folder;
use awari_play::{Weighed, weigh};
use awari_queries::MovesQuery;
use awari_shown::{weighed_json, weighed_text};
use std::alloc::Global;
use std::io::Write;
use std::thread::Threads;

/// The board that is asked for, and what it and each of its legal moves are worth: by right levels in the
/// folder, or unverified, by what the files say.
fn weigh_board<T: Threads + Sync, F: Folder>(
    rt: &T,
    alloc: Global,
    folder: &mut F,
    query: MovesQuery<'_>,
) -> Result<(Board, Weighed), NoAnswer>
    ensures weighed { IfOk result (λ found. IsKnown query.entry.unverified (F.state folder.old).stands query.entry.board.now found.0 (λ images. IsWeighed query.entry.replies images found.0 found.1)) }
    ensures same { Same (F.state folder.old).stands (F.state folder.new).stands }
    ensures board { (fault : BoardFault) → (result ≡ Err (no_answer.Board fault)) ↔ IsFaulty query.entry.board.now fault }
    ensures fault { IfErr result (IsUnknown false query.entry.unverified (Lacks (F.state folder.old).refusals (F.state folder.new).refusals) (F.state folder.old).stands query.entry.board.now (λ levels _. IsLookFault levels (F.state folder.old).stands)) }
{
    let text = query.board.as_bytes();
    if query.unverified {
        let OpenedFor { board, opened } = open_level_of(folder, text, false)?;
        let weighed = awari_places::weigh(folder, opened.levels, &board, query.replies)?;
        return Ok((board, weighed));
    }
    let Asked { board, shelf } = ask_folder(rt, alloc, folder, text)?;
    let weighed = weigh(&shelf, &board, query.replies)?;
    Ok((board, weighed))
}

/// Prints what the moves of a board are worth, and says whether the writer took it.
fn print_worths<W: Write>(board: &Board, weighed: &Weighed, json: bool, writer: &mut W) -> bool
    ensures { result ≡ true → Appends (W.contents writer.old) (W.contents writer.new) (shown_worths json board.now weighed.now) }
{
    if json {
        let line = weighed_json(board, weighed);
        return print_bytes(writer, line.as_slice());
    }
    print_bytes(writer, weighed_text(weighed).as_slice())
}

/// Prints what each legal move of a board is worth, with its replies if these are asked for; or that the
/// play has ended there, or the refusal. It is a line for each move, or JSON in one line. Who answers, and
/// what memory that takes, is as for `run_ask`.
pub fn run_moves<T: Threads + Sync, F: Folder, W: Remarks>(
    rt: &T,
    alloc: Global,
    folder: &mut F,
    query: MovesQuery<'_>,
    writer: &mut W,
) -> u8
    ensures status { result ≤ 1 }
    ensures found { result ≡ 0 → PrintsWorths query.entry (F.state folder.old).stands (W.contents writer.old) (W.contents writer.new) }
    ensures same { Same (F.state folder.old).stands (F.state folder.new).stands }
{
    match weigh_board(rt, alloc, folder, query) {
        Ok((board, weighed)) => status_of(print_worths(&board, &weighed, query.json, writer)),
        Err(fault) => refuse_as(writer, query.json, "moves", query.board, fault),
    }
}
