//! The command `ask`: the entry of a board.

ghost use Rattle.std.specs.Prelude.{◌≡◌, ◌≤◌, ◌↔◌, false, true, Err, IfErr, IfOk};
ghost use Rattle.std.specs.Io.KnownBytes.{Appends};
ghost use Rattle.awari_board.specs.BoardFault.{IsFaulty};
ghost use Rattle.awari_board.specs.declared.text.BoardFault.{BoardFault};
ghost use Rattle.awari_folder.specs.Contents.{Lacks, Same};
ghost use Rattle.awari_places.specs.Faults.{IsRefusedAt};
ghost use Rattle.awari_table.specs.Images.{entry_of};
ghost use Rattle.awari_answers.specs.declared.asked.NoAnswer.TheVariants as no_answer;
ghost use Rattle.awari_boards.specs.Asks.{PrintsEntry, shown_entry};
ghost use Rattle.awari_boards.specs.Known.{IsKnown};
ghost use Rattle.awari_boards.specs.Refused.{IsUnknown};

use crate::opening::{OpenedFor, open_level_of};
use awari_answers::{Asked, NoAnswer, Remarks, ask_folder, print_bytes, refuse_as, status_of};
use awari_board::Board;
use awari_folder::Folder;
use awari_places::entry;
use awari_queries::AskQuery;
use awari_shown::entry_json;
use awari_table::{Entry, line_of_entry};
use std::alloc::Global;
use std::io::Write;
use std::thread::Threads;

/// The board that is asked for, and its entry: as right levels in the folder have it, or unverified, as the
/// files say it.
fn look_up<T: Threads + Sync, F: Folder>(
    rt: &T,
    alloc: Global,
    folder: &mut F,
    query: AskQuery<'_>,
) -> Result<(Board, Entry), NoAnswer>
    ensures entry { IfOk result (λ found. IsKnown query.entry.unverified (F.state folder.old).stands query.entry.board.now found.0 (λ images. found.1 ≡ entry_of images found.0)) }
    ensures same { Same (F.state folder.old).stands (F.state folder.new).stands }
    ensures board { (fault : BoardFault) → (result ≡ Err (no_answer.Board fault)) ↔ IsFaulty query.entry.board.now fault }
    ensures fault { IfErr result (IsUnknown false query.entry.unverified (Lacks (F.state folder.old).refusals (F.state folder.new).refusals) (F.state folder.old).stands query.entry.board.now (λ _. IsRefusedAt (F.state folder.old).stands)) }
{
    let text = query.board.as_bytes();
    if query.unverified {
        let OpenedFor { board, opened } = open_level_of(folder, text, false)?;
        let entry = entry(folder, opened.levels, &board)?;
        return Ok((board, entry));
    }
    let Asked { board, shelf } = ask_folder(rt, alloc, folder, text)?;
    let entry = shelf.entry(&board)?;
    Ok((board, entry))
}

/// Prints the entry of a board, and says whether the writer took it.
fn print_entry<W: Write>(board: &Board, entry: Entry, json: bool, writer: &mut W) -> bool
    ensures { result ≡ true → Appends (W.contents writer.old) (W.contents writer.new) (shown_entry json board.now entry) }
{
    if json {
        let line = entry_json(board, entry);
        return print_bytes(writer, line.as_slice());
    }
    print_bytes(writer, line_of_entry(entry).as_slice())
}

/// Prints the entry of a board as the levels in a folder have it, or the refusal; as a line, or as JSON with
/// the board. Levels are verified, which takes the memory that a load takes. Or files answer that nobody
/// verified, which takes memory for names alone.
pub fn run_ask<T: Threads + Sync, F: Folder, W: Remarks>(
    rt: &T,
    alloc: Global,
    folder: &mut F,
    query: AskQuery<'_>,
    writer: &mut W,
) -> u8
    ensures status { result ≤ 1 }
    ensures found { result ≡ 0 → PrintsEntry query.entry (F.state folder.old).stands (W.contents writer.old) (W.contents writer.new) }
    ensures same { Same (F.state folder.old).stands (F.state folder.new).stands }
{
    match look_up(rt, alloc, folder, query) {
        Ok((board, entry)) => status_of(print_entry(&board, entry, query.json, writer)),
        Err(fault) => refuse_as(writer, query.json, "ask", query.board, fault),
    }
}
