//! Questions about the levels in a folder of the host.

ghost use Rattle.std.specs.Prelude.{◌≡◌, ◌≤◌};
ghost use Rattle.awari_cli.specs.Done.{PrintsAnswer, PrintsNumbers};
ghost use Rattle.awari_host.specs.Hosts.{AllStay};
ghost use Rattle.awari_folder.specs.Contents.{Same};

use awari_answers::{Remarks, Streams, print};
use awari_board::Board;
use awari_boards::{run_ask, run_line, run_moves, run_serve_unverified};
use awari_builds::run_serve;
use awari_counts::{run_counts, run_pairs};
use awari_folder::Folder;
use awari_host::{Host, Purpose};
use awari_levels::{run_all_boards, run_boards, run_text, run_verify};
use awari_queries::CountsQuery;
use awari_rank::MOST_STONES;
use awari_words::Question;
use std::alloc::Global;
use std::io::{Read, Write};
use std::sync::Wait;
use std::thread::Threads;
use std::time::Clock;

/// To verify the levels up to this one takes a second by four threads.
const LONG_LEVEL: u8 = 16;

/// A question, and the name of the folder that it is about.
#[derive(Clone, Copy)]
pub(crate) struct Reading<'a> {
    pub(crate) folder: &'a str,
    pub(crate) question: Question<'a>,
}

/// Answers the question by the levels in the folder of this name.
pub(crate) fn run_reading<
    'a,
    T: Threads + Clock + Wait + Sync + Send + Clone + Drop + 'static,
    H: Host<'a>,
    R: Read,
    W: Remarks,
    E: Write,
>(rt: &T, alloc: Global, host: &mut H, reading: Reading<'a>, streams: &mut Streams<R, W, E>) -> u8
    ensures status { result ≤ 1 }
    ensures same { AllStay H.keeps (H.holds host.old) (H.holds host.new) }
    ensures answered { result ≡ 0 → PrintsAnswer reading.entry.question (H.holds host.old reading.entry.folder.now) (R.remaining streams.old.input)
        (W.contents streams.old.output) (W.contents streams.new.output) }
{
    let mut folder = host.open(reading.folder, Purpose::Read, &mut streams.errors);
    tell_verifying(reading, &mut streams.errors);
    let status = run_question(rt, alloc, &mut folder, reading.question, streams);
    host.tell(reading.folder, &folder, &mut streams.errors);
    host.close(reading.folder, folder);
    status
}

/// Answers the question by the levels in this folder.
fn run_question<
    T: Threads + Clock + Wait + Sync + Send + Clone + Drop + 'static,
    F: Folder,
    R: Read,
    W: Remarks,
    E: Write,
>(
    rt: &T,
    alloc: Global,
    folder: &mut F,
    question: Question<'_>,
    streams: &mut Streams<R, W, E>,
) -> u8
    ensures status { result ≤ 1 }
    ensures same { Same (F.state folder.old).stands (F.state folder.new).stands }
    ensures answered { result ≡ 0 → PrintsAnswer question.entry (F.state folder.old).stands (R.remaining streams.old.input)
        (W.contents streams.old.output) (W.contents streams.new.output) }
{
    let output = &mut streams.output;
    match question {
        Question::Verify(query) => run_verify(rt, alloc, folder, query, streams),
        Question::Text(query) if query.boards => {
            run_all_boards(rt, alloc, folder, query.level, output)
        }
        Question::Text(query) => run_text(rt, alloc, folder, query.level, output),
        Question::Ask(query) => run_ask(rt, alloc, folder, query, output),
        Question::Moves(query) => run_moves(rt, alloc, folder, query, output),
        Question::Line(query) => run_line(rt, alloc, folder, query, output),
        Question::Serve(query) if query.unverified => run_serve_unverified(folder, streams),
        Question::Serve(query) => run_serve(rt, alloc, folder, query, streams),
        Question::Counts(query) => run_numbers(rt, alloc, folder, query, output),
        Question::Boards(query) => run_boards(rt, alloc, folder, &query, output),
    }
}

/// Prints levels in numbers, or a level by two columns.
fn run_numbers<T: Threads + Sync, F: Folder, W: Remarks>(
    rt: &T,
    alloc: Global,
    folder: &mut F,
    query: CountsQuery<'_>,
    writer: &mut W,
) -> u8
    ensures status { result ≤ 1 }
    ensures same { Same (F.state folder.old).stands (F.state folder.new).stands }
    ensures printed { result ≡ 0 → PrintsNumbers query.entry.by query.entry (F.state folder.old).stands (W.contents writer.old) (W.contents writer.new) }
{
    match query.by {
        Some(_) => run_pairs(rt, alloc, folder, &query, writer),
        None => run_counts(rt, alloc, folder, query, writer),
    }
}

/// Says that nothing is verified, or that this takes longer than a second. There is nowhere to say that it
/// could not be written.
fn tell_verifying<E: Write>(reading: Reading<'_>, errors: &mut E) {
    let folder = reading.folder;
    if is_unverified(reading.question) {
        print(errors, &format_args!("{folder}: nothing is verified"));
    } else if let Some(level) = long_level(reading.question) {
        print(
            errors,
            &format_args!("{folder}: verifying levels 0 to {level}; --unverified answers at once"),
        );
    }
}

/// The level of the board that is asked for, if it takes longer than a second to verify the levels up to it.
fn long_level(question: Question<'_>) -> Option<u8> {
    let board = match question {
        Question::Ask(query) => query.board,
        Question::Moves(query) => query.board,
        Question::Line(query) => query.board,
        _ => return None,
    };
    let level = Board::parse(board.as_bytes()).ok()?.stones();
    if level < LONG_LEVEL || level > MOST_STONES {
        return None;
    }
    Some(level)
}

/// Whether the question is to be answered by what the files say, with nothing verified.
fn is_unverified(question: Question<'_>) -> bool {
    match question {
        Question::Verify(_) | Question::Text(_) => false,
        Question::Ask(query) => query.unverified,
        Question::Moves(query) => query.unverified,
        Question::Line(query) => query.unverified,
        Question::Serve(query) => query.unverified,
        Question::Counts(query) => query.unverified,
        Question::Boards(query) => query.unverified,
    }
}
