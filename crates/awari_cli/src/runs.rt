//! The commands of the program, over its words, its streams and the folders of a host.

ghost use Rattle.std.specs.Prelude.{◌≡◌, ◌≢◌, ◌≤◌, [], Some, map};
ghost use Rattle.std.specs.Io.KnownBytes.{Keeps};
ghost use Rattle.awari_check.specs.Answer.{PrintsYes};
ghost use Rattle.awari_cli.specs.Done.{LeavesFolders, PrintsFor, WritesInto};
ghost use Rattle.awari_host.specs.Hosts.{AllStay};
ghost use Rattle.awari_boards.specs.Judgement.{PrintsJudgement, bytes_of};
ghost use Rattle.awari_boards.specs.Playing.{PrintsMove};
ghost use Rattle.awari_words.specs.Commands.{awari_commands};
ghost use Rattle.awari_words.specs.Requests.{IsAsked};
ghost use Rattle.awari_words.specs.declared.requests.Request.{Request as ARequest};
ghost use Rattle.clap.specs.Faults.{fault_of};
ghost use Rattle.clap.specs.Simple.{subcommand_of, subcommand_rows_of};

use crate::reading::{Reading, run_reading};
use crate::writing::{Migration, run_build_asked, run_estimate, run_migration};
use awari_answers::{Remarks, Streams, print, refuse, status_of, tell_answer};
use awari_boards::{Played, judge, play_on, run_board, run_plays, run_rank};
use awari_check::check_input;
use awari_host::Host;
use awari_streams::Counted;
use awari_words::{Request, request_of, understand};
use clap::ArgMatches;
use std::alloc::Global;
use std::convert::AsStr;
use std::io::{Read, Write};
use std::sync::Wait;
use std::thread::Threads;
use std::time::Clock;

/// What is told of a digest that has not 64 digits, as `clap` tells of another value.
const NO_DIGEST: &str = "\
error: the value of '--digest <HEX>' is not 64 hexadecimal digits

For more information, try '--help'.";

/// Runs the command that the words name, over the folders of the host. The first word is the program's
/// own name. What the command prints goes to the output, and the text of `clap` to the errors. It takes
/// memory for the words, and for what the commands read and build; want of it is a refusal.
///
/// It gives the status that the program ends with:
///
/// - 0: it is done.
/// - 1: it was refused, or the output gave a fault.
/// - 2: the words were not understood, or asked for help.
pub fn run<
    'a,
    T: Threads + Clock + Wait + Sync + Send + Clone + Drop + 'static,
    H: Host<'a>,
    S: AsStr,
    R: Read,
    W: Remarks,
    E: Write + Send,
>(rt: &T, alloc: Global, host: &mut H, words: &'a [S], streams: &mut Streams<R, W, E>) -> u8
    ensures status { result ≤ 2 }

    // Unless it ends with 2, the words name a request, and have no fault. If it ends with 0, what is
    // printed is due for that request, by what is known of the folders that it names. A yes is said only
    // of tables that are right, a move or a judgement only of a right play, and a level, an entry, a
    // move's worth, a line of play or an answer only of right levels.
    ensures understood { result ≢ 2 → fault_of awari_commands (map S.text words.entry.now) ≡ [] }
    ensures done { result ≢ 2 → (request : ARequest) × IsAsked (subcommand_of awari_commands (map S.text words.entry.now)) (Some request)
        × LeavesFolders H.keeps (WritesInto request) (H.holds host.old) (H.holds host.new)
        × (result ≡ 0 → PrintsFor H.keeps request (H.holds host.old) (H.holds host.new) (R.remaining streams.old.input)
        (W.contents streams.old.output) (W.contents streams.new.output)) }

    // If the words were not understood, nothing is printed, and no folder is touched.
    ensures nothing { result ≡ 2 → Keeps (W.contents streams.old.output) (W.contents streams.new.output) × AllStay H.keeps (H.holds host.old) (H.holds host.new) }
{
    match understand(alloc, words) {
        Ok(matches) => run_understood(rt, alloc, host, &matches, streams),
        Err(error) => {
            // There is nowhere to say that this could not be written.
            let _ = write!(streams.errors, "{error}");
            2
        }
    }
}

/// Runs what the words ask for that `clap` understood.
fn run_understood<
    'a,
    T: Threads + Clock + Wait + Sync + Send + Clone + Drop + 'static,
    H: Host<'a>,
    R: Read,
    W: Remarks,
    E: Write + Send,
>(
    rt: &T,
    alloc: Global,
    host: &mut H,
    matches: &ArgMatches<'a>,
    streams: &mut Streams<R, W, E>,
) -> u8
    ensures status { result ≤ 2 }
    ensures done { result ≢ 2 → (request : ARequest) × IsAsked (subcommand_rows_of matches.now) (Some request)
        × LeavesFolders H.keeps (WritesInto request) (H.holds host.old) (H.holds host.new)
        × (result ≡ 0 → PrintsFor H.keeps request (H.holds host.old) (H.holds host.new) (R.remaining streams.old.input)
        (W.contents streams.old.output) (W.contents streams.new.output)) }
    ensures nothing { result ≡ 2 → Keeps (W.contents streams.old.output) (W.contents streams.new.output) × AllStay H.keeps (H.holds host.old) (H.holds host.new) }
    ensures unasked { result ≡ 2 → IsAsked (subcommand_rows_of matches.now) None }
{
    match request_of(matches) {
        Some(request) => run_request(rt, alloc, host, request, streams),
        // `clap` lets all else through only if it is a request.
        None => {
            // There is nowhere to say that this could not be written.
            print(&mut streams.errors, &NO_DIGEST);
            2
        }
    }
}

fn run_request<
    'a,
    T: Threads + Clock + Wait + Sync + Send + Clone + Drop + 'static,
    H: Host<'a>,
    R: Read,
    W: Remarks,
    E: Write + Send,
>(
    rt: &T,
    alloc: Global,
    host: &mut H,
    request: Request<'_, 'a>,
    streams: &mut Streams<R, W, E>,
) -> u8
    ensures status { result ≤ 1 }
    ensures leaves { LeavesFolders H.keeps (WritesInto request.entry) (H.holds host.old) (H.holds host.new) }
    ensures done { result ≡ 0 → PrintsFor H.keeps request.entry (H.holds host.old) (H.holds host.new) (R.remaining streams.old.input)
        (W.contents streams.old.output) (W.contents streams.new.output) }
{
    match request {
        Request::Check => run_check(
            alloc,
            &mut streams.input,
            &mut streams.output,
            &mut streams.errors,
        ),
        Request::Move { board, pit } => run_move(board, pit, &mut streams.output),
        Request::Judge {
            board,
            limit,
            moves,
        } => run_judge(board, limit, moves.unwrap_or(&[]), &mut streams.output),
        Request::Rank { board } => run_rank(board, &mut streams.output),
        Request::Board { level, rank } => run_board(level, rank, &mut streams.output),
        Request::Plays { board, plies } => run_plays(alloc, board, plies, &mut streams.output),
        Request::Build(query) if query.estimate => {
            run_estimate(host, query, &mut streams.output, &mut streams.errors)
        }
        Request::Build(query) => run_build_asked(rt, alloc, host, query, streams),
        Request::Migrate { from, to } => {
            run_migration(alloc, host, Migration { from, to }, streams)
        }
        Request::Read { folder, question } => {
            run_reading(rt, alloc, host, Reading { folder, question }, streams)
        }
    }
}

/// Prints the answer for what the reader has left. If a board is at fault, `errors` is told which.
fn run_check<R: Read, W: Write, E: Write>(
    alloc: Global,
    reader: &mut R,
    writer: &mut W,
    errors: &mut E,
) -> u8
    ensures status { result ≤ 1 }
    ensures yes { result ≡ 0 → PrintsYes (R.remaining reader.old) (W.contents writer.old) (W.contents writer.new) }
{
    let answer = check_input(alloc, &mut Counted::new(reader));
    if print(writer, &answer) {
        tell_answer(errors, answer);
        answer.status()
    } else {
        1
    }
}

/// Prints the board after a move.
fn run_move<W: Remarks>(board: &str, pit: u8, writer: &mut W) -> u8
    ensures status { result ≤ 1 }
    ensures played { result ≡ 0 → PrintsMove board.now pit (W.contents writer.old) (W.contents writer.new) }
{
    match play_on(board.as_bytes(), pit) {
        Ok(moved) => status_of(print(writer, &Played(moved))),
        Err(fault) => refuse(writer, fault.refusal()),
    }
}

/// Prints where a play stands.
fn run_judge<W: Remarks>(board: &str, limit: u32, moves: &[&str], writer: &mut W) -> u8
    ensures status { result ≤ 1 }
    ensures judged { result ≡ 0 → PrintsJudgement board.now limit (bytes_of moves.now) (W.contents writer.old) (W.contents writer.new) }
{
    match judge(board.as_bytes(), limit, moves) {
        Ok(judgement) => status_of(print(writer, &judgement)),
        Err(fault) => refuse(writer, fault.refusal()),
    }
}
