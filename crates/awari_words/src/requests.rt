//! The words that the program understands.

ghost use Rattle.std.specs.Prelude.{◌≡◌, ◌⊎◌, ◌↔◌, IfOk, IfSome, IsNone, IsTrue, codes, map, option_map};
ghost use Rattle.clap.specs.Kinds.{FailsBy};
ghost use Rattle.clap.specs.Faults.{fault_of};
ghost use Rattle.clap.specs.Simple.{subcommand_of, subcommand_rows_of};
ghost use Rattle.clap.specs.Walk.{all_of, first_of, texts};
ghost use Rattle.awari_words.specs.Commands.{awari_commands};
ghost use Rattle.awari_words.specs.Requests.{
  GivesNoDigest,
  IsAsked,
  IsBoardsQueryOf,
  IsDigest,
  IsFlagOf,
  IsNoBoardsQuery,
  IsNoPace,
  IsNoRequest,
  IsPaceOf,
  IsRequestOf,
  Lacks,
  Spells,
  SpellsNone,
  values,
};

use crate::making::commands;
use awari_pace::Pace;
use awari_queries::{
    Added, AskQuery, BoardSpans, BoardsQuery, CountsQuery, LineQuery, MovesQuery, ServeQuery,
    TextQuery, VerifyQuery,
};
use clap::{ArgMatches, Error};
use std::alloc::Global;
use std::convert::AsStr;

/// What the words ask for.
#[derive(Clone, Copy)]
pub enum Request<'m, 'a> {
    /// `check`: whether the tables on standard input are right.
    Check,
    /// `move BOARD PIT`: the board after a move.
    Move {
        board: &'a str,
        pit: u8,
    },
    /// `judge BOARD LIMIT [MOVES]..`: where a play stands. The moves are the bytes of all these words, if
    /// there are any.
    Judge {
        board: &'a str,
        limit: u32,
        moves: Option<&'m [&'a str]>,
    },
    /// `build TOP [--folder FOLDER] [--progress] [--estimate] [--threads N] [--owners W] [--room R]
    /// [--sweeps S]`: the levels up to this one, or what they take.
    Build(BuildQuery<'a>),
    /// `migrate FROM TO`: the levels of a folder brought over into another one.
    Migrate {
        from: &'a str,
        to: &'a str,
    },
    /// `rank BOARD`: a board's number in its level.
    Rank {
        board: &'a str,
    },
    /// `board LEVEL RANK`: the board of a number.
    Board {
        level: u8,
        rank: u32,
    },
    /// `plays BOARD PLIES`: how many plays of a length there are.
    Plays {
        board: &'a str,
        plies: u8,
    },
    /// A question about the levels in one folder, which stays as it is.
    Read {
        folder: &'a str,
        question: Question<'a>,
    },
}

/// Which levels are built, and how.
#[derive(Clone, Copy)]
pub struct BuildQuery<'a> {
    /// The highest of them.
    pub top: u8,
    /// The name of the folder in which they are built, if one is named.
    pub folder: Option<&'a str>,
    /// How many threads build a level without owners; as many as there are processors if it is not said.
    pub threads: Option<u8>,
    /// How many owners build a level, and how they share the work.
    pub pace: Pace,
    /// Whether the error stream is told how far it is.
    pub progress: bool,
    /// Whether nothing is built, and the error stream is told what it would take.
    pub estimate: bool,
}

/// What is asked of the levels in a folder.
#[derive(Clone, Copy)]
pub enum Question<'a> {
    /// `verify FOLDER [--levels TOP] [--digest HEX] [--progress]`: whether they are right.
    Verify(VerifyQuery<'a>),
    /// `text FOLDER [LEVEL] [--boards]`: their text, or that of one.
    Text(TextQuery),
    /// `ask FOLDER BOARD [--json] [--unverified]`: the entry of a board.
    Ask(AskQuery<'a>),
    /// `moves FOLDER BOARD [--replies] [--json] [--unverified]`: what each legal move of a board is worth.
    Moves(MovesQuery<'a>),
    /// `line FOLDER BOARD [--longest] [--plies] [--json] [--unverified]`: the play from a board in which
    /// both sides follow the plans, or one side holds out.
    Line(LineQuery<'a>),
    /// `serve FOLDER [TOP [OWNERS]] [--unverified]`: the answers to lines, while levels are built if the
    /// folder's are verified.
    Serve(ServeQuery),
    /// `counts FOLDER [LEVEL] [--by COLUMN,COLUMN] [--csv] [--json] [--unverified]`: the levels in numbers,
    /// or one.
    Counts(CountsQuery<'a>),
    /// `boards FOLDER LEVEL [--value A..B] [--distance A..B] [--plan A..B] [--captures A..B]
    /// [--greedy A..B] [--side A..B] [--moves A..B] [--keep A..B] [--trap A..B] [--other A..B] [--waits] [--ended] [--open]
    /// [--farthest] [--every K] [--random N] [--seed N] [--sort [-]COLUMN] [--most N] [--with-moves]
    /// [--with-keep] [--with-greedy] [--with-trap] [--with-other] [--with-waits] [--count] [--csv] [--json]
    /// [--unverified]`: the boards of a level.
    Boards(BoardsQuery<'a>),
}

/// What `clap` makes of the words. The first word is the program's own name. The error has the text of
/// `clap`, also for `--help`. It takes memory.
pub fn understand<'a, S: AsStr>(alloc: Global, words: &'a [S]) -> Result<ArgMatches<'a>, Error>
    // They name a command, and give these values to it.
    ensures understood { IfOk result (λ given. subcommand_rows_of given ≡ subcommand_of awari_commands (map S.text words.entry.now)) }

    // Words are refused for their first fault. Only if they have none are they refused for want of
    // memory.
    ensures faults { FailsBy (fault_of awari_commands (map S.text words.entry.now)) result }
{
    let matches = commands(alloc)?.try_get_matches_from(words)?;
    Ok(matches)
}

/// What the words ask for that `clap` understood. `None` comes if a digest has not 64 digits, of which
/// `clap` knows nothing. Else it comes only if `clap` lets words through that the program does not offer: no
/// command of its own, or one without the values that it needs.
pub fn request_of<'m, 'a: 'm>(matches: &'m ArgMatches<'a>) -> Option<Request<'m, 'a>>
    // The request is that of the command that the words name, with the values that they give.
    ensures { IsAsked (subcommand_rows_of matches.now) result }
{
    match matches.subcommand() {
        Some((name, given)) => requested(name, given),
        None => None,
    }
}

fn requested<'m, 'a: 'm>(name: &str, given: &'m ArgMatches<'a>) -> Option<Request<'m, 'a>>
    ensures asked { IfSome result (IsRequestOf name.now (values given.now)) }
    ensures none { IsNone result → IsNoRequest name.now (values given.now) }
{
    match name {
        "check" => Some(Request::Check),
        "move" => move_request(given),
        "judge" => judge_request(given),
        "build" => build_request(given),
        "verify" => verify_request(given),
        "text" => text_request(given),
        "migrate" => migrate_request(given),
        "ask" => ask_request(given),
        "moves" => moves_request(given),
        "line" => line_request(given),
        "serve" => serve_request(given),
        "rank" => rank_request(given),
        "board" => board_request(given),
        "plays" => plays_request(given),
        "counts" => counts_request(given),
        "boards" => boards_request(given),
        _ => None,
    }
}

fn move_request<'m, 'a: 'm>(given: &'m ArgMatches<'a>) -> Option<Request<'m, 'a>>
    ensures asked { IfSome result (IsRequestOf (codes "move") (values given.now)) }
    ensures none { IsNone result → Lacks (values given.now) (codes "BOARD") ⊎ SpellsNone 8 (values given.now) (codes "PIT") }
{
    Some(Request::Move {
        board: text(given, "BOARD")?,
        pit: byte(given, "PIT")?,
    })
}

fn judge_request<'m, 'a: 'm>(given: &'m ArgMatches<'a>) -> Option<Request<'m, 'a>>
    ensures asked { IfSome result (IsRequestOf (codes "judge") (values given.now)) }
    ensures none { IsNone result → Lacks (values given.now) (codes "BOARD") ⊎ SpellsNone 32 (values given.now) (codes "LIMIT") }
{
    Some(Request::Judge {
        board: text(given, "BOARD")?,
        limit: number(given, "LIMIT")?,
        moves: texts(given, "MOVES"),
    })
}

fn build_request<'m, 'a: 'm>(given: &'m ArgMatches<'a>) -> Option<Request<'m, 'a>>
    ensures asked { IfSome result (IsRequestOf (codes "build") (values given.now)) }
    ensures none { IsNone result → SpellsNone 8 (values given.now) (codes "TOP") ⊎ IsNoPace (values given.now) }
{
    Some(Request::Build(BuildQuery {
        top: byte(given, "TOP")?,
        folder: text(given, "folder"),
        threads: byte(given, "threads"),
        pace: pace_of(given)?,
        progress: flag(given, "progress"),
        estimate: flag(given, "estimate"),
    }))
}

fn verify_request<'m, 'a: 'm>(given: &'m ArgMatches<'a>) -> Option<Request<'m, 'a>>
    ensures asked { IfSome result (IsRequestOf (codes "verify") (values given.now)) }
    ensures none { IsNone result → Lacks (values given.now) (codes "FOLDER") ⊎ GivesNoDigest (values given.now) }
{
    let folder = text(given, "FOLDER")?;
    let digest = text(given, "digest");
    match digest {
        Some(digits) if !is_digest(digits.as_bytes()) => return None,
        _ => {}
    }
    Some(Request::Read {
        folder,
        question: Question::Verify(VerifyQuery {
            levels: byte(given, "levels"),
            digest,
            progress: flag(given, "progress"),
        }),
    })
}

/// Whether the text is a digest: 64 hexadecimal digits, in either case.
fn is_digest(text: &[u8]) -> bool
    ensures { IsTrue result ↔ IsDigest text.now }
{
    text.len() == 64 && text.iter().all(|digit| digit.is_ascii_hexdigit())
}

fn text_request<'m, 'a: 'm>(given: &'m ArgMatches<'a>) -> Option<Request<'m, 'a>>
    ensures asked { IfSome result (IsRequestOf (codes "text") (values given.now)) }
    ensures none { IsNone result → Lacks (values given.now) (codes "FOLDER") }
{
    Some(Request::Read {
        folder: text(given, "FOLDER")?,
        question: Question::Text(TextQuery {
            level: byte(given, "LEVEL"),
            boards: flag(given, "boards"),
        }),
    })
}

fn migrate_request<'m, 'a: 'm>(given: &'m ArgMatches<'a>) -> Option<Request<'m, 'a>>
    ensures asked { IfSome result (IsRequestOf (codes "migrate") (values given.now)) }
    ensures none { IsNone result → Lacks (values given.now) (codes "FROM") ⊎ Lacks (values given.now) (codes "TO") }
{
    Some(Request::Migrate {
        from: text(given, "FROM")?,
        to: text(given, "TO")?,
    })
}

fn ask_request<'m, 'a: 'm>(given: &'m ArgMatches<'a>) -> Option<Request<'m, 'a>>
    ensures asked { IfSome result (IsRequestOf (codes "ask") (values given.now)) }
    ensures none { IsNone result → Lacks (values given.now) (codes "FOLDER") ⊎ Lacks (values given.now) (codes "BOARD") }
{
    Some(Request::Read {
        folder: text(given, "FOLDER")?,
        question: Question::Ask(AskQuery {
            board: text(given, "BOARD")?,
            json: flag(given, "json"),
            unverified: flag(given, "unverified"),
        }),
    })
}

fn moves_request<'m, 'a: 'm>(given: &'m ArgMatches<'a>) -> Option<Request<'m, 'a>>
    ensures asked { IfSome result (IsRequestOf (codes "moves") (values given.now)) }
    ensures none { IsNone result → Lacks (values given.now) (codes "FOLDER") ⊎ Lacks (values given.now) (codes "BOARD") }
{
    Some(Request::Read {
        folder: text(given, "FOLDER")?,
        question: Question::Moves(MovesQuery {
            board: text(given, "BOARD")?,
            replies: flag(given, "replies"),
            json: flag(given, "json"),
            unverified: flag(given, "unverified"),
        }),
    })
}

fn line_request<'m, 'a: 'm>(given: &'m ArgMatches<'a>) -> Option<Request<'m, 'a>>
    ensures asked { IfSome result (IsRequestOf (codes "line") (values given.now)) }
    ensures none { IsNone result → Lacks (values given.now) (codes "FOLDER") ⊎ Lacks (values given.now) (codes "BOARD") }
{
    Some(Request::Read {
        folder: text(given, "FOLDER")?,
        question: Question::Line(LineQuery {
            board: text(given, "BOARD")?,
            longest: flag(given, "longest"),
            plies: flag(given, "plies"),
            json: flag(given, "json"),
            unverified: flag(given, "unverified"),
        }),
    })
}

fn serve_request<'m, 'a: 'm>(given: &'m ArgMatches<'a>) -> Option<Request<'m, 'a>>
    ensures asked { IfSome result (IsRequestOf (codes "serve") (values given.now)) }
    ensures none { IsNone result → Lacks (values given.now) (codes "FOLDER") ⊎ SpellsNone 8 (values given.now) (codes "TOP") ⊎ SpellsNone 8 (values given.now) (codes "OWNERS") }
{
    Some(Request::Read {
        folder: text(given, "FOLDER")?,
        question: Question::Serve(ServeQuery {
            top: byte(given, "TOP")?,
            owners: byte(given, "OWNERS")?,
            unverified: flag(given, "unverified"),
        }),
    })
}

fn rank_request<'m, 'a: 'm>(given: &'m ArgMatches<'a>) -> Option<Request<'m, 'a>>
    ensures asked { IfSome result (IsRequestOf (codes "rank") (values given.now)) }
    ensures none { IsNone result → Lacks (values given.now) (codes "BOARD") }
{
    Some(Request::Rank {
        board: text(given, "BOARD")?,
    })
}

fn board_request<'m, 'a: 'm>(given: &'m ArgMatches<'a>) -> Option<Request<'m, 'a>>
    ensures asked { IfSome result (IsRequestOf (codes "board") (values given.now)) }
    ensures none { IsNone result → SpellsNone 8 (values given.now) (codes "LEVEL") ⊎ SpellsNone 32 (values given.now) (codes "RANK") }
{
    Some(Request::Board {
        level: byte(given, "LEVEL")?,
        rank: number(given, "RANK")?,
    })
}

fn plays_request<'m, 'a: 'm>(given: &'m ArgMatches<'a>) -> Option<Request<'m, 'a>>
    ensures asked { IfSome result (IsRequestOf (codes "plays") (values given.now)) }
    ensures none { IsNone result → Lacks (values given.now) (codes "BOARD") ⊎ SpellsNone 8 (values given.now) (codes "PLIES") }
{
    Some(Request::Plays {
        board: text(given, "BOARD")?,
        plies: byte(given, "PLIES")?,
    })
}

fn counts_request<'m, 'a: 'm>(given: &'m ArgMatches<'a>) -> Option<Request<'m, 'a>>
    ensures asked { IfSome result (IsRequestOf (codes "counts") (values given.now)) }
    ensures none { IsNone result → Lacks (values given.now) (codes "FOLDER") }
{
    Some(Request::Read {
        folder: text(given, "FOLDER")?,
        question: Question::Counts(CountsQuery {
            level: byte(given, "LEVEL"),
            by: text(given, "by"),
            json: flag(given, "json"),
            csv: flag(given, "csv"),
            unverified: flag(given, "unverified"),
        }),
    })
}

fn boards_request<'m, 'a: 'm>(given: &'m ArgMatches<'a>) -> Option<Request<'m, 'a>>
    ensures asked { IfSome result (IsRequestOf (codes "boards") (values given.now)) }
    ensures none { IsNone result → Lacks (values given.now) (codes "FOLDER") ⊎ IsNoBoardsQuery (values given.now) }
{
    Some(Request::Read {
        folder: text(given, "FOLDER")?,
        question: Question::Boards(boards_query_of(given)?),
    })
}

/// What is asked of the boards of a level.
fn boards_query_of<'a>(given: &ArgMatches<'a>) -> Option<BoardsQuery<'a>>
    ensures asked { IfSome result (IsBoardsQueryOf (values given.now)) }
    ensures none { IsNone result → IsNoBoardsQuery (values given.now) }
{
    Some(BoardsQuery {
        level: byte(given, "LEVEL")?,
        spans: BoardSpans {
            value: text(given, "value"),
            distance: text(given, "distance"),
            plan: text(given, "plan"),
            captures: text(given, "captures"),
            greedy: text(given, "greedy"),
            side: text(given, "side"),
            moves: text(given, "moves"),
            keep: text(given, "keep"),
            trap: text(given, "trap"),
            other: text(given, "other"),
        },
        waits: flag(given, "waits"),
        ended: flag(given, "ended"),
        running: flag(given, "open"),
        farthest: flag(given, "farthest"),
        every: number(given, "every")?,
        random: number(given, "random")?,
        seed: number(given, "seed")?,
        sort: text(given, "sort"),
        most: number(given, "most")?,
        added: Added {
            moves: flag(given, "with-moves"),
            keep: flag(given, "with-keep"),
            greedy: flag(given, "with-greedy"),
            trap: flag(given, "with-trap"),
            other: flag(given, "with-other"),
            waits: flag(given, "with-waits"),
        },
        count: flag(given, "count"),
        json: flag(given, "json"),
        csv: flag(given, "csv"),
        unverified: flag(given, "unverified"),
    })
}

/// The pace of a build.
fn pace_of(given: &ArgMatches<'_>) -> Option<Pace>
    ensures asked { IfSome result (IsPaceOf (values given.now)) }
    ensures none { IsNone result → IsNoPace (values given.now) }
{
    Some(Pace {
        owners: byte(given, "owners")?,
        room: number(given, "room")?,
        sweeps: number(given, "sweeps")?,
    })
}

/// The value of this name, as it was written.
fn text<'a>(given: &ArgMatches<'a>, name: &str) -> Option<&'a str>
    ensures { option_map (λ s. s.now) result ≡ first_of name.now (values given.now) }
{
    given.get_str(name)
}

/// All values of this name, as they were written, if there are any.
fn texts<'m, 'a: 'm>(given: &'m ArgMatches<'a>, name: &str) -> Option<&'m [&'a str]>
    ensures { option_map (λ s. texts s.now) result ≡ all_of name.now (values given.now) }
{
    given.get_strs(name)
}

/// Whether the flag of this name was given.
fn flag(given: &ArgMatches<'_>, name: &str) -> bool
    ensures { IsFlagOf (values given.now) name.now result }
{
    given.get_flag(name)
}

/// The value of this name, if it spells a number below 2^8.
fn byte(given: &ArgMatches<'_>, name: &str) -> Option<u8>
    ensures some { IfSome result (Spells (values given.now) name.now) }
    ensures none { IsNone result → SpellsNone 8 (values given.now) name.now }
{
    given.get_one(name)
}

/// The value of this name, if it spells a number below 2^32.
fn number(given: &ArgMatches<'_>, name: &str) -> Option<u32>
    ensures some { IfSome result (Spells (values given.now) name.now) }
    ensures none { IsNone result → SpellsNone 32 (values given.now) name.now }
{
    given.get_one(name)
}
