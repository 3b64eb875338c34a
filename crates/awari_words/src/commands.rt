//! The commands in one table: the words of each, and what its help says. `specs/Commands.antt` reads the
//! table as `clap` does, and `making` makes the program of it.

use crate::helps::{
    ASK_HELP, BOARD_HELP, BOARDS_HELP, BUILD_HELP, CHECK_HELP, COUNTS_HELP, JUDGE_HELP, LINE_HELP,
    MIGRATE_HELP, MOVE_HELP, MOVES_HELP, PLAYS_HELP, RANK_HELP, SERVE_HELP, TEXT_HELP, VERIFY_HELP,
};
use Kind::{Defaulted, Flag, Many, Needed, Optional, OrZero, Short, Study, Valued};
use Values::{AnyText, Between, Name, U8, U32};
use awari_pace::{MOST_OWNERS, MOST_ROOM, MOST_SWEEPS};
use awari_rank::MOST_STONES;

/// The type of a text of the table. The structs below have it as a parameter, since definitions can't cite a
/// constant of a struct whose own fields are references.
pub(crate) type Text = &'static str;

/// The words of a command, in the order in which its help has them.
pub(crate) type Words = &'static [Word<Text>];

/// A command.
#[derive(Clone, Copy)]
pub(crate) struct CommandRow<T, W> {
    pub(crate) name: T,
    /// What it does, in a line.
    pub(crate) about: T,
    /// The end of its help.
    pub(crate) help: T,
    pub(crate) words: W,
}

/// A word of a command: its name, its kind, and what help says of it.
#[derive(Clone, Copy)]
pub(crate) struct Word<T>(pub(crate) T, pub(crate) Kind<T>, pub(crate) T);

/// How a word is written. What help calls the value of an option comes first.
#[derive(Clone, Copy)]
pub(crate) enum Kind<T> {
    /// A word that has to be there.
    Needed(Values),
    /// A word that may be left out.
    Optional(Values),
    /// The same, which is 0 where it is not given.
    OrZero(Values),
    /// Any number of words of any text.
    Many,
    /// The flag `--name`.
    Flag,
    /// The option `--name VALUE`.
    Valued(T, Values),
    /// The same, or `-c VALUE` with this letter.
    Short(char, T, Values),
    /// The option, with the text that it has where it is not given.
    Defaulted(T, Values, T),
    /// The same, under a heading of its own.
    Study(T, Values, T),
}

/// What a value may be.
#[derive(Clone, Copy)]
pub(crate) enum Values {
    /// Any text.
    AnyText,
    /// A text that is not empty.
    Name,
    /// A number below 2^8.
    U8,
    /// A number below 2^32.
    U32,
    /// A number from the first to the second.
    Between(u64, u64),
}

/// The most threads that may be asked for.
const MOST_THREADS: u64 = 64;

/// The most that an option of a number takes.
const MOST: u64 = u32::MAX as u64;

const LEVELS: Values = Between(0, MOST_STONES as u64);

const OWNERS: Values = Between(0, MOST_OWNERS as u64);

const FOLDER: Word<Text> = Word(
    "FOLDER",
    Needed(Name),
    "A folder with the files level_00.awdb, level_01.awdb and so on",
);

const BOARD: Word<Text> = Word(
    "BOARD",
    Needed(AnyText),
    "The stones in the pits, as 0,0,0,0,0,1/1,0,0,0,0,0",
);

const LEVEL: Word<Text> = Word(
    "LEVEL",
    Optional(LEVELS),
    "The one level to tell of, 0 to 24; without it all are",
);

const PROGRESS: Word<Text> = Word("progress", Flag, "Print on the error stream how far it is");

const JSON: Word<Text> = Word("json", Flag, "Print JSON, an object a line");

const CSV: Word<Text> = Word("csv", Flag, "Print CSV, below the names of its columns");

const UNVERIFIED: Word<Text> = Word(
    "unverified",
    Flag,
    "Answer at once by what files say, and verify nothing",
);

/// The option of a span.
const SPAN: Kind<Text> = Valued("A..B", AnyText);

/// The option of a number, which is 0 where it is not given.
const NUMBER: Kind<Text> = Defaulted("N", Between(0, MOST), "0");

/// All commands, in the order in which `awari help` has them.
pub(crate) const COMMANDS: [CommandRow<Text, Words>; 16] = [
    CommandRow {
        name: "check",
        about: "Checks tables from standard input",
        help: CHECK_HELP,
        words: &[],
    },
    CommandRow {
        name: "move",
        about: "Plays a move, and prints the board after it",
        help: MOVE_HELP,
        words: &[BOARD, Word("PIT", Needed(U8), "The pit to play, 0 to 255")],
    },
    CommandRow {
        name: "judge",
        about: "Plays moves, and prints how the play stands",
        help: JUDGE_HELP,
        words: &[
            BOARD,
            Word(
                "LIMIT",
                Needed(U32),
                "The plies without a capture that are not yet an outcome",
            ),
            Word(
                "MOVES",
                Many,
                "The pits played, a digit each, as 502 or 5 0 2",
            ),
        ],
    },
    CommandRow {
        name: "build",
        about: "Builds levels, and prints a line for each",
        help: BUILD_HELP,
        words: &[
            Word("TOP", Needed(LEVELS), "The highest level to build, 0 to 24"),
            Word(
                "folder",
                Short('f', "FOLDER", Name),
                "Begin above this folder's levels, and save each there",
            ),
            PROGRESS,
            Word(
                "estimate",
                Flag,
                "Build nothing, and tell what it would take",
            ),
            Word(
                "threads",
                Short('j', "N", Between(1, MOST_THREADS)),
                "Threads that build a level without owners, 1 to 64",
            ),
            Word(
                "owners",
                Study("W", OWNERS, "0"),
                "Owners that share out a level, 0 to 16",
            ),
            Word(
                "room",
                Study("R", Between(1, MOST_ROOM as u64), "64"),
                "Batches that a ring holds, 1 to 256",
            ),
            Word(
                "sweeps",
                Study("S", Between(1, MOST_SWEEPS as u64), "1000"),
                "The most sweeps in a round, 1 to 1000",
            ),
        ],
    },
    CommandRow {
        name: "verify",
        about: "Verifies the levels in a folder",
        help: VERIFY_HELP,
        words: &[
            FOLDER,
            Word(
                "levels",
                Valued("TOP", LEVELS),
                "Require just levels 0 to TOP, none missing and none above",
            ),
            Word(
                "digest",
                Valued("HEX", AnyText),
                "Require this digest of the last file, of 64 digits",
            ),
            PROGRESS,
        ],
    },
    CommandRow {
        name: "text",
        about: "Prints the levels of a folder as the text that check reads",
        help: TEXT_HELP,
        words: &[
            FOLDER,
            LEVEL,
            Word(
                "boards",
                Flag,
                "Put each board before its line, and leave out the headers",
            ),
        ],
    },
    CommandRow {
        name: "migrate",
        about: "Converts older files, into another folder",
        help: MIGRATE_HELP,
        words: &[
            Word(
                "FROM",
                Needed(Name),
                "A folder with the files level_00.awdb and so on, which is only read",
            ),
            Word(
                "TO",
                Needed(Name),
                "The folder that the new files are written into",
            ),
        ],
    },
    CommandRow {
        name: "ask",
        about: "Looks a board up in the levels of a folder",
        help: ASK_HELP,
        words: &[FOLDER, BOARD, JSON, UNVERIFIED],
    },
    CommandRow {
        name: "moves",
        about: "Says what each legal move of a board is worth",
        help: MOVES_HELP,
        words: &[
            FOLDER,
            BOARD,
            Word("replies", Flag, "Add the replies that each move leaves"),
            JSON,
            UNVERIFIED,
        ],
    },
    CommandRow {
        name: "line",
        about: "Plays the plans of both sides, from a board to the outcome",
        help: LINE_HELP,
        words: &[
            FOLDER,
            BOARD,
            Word(
                "longest",
                Flag,
                "Let the losing side hold out as long as it can",
            ),
            Word("plies", Flag, "Print a line for each ply"),
            JSON,
            UNVERIFIED,
        ],
    },
    CommandRow {
        name: "serve",
        about: "Answers lines on standard input while levels are built",
        help: SERVE_HELP,
        words: &[
            FOLDER,
            Word(
                "TOP",
                OrZero(LEVELS),
                "The highest level to build meanwhile, 0 to 24",
            ),
            Word(
                "OWNERS",
                OrZero(OWNERS),
                "Owners of a level, 0 to 16; 0 for all threads together",
            ),
            UNVERIFIED,
        ],
    },
    CommandRow {
        name: "rank",
        about: "Prints the rank of a board in its level",
        help: RANK_HELP,
        words: &[BOARD],
    },
    CommandRow {
        name: "board",
        about: "Prints the board of this rank in a level",
        help: BOARD_HELP,
        words: &[
            Word("LEVEL", Needed(U8), "The stones on the board, 0 to 24"),
            Word("RANK", Needed(U32), "The number of the board, from 0 on"),
        ],
    },
    CommandRow {
        name: "plays",
        about: "Counts the plays of PLIES plies from a board",
        help: PLAYS_HELP,
        words: &[
            BOARD,
            Word("PLIES", Needed(U8), "The length of the plays, 0 to 255"),
        ],
    },
    CommandRow {
        name: "counts",
        about: "Counts the won, even and lost boards of each level",
        help: COUNTS_HELP,
        words: &[
            FOLDER,
            LEVEL,
            Word(
                "by",
                Valued("COLUMN,COLUMN", AnyText),
                "Count the boards of each pair of numbers",
            ),
            CSV,
            JSON,
            UNVERIFIED,
        ],
    },
    CommandRow {
        name: "boards",
        about: "Prints the boards of a level that match all options",
        help: BOARDS_HELP,
        words: &[
            FOLDER,
            Word("LEVEL", Needed(LEVELS), "The stones on each board, 0 to 24"),
            Word("value", SPAN, "Boards of these values, as --value -3..2"),
            Word(
                "distance",
                SPAN,
                "Boards of these distances, as --distance 5..9",
            ),
            Word(
                "plan",
                SPAN,
                "Boards whose plan is one of these pits, as --plan 0",
            ),
            Word("captures", SPAN, "Boards whose plan captures A to B stones"),
            Word(
                "greedy",
                SPAN,
                "Boards whose largest capture is of A to B stones",
            ),
            Word(
                "side",
                SPAN,
                "Boards with A to B stones on the mover's side",
            ),
            Word("moves", SPAN, "Boards with A to B legal moves"),
            Word("keep", SPAN, "Boards with A to B moves that keep the value"),
            Word(
                "trap",
                SPAN,
                "Boards whose largest capture loses A to B stones",
            ),
            Word(
                "other",
                SPAN,
                "Boards of these values if the opponent were to move",
            ),
            Word(
                "waits",
                Flag,
                "Zugzwang: open boards on which waiting is worth more",
            ),
            Word("ended", Flag, "Boards that have ended"),
            Word("open", Flag, "Boards that have not ended"),
            Word("farthest", Flag, "Of these, those of the greatest distance"),
            Word(
                "every",
                Defaulted("K", Between(1, MOST), "1"),
                "Each K-th of these",
            ),
            Word("random", NUMBER, "N of these, drawn by chance; 0 is all"),
            Word("seed", NUMBER, "The number that decides which are drawn"),
            Word(
                "sort",
                Valued("COLUMN", AnyText),
                "Sort by it; -COLUMN for the greatest first",
            ),
            Word("most", NUMBER, "The first N of these; 0 is all"),
            Word("with-moves", Flag, "Add the number of legal moves"),
            Word("with-keep", Flag, "Add how many of them keep the value"),
            Word("with-greedy", Flag, "Add the stones of the largest capture"),
            Word("with-trap", Flag, "Add the stones that it loses"),
            Word(
                "with-other",
                Flag,
                "Add the value if the opponent were to move",
            ),
            Word("with-waits", Flag, "Add the stones that zugzwang costs"),
            Word("count", Flag, "Print how many these are, and no board"),
            CSV,
            JSON,
            UNVERIFIED,
        ],
    },
];
