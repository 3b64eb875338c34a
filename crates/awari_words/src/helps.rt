//! What `awari --version` and `awari help` say. The help of a command is at most a screen of 24 lines,
//! but for `boards`, whose options alone are more.
//! docs/MANUAL.md has more of each, and docs/FORMATS.md the numbers of its refusals.

use awari_rank::MOST_STONES;

/// What `awari --version` says behind the program's name.
pub const VERSION: &str = "0.1.0, levels 0 to 24";

const _: () = prove!(MOST_STONES == 24);

pub const AWARI_HELP: &str = "\
The status is 0 if it is done, 1 if something was refused, and 2 if no command
was understood. docs/MANUAL.md shows each command by an example.";

/// What stands above the options of owners.
pub const STUDY: &str = "To study the method; it is slower";

pub const CHECK_HELP: &str = "\
The input has a block of lines for each level 0, 1, 2 and so on, in order:

    level N limit K    the stones on each board, the greatest distance
    V P D              for each board, in order of rank: its value, a pit
                       to play (0 to 5, or - for none), its distance

It prints one line:

    yes levels M limit K         all M levels are right; K is their limit
    no level L rank R rule Vx    this board is the first that is not right,
                                 and this is the first rule that it breaks
    refused N Name ..            the input is no such text

The status is 0 for a yes, and 1 otherwise. docs/FORMATS.md has the form and
the rules, and `man awari` all refusals.";

pub const MOVE_HELP: &str = "\
BOARD is the stones in the mover's pits 0 to 5 and, after a slash, in the
opponent's pits 6 to 11. It prints one line:

    BOARD C           the board after the move, as the other player sees it,
                      and the stones captured
    refused N Name    BOARD is no board, or PIT may not be played

The status is 0 for a move, and 1 for a refusal. `man awari` lists them.";

pub const JUDGE_HELP: &str = "\
The moves are played from the board: a digit each, in any number of words, so
the pits of `awari line` can be pasted. Any other byte, also a space in a word,
is refused as 4 NoPit. It prints four lines, or a refusal alone:

    board BOARD    the board then, as the player to move sees it
    running R      the stones that the first mover captured less the second's
    quiet Q        the plies since the last capture, or since the start
    outcome X      what the play has come to for the first mover, or `none`

LIMIT is at most 4294967295. The status is 0, or 1 for a refusal, as `refused 5
EmptyPit at 2` of the second move. `man awari` lists them, and docs/RULES.md
says when a play has an outcome.";

pub const BUILD_HELP: &str = "\
A line for each level, the lowest first: S boards, of which the mover wins A,
holds B even and loses C, and the greatest distance K. A folder's levels are
verified first, and no file is replaced. docs/MANUAL.md has more of all this.

    level L boards S won A even B lost C limit K";

pub const VERIFY_HELP: &str = "\
It prints a line for each level, and one for them all; or a refusal alone:

    level L ok limit K    the level is right; K is its greatest distance
    levels M digest H     there are M levels; H is the SHA-256 that the last
                          one's file ends in, zeros for none
    refused N Name ..     of the first file that is at fault

The status is 0, or 1 for a refusal. A folder that is not there is an empty one,
so a script says what it wants: `awari verify FOLDER --levels TOP --digest HEX`.
If the folder has something else, the status is 1, and the error stream says so.
`man awari` lists the refusals, and docs/FORMATS.md has the form of the files.";

pub const TEXT_HELP: &str = "\
It prints the levels of the folder as text, in order; with LEVEL that one alone:

    level L limit K    for each level: its greatest distance K, and then
    V P D              for each board, by rank: its value, a pit to play (0 to
                       5, or - if the play has ended), and its distance

The levels are verified first, so `awari text FOLDER | awari check` says yes. It
does not with --boards. The status is 0, or 1 for a refusal, as `refused 59
NotYet levels M` if the folder has only levels 0 to M - 1. `man awari` lists
them.";

pub const MIGRATE_HELP: &str = "\
FROM is only read, and TO has to be there. Each level is verified by the rules
of its file's version: one of version 1 then gets the least distances, and as
plans the lowest pits that serve; one of version 2 stays as it is. It prints:

    level L limit OLD to NEW    the greatest distance before, and now
    levels M digest H           there are M levels; H is the SHA-256 that the
                                last one's new file ends in, zeros for none

or a refusal alone; the files that were written before it stand. A FROM that is
not there is an empty one. The status is 0, or 1 for a refusal. `man awari`
lists them.";

pub const ASK_HELP: &str = "\
It prints `V P D`: the value of the board for its mover, a pit to play (0 to 5,
or - if the play has ended), and the distance. The levels of the folder are
verified first, so the answer is right. With --json it is an object with the
members board, value, plan and distance; a refusal has request, refused and
name.

The status is 0, or 1 for a refusal, as `refused 59 NotYet levels M` if the
folder has only levels 0 to M - 1. `man awari` lists them.";

pub const MOVES_HELP: &str = "\
It prints a line for each pit that the mover may play, the lowest first:

    pit P captures C value V distance D

V is the stones that the move captures, C, less the value of the board left. A
capture or the end comes within D plies, if the side that is ahead follows
the plans. The plan's line ends in ` plan`. If the play has ended, it prints
`ended G`, what the mover gains by that. With --replies ` replies R keep K`
follows D: of R legal moves of the board left, K gain what it is worth. The
status is 0, or 1 for a refusal. `man awari` lists them.";

pub const LINE_HELP: &str = "\
It prints `value V`, `moves P P ..`, `outcome X`, and X is V: both play their
plans to the end, or until more plies captured nothing than any level's limit.
A lost board's plan is the lowest pit that keeps V, not the most stubborn one.
With --longest the losing side holds out to a capture or the end: `value V`,
`distance D`, D `moves`. With --plies there is a line for each ply, R being the
first mover's lead and B the board then. With --json all are objects.

    ply N pit P captures C running R board B value V distance D
    repeats M    the last, if value 0 comes back to the board after ply M";

pub const SERVE_HELP: &str = "\
A thread builds the levels above the folder's up to TOP, saves none, and has its
refusal printed last; with --unverified none is built. Each line is answered:

    ask BOARD      `V P D`, as `awari help ask` says, `not yet M`, or a refusal
    moves BOARD    as `awari help moves` says, and an empty line; or as of `ask`
    replies BOARD  the same, with --replies
    probe BOARD    one line, as `awari moves --json` prints it
    seen           `seen M`: the last answers went by levels 0 to M - 1
    quit           `bye`, and nothing after it is answered; other lines: `what`

It ends at `quit` or with the input. examples/ask_many.py asks many boards.";

pub const RANK_HELP: &str = "\
It prints `L R`: the board has L stones, and R is its rank among the boards with
L stones. These are numbered from 0 on, in lexicographic order of their pits 0
to 11. `awari board L R` gives the board back.

The status is 0, or 1 for a refusal, as `refused 59 NotYet levels 25` if the
board has more than 24 stones. `man awari` lists them.";

pub const BOARD_HELP: &str = "\
It prints the board: the one of LEVEL stones with this number. The boards of as
many stones are numbered from 0 on, in lexicographic order of their pits.

The status is 0, or 1 for a refusal. There is no level above 24, as `refused 59
NotYet levels 25` says; `refused 93 NoRank boards N` says that the level has
only the numbers 0 to N - 1. `man awari` lists all refusals.";

pub const PLAYS_HELP: &str = "\
It prints one line, of all plays that have PLIES plies, each ply a legal move:

    plays N captures C ends E

There are N such plays. The last ply of C of them captures, and after E of them
the play has ended. A play that has ended sooner has fewer plies, so it counts
in none of these. From the board at the start, 4,4,4,4,4,4/4,4,4,4,4,4, there
are 6 plays of one ply, 36 of two and 1014 of four: docs/RULES.md has more, by
which programs can compare their rules.

Each ply takes some five times as long, and four times the memory. The status is
0, or 1 for a refusal, as `refused 94 Overflow` if N is 2^64 or more.
`man awari` lists them.";

pub const COUNTS_HELP: &str = "\
It prints a line for each level, the lowest first, as build does. With LEVEL it
prints this level's line, and then how many boards have each value and distance:

    level L boards S won A even B lost C limit K
    value V boards N                or `distance D boards N`
    value 3 distance 5 boards 12    pairs, with LEVEL and --by value,distance

--by takes two unlike columns of `boards --sort` but rank, else `refused 96
Column`; - is none. --csv prints the tables of docs/FORMATS.md.";

pub const BOARDS_HELP: &str = "\
It prints a line for each board that matches all options, by rank:

    BOARD V P D    the board, its value, a pit to play or -, and its distance

COLUMN is rank, waits, or an option of A..B but side; a - before it puts the
greatest first. Another is `refused 96 Column`. A.. and ..B have one end; A is
one number. The levels are verified first. The status is 0, or 1 for a refusal,
as `refused 95 Span`: see `man awari`.";
