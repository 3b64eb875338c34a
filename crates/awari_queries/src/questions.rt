//! What is asked of the levels in a folder, in words. `boards` has a file of its own.

/// How a folder is verified.
#[derive(Clone, Copy)]
pub struct VerifyQuery<'a> {
    /// The folder is to have just the levels 0 to this one.
    pub levels: Option<u8>,
    /// The last level's file is to have this digest, in hexadecimal digits of either case.
    pub digest: Option<&'a str>,
    /// Whether the error stream is told of each level once it is found right.
    pub progress: bool,
}

/// Which levels are printed as text.
#[derive(Clone, Copy)]
pub struct TextQuery {
    /// The one level that is asked for, if not all are.
    pub level: Option<u8>,
    /// Whether each line has its board.
    pub boards: bool,
}

/// What is asked of a board's entry.
#[derive(Clone, Copy)]
pub struct AskQuery<'a> {
    /// The text of the board.
    pub board: &'a str,
    /// Whether the answer is JSON.
    pub json: bool,
    /// Whether files answer that nobody verified.
    pub unverified: bool,
}

/// What is asked of a board's moves.
#[derive(Clone, Copy)]
pub struct MovesQuery<'a> {
    /// The text of the board.
    pub board: &'a str,
    /// Whether the replies to each move are asked for too.
    pub replies: bool,
    /// Whether the answer is JSON.
    pub json: bool,
    /// Whether files answer that nobody verified.
    pub unverified: bool,
}

/// Which line of play from a board is asked for.
#[derive(Clone, Copy)]
pub struct LineQuery<'a> {
    /// The text of the board.
    pub board: &'a str,
    /// Whether one side holds out. If not, both follow the plans.
    pub longest: bool,
    /// Whether each ply is told.
    pub plies: bool,
    /// Whether the answer is JSON.
    pub json: bool,
    /// Whether files answer that nobody verified.
    pub unverified: bool,
}

/// How a service answers, and what is built beside it.
#[derive(Clone, Copy)]
pub struct ServeQuery {
    /// The highest level that is built, by verified levels.
    pub top: u8,
    /// How many owners build a level; 0 if all processors do it together.
    pub owners: u8,
    /// Whether files answer that nobody verified.
    pub unverified: bool,
}

/// What is asked of levels in numbers.
#[derive(Clone, Copy)]
pub struct CountsQuery<'a> {
    /// The one level that is asked for, if not all are.
    pub level: Option<u8>,
    /// Two columns with a comma between them, if boards are counted by these.
    pub by: Option<&'a str>,
    /// Lines of JSON.
    pub json: bool,
    /// Lines of CSV below a header, unless JSON is asked for.
    pub csv: bool,
    /// Whether files answer that nobody verified.
    pub unverified: bool,
}
