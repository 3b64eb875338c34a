//! What is told to a program in another language, as numbers.

ghost use Rattle.std.specs.Prelude.{◌≡◌, ◌<◌, ℕ, length, min, slice_index_or, sum};
ghost use Rattle.awari_exports.specs.declared.answers.PlainMove.{PlainMove as AMove};
ghost use Rattle.awari_table.specs.Images.{table_of};
ghost use Rattle.awari_file.specs.FileText.{plan_byte};
ghost use Rattle.awari_folder.specs.declared.faults.FolderFault.TheVariants.{Verify};
ghost use Rattle.awari_exports.specs.Told.{rule_number, told_entry, told_fault, told_worth, no_move, TellsMove};

use awari_board::Board;
use awari_folder::FolderFault;
use awari_play::{MoveWorth, worth_of};
use awari_table::{Entry, Shelf};
use awari_verify::{Rule, VerifyFault};

/// The board's level is not there: the number of `NotYet`.
pub(crate) const NOT_YET: u8 = 59;

/// The level has fewer boards: the number of `NoRank`.
pub(crate) const NO_RANK: u8 = 93;

/// What the levels say of a board.
#[repr(C)]
#[derive(Clone, Copy, Debug, Default, PartialEq, Eq)]
pub struct PlainEntry {
    /// The best difference in stones that the mover can still gain.
    pub value: i8,
    /// The pit to play, 0 to 5, or 255 if the play has ended.
    pub plan: u8,
    /// The plies within which a capture or the end of play comes.
    pub distance: u32,
}

/// What the levels say of a pit.
#[repr(C)]
#[derive(Clone, Copy, Debug, Default, PartialEq, Eq)]
pub struct PlainMove {
    /// Whether the pit can be played. If not, the other fields are 0.
    pub legal: bool,
    /// The stones that the move captures.
    pub captures: u8,
    /// What the mover gains, in stones.
    pub value: i16,
    /// The plies within which a capture or the end comes, 0 if no side is favoured. The greatest u32
    /// stands for more.
    pub distance: u32,
}

/// What is wrong with the file of a level, beside the number of the refusal.
#[repr(C)]
#[derive(Clone, Copy, Debug, Default, PartialEq, Eq)]
pub struct PlainFault {
    /// The level that the file was to be of.
    pub level: u8,
    /// The number of the fault of the file, 60 to 67, or of the level, 20 to 22; 0 for none.
    pub inner: u8,
    /// The rule that a board breaks, 1 to 7; 0 for none.
    pub rule: u8,
    /// The rank of that board.
    pub rank: u32,
}

// The structs of `bindings/awari.h` have the same sizes.
const _: () = prove!(size_of::<PlainEntry>() == 8);

const _: () = prove!(size_of::<PlainMove>() == 8);

const _: () = prove!(size_of::<PlainFault>() == 8);

/// The entry as numbers.
pub(crate) fn told_entry(entry: Entry) -> PlainEntry
    ensures { result ≡ told_entry entry }
{
    PlainEntry {
        value: entry.value,
        plan: plan_byte(entry.plan),
        distance: entry.dist,
    }
}

/// The pit, 255 for none.
fn plan_byte(plan: Option<u8>) -> u8
    ensures { result ≡ plan_byte plan }
{
    match plan {
        Some(pit) => pit,
        None => 255,
    }
}

/// The number of a rule.
fn rule_number(rule: Rule) -> u8
    ensures { result ≡ rule_number rule }
{
    match rule {
        Rule::V1 => 1,
        Rule::V2 => 2,
        Rule::V3 => 3,
        Rule::V4 => 4,
        Rule::V5 => 5,
        Rule::V6 => 6,
        Rule::V7 => 7,
    }
}

/// The fault as numbers.
pub(crate) fn told_fault(fault: FolderFault) -> PlainFault
    ensures { result ≡ told_fault fault }
{
    match fault {
        FolderFault::File { level, fault } => PlainFault {
            level,
            inner: fault.number(),
            rule: 0,
            rank: 0,
        },
        FolderFault::Verify { level, fault } => told_refusal(level, fault),
        FolderFault::Below { level }
        | FolderFault::Open { level }
        | FolderFault::Occupied { level }
        | FolderFault::Old { level } => PlainFault {
            level,
            inner: 0,
            rule: 0,
            rank: 0,
        },
        FolderFault::Memory => PlainFault {
            level: 0,
            inner: 0,
            rule: 0,
            rank: 0,
        },
    }
}

/// What is wrong with a level, as numbers.
fn told_refusal(level: u8, fault: VerifyFault) -> PlainFault
    ensures { result ≡ told_fault (Verify level fault) }
{
    let inner = fault.number();
    match fault {
        VerifyFault::Refused { rank, rule } => PlainFault {
            level,
            inner,
            rule: rule_number(rule),
            rank,
        },
        _ => PlainFault {
            level,
            inner,
            rule: 0,
            rank: 0,
        },
    }
}

/// What the six pits of a board are worth. Condition: the board's level is on the shelf.
pub(crate) fn told_moves(shelf: &Shelf, board: &Board) -> [PlainMove; 6]
    requires known { sum board.now < length shelf.now }
    ensures { (pit : ℕ) (d : AMove) → pit < 6 → TellsMove (table_of shelf.now) board.now pit (slice_index_or result pit d) }
{
    [
        told_move(shelf, board, 0),
        told_move(shelf, board, 1),
        told_move(shelf, board, 2),
        told_move(shelf, board, 3),
        told_move(shelf, board, 4),
        told_move(shelf, board, 5),
    ]
}

/// What a pit of a board is worth. Condition: the board's level is on the shelf.
fn told_move(shelf: &Shelf, board: &Board, pit: u8) -> PlainMove
    requires known { sum board.now < length shelf.now }
    ensures { TellsMove (table_of shelf.now) board.now pit result }
{
    if !board.legal(pit) {
        return no_move();
    }
    told_worth(worth_of(shelf, board, pit))
}

/// What is told of a pit that can't be played.
pub(crate) fn no_move() -> PlainMove
    ensures { result ≡ no_move }
{
    PlainMove {
        legal: false,
        captures: 0,
        value: 0,
        distance: 0,
    }
}

/// The worth of a legal pit as numbers.
pub(crate) fn told_worth(worth: MoveWorth) -> PlainMove
    ensures { result ≡ told_worth worth }
{
    PlainMove {
        legal: true,
        captures: worth.captured,
        value: worth.value,
        distance: at_most_u32(worth.plies),
    }
}

/// The number, or the greatest u32 if that is less.
fn at_most_u32(plies: u64) -> u32
    ensures { result ≡ min plies 4294967295 }
{
    match u32::try_from(plies) {
        Ok(plies) => plies,
        Err(_) => u32::MAX,
    }
}
