//! What the error stream says of a level that breaks a rule: which board does, where its entry stands, and
//! what the rule asks. It is said beside a refusal, and nothing is promised of it.

ghost use Rattle.std.specs.Prelude.{◌≡◌, ◌≢◌, ◌≤◌, ◌*◌, ◌^◌, ◌↔◌, ◌++◌, ◌∷◌, [], IsSome, IfSome, codes, min, sum};
ghost use Rattle.awari_answers.specs.Broken.{HasBoard, asked_text, entry_line, limit_byte, limit_line, lines_below};
ghost use Rattle.awari_board.specs.Rules.{IsBoard};
ghost use Rattle.awari_file.specs.FileText.{entry_place};
ghost use Rattle.awari_folder.specs.FolderFault.{refusal_of};
ghost use Rattle.awari_faults.specs.Refusals.{refusal_text};
ghost use Rattle.awari_rank.specs.Rank.{rank_of};
ghost use Rattle.awari_streams.specs.Counted.{AppendsFront};
ghost use Rattle.awari_table.specs.declared.TheConstants.{HIGHEST_LEVEL};

use crate::printing::{Refused, print, print_line};
use crate::remarking::Explained;
use awari_board::Board;
use awari_check::{Answer, CheckFault};
use awari_faults::{Reason, Refusal};
use awari_file::entry_place;
use awari_folder::FolderFault;
use awari_rank::{size, unrank};
use awari_table::HIGHEST_LEVEL;
use awari_verify::{Rule, VerifyFault};
use std::fmt;
use std::io::Write;

/// The byte of a level's file at which its limit begins.
const LIMIT_PLACE: u64 = 16;

/// Writes the refusal of a folder, and gives the status 1. It says what the fault means, and which board
/// of the levels breaks a rule, if that is the fault.
pub fn refuse_folder<W: Write, E: Write>(writer: &mut W, errors: &mut E, fault: FolderFault) -> u8
    ensures status { result ≡ 1 }
    ensures told { AppendsFront (W.contents writer.old) (W.contents writer.new) (codes "refused " ++ refusal_text (refusal_of fault) ++ 10 ∷ []) }
{
    let refusal = fault.refusal();
    print_line(writer, &Refused(refusal));
    // There is nowhere to say that this could not be written.
    print(errors, &Explained(refusal));
    if let FolderFault::Verify {
        level,
        fault: VerifyFault::Refused { rank, rule },
    } = fault
    {
        let place = Place::Byte(byte_of(rank, rule));
        tell_broken(errors, level, rank, rule, place);
    }
    1
}

/// Says which board of a text's levels breaks a rule, if that is the answer, or what a refusal means.
pub fn tell_answer<E: Write>(errors: &mut E, answer: Answer) {
    match answer {
        Answer::Yes { .. } => {}
        Answer::Fault { fault } => tell_check_fault(errors, fault),
        Answer::Read => explain(errors, Reason::alone(14)),
    }
}

fn tell_check_fault<E: Write>(errors: &mut E, fault: CheckFault) {
    match fault {
        CheckFault::Verify {
            level,
            fault: VerifyFault::Refused { rank, rule },
        } => {
            let place = Place::Line(line_of(level, rank, rule));
            tell_broken(errors, level, rank, rule, place);
        }
        CheckFault::Verify { fault, .. } => explain(errors, fault.reason()),
        CheckFault::Table { fault } => explain(errors, fault.reason()),
    }
}

/// Says what a fault means.
fn explain<E: Write>(errors: &mut E, reason: Reason) {
    // There is nowhere to say that this could not be written.
    print(errors, &Explained(Refusal::alone(reason)));
}

fn tell_broken<E: Write>(errors: &mut E, level: u8, rank: u32, rule: Rule, place: Place) {
    // There is nowhere to say that this could not be written.
    match board_of(level, rank, rule) {
        Some(board) => print(errors, &format_args!("level {level}: {board}, {place}")),
        None => print(errors, &format_args!("level {level}: its limit, {place}")),
    };
    print(errors, &format_args!("{rule} asks that {}", asked_by(rule)));
}

/// Where a text or a file says what is wrong.
#[derive(Clone, Copy)]
enum Place {
    Line(u64),
    Byte(u64),
}

impl fmt::Display for Place {
    fn fmt<W: fmt::Write>(&self, f: &mut fmt::Formatter<W>) -> fmt::Result {
        match *self {
            Place::Line(number) => write!(f, "in line {number} of the text"),
            Place::Byte(number) => write!(f, "at byte {number} of its file"),
        }
    }
}

/// The board that breaks the rule. There is none for V7, which is broken by the level's limit, and none of
/// a rank that the level does not have.
fn board_of(level: u8, rank: u32, rule: Rule) -> Option<Board>
    ensures found { IsSome result ↔ HasBoard level rank rule }
    ensures board { IfSome result (λ board. IsBoard board × (sum board ≡ level) × (rank_of board ≡ rank)) }
{
    if rule == Rule::V7 || level > HIGHEST_LEVEL || rank >= size(level) {
        return None;
    }
    Some(unrank(level, rank))
}

/// The byte of a level's file at which the entry begins, or the limit for V7.
fn byte_of(rank: u32, rule: Rule) -> u64
    ensures limit { rule ≡ Rule.V7 → result ≡ limit_byte }
    ensures entry { rule ≢ Rule.V7 → result ≡ entry_place rank }
{
    if rule == Rule::V7 {
        LIMIT_PLACE
    } else {
        entry_place(rank)
    }
}

/// The line of the text in which the entry stands, or the limit for V7. No level is above the highest.
fn line_of(level: u8, rank: u32, rule: Rule) -> u64
    ensures limit { rule ≡ Rule.V7 → result ≡ limit_line (min level HIGHEST_LEVEL) }
    ensures entry { rule ≢ Rule.V7 → result ≡ entry_line (min level HIGHEST_LEVEL) rank }
{
    let line = 1 + lines_below(level.min(HIGHEST_LEVEL));
    if rule == Rule::V7 {
        line
    } else {
        line + 1 + u64::from(rank)
    }
}

/// How many lines the text of the levels below this one has. Each level has one before its entries.
fn lines_below(level: u8) -> u64
    requires { level ≤ HIGHEST_LEVEL }
    ensures lines { result ≡ lines_below level }
    ensures few { result ≤ level * 2 ^ 33 }
{
    let mut lines: u64 = 0;
    for below in 0..level {
        lines += 1 + u64::from(size(below));
    }
    lines
}

/// What the rule asks, as the end of a sentence.
fn asked_by(rule: Rule) -> &'static str
    ensures { result.now ≡ asked_text rule }
{
    match rule {
        Rule::V1 => "a value is from -N to N for N stones, and a plan none or 0 to 5",
        Rule::V2 => {
            "if play has ended, the value is the mover's gain, the plan none, the distance 0"
        }
        Rule::V3 => "if play has not ended, the plan is a legal pit",
        Rule::V4 => "no legal move gains more than the value",
        Rule::V5 => "the plan gains the value",
        Rule::V6 => {
            "the distance is the least, and a won board's plan captures or leads to a smaller one"
        }
        Rule::V7 => "the limit is the greatest distance of the level",
    }
}
