//! The lines that tell of refusals.

ghost use Rattle.std.specs.Prelude.{◌≡◌, ◌≤◌, ◌+◌, ◌++◌, ◌∷◌, [], codes};
ghost use Rattle.arrayvec.specs.ArrayVec.{array_vec_len};
ghost use Rattle.awari_faults.specs.Refusals.{refusal_text, with_number, words_text};
ghost use Rattle.awari_folder.specs.FolderFault.{refusal_of};
ghost use Rattle.awari_boards.specs.Unsaid.{line_of};
ghost use Rattle.awari_verify.specs.VerifyFault.{reason_of as verify_reason_of};
ghost use Rattle.awari_verify.specs.declared.verdicts.VerifyFault.TheVariants as verify;

use crate::unsaid::Unsaid;
use awari_folder::FolderFault;
use awari_shown::push_reason;
use awari_streams::{TextLine, numbered_line, push_number, push_text};
use awari_verify::{Rule, VerifyFault};

/// The line that tells of it, with its line feed.
pub(crate) fn line_of_unsaid(unsaid: Unsaid) -> TextLine
    ensures { result.items ≡ line_of unsaid }
{
    match unsaid {
        Unsaid::NotYet { levels } => numbered_line(b"not yet ", levels),
        Unsaid::Folder { fault } => line_of_fault(fault),
    }
}

/// The line of a refusal.
fn line_of_fault(fault: FolderFault) -> TextLine
    ensures { result.items ≡ codes "refused " ++ refusal_text (refusal_of fault) ++ 10 ∷ [] }
{
    let mut line = TextLine::new();
    push_text(&mut line, b"refused ");
    push_fault(&mut line, fault);
    line.push(b'\n');
    line
}

/// The fault of a folder, and the fault inside it.
fn push_fault(line: &mut TextLine, fault: FolderFault)
    requires { array_vec_len line.old ≤ 8 }
    ensures items { line.new.items ≡ line.old.items ++ refusal_text (refusal_of fault) }
    ensures len { array_vec_len line.new ≤ array_vec_len line.old + 66 }
{
    let number = fault.number();
    match fault {
        FolderFault::Memory => push_reason(line, number),
        FolderFault::Below { level }
        | FolderFault::Open { level }
        | FolderFault::Occupied { level }
        | FolderFault::Old { level } => push_level(line, number, level),
        FolderFault::File { level, fault } => {
            push_level(line, number, level);
            push_text(line, b": ");
            push_reason(line, fault.number());
        }
        FolderFault::Verify { level, fault } => {
            push_level(line, number, level);
            push_text(line, b": ");
            push_verify(line, fault);
        }
    }
}

/// A fault that names a level.
#[tactic(auto, using(awari_streams::proofs::Digits::three_digits))]
fn push_level(line: &mut TextLine, number: u8, level: u8)
    requires { array_vec_len line.old ≤ 8 }
    ensures items { line.new.items ≡ line.old.items ++ words_text (with_number number (codes "level") level) }
    ensures len { array_vec_len line.new ≤ array_vec_len line.old + 29 }
{
    push_reason(line, number);
    push_text(line, b" level ");
    push_number(line, u64::from(level));
}

/// Why a level is not right.
fn push_verify(line: &mut TextLine, fault: VerifyFault)
    requires { array_vec_len line.old ≤ 39 }
    ensures items { line.new.items ≡ line.old.items ++ words_text (verify_reason_of fault) }
    ensures len { array_vec_len line.new ≤ array_vec_len line.old + 35 }
{
    match fault {
        VerifyFault::Refused { rank, rule } => push_broken(line, rank, rule),
        VerifyFault::WrongLevel | VerifyFault::WrongSize | VerifyFault::Memory => {
            push_reason(line, fault.number());
        }
    }
}

/// A board that breaks a rule.
#[tactic(auto, using(awari_streams::proofs::Digits::ten_digits, crate::proofs::Names::refused_len))]
fn push_broken(line: &mut TextLine, rank: u32, rule: Rule)
    requires { array_vec_len line.old ≤ 39 }
    ensures items { line.new.items ≡ line.old.items ++ words_text (verify_reason_of (verify.Refused rank rule)) }
    ensures len { array_vec_len line.new ≤ array_vec_len line.old + 35 }
{
    push_reason(line, VerifyFault::Refused { rank, rule }.number());
    push_text(line, b" rank ");
    push_number(line, u64::from(rank));
    push_text(line, b" rule ");
    push_text(line, rule.name().as_bytes());
}
