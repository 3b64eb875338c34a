//! Refusals in a line of the service.

ghost use Rattle.std.specs.Prelude.{◌≡◌, ◌≤◌, ◌+◌, ◌++◌, length};
ghost use Rattle.arrayvec.specs.ArrayVec.{array_vec_len};
ghost use Rattle.awari_faults.specs.Meanings.{name_of};
ghost use Rattle.awari_faults.specs.Refusals.{alone, words_text};

use awari_faults::name_of;
use awari_streams::{TextLine, push_number, push_text};

/// Puts a fault without fields at the end of a line: its number, and its name. Condition: the line has room for 19
/// bytes. It takes no memory.
#[tactic(auto, using(awari_streams::proofs::Digits::three_digits))]
pub fn push_reason(line: &mut TextLine, number: u8)
    requires { array_vec_len line.old ≤ 61 }
    ensures items { line.new.items ≡ line.old.items ++ words_text (alone number) }
    ensures len { array_vec_len line.new ≤ array_vec_len line.old + 19 }
    ensures own { array_vec_len line.new ≤ array_vec_len line.old + (4 + length (name_of number)) }
{
    push_number(line, u64::from(number));
    push_text(line, b" ");
    push_text(line, name_of(number).as_bytes());
}
