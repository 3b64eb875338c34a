//! One level of a table's text.

ghost use Rattle.std.specs.Prelude.{◌≡◌, ◌+◌, ◌<◌, ◌≤◌, ◌^◌, length, OnOk, IfOk, IsErrOf};
ghost use Rattle.awari_table.specs.Blocks.{Gives, line_fault, entries_at, block_at, IsOpened};

use crate::HIGHEST_LEVEL;
use crate::faults::TableFault;
use crate::images::{Entries, Entry, Image};
use crate::lines::{read_entry, read_header};
use awari_rank::size;
use std::alloc::Global;

/// The fault of bytes that do not begin with a line of the form that is due.
///
/// A line is looked at first, and its line feed is looked for only if the line is not of the form:
/// so what is right is gone over once.
fn fault_at(line: u64, text: &[u8]) -> TableFault
    ensures { result ≡ line_fault line text.now }
{
    if text.contains(&b'\n') {
        TableFault::Line { line }
    } else {
        TableFault::Short
    }
}

/// This many entries, and what follows them.
fn entries(
    alloc: Global,
    count: u32,
    line: u64,
    text: &[u8],
) -> Result<(Vec<Entry>, &[u8]), TableFault>
    requires { line + count < 2 ^ 64 }
    ensures exact { Gives (λ x. (x.0.items, x.1.now)) result (entries_at count line text.now) }
    ensures sized { IfOk result (λ x. length x.0.items ≡ count) }
{
    let mut entries = Vec::with_capacity(alloc, count as usize)?;
    let mut rest = text;
    for done in 0..count {
        match read_entry(rest) {
            Some((entry, after)) => {
                entries.push(entry).unwrap();
                rest = after;
            }
            None => return Err(fault_at(line + done as u64, rest)),
        }
    }
    Ok((entries, rest))
}

/// The level of this number, whose header is on this line, and what follows it.
#[tactic(auto, unfolding(crate::specs::Blocks::block_at))]
pub(crate) fn block(
    alloc: Global,
    next: u8,
    line: u64,
    text: &[u8],
) -> Result<(Image, &[u8]), TableFault>
    requires { line < 2 ^ 63 }
    ensures exact { Gives (λ x. (x.0, x.1.now)) result (block_at next line text.now) }
    ensures next { OnOk result (next ≤ HIGHEST_LEVEL) }
    ensures few { IfOk result (λ x. length x.0.entries < 2 ^ 32) }
    ensures memory { IsErrOf result TableFault.Memory → IsOpened next text.now }
{
    let Some((header, rest)) = read_header(text) else {
        return Err(fault_at(line, text));
    };
    if header.level > HIGHEST_LEVEL {
        return Err(TableFault::High { line });
    }
    if header.level != next {
        return Err(TableFault::Order { line });
    }
    let (entries, rest) = entries(alloc, size(next), line + 1, rest)?;
    let image = Image {
        level: next,
        limit: header.limit,
        entries: Entries::from(entries),
    };
    Ok((image, rest))
}
