//! The text of tables, written.

ghost use Rattle.std.specs.Prelude.{◌≡◌, ◌≤◌, ◌+◌, ◌*◌, ◌++◌, All, length, take, drop, OnOk, OnErr};
ghost use Rattle.awari_rank.specs.Rank.{size_of};
ghost use Rattle.std.specs.List.{flat_map};
ghost use Rattle.std.specs.Io.KnownBytes.{Appends};
ghost use Rattle.arrayvec.specs.ArrayVec.{array_vec_len};
ghost use Rattle.awari_streams.specs.Counted.{inner_of, faults_of, Grew};
ghost use Rattle.awari_streams.specs.declared.lines.TheConstants.{LINE_ROOM};
ghost use Rattle.awari_table.specs.Spelling.{plan_text, entry_line, header_line, block, table_text, FitsNumbers, IsImage, AreImages};

use crate::images::Entry;
use crate::levels::Level;
use crate::shelves::Shelf;
use arrayvec::ArrayVec;
use awari_rank::size;
use awari_streams::{Counted, TextLine, push_number, push_signed, push_text};
use std::io::{self, Write};

/// How many entries are spelled before they are written.
const BATCH: usize = 200;

/// Room for the lines of as many entries, of 23 bytes each.
const BATCH_ROOM: usize = 4600;

#[tactic(auto, using(awari_streams::proofs::Digits::three_digits))]
fn push_plan(line: &mut TextLine, plan: Option<u8>)
    requires { array_vec_len line.old + 3 ≤ LINE_ROOM }
    ensures items { line.new.items ≡ line.old.items ++ plan_text plan }
    ensures len { array_vec_len line.new ≤ array_vec_len line.old + 3 }
{
    match plan {
        None => line.push(b'-'),
        Some(pit) => push_number(line, u64::from(pit)),
    }
}

/// The line of an entry, with its line feed: value, plan and distance. It takes no memory.
#[tactic(auto, using(awari_streams::proofs::Digits::ten_digits))]
pub fn line_of_entry(entry: Entry) -> TextLine
    ensures items { result.items ≡ entry_line entry }
    ensures len { array_vec_len result ≤ 23 }
    ensures fits { FitsNumbers entry }
{
    let mut line = TextLine::new();
    push_signed(&mut line, i16::from(entry.value));
    line.push(b' ');
    push_plan(&mut line, entry.plan);
    line.push(b' ');
    push_number(&mut line, u64::from(entry.dist));
    line.push(b'\n');
    line
}

#[tactic(auto, using(awari_streams::proofs::Digits::three_digits, awari_streams::proofs::Digits::ten_digits))]
fn line_of_header(level: u8, limit: u32) -> TextLine
    ensures { result.items ≡ header_line level limit }
{
    let mut line = TextLine::new();
    push_text(&mut line, b"level ");
    push_number(&mut line, u64::from(level));
    push_text(&mut line, b" limit ");
    push_number(&mut line, u64::from(limit));
    line.push(b'\n');
    line
}

/// Puts the line of an entry behind others.
fn push_line(lines: &mut ArrayVec<u8, BATCH_ROOM>, entry: Entry)
    requires { array_vec_len lines.old + 23 ≤ BATCH_ROOM }
    ensures items { lines.new.items ≡ lines.old.items ++ entry_line entry }
    ensures len { array_vec_len lines.new ≤ array_vec_len lines.old + 23 }
    ensures fits { FitsNumbers entry }
{
    let Ok(()) = lines.try_extend_from_slice(line_of_entry(entry).as_slice()) else {
        unreachable!()
    };
}

/// Writes the lines of entries that fit a batch.
fn write_batch<W: Write>(entries: &[Entry], writer: &mut Counted<W>) -> io::Result<()>
    requires { length entries.now ≤ BATCH }
    ensures ok { OnOk result (Appends (W.contents (inner_of writer.old)) (W.contents (inner_of writer.new)) (flat_map entry_line entries.now)) }
    ensures fit { All FitsNumbers entries.now }
    ensures err { OnErr result (Grew (faults_of writer.old) (faults_of writer.new)) }
    ensures faults { faults_of writer.old ≤ faults_of writer.new }
{
    let mut lines = ArrayVec::<u8, BATCH_ROOM>::new();
    for entry in entries {
        push_line(&mut lines, *entry);
    }
    writer.write_all(lines.as_slice())
}

/// Writes the lines of this many entries of a level, from this rank on.
fn write_run<W: Write>(
    level: &Level,
    from: u32,
    count: u32,
    writer: &mut Counted<W>,
) -> io::Result<()>
    requires within { from + count ≤ size_of level.now.level }
    requires few { count ≤ BATCH }
    ensures ok { OnOk result (Appends (W.contents (inner_of writer.old)) (W.contents (inner_of writer.new)) (flat_map entry_line (take count (drop from level.now.entries)))) }
    ensures fit { All FitsNumbers (take count (drop from level.now.entries)) }
    ensures err { OnErr result (Grew (faults_of writer.old) (faults_of writer.new)) }
    ensures faults { faults_of writer.old ≤ faults_of writer.new }
{
    let mut batch = [Entry::NONE; BATCH];
    let run = &mut batch[..count as usize];
    level.copy_run(from, run);
    write_batch(run, writer)
}

/// Writes the lines of a level's entries, a batch at a time.
fn write_entries<W: Write>(level: &Level, writer: &mut Counted<W>) -> io::Result<()>
    ensures ok { OnOk result (Appends (W.contents (inner_of writer.old)) (W.contents (inner_of writer.new)) (flat_map entry_line level.now.entries)) }
    ensures fit { OnOk result (All FitsNumbers level.now.entries) }
    ensures err { OnErr result (Grew (faults_of writer.old) (faults_of writer.new)) }
    ensures faults { faults_of writer.old ≤ faults_of writer.new }
{
    let boards = size(level.number());
    let mut from = 0u32;
    while from < boards {
        let count = (boards - from).min(BATCH as u32);
        write_run(level, from, count, writer)?;
        from += count;
    }
    Ok(())
}

/// Writes the text of a level, which `TableText` reads as that level again: its header, and a line
/// for each entry. It takes no memory, and doesn't flush.
///
/// It is refused only if the writer answers a fault or takes no byte. Then nothing is known of what
/// the writer holds.
pub fn write_level_text<W: Write>(level: &Level, writer: &mut Counted<W>) -> io::Result<()>
    ensures written { OnOk result (Appends (W.contents (inner_of writer.old)) (W.contents (inner_of writer.new)) (block level.now)) }
    // What was written is the text of an image, which `TableText` reads.
    ensures image { OnOk result (IsImage level.now.level level.now) }
    ensures grew { OnErr result (Grew (faults_of writer.old) (faults_of writer.new)) }
    ensures faults { faults_of writer.old ≤ faults_of writer.new }
{
    writer.write_all(line_of_header(level.number(), level.limit()).as_slice())?;
    write_entries(level, writer)
}

/// Writes the text of the levels of a shelf. `check` of `awari_check` says yes to it. It takes no
/// memory, and doesn't flush.
///
/// It is refused only if the writer answers a fault or takes no byte. Then nothing is known of what
/// the writer holds.
pub fn write_shelf_text<W: Write>(shelf: &Shelf, writer: &mut Counted<W>) -> io::Result<()>
    ensures written { OnOk result (Appends (W.contents (inner_of writer.old)) (W.contents (inner_of writer.new)) (table_text shelf.now)) }
    ensures images { OnOk result (AreImages 0 shelf.now) }
    ensures grew { OnErr result (Grew (faults_of writer.old) (faults_of writer.new)) }
{
    for number in 0..shelf.levels() {
        write_level_text(shelf.level(number), writer)?;
    }
    Ok(())
}
