//! A level in blocks of one length, before any gain is open.

ghost use Rattle.std.specs.Prelude.{◌≡◌, ℕ, ◌+◌, ◌*◌, ◌<◌, ◌≤◌, min, IfOk, length};
ghost use Rattle.awari_rank.specs.Rank.{size_of};
ghost use Rattle.awari_table.specs.Images.{table_of};
ghost use Rattle.awari_table.specs.declared.TheConstants.{HIGHEST_LEVEL};
ghost use Rattle.awari_scan.specs.Scan.{IsScannedPart};
ghost use Rattle.awari_segments.specs.Segments.{AreScannedSegments};

use crate::segments::Segment;
use awari_index::Index;
use awari_rank::size;
use awari_scan::scanned_cells;
use awari_table::Shelf;
use std::alloc::{AllocError, Global};

/// The boards of the shelf's next level in order of rank, `span` in each segment and fewer in the last,
/// with no gain open and none of them fresh. Conditions: the shelf has at most `HIGHEST_LEVEL` levels, the
/// index is that of its next level, and the span is not 0. Refused only if memory runs out.
pub fn scanned_segments(
    alloc: Global,
    shelf: &Shelf,
    index: &Index,
    span: u32,
) -> Result<Vec<Segment>, AllocError>
    requires low { length shelf.now ≤ HIGHEST_LEVEL }
    requires level { index.now ≡ length shelf.now }
    requires some { 0 < span }
    ensures { IfOk result (λ segments. AreScannedSegments (table_of shelf.now).value (length shelf.now) span segments.items) }
{
    let count = segments_in(size(shelf.levels()), span);
    let mut segments = Vec::new(alloc);
    for number in 0..count {
        let segment = numbered_segment(alloc, shelf, index, span, number)?;
        segments.push(segment)?;
    }
    Ok(segments)
}

/// How many segments of this many boards have all these boards.
pub fn segments_in(boards: u32, span: u32) -> u32
    requires { 0 < span }
    ensures begun { (k : ℕ) → k < result → k * span < boards }
    ensures all { boards ≤ result * span }
{
    boards.div_ceil(span)
}

/// The segment of this number, if each has `span` boards.
pub fn numbered_segment(
    alloc: Global,
    shelf: &Shelf,
    index: &Index,
    span: u32,
    number: u32,
) -> Result<Segment, AllocError>
    requires low { length shelf.now ≤ HIGHEST_LEVEL }
    requires level { index.now ≡ length shelf.now }
    requires begun { number * span < size_of (length shelf.now) }
    ensures { IfOk result (IsScannedPart (table_of shelf.now).value (length shelf.now) (number * span) (min ((number + 1) * span) (size_of (length shelf.now)))) }
{
    let boards = size(shelf.levels());
    let start = number * span;
    let end = start + span.min(boards - start);
    let segment = scanned_segment(alloc, shelf, index, start, end)?;
    Ok(segment)
}

/// The boards of the shelf's next level from one rank up to, not including, another.
fn scanned_segment(
    alloc: Global,
    shelf: &Shelf,
    index: &Index,
    start: u32,
    end: u32,
) -> Result<Segment, AllocError>
    requires low { length shelf.now ≤ HIGHEST_LEVEL }
    requires level { index.now ≡ length shelf.now }
    requires order { start ≤ end }
    requires within { end ≤ size_of (length shelf.now) }
    ensures { IfOk result (IsScannedPart (table_of shelf.now).value (length shelf.now) start end) }
{
    let number = shelf.levels();
    let cells = scanned_cells(alloc, shelf, index, start, end)?;
    let segment = Segment::unopened(alloc, number, start, cells)?;
    Ok(segment)
}
