//! Plans, by the values and distances of a level and of the shelf below it.

ghost use Rattle.std.specs.Prelude.{◌≡◌, ◌<◌, ◌≤◌, ◌+◌, ◌↔◌, IsTrue, length, sum};
ghost use Rattle.awari_rank.specs.Rank.{rank_of, size_of};
ghost use Rattle.awari_table.specs.Certificate.{plies};
ghost use Rattle.awari_table.specs.Images.{entry_of, table_of};
ghost use Rattle.awari_play.specs.Plan.{IsLowest, Serves};
ghost use Rattle.awari_play.specs.Planning.{Gains, ArePlannedBelow, HasEntries, IsPlannedImage, SameSettled, with_top};

use awari_packed::{PackedBoard, PackedMove};
use awari_rank::size;
use awari_table::{Entries, Entry, Image, Reached, Shelf, greatest_dist};

/// The image of the level above the shelf with these values and distances, the lowest plans that they
/// make, and the greatest distance as its limit. A board that no pit serves has no plan. The plans that
/// the entries had are not read.
///
/// Conditions: there is an entry for each board of that level, in order of rank, and the shelf has at
/// most 24 levels. It takes no memory.
pub fn planned_image(shelf: &Shelf, mut entries: Vec<Entry>) -> Image
    requires low { length shelf.now ≤ 24 }
    requires sized { length entries.items ≡ size_of (length shelf.now) }
    ensures { IsPlannedImage shelf.now entries.items result }
{
    set_lowest_plans(shelf, &mut entries);
    Image {
        level: shelf.levels(),
        limit: greatest_dist(entries.as_slice()),
        entries: Entries::from(entries),
    }
}

/// Gives each board of the level above the shelf its lowest plan, that is, the lowest pit that
/// serves. A pit serves if its move gains the board's value and, if that is positive, captures or
/// leads to a smaller distance. A board that no pit serves gets none. Values and distances stay as
/// they are.
///
/// `entries` has an entry for each board of that level, in order of rank. Condition: the shelf has at
/// most 24 levels. It takes no memory.
fn set_lowest_plans(shelf: &Shelf, entries: &mut Vec<Entry>)
    requires { HasEntries shelf.now entries.old.items }
    ensures same { SameSettled entries.old.items entries.new.items }
    ensures planned { ArePlannedBelow shelf.now entries.old.items entries.new.items (size_of (length shelf.now)) }
{
    let level = shelf.levels();
    let boards = size(level);
    let mut board = PackedBoard::unrank(level, 0);
    for rank in 0..boards {
        let plan = lowest_plan(shelf, entries.as_slice(), &board, rank);
        entries[rank as usize].plan = plan;
        if let Some(next) = board.successor() {
            board = next;
        }
    }
}

/// The lowest plan of one board of the level above the shelf, none if no pit serves. `entries` are as
/// for [`set_lowest_plans`]; no plan of theirs is read. Conditions: the board is that of this rank, and
/// the shelf has at most 24 levels. It takes no memory.
///
/// The six pits are written out as plain numbers. So the processor predicts the tests of each pit
/// apart, and the shifts of its move are constants. This works only if what they call is inlined into
/// each of them.
#[inline(always)]
fn lowest_plan(shelf: &Shelf, entries: &[Entry], board: &PackedBoard, rank: u32) -> Option<u8>
    requires level { HasEntries shelf.now entries.now }
    requires stones { sum board.now ≡ length shelf.now }
    requires ranked { rank_of board.now ≡ rank }
    requires below { rank < size_of (length shelf.now) }
    ensures { IsLowest (table_of (with_top shelf.now entries.now)) board.now result }
{
    let own = entries[rank as usize];
    if serves(shelf, entries, board, own, 0) {
        return Some(0);
    }
    if serves(shelf, entries, board, own, 1) {
        return Some(1);
    }
    if serves(shelf, entries, board, own, 2) {
        return Some(2);
    }
    if serves(shelf, entries, board, own, 3) {
        return Some(3);
    }
    if serves(shelf, entries, board, own, 4) {
        return Some(4);
    }
    if serves(shelf, entries, board, own, 5) {
        return Some(5);
    }
    None
}

/// Whether the move from `pit` gains the board's value and, if that is positive, captures or leads to
/// a smaller distance.
#[inline(always)]
fn serves(shelf: &Shelf, entries: &[Entry], board: &PackedBoard, own: Entry, pit: u8) -> bool
    requires level { HasEntries shelf.now entries.now }
    requires stones { sum board.now ≡ length shelf.now }
    requires own { own ≡ entry_of (with_top shelf.now entries.now) board.now }
    ensures { IsTrue result ↔ Serves (table_of (with_top shelf.now entries.now)) board.now pit }
{
    if !board.legal(pit) {
        return false;
    }
    gains(own, reached_by(shelf, entries, &board.play(pit)))
}

/// Whether a move gains the value of the board's own entry and, if that is positive, captures or leads
/// to a smaller distance.
#[inline(always)]
fn gains(own: Entry, reached: Reached) -> bool
    ensures { IsTrue result ↔ Gains own reached }
{
    if reached.gain() != i16::from(own.value) {
        return false;
    }
    own.value <= 0 || reached.captured > 0 || reached.plies <= u64::from(own.dist)
}

/// The move as it was played. What a quiet move leads to, the level's entries say. Behind a capture the
/// shelf says it, and only the value is read there.
#[inline(always)]
pub(crate) fn reached_by(shelf: &Shelf, entries: &[Entry], moved: &PackedMove) -> Reached
    requires level { HasEntries shelf.now entries.now }
    requires stones { sum moved.now.board + moved.now.captured ≡ length shelf.now }
    ensures captured { result.captured ≡ moved.now.captured }
    ensures value { result.value ≡ (entry_of (with_top shelf.now entries.now) moved.now.board).value }
    ensures plies { result.plies ≡ plies moved.now.captured (entry_of (with_top shelf.now entries.now) moved.now.board).dist }
{
    let captured = moved.captured;
    if captured == 0 {
        return Reached::of(captured, entries[moved.board.rank() as usize]);
    }
    Reached::by_capture(
        captured,
        shelf.value_below(&moved.board, shelf.levels() - captured),
    )
}
