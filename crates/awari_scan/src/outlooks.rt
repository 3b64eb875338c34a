//! What the moves of a board tell of it before it hears any note: its quiet moves, and what its best
//! captures gain by the shelf.

ghost use Rattle.std.specs.Prelude.{◌≡◌, ◌<◌, ◌+◌, ℕ, ℤ, pos, ◌-ℤ◌, List, None, length, sum};
ghost use Rattle.awari_board.specs.Rules.{IsBoard, IsEnd, IsEnded, IsMove};
ghost use Rattle.awari_table.specs.Images.{table_of};
ghost use Rattle.awari_block.specs.Cells.{IsWithin};
ghost use Rattle.awari_block.specs.Steps.{greater_of, pits_after};
ghost use Rattle.awari_scan.specs.Scan.{CanValue, CapturesTo, IsOutlook, IsRanged, IsScannedCell};

use awari_block::{Cell, Pits};
use awari_packed::{PackedBoard, PackedMove};
use awari_table::Shelf;

/// The pits of the quiet moves and of the best captures, and what these captures gain in stones, if one
/// is legal.
#[derive(Clone, Copy)]
pub struct Outlook {
    pub quiet: Pits,
    pub plans: Pits,
    pub best: Option<i8>,
}

/// Puts one quiet move more into the outlook, from `pit`.
#[inline(always)]
pub fn see_quiet(seen: &mut Outlook, pit: u8)
    requires { pit < 6 }
    ensures { (value : List ℕ → ℤ) (p q : List ℕ) → IsMove p pit 0 q
        → IsOutlook value p pit seen.old.quiet seen.old.best seen.old.plans
        → IsOutlook value p (pit + 1) seen.new.quiet seen.new.best seen.new.plans }
{
    seen.quiet = seen.quiet.with(pit);
}

/// Puts one capture more into the outlook.
#[inline(always)]
pub fn see_capture(seen: &mut Outlook, shelf: &Shelf, pit: u8, moved: &PackedMove)
    requires own { pit < 6 }
    requires captures { CapturesTo (length shelf.now) moved.now.captured moved.now.board }
    requires values { CanValue (table_of shelf.now).value (length shelf.now) }
    ensures { (p : List ℕ) → sum p ≡ length shelf.now → IsMove p pit moved.now.captured moved.now.board
        → IsOutlook (table_of shelf.now).value p pit seen.old.quiet seen.old.best seen.old.plans
        → IsOutlook (table_of shelf.now).value p (pit + 1) seen.new.quiet seen.new.best seen.new.plans }
{
    let gain = gain_of(shelf, moved);
    put_capture(seen, pit, gain);
}

/// Puts a capture from this pit, which gains this, into the outlook.
#[inline(always)]
fn put_capture(seen: &mut Outlook, pit: u8, gain: i8)
    requires { pit < 6 }
    ensures { seen.new ≡ record seen.old { best = greater_of seen.old.best gain; plans = pits_after seen.old.best seen.old.plans gain pit } }
{
    match seen.best {
        Some(best) => {
            if best < gain {
                seen.best = Some(gain);
                seen.plans = Pits::only(pit);
            } else if best == gain {
                seen.plans = seen.plans.with(pit);
            }
        }
        None => {
            seen.best = Some(gain);
            seen.plans = Pits::only(pit);
        }
    }
}

/// What a capture gains: the stones captured, less the value of the board that it leaves.
#[inline(always)]
fn gain_of(shelf: &Shelf, moved: &PackedMove) -> i8
    requires captures { CapturesTo (length shelf.now) moved.now.captured moved.now.board }
    requires values { CanValue (table_of shelf.now).value (length shelf.now) }
    ensures gain { result ≡ (pos moved.now.captured -ℤ (table_of shelf.now).value moved.now.board) }
    ensures within { IsWithin (length shelf.now) result }
{
    let stones = shelf.levels() - moved.captured;
    moved.captured as i8 - shelf.value_below(&moved.board, stones)
}

/// The cell of a board with this outlook. The board is ended if it has no quiet move and no capture.
pub fn cell_of(board: &PackedBoard, seen: Outlook) -> Cell
    requires ended { seen.quiet ≡ 0 → seen.best ≡ None → IsEnded board.now }
    ensures { (value : List ℕ → ℤ) → IsBoard board.now → IsRanged value (sum board.now)
        → IsOutlook value board.now 6 seen.quiet seen.best seen.plans → IsScannedCell value board.now result }
{
    match seen.best {
        Some(best) => Cell::of_captures(seen.quiet, best, seen.plans),
        None => {
            if seen.quiet.is_empty() {
                Cell::of_end(end_of(board))
            } else {
                Cell::of_quiet(seen.quiet)
            }
        }
    }
}

/// What the mover gains if no move is legal.
fn end_of(board: &PackedBoard) -> i8
    requires { IsEnded board.now }
    ensures { IsEnd board.now result }
{
    match board.board().end() {
        Some(gain) => gain,
        None => unreachable!(),
    }
}
