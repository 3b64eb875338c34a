//! What is seen of a board: its entry, and where each of its moves leads.

ghost use Rattle.std.specs.Prelude.{◌≡◌, ◌<◌, ◌↔◌, ℕ, ◌+◌, [], ◌∷◌, ◌++◌, None, IsSome, sum, slice_index_or};
ghost use Rattle.awari_board.specs.Rules.{IsLegal};
ghost use Rattle.awari_rank.specs.Rank.{size_of, rank_of};
ghost use Rattle.awari_table.specs.Certificate.{plies};
ghost use Rattle.awari_table.specs.Images.{entry_of, table_of};
ghost use Rattle.awari_verify.specs.VerifyFault.{IsShaped};
ghost use Rattle.awari_table.specs.Reached.{Reaches};
ghost use Rattle.awari_verify.specs.Sights.{Sees, SeesEnd};

use crate::rules::Seen;
use awari_board::SIDE;
use awari_packed::{PackedBoard, PackedMove};
use awari_table::{Image, Reached, Shelf};

/// Fills `seen` with what the image says of the board of this rank, and with what image and shelf say
/// of the boards that its moves lead to. Each is looked up once.
///
/// It is filled in place, since handing it on would copy six moves for each board.
#[inline(always)]
pub fn see(shelf: &Shelf, image: &Image, board: &PackedBoard, rank: u32, seen: &mut Seen)
    requires shaped { IsShaped shelf.now image.now }
    requires stones { sum board.now ≡ image.now.level }
    requires ranked { rank_of board.now ≡ rank }
    requires below { rank < size_of image.now.level }
    ensures { Sees (table_of (shelf.now ++ image.now ∷ [])) board.now seen.new }
{
    for pit in 0..SIDE {
        seen.moves[pit as usize] = reached(shelf, image, board, pit);
    }
    seen.stones = image.level;
    seen.entry = image.entries.at(rank as usize);
    seen.end = end_seen(board, &seen.moves);
}

/// The move of this pit, if it is legal.
#[inline(always)]
fn reached(shelf: &Shelf, image: &Image, board: &PackedBoard, pit: u8) -> Option<Reached>
    requires shaped { IsShaped shelf.now image.now }
    requires stones { sum board.now ≡ image.now.level }
    ensures { Reaches (table_of (shelf.now ++ image.now ∷ [])) board.now pit result }
{
    if !board.legal(pit) {
        return None;
    }
    Some(reached_by(shelf, image, &board.play(pit)))
}

/// The move as it was played. What a quiet move leads to, the image says. Behind a capture the shelf
/// says it, and only the value is read there.
#[inline(always)]
fn reached_by(shelf: &Shelf, image: &Image, moved: &PackedMove) -> Reached
    requires shaped { IsShaped shelf.now image.now }
    requires stones { sum moved.now.board + moved.now.captured ≡ image.now.level }
    ensures captured { result.captured ≡ moved.now.captured }
    ensures value { result.value ≡ (entry_of (shelf.now ++ image.now ∷ []) moved.now.board).value }
    ensures plies { result.plies ≡ plies moved.now.captured (entry_of (shelf.now ++ image.now ∷ []) moved.now.board).dist }
{
    let captured = moved.captured;
    if captured == 0 {
        return Reached::of(captured, image.entries.at(moved.board.rank() as usize));
    }
    Reached::by_capture(
        captured,
        shelf.value_below(&moved.board, image.level - captured),
    )
}

/// The gain of the board's end, if none of its moves is legal.
fn end_seen(board: &PackedBoard, moves: &[Option<Reached>; 6]) -> Option<i8>
    requires { (x : ℕ) → x < 6 → IsSome (slice_index_or moves.now x None) ↔ IsLegal board.now x }
    ensures { SeesEnd board.now result }
{
    if moves.iter().any(|reached| reached.is_some()) {
        return None;
    }
    board.board().end()
}
