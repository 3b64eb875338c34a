//! A level in pieces, whose boards are judged in an order that keeps what their moves lead to at hand.
//!
//! In order of rank each quiet move leads to another place of the level, far from the last. So the
//! boards are taken by tiles: some ways to fill pits 6 to 11, and for each way to fill pits 0 to 5 the
//! boards that have both. A move turns the board, so what they lead to has the few fillings in front,
//! and lies in few places, which the cache holds.

ghost use Rattle.std.specs.Prelude.{◌≡◌, ◌↔◌, ℕ, ◌+◌, ◌*◌, ◌≤◌, ◌<◌, ◌++◌, ◌∷◌, [], List, sum, take, drop, None, nat_lt, if◌then◌else◌};
ghost use Rattle.awari_board.specs.Rules.{IsBoard, own_stones, turned};
ghost use Rattle.awari_rank.specs.Rank.{rank_of, size_of};
ghost use Rattle.awari_table.specs.Certificate.{DistancesAreLeast};
ghost use Rattle.awari_table.specs.Images.{table_of};
ghost use Rattle.awari_verify.specs.VerifyFault.{IsShaped};
ghost use Rattle.awari_verify.specs.Pieces.{piece_of, refusal_of, Looks, InRun, InTile};
ghost use Rattle.awari_verify.specs.FirstFailure.{IsFirst};

use crate::rules::Rule;
use crate::search::{Refusal, refusal_from};
use awari_board::Board;
use awari_packed::PackedBoard;
use awari_rank::{rank, size};
use awari_table::{Image, Shelf};

/// How many fillings of pits 6 to 11 a tile has.
const TILE: u32 = 64;

/// The tiles are shared among this many parts.
const PARTS: u32 = 64;

/// Pits 0 to 5 have 0 to 24 stones. By how many they are, each part is cut into pieces.
const OWN: u32 = 25;

/// How many pieces a level has. Some have no boards.
pub const PIECES: u32 = PARTS * OWN;

/// The board of the smallest rank that is known to break a rule, and the first rule that it breaks.
/// While none is known, the rank is the number of boards.
#[derive(Clone, Copy)]
pub struct Nearest {
    pub rank: u32,
    pub rule: Option<Rule>,
}

impl Nearest {
    /// No breach is known among this many boards.
    pub fn none(boards: u32) -> Nearest
        ensures { result ≡ record { rank = boards; rule = None } }
    {
        Nearest {
            rank: boards,
            rule: None,
        }
    }

    /// The one of the smaller rank.
    pub fn or_nearer(self, other: Nearest) -> Nearest
        ensures { result ≡ (if nat_lt other.rank self.rank then other else self) }
    {
        if other.rank < self.rank {
            return other;
        }
        self
    }

    /// The refusal for the breach, if one is known.
    pub fn refusal(self) -> Option<Refusal>
        ensures { result ≡ refusal_of self }
    {
        let rank = self.rank;
        self.rule.map(|rule| Refusal { rank, rule })
    }
}

/// Boards whose ranks follow each other: the first, and how many.
#[derive(Clone, Copy)]
struct Run {
    first: PackedBoard,
    count: u32,
}

/// The first refusal of a level, whose pieces are looked at one after the other.
pub fn first_refusal(shelf: &Shelf, image: &Image, boards: u32) -> Option<Refusal>
    requires shaped { IsShaped shelf.now image.now }
    requires sized { boards ≡ size_of image.now.level }
    ensures { IsFirst DistancesAreLeast (table_of (shelf.now ++ image.now ∷ [])) image.now.level 0 boards result }
{
    let mut found = Nearest::none(boards);
    for piece in 0..PIECES {
        found = look_in_piece(shelf, image, piece, found);
    }
    found.refusal()
}

/// Looks for a refusal among the boards of this piece. Those behind the nearest one known are left out.
pub fn look_in_piece(shelf: &Shelf, image: &Image, piece: u32, nearest: Nearest) -> Nearest
    requires shaped { IsShaped shelf.now image.now }
    requires piece { piece < PIECES }
    requires within { nearest.rank ≤ size_of image.now.level }
    ensures { Looks (table_of (shelf.now ++ image.now ∷ [])) image.now.level (λ p. piece_of p ≡ piece) nearest result }
{
    let own = piece % OWN;
    if own as u8 > image.level {
        return nearest;
    }
    let stones = image.level - own as u8;
    let part = (piece / OWN + own * 48) * 57 % PARTS;
    let fillings = fillings(stones);
    let mut found = nearest;
    let mut start = u64::from(part * TILE);
    while start < u64::from(fillings) {
        let tile = Run {
            first: PackedBoard::unrank(stones, start as u32),
            count: (fillings - start as u32).min(TILE),
        };
        found = look_in_tile(shelf, image, &tile, found);
        start += u64::from(PARTS * TILE);
    }
    found
}

/// Looks for one among the boards that have one of these fillings in pits 6 to 11.
fn look_in_tile(shelf: &Shelf, image: &Image, tile: &Run, nearest: Nearest) -> Nearest
    requires shaped { IsShaped shelf.now image.now }
    requires board { IsBoard tile.now.first }
    requires few { sum tile.now.first ≤ image.now.level }
    requires filling { own_stones tile.now.first ≡ 0 }
    requires within { nearest.rank ≤ size_of image.now.level }
    ensures { Looks (table_of (shelf.now ++ image.now ∷ [])) image.now.level (InTile (sum tile.now.first) (rank_of tile.now.first) tile.now.count) nearest result }
{
    let own = image.level - tile.first.stones();
    let count = fillings(own);
    let mut found = nearest;
    let mut filling = PackedBoard::unrank(own, 0);
    for _done in 0..count {
        let run = Run {
            first: filled(&filling, &tile.first),
            count: tile.count,
        };
        found = look_in_run(shelf, image, &run, found);
        filling = following(&filling);
    }
    found
}

/// Looks for one among the boards of a run.
fn look_in_run(shelf: &Shelf, image: &Image, run: &Run, nearest: Nearest) -> Nearest
    requires shaped { IsShaped shelf.now image.now }
    requires board { IsBoard run.now.first }
    requires stones { sum run.now.first ≡ image.now.level }
    requires within { nearest.rank ≤ size_of image.now.level }
    ensures { Looks (table_of (shelf.now ++ image.now ∷ [])) image.now.level (InRun (rank_of run.now.first) run.now.count) nearest result }
{
    let low = run.first.rank();
    let high = low + nearest.rank.saturating_sub(low).min(run.count);
    match refusal_from(shelf, image, &run.first, high) {
        Some(Refusal { rank, rule }) => Nearest {
            rank,
            rule: Some(rule),
        },
        None => nearest,
    }
}

/// The board whose pits 0 to 5 are filled as pits 6 to 11 of `own`, and whose pits 6 to 11 as those of
/// `other`.
fn filled(own: &PackedBoard, other: &PackedBoard) -> PackedBoard
    requires boards { IsBoard own.now × IsBoard other.now }
    requires fillings { (own_stones own.now ≡ 0) × (own_stones other.now ≡ 0) }
    requires few { sum own.now + sum other.now ≤ 24 }
    ensures is { result ≡ take 6 (turned own.now) ++ drop 6 other.now }
    ensures board { IsBoard result }
    ensures stones { sum result ≡ sum own.now + sum other.now }
{
    own.turned().joined(other)
}

/// The board of the next rank, or this one if it is the last.
pub fn following(board: &PackedBoard) -> PackedBoard
    requires { IsBoard board.now }
    ensures board { IsBoard result }
    ensures stones { sum result ≡ sum board.now }
    ensures rank { rank_of board.now + 1 < size_of (sum board.now) → rank_of result ≡ rank_of board.now + 1 }
{
    match board.successor() {
        Some(next) => next,
        None => *board,
    }
}

/// In how many ways this many stones fill pits 6 to 11. The boards with no stone in pits 0 to 5 are the
/// first of their level.
fn fillings(stones: u8) -> u32
    requires { stones ≤ 24 }
    ensures first { (p : List ℕ) → IsBoard p → sum p ≡ stones → (rank_of p < result) ↔ (own_stones p ≡ 0) }
    ensures some { 0 < result }
    ensures within { result ≤ size_of stones }
{
    // Ghost: the number of boards bounds the rank, so that the sum does not overflow.
    let _boards = size(stones);
    rank(&Board::new([0, 0, 0, 0, 0, 0, stones, 0, 0, 0, 0, 0])) + 1
}
