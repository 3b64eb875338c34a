//! The boards that are told of one that is spread. All of them are found before the first is told, so
//! that the cells of several are on their way from memory at the same time.

ghost use Rattle.std.specs.Prelude.{◌<◌, ◌^◌, All, sum, ◌≡◌, ◌+◌, ◌≤◌, ◌++◌, List, length};
ghost use Rattle.awari_scan.specs.Found.{IsCodable, Lists, ListsAll, Source, code_by};

use awari_board::moves_keep_boards;
use awari_packed::PackedBoard;
use awari_unmove::{FarUnmoves, OwnUnmoves, PackedUnmoves};

/// The most predecessors of a board that callers have to reckon with: six pits of at most 48 stones.
pub const MOST_PREDECESSORS: usize = 288;

/// Puts the predecessors of a board into the first places of `targets`, each in four bytes: eight times
/// its rank, and its pit whose move leads there. Answers how many there are. Conditions: there are 288
/// places, and the board has at most 24 stones. It takes no memory.
#[inline(always)]
pub fn find_all(board: &PackedBoard, targets: &mut [u32]) -> usize
    requires room { 288 ≤ length targets.old }
    requires low { sum board.now ≤ 24 }
    ensures found { ListsAll board.now targets.new result }
    ensures few { result ≤ 288 }
    ensures same { length targets.new ≡ length targets.old }
{
    moves_keep_boards();
    let PackedUnmoves { own, far } = PackedUnmoves::of(board);
    let found = find_own(own, targets);
    find_far(far, targets, found)
}

/// Puts these predecessors into the first targets, and answers how many there are.
#[inline(always)]
fn find_own(own: OwnUnmoves, targets: &mut [u32]) -> usize
    requires codes { All IsCodable own }
    requires room { length own ≤ length targets.old }
    ensures found { Lists targets.new result own }
    ensures same { length targets.new ≡ length targets.old }
{
    let mut count = 0;
    for (source, origin) in own {
        targets[count] = code(source.rank(), origin);
        count += 1;
    }
    count
}

/// Puts these predecessors behind the `found` first targets, and answers how many there are then.
#[inline(always)]
fn find_far(far: FarUnmoves, targets: &mut [u32], found: usize) -> usize
    requires codes { All IsCodable far }
    requires room { found + length far ≤ length targets.old }
    ensures found { (before : List Source) → Lists targets.old found before → Lists targets.new result (before ++ far) }
    ensures many { result ≡ found + length far }
    ensures same { length targets.new ≡ length targets.old }
{
    let mut count = found;
    for (source, origin) in far {
        targets[count] = code(source.rank(), origin);
        count += 1;
    }
    count
}

/// A board and its pit in four bytes.
#[inline(always)]
fn code(rank: u32, pit: u8) -> u32
    requires { (rank < 2 ^ 29) × (pit < 6) }
    ensures { result ≡ code_by rank pit }
{
    rank * 8 + u32::from(pit)
}
