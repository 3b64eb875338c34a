//! What the rules say of a board.

ghost use Rattle.std.specs.Prelude.{◌≡◌};
ghost use Rattle.awari_board.specs.Rules.{own_stones};
ghost use Rattle.awari_facts.specs.Facts.{captured_by, captures_by, largest_capture, legal_moves, most_captured};

use awari_board::SIDE;
use awari_packed::PackedBoard;

/// How many moves of the board are legal.
pub fn legal_moves(board: &PackedBoard) -> u8
    ensures { result ≡ legal_moves board.now }
{
    let mut count = 0u8;
    for pit in 0..SIDE {
        if board.legal(pit) {
            count += 1;
        }
    }
    count
}

/// The stones on the mover's side.
pub fn own_stones(board: &PackedBoard) -> u8
    ensures { result ≡ own_stones board.now }
{
    board.stones() - board.other_stones()
}

/// The stones that the move of a plan captures, if there is a plan and its move is legal.
pub fn plan_captures(board: &PackedBoard, plan: Option<u8>) -> Option<u8>
    ensures { result ≡ captures_by board.now plan }
{
    let pit = plan?;
    if !board.legal(pit) {
        return None;
    }
    Some(board.play(pit).captured)
}

/// The stones that the move from a pit captures, 0 if it is not legal.
fn captured_by(board: &PackedBoard, pit: u8) -> u8
    ensures { result ≡ captured_by board.now pit }
{
    if !board.legal(pit) {
        return 0;
    }
    board.play(pit).captured
}

/// The most stones that a legal move captures.
fn most_captured(board: &PackedBoard) -> u8
    ensures { result ≡ most_captured board.now }
{
    let mut most: u8 = 0;
    for pit in 0..SIDE {
        most = most.max(captured_by(board, pit));
    }
    most
}

/// The stones of the largest capture among the legal moves, if one of them captures.
pub fn largest_capture(board: &PackedBoard) -> Option<u8>
    ensures { result ≡ largest_capture board.now }
{
    match most_captured(board) {
        0 => None,
        most => Some(most),
    }
}
