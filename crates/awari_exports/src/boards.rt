//! What a program calls with boards alone, and with no level.

ghost use Rattle.std.specs.Prelude.{◌≡◌, ◌≢◌, ◌<◌, ◌≤◌, ◌↔◌, List, ℕ, sum};
ghost use Rattle.awari_board.specs.BoardFault.{IsFaulty, number_of as number_of_text};
ghost use Rattle.awari_board.specs.MoveFault.{IsDue, number_of};
ghost use Rattle.awari_board.specs.Rules.{IsBoard, IsLegal, IsMove};
ghost use Rattle.awari_board.specs.Tests.{is_legal};
ghost use Rattle.awari_board.specs.Text.{text_of};
ghost use Rattle.awari_board.specs.declared.moves.MoveFault.{MoveFault};
ghost use Rattle.awari_board.specs.declared.text.BoardFault.{BoardFault};
ghost use Rattle.awari_rank.specs.Rank.{rank_of, size_of};
ghost use Rattle.awari_exports.specs.Boards.{IsAnswer, IsPlaceAnswer, bit_if, legal_bits};

use crate::answers::{NO_RANK, NOT_YET};
use awari_board::{Board, BoardFault, tests_decide};
use awari_rank::{rank, size, unrank};
use awari_table::HIGHEST_LEVEL;

/// Reads a board as the program does, and answers 0; or 1, 2 or 3 as `BoardFault` has it.
#[unsafe(no_mangle)]
pub extern "C" fn awari_parse(text: &[u8], pits: &mut [u8; 12]) -> u8
    ensures read { (board : List ℕ) → IsBoard board → text.now ≡ text_of board → (result ≡ 0) × (pits.new ≡ board) }
    ensures only { result ≡ 0 → IsBoard pits.new × (text.now ≡ text_of pits.new) }
    ensures faulty { result ≢ 0 → (fault : BoardFault) × IsFaulty text.now fault × (result ≡ number_of_text fault) }
    ensures untouched { result ≢ 0 → pits.new ≡ pits.old }
{
    match Board::parse(text) {
        Ok(board) => {
            *pits = board.pits();
            0
        }
        Err(refusal) => refusal.number(),
    }
}

/// How many boards a level has, 0 if it is above 24.
#[unsafe(no_mangle)]
pub extern "C" fn awari_size(level: u8) -> u32
    ensures size { level ≤ 24 → result ≡ size_of level }
    ensures high { 24 < level → result ≡ 0 }
{
    if level > HIGHEST_LEVEL {
        return 0;
    }
    size(level)
}

/// The level and the rank of a board, and 0; or 3 if it has more than 48 stones, or 59 if it has more
/// than 24.
#[unsafe(no_mangle)]
pub extern "C" fn awari_rank(pits: &[u8; 12], level: &mut u8, place: &mut u32) -> u8
    ensures answer { IsAnswer (sum pits.now) 25 result }
    ensures level { result ≡ 0 → level.new ≡ sum pits.now }
    ensures rank { result ≡ 0 → place.new ≡ rank_of pits.now }
    ensures untouched { result ≢ 0 → (level.new ≡ level.old) × (place.new ≡ place.old) }
{
    let Ok(board) = Board::of(*pits) else {
        return BoardFault::TooMany.number();
    };
    if board.stones() > HIGHEST_LEVEL {
        return NOT_YET;
    }
    *level = board.stones();
    *place = rank(&board);
    0
}

/// The board of a rank in a level, and 0; or 59 if the level is above 24, or 93 if it has fewer
/// boards.
#[unsafe(no_mangle)]
pub extern "C" fn awari_board(level: u8, place: u32, pits: &mut [u8; 12]) -> u8
    ensures answer { IsPlaceAnswer level place (size_of level) result }
    ensures board { result ≡ 0 → IsBoard pits.new × (sum pits.new ≡ level) × (rank_of pits.new ≡ place) }
    ensures untouched { result ≢ 0 → pits.new ≡ pits.old }
{
    if level > HIGHEST_LEVEL {
        return NOT_YET;
    }
    if place >= size(level) {
        return NO_RANK;
    }
    *pits = unrank(level, place).pits();
    0
}

/// The pits that can be played, bit 0 for pit 0; none of a board of more than 48 stones.
#[unsafe(no_mangle)]
pub extern "C" fn awari_legal(pits: &[u8; 12]) -> u8
    ensures legal { sum pits.now ≤ 48 → result ≡ legal_bits pits.now }
    ensures many { 48 < sum pits.now → result ≡ 0 }
{
    let Ok(board) = Board::of(*pits) else {
        return 0;
    };
    bit_if_legal(&board, 0, 1)
        + (bit_if_legal(&board, 1, 2)
            + (bit_if_legal(&board, 2, 4)
                + (bit_if_legal(&board, 3, 8)
                    + (bit_if_legal(&board, 4, 16) + bit_if_legal(&board, 5, 32)))))
}

/// This bit if the pit can be played, and else 0.
fn bit_if_legal(board: &Board, pit: u8, bit: u8) -> u8
    ensures bit { result ≡ bit_if (is_legal board.now pit) bit }
    ensures small { result ≤ bit }
{
    tests_decide();
    if board.legal(pit) { bit } else { 0 }
}

/// Plays a pit: 0, with the board as the other player sees it and what is captured; or 3 for a board of
/// more than 48 stones, or 4 to 7 as `MoveFault` has it.
#[unsafe(no_mangle)]
pub extern "C" fn awari_play(pits: &[u8; 12], pit: u8, out: &mut [u8; 12], captures: &mut u8) -> u8
    ensures many { 48 < sum pits.now → result ≡ 3 }
    ensures legal { sum pits.now ≤ 48 → (result ≡ 0) ↔ IsLegal pits.now pit }
    ensures moved { result ≡ 0 → IsMove pits.now pit captures.new out.new }
    ensures refused { sum pits.now ≤ 48 → result ≢ 0 → (fault : MoveFault) × IsDue pits.now pit fault × (result ≡ number_of fault) }
    ensures untouched { result ≢ 0 → (out.new ≡ out.old) × (captures.new ≡ captures.old) }
{
    let Ok(board) = Board::of(*pits) else {
        return BoardFault::TooMany.number();
    };
    match board.play(pit) {
        Ok(moved) => {
            *out = moved.board.pits();
            *captures = moved.captured;
            0
        }
        Err(fault) => fault.number(),
    }
}
