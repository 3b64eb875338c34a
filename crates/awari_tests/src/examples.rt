//! Examples that stand whole at the head of the libraries they call.

use crate::expect::expect_equal;
use awari_board::{Board, Moved};
use awari_game::Game;
use awari_index::Index;
use awari_packed::PackedBoard;
use awari_rank::{size, unrank};
use std::test::Fail;

#[test]
fn packed_boards_move_as_boards_do(rt: HostRuntime) {
    for rank in 0..size(2) {
        let packed = PackedBoard::unrank(2, rank);
        for pit in 0..6u8 {
            if packed.legal(pit) {
                let moved = packed.play(pit);
                let captured = moved.captured;
                let board = moved.board.board();
                let played = packed.board().play(pit);
                expect_equal(&rt, rank, played, Ok(Moved { board, captured }));
            }
        }
    }
}

#[test]
fn an_index_has_each_board_of_three_stones(rt: HostRuntime) -> Result<(), Fail> {
    let index = Index::of(rt.alloc(), 3)?;
    for rank in 0..size(3) {
        let board = index.board(rank).board();
        expect_equal(&rt, rank, board, unrank(3, rank));
    }
    Ok(())
}

#[test]
fn a_play_has_its_outcome(rt: HostRuntime) -> Result<(), Fail> {
    let mut game = Game::start(Board::parse(b"1,0,0,0,0,0/0,0,1,0,0,0")?);
    for pit in [0, 2, 1, 3, 2, 4, 3, 5u8] {
        expect_equal(&rt, pit, game.outcome(9), None);
        game.step(pit)?;
    }
    expect_equal(&rt, "the end", game.outcome(9), Some(2));
    Ok(())
}
