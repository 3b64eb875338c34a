//! A play of which a step is refused.

use crate::expect::expect_equal;
use awari_board::{Board, MoveFault};
use awari_game::Game;
use std::test::Fail;

#[test]
fn a_refused_step_changes_nothing(rt: HostRuntime) -> Result<(), Fail> {
    let mut game = Game::start(Board::new([1, 0, 0, 0, 0, 0, 0, 0, 1, 0, 0, 0]));
    game.step(0)?;
    let before = game;
    expect_equal(&rt, 0u8, game.step(0), Err(MoveFault::EmptyPit));
    expect_equal(&rt, 255u8, game.step(255), Err(MoveFault::NoPit));
    expect_equal(&rt, "the game", game, before);
    Ok(())
}
