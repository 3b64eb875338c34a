//! The rules at worked positions.

use crate::expect::expect_equal;
use awari_board::{Board, BoardFault, Moved};
use std::process::Abort;

/// What a play shows, the board before it, the pit, the board after it, and what is captured.
const PLAYED: [(&str, &str, u8, &str, u8); 5] = [
    (
        "a grand slam takes nothing",
        "0,0,0,0,0,1/1,0,0,0,0,0",
        5,
        "2,0,0,0,0,0/0,0,0,0,0,0",
        0,
    ),
    (
        "a capture takes two",
        "0,0,0,0,0,1/1,0,1,0,0,0",
        5,
        "0,0,1,0,0,0/0,0,0,0,0,0",
        2,
    ),
    (
        "a run stops at the edge",
        "0,0,0,0,0,2/1,2,0,1,0,0",
        5,
        "0,0,0,1,0,0/0,0,0,0,0,0",
        5,
    ),
    (
        "a lap leaves the origin out",
        "12,0,0,0,0,0/0,0,0,0,0,0",
        0,
        "1,1,1,1,1,1/0,2,1,1,1,1",
        0,
    ),
    (
        "a second lap captures",
        "0,0,0,0,0,12/0,0,0,0,0,0",
        5,
        "0,1,1,1,1,1/1,1,1,1,1,0",
        2,
    ),
];

fn expect_played(
    rt: &impl Abort,
    (case, before, pit, after, captured): &(&str, &str, u8, &str, u8),
) -> Result<(), BoardFault> {
    let before = Board::parse(before.as_bytes())?;
    let board = Board::parse(after.as_bytes())?;
    let captured = *captured;
    expect_equal(rt, case, before.play(*pit), Ok(Moved { board, captured }));
    expect_equal(
        rt,
        case,
        board.stones(),
        before.stones().saturating_sub(captured),
    );
    Ok(())
}

#[test]
fn worked_moves_are_played(rt: HostRuntime) -> Result<(), BoardFault> {
    for play in &PLAYED {
        expect_played(&rt, play)?;
    }
    Ok(())
}
