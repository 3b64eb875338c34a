//! Lines of play by the plans of both sides.

use crate::expect::expect_equal;
use crate::shelves::levels_below;
use awari_board::Board;
use awari_plan::best_line;
use awari_table::Shelf;
use std::alloc::Global;
use std::process::Abort;
use std::test::Fail;

/// Boards, the moves of their lines, and the outcomes.
const LINES: [(&str, &[u8], i16); 3] = [
    ("1,0,0,0,0,0/0,0,1,0,0,0", &[0, 2, 1, 3, 2, 4, 3, 5], 2),
    ("0,0,0,0,0,1/1,0,1,0,0,0", &[5], 1),
    ("0,0,0,0,0,0/1,0,0,0,0,0", &[], -1),
];

/// The line from this board, up to the limit of the shelf.
fn expect_line(
    rt: &impl Abort,
    alloc: Global,
    shelf: &Shelf,
    (text, moves, outcome): (&str, &[u8], i16),
) -> Result<(), Fail> {
    let board = Board::parse(text.as_bytes())?;
    let line = best_line(alloc, shelf, board, shelf.limit())?;
    expect_equal(rt, text, line.moves.as_slice(), moves);
    expect_equal(rt, text, line.outcome, outcome);
    Ok(())
}

#[test]
fn plans_make_lines(rt: HostRuntime) -> Result<(), Fail> {
    let shelf = levels_below(rt.alloc(), 4)?;
    for line in &LINES {
        expect_line(&rt, rt.alloc(), &shelf, *line)?;
    }
    Ok(())
}
