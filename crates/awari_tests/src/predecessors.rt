//! The pits that can be played, and quiet moves backward.

use crate::expect::expect_equal;
use awari_board::Board;
use awari_unmove::Unmoves;
use std::process::Abort;

fn expect_moves(rt: &impl Abort, board: &Board, pits: &[u8]) {
    expect_equal(rt, *board, board.moves().as_slice(), pits);
}

#[test]
fn pits_are_listed_ascending(rt: HostRuntime) {
    let start = Board::new([4; 12]);
    expect_moves(&rt, &start, &[0, 1, 2, 3, 4, 5]);
    let must_feed = Board::new([0, 0, 0, 1, 0, 1, 0, 0, 0, 0, 0, 0]);
    expect_moves(&rt, &must_feed, &[5]);
    expect_moves(&rt, &Board::new([0; 12]), &[]);
}

#[test]
fn sowings_of_one_to_twelve_stones_are_taken_back(rt: HostRuntime) {
    let board = Board::new([1, 1, 1, 1, 1, 1, 0, 2, 1, 1, 1, 1]);
    let mut unmoves = Unmoves::of(&board);
    let first = Board::new([1; 12]);
    expect_equal(&rt, "first", unmoves.next(), Some((first, 0)));
    let second = Board::new([2, 1, 0, 1, 1, 1, 1, 1, 1, 1, 1, 1]);
    expect_equal(&rt, "second", unmoves.next(), Some((second, 0)));
    let last = Board::new([12, 0, 0, 0, 0, 0, 0, 0, 0, 0, 0, 0]);
    expect_equal(&rt, "last", unmoves.last(), Some((last, 0)));
    expect_equal(&rt, "count", Unmoves::of(&board).count(), 12);
}

#[test]
fn single_quiet_moves_are_taken_back(rt: HostRuntime) {
    let cases: [([u8; 12], [u8; 12]); 3] = [
        (
            [2, 1, 0, 0, 0, 0, 0, 0, 0, 0, 0, 0],
            [0, 0, 0, 0, 0, 2, 1, 0, 0, 0, 0, 0],
        ),
        (
            [1, 0, 0, 0, 0, 0, 0, 0, 0, 0, 0, 0],
            [0, 0, 0, 0, 0, 1, 0, 0, 0, 0, 0, 0],
        ),
        // A grand slam, which captured nothing.
        (
            [2, 0, 0, 0, 0, 0, 0, 0, 0, 0, 0, 0],
            [0, 0, 0, 0, 0, 1, 1, 0, 0, 0, 0, 0],
        ),
    ];
    for (pits, before) in cases {
        let mut unmoves = Unmoves::of(&Board::new(pits));
        let only = Board::new(before);
        expect_equal(&rt, pits, unmoves.next(), Some((only, 5)));
        expect_equal(&rt, pits, unmoves.next(), None);
    }
    let none = Board::new([0, 0, 0, 0, 0, 0, 0, 1, 0, 0, 0, 0]);
    expect_equal(&rt, none, Unmoves::of(&none).next(), None);
}
