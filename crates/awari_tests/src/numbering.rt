//! The numbering at the ends of a level, and over a whole one.

use awari_board::Board;
use awari_rank::{rank, size, successor, unrank};

#[test]
fn boards_of_worked_ranks(rt: HostRuntime) {
    let last = Board::new([12, 0, 0, 0, 0, 0, 0, 0, 0, 0, 0, 0]);
    assert_eq!(rt; size(12), 1352078);
    assert_eq!(rt; unrank(12, 1352077), last);
    assert_eq!(rt; successor(&last), None);
    let first = Board::new([0, 0, 0, 0, 0, 0, 0, 0, 0, 0, 0, 12]);
    assert_eq!(rt; successor(&first), Some(unrank(12, 1)));
}

#[test]
fn a_level_in_order_of_rank(rt: HostRuntime) {
    let mut board = Board::new([0, 0, 0, 0, 0, 0, 0, 0, 0, 0, 0, 5]);
    for expected in 0..size(5) {
        assert_eq!(rt; board.stones(), 5);
        assert_eq!(rt; board, unrank(5, expected));
        assert_eq!(rt; rank(&board), expected);
        match successor(&board) {
            Some(next) => board = next,
            None => assert_eq!(rt; expected, 4367),
        }
    }
}
