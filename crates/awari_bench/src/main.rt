//! Goes over a level of ten stones by the hot calls. With no words it makes one round of each and
//! prints what it counted, which another program has to count too; `bench/run` times it with the
//! name of a call and a number of rounds. The calls `verify` and `least` are of the levels 0 to 12,
//! which are built first; `asking` times readers of a desk by itself.
#![tactic(auto)]

mod asking;
mod counting;
mod judging;

use crate::asking::asking;
use crate::counting::Counted;
use crate::judging::{Work, each_level};
use awari_board::Board;
use awari_rank::{rank, size, successor, unrank};
use std::{env, io};

/// The stones on each board.
const STONES: u8 = 10;

/// The board of rank 0.
fn first() -> Board {
    Board::new([0, 0, 0, 0, 0, 0, 0, 0, 0, 0, 0, STONES])
}

/// The next board if it can be numbered, and the first one otherwise.
fn after(board: &Board) -> Board {
    if board.stones() > STONES {
        return first();
    }
    match successor(board) {
        Some(next) => next,
        None => first(),
    }
}

/// Plays each pit of each board that is legal, and counts what is captured and laid into pit 3. The
/// other pits are not played, since the program never asks why a move of its own is refused.
fn plays(counted: &mut Counted) {
    let mut board = first();
    for _rank in 0..size(STONES) {
        for pit in 0..6 {
            if !board.legal(pit) {
                continue;
            }
            if let Ok(moved) = board.play(pit) {
                counted.add(u64::from(moved.captured).wrapping_add(u64::from(moved.board.pit(3))));
            }
        }
        board = after(&board);
    }
}

/// Ranks each board.
fn ranks(counted: &mut Counted) {
    let mut board = first();
    for _rank in 0..size(STONES) {
        if board.stones() <= STONES {
            counted.add(u64::from(rank(&board)));
        }
        board = after(&board);
    }
}

/// Goes from each board to the next.
fn successors(counted: &mut Counted) {
    let mut board = first();
    for _rank in 0..size(STONES) {
        counted.add(u64::from(board.pit(5)));
        board = after(&board);
    }
}

/// Makes the board of each rank.
fn unranks(counted: &mut Counted) {
    for rank in 0..size(STONES) {
        counted.add(u64::from(unrank(STONES, rank).pit(5)));
    }
}

fn measured(call: &str, rounds: u32) -> Counted {
    let mut counted = Counted::NONE;
    for _round in 0..rounds {
        match call {
            "play" => plays(&mut counted),
            "rank" => ranks(&mut counted),
            "successor" => successors(&mut counted),
            "unrank" => unranks(&mut counted),
            _ => {}
        }
    }
    counted
}

fn report(rt: &impl Print, call: &str, rounds: u32) -> io::Result<()> {
    print_counted(rt, call, measured(call, rounds))
}

fn print_counted(rt: &impl Print, call: &str, counted: Counted) -> io::Result<()> {
    let Counted { calls, total } = counted;
    println!(rt; "{call} calls {calls} total {total}")
}

fn main(rt: HostRuntime) -> io::Result<()> {
    let words: Vec<String> = env::args(&rt)?.collect(rt.alloc())?;
    match words.as_slice() {
        [_, call, rounds] => {
            let rounds = rounds.as_str().parse().unwrap_or(1);
            match call.as_str() {
                "asking" => asking(&rt, rt.alloc(), rounds),
                "verify" => {
                    print_counted(&rt, "verify", each_level(rt.alloc(), Work::Judge, rounds)?)
                }
                "least" => {
                    print_counted(&rt, "least", each_level(rt.alloc(), Work::Lower, rounds)?)
                }
                call => report(&rt, call, rounds),
            }
        }
        _ => {
            for call in ["play", "rank", "successor", "unrank"] {
                report(&rt, call, 1)?;
            }
            Ok(())
        }
    }
}
