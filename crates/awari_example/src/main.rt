//! Plays Awari against the reader of standard input, by the plans of the levels in a folder.
//!
//!     awari_example FOLDER BOARD
//!
//! The user has the first move. Each line is a pit to play, 0 to 5, and each answer the plan, until
//! the play has an outcome by the limit of the levels: which is no more than the value of the board,
//! as `load` promises of its levels.
#![tactic(auto)]

ghost use Rattle.std.specs.Prelude.{◌≡◌, ◌∷◌, ◌++◌, [], List, ℕ, IfSome, IsNone, Some};
ghost use Rattle.awari_game.specs.Shown.{Shows};
ghost use Rattle.awari_table.specs.Images.{entry_of};

use anyhow::{Context, Result, anyhow};
use awari_board::Board;
use awari_folder::{Alone, HostFolder, load};
use awari_game::Game;
use awari_table::{HIGHEST_LEVEL, Shelf};
use std::env;
use std::fs::File;
use std::path::Path;
use std::rt::Files;

fn main(rt: HostRuntime) -> Result<()> {
    let words: Vec<String> = env::args(&rt)?.collect(rt.alloc())?;
    match words.as_slice() {
        [_, folder, board] => start(&rt, folder.as_str(), board.as_str()),
        _ => Err(anyhow!("usage: awari_example FOLDER BOARD")),
    }
}

/// Loads the levels, says what the board that the text spells is worth, and plays from there.
fn start(
    rt: &(impl Input + Print + AllocGlobal + Files<File = File>),
    folder: &str,
    board: &str,
) -> Result<()> {
    let board = Board::parse(board.as_bytes())?;
    let mut folder = HostFolder::new(rt, rt.alloc(), Path::new(folder));
    let shelf = load(&Alone, rt.alloc(), &mut folder, HIGHEST_LEVEL)?.shelf;
    let value = shelf.entry(&board)?.value;
    println!(rt; "{board} is worth {value}")?;
    play(rt, &shelf, Game::start(board))
}

/// Plays a turn of both sides for each line, until there is an outcome or no line any more.
fn play(rt: &(impl Input + Print + AllocGlobal), shelf: &Shelf, mut game: Game) -> Result<()> {
    for line in rt.lines(rt.alloc()) {
        take_turns(rt, shelf, &mut game, line?.as_str())?;
        if let Some(outcome) = game.outcome(shelf.limit()) {
            println!(rt; "outcome {outcome}")?;
            return Ok(());
        }
    }
    Ok(())
}

/// Plays the pit that the line names, and then the plan.
fn take_turns(rt: &impl Print, shelf: &Shelf, game: &mut Game, line: &str) -> Result<()> {
    if let Err(fault) = game.step(line.parse().context("no pit")?) {
        println!(rt; "refused {fault}")?;
        return Ok(());
    }
    if let Some(pit) = reply(shelf, game) {
        println!(rt; "{pit} is played: {}", game.board())?;
    }
    Ok(())
}

/// Plays the plan of the shelf for the player to move, and gives its pit. If the shelf has none,
/// because it lacks the level or the play has ended, the game stays as it was.
fn reply(shelf: &Shelf, game: &mut Game) -> Option<u8>
    ensures plan { IfSome result (λ pit. (entry_of shelf.now game.old.board).plan ≡ Some pit) }
    ensures played { IfSome result (λ pit. (board pits : List ℕ) → Shows game.old board pits → Shows game.new board (pits ++ pit ∷ [])) }
    ensures unchanged { IsNone result → game.new ≡ game.old }
{
    let pit = shelf.entry(&game.board()).ok()?.plan?;
    game.step(pit).ok()?;
    Some(pit)
}
