//! Boards that are judged by the rules of a table, one by one.

ghost use Rattle.std.specs.Prelude.{◌≡◌, ◌<◌, ◌≤◌, ℕ, List, None, IfErr, IfOk, length, slice_index_or, sum};
ghost use Rattle.awari_board.specs.Rules.{IsBoard};
ghost use Rattle.awari_folder.specs.declared.faults.FolderFault.TheVariants.{Verify};
ghost use Rattle.awari_play.specs.Saying.{IsRefusedIn};
ghost use Rattle.awari_rank.specs.Rank.{rank_of};
ghost use Rattle.awari_table.specs.Images.{entry_of, table_of};
ghost use Rattle.awari_table.specs.Reached.{Reaches};
ghost use Rattle.awari_table.specs.declared.TheConstants.{HIGHEST_LEVEL};
ghost use Rattle.awari_table.specs.declared.images.Image.{Image};
ghost use Rattle.awari_verify.specs.Sights.{Sees};
ghost use Rattle.awari_verify.specs.declared.verdicts.VerifyFault.TheVariants.{Refused};

use crate::files::Files;
use awari_board::{Board, SIDE};
use awari_folder::{Folder, FolderFault};
use awari_play::{Judged, Table, reached};
use awari_rank::rank;
use awari_table::{Entry, Reached};
use awari_verify::{Rule, Seen, VerifyFault, first_broken_rule};

impl<F: Folder> Judged for Files<'_, F> {
    ghost use Rattle.awari_places.specs.Asked.{misjudged_by};
    ghost use Rattle.awari_places.specs.Lasting.{misjudged_before};

    ghost misjudges = { misjudged_by F.state };

    ghost misjudging = { misjudged_before F.state };

    /// The entry of a board. It is refused as 83 if the board breaks a rule by what the files say.
    fn judged(&mut self, board: &Board) -> Result<Entry, FolderFault> {
        let seen = see(self, board)?;
        match first_broken_rule(&seen) {
            None => Ok(seen.entry),
            Some(rule) => Err(broken(board, rule)),
        }
    }
}

/// The refusal of a board that breaks a rule.
pub(crate) fn broken(board: &Board, rule: Rule) -> FolderFault
    requires { sum board.now ≤ HIGHEST_LEVEL }
    ensures board { IsBoard board.now }
    ensures told { result ≡ Verify (sum board.now) (Refused (rank_of board.now) rule) }
{
    FolderFault::Verify {
        level: board.stones(),
        fault: VerifyFault::Refused {
            rank: rank(board),
            rule,
        },
    }
}

/// What a table says of a board and of its moves. Condition: the board's level is there.
fn see<T: Table>(table: &mut T, board: &Board) -> Result<Seen, T::Fault>
    requires { sum board.now < T.saying.levels table.old }
    ensures entry { (images : List Image) → T.saying.says table.old images → IfOk result (λ seen. seen.entry ≡ entry_of images board.now) }
    ensures sees { (images : List Image) → T.saying.says table.old images → IfOk result (Sees (table_of images) board.now) }
    ensures keeps { T.saying.keeps table.old table.new }
    ensures fault { IfErr result (IsRefusedIn T.saying table.old) }
{
    let entry = table.entry(board)?;
    let moves = see_moves(table, board)?;
    Ok(Seen {
        stones: board.stones(),
        entry,
        end: board.end(),
        moves,
    })
}

/// Where the moves of a board's pits lead, none for a pit that is not legal.
fn see_moves<T: Table>(table: &mut T, board: &Board) -> Result<[Option<Reached>; 6], T::Fault>
    requires { sum board.now < T.saying.levels table.old }
    ensures six { IfOk result (λ moves. length moves ≡ 6) }
    ensures moves { (images : List Image) → T.saying.says table.old images
        → IfOk result (λ moves. (x : ℕ) → x < 6 → Reaches (table_of images) board.now x (slice_index_or moves x None)) }
    ensures keeps { T.saying.keeps table.old table.new }
    ensures fault { IfErr result (IsRefusedIn T.saying table.old) }
{
    let mut moves = [None; 6];
    for pit in 0..SIDE {
        moves[pit as usize] = see_move(table, board, pit)?;
    }
    Ok(moves)
}

/// Where the move of a pit leads, if the pit is legal.
fn see_move<T: Table>(table: &mut T, board: &Board, pit: u8) -> Result<Option<Reached>, T::Fault>
    requires { sum board.now < T.saying.levels table.old }
    ensures reached { (images : List Image) → T.saying.says table.old images → IfOk result (Reaches (table_of images) board.now pit) }
    ensures keeps { T.saying.keeps table.old table.new }
    ensures fault { IfErr result (IsRefusedIn T.saying table.old) }
{
    if !board.legal(pit) {
        return Ok(None);
    }
    Ok(Some(reached(table, board, pit)?))
}
