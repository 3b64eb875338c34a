//! Play by what the files say: by the plans of both sides, or with one that holds out.

ghost use Rattle.std.specs.Prelude.{◌≡◌, List, IfErr, IfOk, sum};
ghost use Rattle.awari_folder.specs.State.{Unchanged};
ghost use Rattle.awari_game.specs.Plays.{IsPlay, Standing, start};
ghost use Rattle.awari_play.specs.BestLine.{IsBestLine};
ghost use Rattle.awari_play.specs.LongestLine.{IsLongestLine};
ghost use Rattle.awari_table.specs.Images.{table_of};
ghost use Rattle.awari_table.specs.declared.images.Image.{Image};
ghost use Rattle.awari_places.specs.Faults.{IsLineFault, IsLongestFault, IsLowAt, unplayed_fault};
ghost use Rattle.awari_places.specs.Places.{IsLevelOf, Says};

use crate::files::Files;
use crate::judging::broken;
use crate::opening::Opened;
use awari_board::Board;
use awari_folder::{Folder, FolderFault};
use awari_play::{Line, Unplayed, best_line_by, longest_line_by};
use awari_verify::Rule;
use std::alloc::Global;

/// The play from a board in which both sides follow the plans that the files say, up to the first outcome
/// by the greatest limit of the files. Condition: the board's level is one of those that
/// [`open_levels`](crate::open_levels) found. It always returns, whatever the files say.
///
/// It is refused as [`entry`](crate::entry) is, as 83 with V3 if a plan is not legal, and as 84 if memory
/// runs out. It takes memory for the moves, a byte each, and for names.
pub fn best_line<F: Folder>(
    alloc: Global,
    folder: &mut F,
    opened: Opened,
    board: Board,
) -> Result<Line, FolderFault>
    requires { IsLevelOf opened.levels (sum board) }
    ensures line { (images : List Image) → Says (F.state folder.old).stands opened.levels images → IfOk result (λ line. IsBestLine (table_of images) opened.limit board line.moves.items line.outcome) }
    ensures play { IfOk result (λ line. (last : Standing) × IsPlay (start board) line.moves.items last) }
    ensures same { Unchanged (F.state folder.old) (F.state folder.new) }
    ensures fault { IfErr result (IsLineFault opened.levels (F.state folder.old).stands) }
{
    let mut files = Files {
        folder,
        levels: opened.levels,
    };
    match best_line_by(alloc, &mut files, board, opened.limit) {
        Ok(line) => Ok(line),
        Err(unplayed) => Err(unplayed_fault(unplayed, Rule::V3)),
    }
}

/// The pits of the play from a board in which the side that it favours follows the plans that the files
/// say, and the other side holds out as long as it can. Condition: the board's level is one of the
/// `levels` that [`open_levels`](crate::open_levels) found. It always returns, whatever the files say.
///
/// Each board of the play is judged by the rules V1 to V6. It is refused as 83 if one breaks a rule, and
/// as [`entry`](crate::entry) is, and as 84 if memory runs out. It takes memory for the moves, a byte
/// each, and for names.
pub fn longest_line<F: Folder>(
    alloc: Global,
    folder: &mut F,
    levels: u8,
    board: Board,
) -> Result<Vec<u8>, FolderFault>
    requires { IsLevelOf levels (sum board) }
    ensures line { (images : List Image) → Says (F.state folder.old).stands levels images → IfOk result (λ moves. IsLongestLine (table_of images) board moves.items) }
    ensures play { IfOk result (λ moves. (last : Standing) × IsPlay (start board) moves.items last) }
    ensures same { Unchanged (F.state folder.old) (F.state folder.new) }
    ensures fault { IfErr result (IsLongestFault levels (F.state folder.old).stands) }
{
    let mut files = Files { folder, levels };
    match longest_line_by(alloc, &mut files, board) {
        Ok(moves) => Ok(moves),
        Err(unplayed) => Err(unplayed_fault(unplayed, Rule::V6)),
    }
}

/// The refusal of a play that is not told by files: a board where no legal pit is due breaks this rule.
pub(crate) fn unplayed_fault(unplayed: Unplayed<FolderFault>, rule: Rule) -> FolderFault
    requires { IsLowAt unplayed }
    ensures { result ≡ unplayed_fault rule unplayed }
{
    match unplayed {
        Unplayed::Memory => FolderFault::Memory,
        Unplayed::Refused { fault } => fault,
        Unplayed::Illegal { board } => broken(&board, rule),
    }
}
