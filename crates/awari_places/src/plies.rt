//! A line of play ply by ply, by the files where they lie.

ghost use Rattle.std.specs.Prelude.{◌≡◌, ◌≤◌, List, IfErr, IfOk, IfSome, length, sum};
ghost use Rattle.awari_folder.specs.State.{Unchanged};
ghost use Rattle.awari_play.specs.Plies.{AreLinePlies};
ghost use Rattle.awari_table.specs.Images.{greatest_limit};
ghost use Rattle.awari_table.specs.declared.images.Image.{Image};
ghost use Rattle.awari_places.specs.Faults.{IsPliesFault, rule_due};
ghost use Rattle.awari_places.specs.Places.{IsLevelOf, Says};

use crate::files::Files;
use crate::lines::unplayed_fault;
use crate::opening::Opened;
use awari_board::Board;
use awari_folder::{Folder, FolderFault};
use awari_play::{LinePlies, line_plies_by};
use awari_verify::Rule;
use std::alloc::Global;

/// The plies of the best line of play from a board by what the files say, or of the longest line. Condition:
/// the board's level is one of those that [`open_levels`](crate::open_levels) found.
///
/// It is refused as [`best_line`](crate::best_line) or [`longest_line`](crate::longest_line) is. It takes memory for the plies, and for names.
pub fn line_plies<F: Folder>(
    alloc: Global,
    folder: &mut F,
    opened: Opened,
    board: Board,
    longest: bool,
) -> Result<LinePlies, FolderFault>
    requires { IsLevelOf opened.levels (sum board) }
    ensures plies { (images : List Image) → Says (F.state folder.old).stands opened.levels images → opened.limit ≡ greatest_limit images
        → IfOk result (λ found. AreLinePlies longest images board found.plies.items found.repeat) }
    ensures within { IfOk result (λ found. IfSome found.repeat (λ r. r.again ≤ length found.plies.items)) }
    ensures same { Unchanged (F.state folder.old) (F.state folder.new) }
    ensures fault { IfErr result (IsPliesFault longest opened.levels (F.state folder.old).stands) }
{
    let mut files = Files {
        folder,
        levels: opened.levels,
    };
    match line_plies_by(alloc, &mut files, board, opened.limit, longest) {
        Ok(plies) => Ok(plies),
        Err(unplayed) => Err(unplayed_fault(unplayed, rule_due(longest))),
    }
}

/// The rule that a board breaks where no legal pit is due on the longest line, or on the best line.
fn rule_due(longest: bool) -> Rule
    ensures { result ≡ rule_due longest }
{
    if longest { Rule::V6 } else { Rule::V3 }
}
