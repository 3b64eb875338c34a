//! A board's entry and what its moves are worth, by the files where they lie.

ghost use Rattle.std.specs.Prelude.{◌≡◌, List, IfErr, IfOk, sum};
ghost use Rattle.awari_folder.specs.State.{Unchanged};
ghost use Rattle.awari_play.specs.Worths.{IsWeighed};
ghost use Rattle.awari_table.specs.declared.images.Image.{Image};
ghost use Rattle.awari_places.specs.Faults.{IsLookFault};
ghost use Rattle.awari_places.specs.Places.{IsLevelOf, Says};

use crate::files::Files;
use awari_board::Board;
use awari_folder::{Folder, FolderFault};
use awari_play::{Weighed, weigh_by};

/// What the files say of a board and of its legal moves, and of the replies to each if `replies` asks
/// for them. Condition: the board's level is one of the `levels` that
/// [`open_levels`](crate::open_levels) found. It reads six bytes for each board that is looked at, and
/// takes memory for names alone. It is refused as [`entry`](crate::entry) is.
pub fn weigh<F: Folder>(
    folder: &mut F,
    levels: u8,
    board: &Board,
    replies: bool,
) -> Result<Weighed, FolderFault>
    requires { IsLevelOf levels (sum board.now) }
    ensures weighed { (images : List Image) → Says (F.state folder.old).stands levels images → IfOk result (IsWeighed replies images board.now) }
    ensures same { Unchanged (F.state folder.old) (F.state folder.new) }
    ensures fault { IfErr result (IsLookFault levels (F.state folder.old).stands) }
{
    let mut files = Files { folder, levels };
    weigh_by(&mut files, board, replies)
}
