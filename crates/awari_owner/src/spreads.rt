//! The predecessors of a board that is spread, and how they hear of it. Those in the block hear at once,
//! the others by notes that go to their owners' queues.

ghost use Rattle.std.specs.Prelude.{◌%◌, ◌≡◌, ℕ, ◌+◌, ◌<◌, ◌≤◌, ◌/◌, ◌∷◌, [], sum, vec_len, false};
ghost use Rattle.awari_board.specs.Rules.{IsBoard};
ghost use Rattle.awari_rank.specs.Rank.{size_of};
ghost use Rattle.awari_owner.specs.Queues.{queue_in, room_in};
ghost use Rattle.awari_block.specs.Boards.{CanTell, Settles, stake_of};
ghost use Rattle.awari_owner.specs.Predecessors.{ArePredecessors};
ghost use Rattle.awari_scan.specs.Found.{IsCodeOf, Source};
ghost use Rattle.awari_heard.specs.Heard.{HearsNotes};
ghost use Rattle.awari_owner.specs.Spread.{is_held, own_notes, TellsAll, with_sent};

use crate::queues::Queue;
use awari_block::{Boards, InOrder, Kind};
use awari_board::moves_keep_boards;
use awari_packed::PackedBoard;
use awari_rank::ranks_tell_boards_apart;
use awari_scan::{MOST_PREDECESSORS, find_all};

/// The predecessors of a board.
#[derive(Drop)]
pub struct Predecessors {
    pub board: PackedBoard,
    /// How many there are.
    pub count: usize,
    /// They are the first of these, each as `find_all` has it.
    pub targets: [u32; MOST_PREDECESSORS],
}

impl Predecessors {
    /// Those of this board. It takes no memory.
    pub fn of(board: PackedBoard) -> Predecessors
        requires board { IsBoard board }
        requires low { sum board ≤ 24 }
        ensures same { result.board ≡ board }
        ensures found { ArePredecessors (sum board) result }
    {
        let mut targets = [0; MOST_PREDECESSORS];
        let count = find_all(&board, &mut targets[..]);
        Predecessors {
            board,
            count,
            targets,
        }
    }
}

/// Tells the predecessors of a board that it is won or lost. A block has `span` boards.
pub fn tell_all(
    boards: &mut Boards<InOrder>,
    queues: &mut Vec<Queue>,
    predecessors: &Predecessors,
    span: u32,
    kind: Kind,
)
    requires can { CanTell (stake_of boards.old) }
    requires found { ArePredecessors boards.old.level predecessors.now }
    requires blocks { 0 < span }
    requires room { (r : ℕ) → r < size_of boards.old.level → is_held boards.old r ≡ false
        → (r / span < vec_len queues.old) × (288 ≤ room_in queues.old.items (r / span)) }
    ensures { TellsAll predecessors.now.board kind span boards.old boards.new queues.old.items queues.new.items }
{
    moves_keep_boards();
    for k in 0..predecessors.count {
        tell_one(boards, queues, span, kind, predecessors.targets[k]);
    }
}

/// Tells a predecessor, of which this is the code, that its quiet move leads to a won or a lost board.
#[inline(always)]
fn tell_one(boards: &mut Boards<InOrder>, queues: &mut Vec<Queue>, span: u32, kind: Kind, code: u32)
    requires can { CanTell (stake_of boards.old) }
    requires own { code % 8 < 6 }
    requires blocks { 0 < span }
    requires room { is_held boards.old (code / 8) ≡ false
        → (code / 8 / span < vec_len queues.old) × (0 < room_in queues.old.items (code / 8 / span)) }
    ensures told { (y : Source) → IsCodeOf y code → HearsNotes (own_notes boards.old kind (y ∷ [])) boards.old boards.new }
    ensures sent { (y : Source) → IsCodeOf y code → (to : ℕ) → to < vec_len queues.old → queue_in queues.new.items to
        ≡ with_sent boards.old span to kind (queue_in queues.old.items to) y }
    ensures room { (to : ℕ) → room_in queues.old.items to ≤ room_in queues.new.items to + 1 }
    ensures queues { vec_len queues.new ≡ vec_len queues.old }
    ensures settles { Settles boards.old boards.new }
{
    ranks_tell_boards_apart();
    let rank = code / 8;
    let pit = (code % 8) as u8;
    if !boards.holds(rank) {
        let note = boards.note(rank, pit, kind);
        queues[(rank / span) as usize].put(note);
        return;
    }
    let Ok(()) = boards.hear(rank, pit, kind) else {
        unreachable!()
    };
}
