//! Who is asked by a service.

ghost use Rattle.std.specs.Prelude.{◌≡◌};
ghost use Rattle.awari_desk.specs.Answering.{Answering};

use awari_board::Board;
use awari_play::Weighed;
use awari_table::{Entry, TextLine};

/// Who is asked by a service: a [`Reader`](crate::Reader), or another that looks boards up.
pub trait Oracle {
    /// Why a board is not answered.
    type Fault: Drop;

    /// What its answers are, and how its refusals are told.
    ghost answering: { Answering Self Self.Fault };

    /// How many levels are known.
    fn seen(&self) -> u8
        ensures { result ≡ (answering).seen self.now };

    /// The entry of a board.
    fn ask(&mut self, board: &Board) -> Result<Entry, Self::Fault>
        ensures { (answering).entry self.old self.new board.now result };

    /// The entry of a board and what its legal moves are worth, with the replies to each if `replies`
    /// asks for them.
    fn moves(&mut self, board: &Board, replies: bool) -> Result<Weighed, Self::Fault>
        ensures { (answering).moves replies self.old self.new board.now result };

    /// The line that tells of a refusal, with its line feed.
    fn line_of(fault: &Self::Fault) -> TextLine
        ensures { result.items ≡ (answering).line fault.now };

    /// The number of a refusal.
    fn number_of(fault: &Self::Fault) -> u8
        ensures { result ≡ (answering).number fault.now };
}
