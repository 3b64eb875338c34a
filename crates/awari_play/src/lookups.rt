//! Levels that are looked up board by board: in a shelf, or in files where they lie.

ghost use Rattle.std.specs.Prelude.{◌≡◌, ◌<◌, List, IfErr, IfOk, sum};
ghost use Rattle.awari_play.specs.Saying.{IsLasting, Saying};
ghost use Rattle.awari_table.specs.Certificate.{IsRight};
ghost use Rattle.awari_table.specs.Images.{entry_of, table_of};
ghost use Rattle.awari_table.specs.declared.images.Image.{Image};

use awari_board::Board;
use awari_table::{Entry, NotYet, Shelf};

/// Levels 0, 1, 2 and so on, which are asked for the entry of one board at a time.
pub trait Table {
    /// Why a board of a level that is there has no answer. A shelf never refuses one.
    type Fault: Drop;

    /// What it says, and which refusals are due.
    ghost saying: { Saying Self Self.Fault };

    /// The entry of a board. Condition: its level is there.
    fn entry(&mut self, board: &Board) -> Result<Entry, Self::Fault>
        requires { sum board.now < (saying).levels self.old }
        ensures entry { (images : List Image) → (saying).says self.old images → IfOk result (λ e. e ≡ entry_of images board.now) }
        ensures keeps { (saying).keeps self.old self.new }
        ensures fault { IfErr result ((saying).refuses self.old board.now) };

    // What a look-up leaves as it was.
    ghost lasting: { IsLasting saying };
}

/// A table that gives the entry of a board only if that is right by all that the table says.
pub trait Judged: Table {
    /// Which refusals of boards that are judged are due.
    ghost misjudges: { Self → Self.Fault → Type 0 };

    /// The entry of a board, which is right. Condition: its level is there.
    fn judged(&mut self, board: &Board) -> Result<Entry, Self::Fault>
        requires { sum board.now < (Self.saying).levels self.old }
        ensures entry { (images : List Image) → (Self.saying).says self.old images → IfOk result (λ e. e ≡ entry_of images board.now) }
        ensures right { (images : List Image) → (Self.saying).says self.old images → IfOk result (λ _. IsRight (table_of images) board.now) }
        ensures keeps { (Self.saying).keeps self.old self.new }
        ensures fault { IfErr result (misjudges self.old) };

    // A table that is kept refuses no board that is judged otherwise.
    ghost misjudging: { (old new : Self) (fault : Self.Fault) → (Self.saying).keeps old new → misjudges new fault → misjudges old fault };
}

/// Why a play by a table is not told. `F` is why a board has no answer.
#[derive(Drop)]
pub enum Unplayed<F> {
    /// Memory ran out.
    Memory,
    /// The table refuses a board.
    Refused { fault: F },
    /// No legal pit is due on this board by what the table says. Right levels always say one.
    Illegal { board: Board },
}

impl Table for &Shelf {
    ghost use Rattle.awari_play.specs.OnShelf.{on_shelf, shelf_lasts};

    type Fault = NotYet;

    ghost saying = { on_shelf };

    ghost lasting = { shelf_lasts };

    fn entry(&mut self, board: &Board) -> Result<Entry, NotYet> {
        Shelf::entry(self, board)
    }
}

impl Judged for &Shelf {
    ghost misjudges = { λ shelf fault. ⊥ };

    ghost misjudging = { λ old new fault kept is. is };

    fn judged(&mut self, board: &Board) -> Result<Entry, NotYet> {
        let shelf = *self;
        // The levels of a shelf are consistent, so each entry of them is right.
        let there = board.stones() < shelf.levels();
        prove!(there);
        shelf.entry(board)
    }
}
