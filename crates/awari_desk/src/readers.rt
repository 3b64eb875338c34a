//! The readers of a book, and what they are told.

ghost use Rattle.std.specs.Prelude.{◌≡◌, length, max};

use crate::answers::line_of_text;
use crate::books::Seat;
use crate::faults::AskFault;
use crate::looks::{Question, look, look_at_moves};
use crate::oracles::Oracle;
use awari_board::Board;
use awari_play::Weighed;
use awari_streams::{TextLine, numbered_line};
use awari_table::Entry;
use core::mem::replace_with;
use std::marker::Model;

/// A reader of the book that a publisher publishes. A contract sees it as the levels that it knows:
/// those of the longest book that it has seen or was told of.
#[derive(Drop)]
pub struct Reader {
    pub(crate) seat: Seat,
    pub(crate) levels: u8,
}

impl Model for Reader {
    ghost use Rattle.std.specs.Prelude.{◌≡◌, List, length};
    ghost use Rattle.left_right.specs.Sides.{view as known_at};
    ghost use Rattle.awari_table.specs.declared.images.Image.{Image};

    ghost Value = { List Image };

    ghost view = { λ r. known_at r.seat.place };

    ghost invariant = { λ r. r.levels ≡ length (known_at r.seat.place) };
}

/// What a publisher told: all levels that its book had then. A contract sees it as those levels. It
/// holds a place of the desk until it is learnt or dropped.
#[derive(Drop)]
pub struct Told {
    pub(crate) reader: Reader,
}

impl Model for Told {
    ghost use Rattle.std.specs.Prelude.{List};
    ghost use Rattle.awari_table.specs.declared.images.Image.{Image};

    ghost Value = { List Image };

    ghost view = { λ told. told.reader };
}

impl Reader {
    ghost use Rattle.awari_desk.specs.Books.{AreOfOneBook, BeginsWith, longer_of};
    ghost use Rattle.awari_desk.specs.Desks.{IsAnswer, IsWeighing};

    /// How many levels the longest book has that this reader has seen or was told of.
    pub fn seen(&self) -> u8
        ensures { result ≡ length self.now }
    {
        self.levels
    }

    /// What the book that is published now says of the board. This book begins with all that this
    /// reader knows, and is what it knows from then on. Refused as 74 `NotYet` if the board has at
    /// least as many stones as that book has levels, and as 75 `Gone` after the publisher was closed.
    /// It never waits, and takes no memory.
    pub fn ask(&mut self, board: &Board) -> Result<Entry, AskFault>
        ensures { IsAnswer self.old self.new board.now result }
    {
        let Some(seen) = replace_with(&mut self.seat, board, look) else {
            return Err(AskFault::Gone);
        };
        self.levels = seen.levels;
        match seen.answer {
            Ok(entry) => Ok(entry),
            Err(_) => Err(AskFault::NotYet {
                levels: seen.levels,
            }),
        }
    }

    /// What the book that is published now says of the board and of its legal moves, and of the replies
    /// to each if `replies` asks for them. This book begins with all that this reader knows, and is what
    /// it knows from then on. Refused as 74 `NotYet` if the board has at least as many stones as that
    /// book has levels, and as 75 `Gone` after the publisher was closed. It never waits, and takes no
    /// memory.
    pub fn moves(&mut self, board: &Board, replies: bool) -> Result<Weighed, AskFault>
        ensures { IsWeighing replies self.old self.new board.now result }
    {
        let asked = Question {
            board: *board,
            replies,
        };
        let Some(seen) = replace_with(&mut self.seat, asked, look_at_moves) else {
            return Err(AskFault::Gone);
        };
        self.levels = seen.levels;
        match seen.answer {
            Ok(weighed) => Ok(weighed),
            Err(_) => Err(AskFault::NotYet {
                levels: seen.levels,
            }),
        }
    }

    /// Learns what was told, if that is more than this reader knows. Either way one of the two places
    /// is given back. It never waits, and takes no memory.
    pub fn learn(&mut self, told: Told)
        ensures known { self.new ≡ longer_of self.old told }
        ensures seen { length self.new ≡ max (length self.old) (length told) }

        // What the publisher of one desk told, and what a reader of that desk knows, are of one book.
        ensures begins { AreOfOneBook self.old told → BeginsWith self.new self.old × BeginsWith self.new told }
    {
        let Told { reader } = told;
        if self.levels < reader.levels {
            *self = reader;
        }
    }
}

impl Oracle for Reader {
    ghost use Rattle.awari_desk.specs.Desks.{by_reader};

    type Fault = AskFault;

    ghost answering = { by_reader };

    fn seen(&self) -> u8 {
        Reader::seen(self)
    }

    fn ask(&mut self, board: &Board) -> Result<Entry, AskFault> {
        Reader::ask(self, board)
    }

    fn moves(&mut self, board: &Board, replies: bool) -> Result<Weighed, AskFault> {
        Reader::moves(self, board, replies)
    }

    fn line_of(fault: &AskFault) -> TextLine {
        match fault {
            AskFault::NotYet { levels } => numbered_line(b"not yet ", *levels),
            AskFault::Gone => line_of_text(b"gone\n"),
        }
    }

    fn number_of(fault: &AskFault) -> u8 {
        fault.number()
    }
}
