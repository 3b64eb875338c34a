//! The files of a folder, as who is asked by a service.

use crate::refusals::line_of_unsaid;
use crate::unsaid::Unsaid;
use awari_board::Board;
use awari_desk::Oracle;
use awari_folder::Folder;
use awari_places::Files;
use awari_play::{Table, Weighed, weigh_by};
use awari_table::{Entry, TextLine};

/// The files of a folder, which a service asks.
#[derive(Drop)]
pub(crate) struct Asked<'a, F> {
    pub(crate) files: Files<'a, F>,
}

impl<F: Folder> Oracle for Asked<'_, F> {
    ghost use Rattle.awari_boards.specs.Held.{by_lent};

    type Fault = Unsaid;

    ghost answering = { by_lent F.state };

    fn seen(&self) -> u8 {
        self.files.levels
    }

    fn ask(&mut self, board: &Board) -> Result<Entry, Unsaid> {
        let levels = self.files.levels;
        if board.stones() >= levels {
            return Err(Unsaid::NotYet { levels });
        }
        match self.files.entry(board) {
            Ok(entry) => Ok(entry),
            Err(fault) => Err(Unsaid::Folder { fault }),
        }
    }

    fn moves(&mut self, board: &Board, replies: bool) -> Result<Weighed, Unsaid> {
        let levels = self.files.levels;
        if board.stones() >= levels {
            return Err(Unsaid::NotYet { levels });
        }
        match weigh_by(&mut self.files, board, replies) {
            Ok(weighed) => Ok(weighed),
            Err(fault) => Err(Unsaid::Folder { fault }),
        }
    }

    fn line_of(fault: &Unsaid) -> TextLine {
        line_of_unsaid(*fault)
    }

    fn number_of(fault: &Unsaid) -> u8 {
        match fault {
            Unsaid::NotYet { .. } => 74,
            Unsaid::Folder { fault } => fault.number(),
        }
    }
}
