//! What the host says of a call that it refused, for a person. Of it nothing is promised.

use std::alloc::{AllocError, Global};
use std::cell::Cell;
use std::fmt;
use std::io::Error;
use std::rc::Rc;

/// What the host said last of a call that it refused, and of which file. It is printed as the name of
/// that file in its folder, if it is one, and the host's words.
#[derive(Clone, Copy)]
pub struct Said {
    /// The file.
    pub named: Named,
    /// The host's words.
    pub error: Error,
}

/// What a call was about.
#[derive(Clone, Copy, Debug, PartialEq, Eq)]
pub enum Named {
    /// The folder itself.
    Folder,
    /// The file of this level.
    Level(u8),
    /// The new file beside that of this level.
    New(u8),
}

impl fmt::Display for Named {
    fn fmt<W: fmt::Write>(&self, f: &mut fmt::Formatter<W>) -> fmt::Result {
        match *self {
            Named::Folder => f.write_str("."),
            Named::Level(level) => write!(f, "level_{level:02}.awdb"),
            Named::New(level) => write!(f, "level_{level:02}.awdb.new"),
        }
    }
}

/// A place for the host's words that a folder and its files share.
#[derive(Drop)]
pub(crate) struct Words(Rc<Cell<Option<Said>>>);

impl Words {
    /// A new place, with no words yet. It takes memory for it.
    pub(crate) fn new(alloc: Global) -> Result<Words, AllocError> {
        Ok(Words(Rc::new(alloc, Cell::new(None))?))
    }

    /// The same place for another.
    pub(crate) fn share(&self) -> Result<Words, AllocError> {
        Ok(Words(self.0.clone()?))
    }

    /// Keeps what the host said of a file, in place of what it said before.
    pub(crate) fn keep(&self, named: Named, error: Error) {
        self.0.set(Some(Said { named, error }));
    }

    /// What the host said last.
    pub(crate) fn last(&self) -> Option<Said> {
        self.0.get()
    }
}
