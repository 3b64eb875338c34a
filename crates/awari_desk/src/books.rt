//! The book that is published, and the rule over what is known of it.

use atomic_table::{Join, Split};
use awari_table::{Image, Shelf};
use crossbeam_utils::rule::{Outcome, Protocol};
use left_right::Absorb;
use left_right::reader::Reader;
use left_right::writer::Writer;
use std::alloc::AllocError;
use std::collections::LinkedList;

/// What readers take: a shelf.
#[derive(Drop)]
pub struct Book(
    /// The levels that it has.
    pub Shelf,
);

impl Absorb<Shelf> for Book {
    // A clause reads an array as a list, of any length.
    type State = [Image; 0];

    ghost state = { λ book. book.0 };

    ghost applied = { λ _ next. next };

    fn absorb_first(&mut self, next: &Shelf, _other: &Book) -> Result<(), AllocError> {
        self.0 = next.share()?;
        Ok(())
    }

    fn absorb_second(&mut self, next: Shelf, _other: &Book) -> Result<(), Shelf> {
        self.0 = next;
        Ok(())
    }
}

/// What a thread knows of the book: the levels that it has seen or was told of. Only contracts have
/// values of it.
pub type Known = LinkedList<Image>;

/// The book begins with all that anyone knows of it.
pub struct Growing;

impl Protocol<Book, Known> for Growing {
    ghost use Rattle.std.specs.Prelude.{[]};
    ghost use Rattle.awari_desk.specs.Books.{BeginsWithAll};

    ghost holds = { λ book. BeginsWithAll book.0 };

    ghost first = { [] };
}

/// A look at the book: it begins with what was known, and is known then.
pub(crate) struct Look;

impl Outcome<Book, Known> for Look {
    ghost use Rattle.awari_desk.specs.Books.{Sees};

    ghost then = { λ known _ book now. Sees known book.0 now };
}

/// The publisher's knowledge is cut in two, and a new reader takes one.
pub(crate) struct Telling;

impl Split<Known> for Telling {
    ghost left = { λ known. known };

    ghost right = { λ known. known };
}

impl Join<Known> for Telling {
    ghost use Rattle.std.specs.Prelude.{[]};

    ghost both = { λ _ told. told };

    ghost spent = { [] };
}

pub(crate) type Seat = Reader<Book, Known, Growing>;

pub(crate) type BookWriter = Writer<Book, Shelf, Known, Growing>;
