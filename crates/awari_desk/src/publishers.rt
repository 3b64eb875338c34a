//! The publisher of the book.

use crate::faults::DeskFault;
use crate::pages::Pages;
use crate::readers::Told;
use awari_table::{Level, Shelf};
use std::alloc::Global;
use std::sync::{Arc, Wait};

/// The publisher of a book. It keeps the handle `R`, since dropping it ends the desk and can wait for
/// readers.
pub struct Publisher<R: Wait + Drop> {
    /// The book, of which contracts speak.
    pub pages: Pages,
    pub(crate) rt: R,
}

impl<R: Wait + Drop> Publisher<R> {
    ghost use Rattle.std.specs.Prelude.{◌≡◌, ◌↔◌, IfOk, IfErr, IsTrue};
    ghost use Rattle.std.specs.Arc.{arc_value};
    ghost use Rattle.awari_desk.specs.Desks.{book_of, CanPublish, IsStuck, Publishes};
    ghost use Rattle.awari_desk.specs.declared.faults.DeskFault.TheVariants.{Readers};

    /// What readers see now. It never waits, and takes no memory.
    pub fn book(&self) -> &Shelf
        ensures { result.now ≡ book_of self.now.pages }
    {
        self.pages.book()
    }

    /// Whether a publication was refused in the middle: its level could not be shared, and is left
    /// pending. Then each later one that is not 71 is 73. It never waits, and takes no memory.
    pub fn is_stuck(&self) -> bool
        ensures { IsTrue result ↔ IsStuck self.now.pages }
    {
        self.pages.is_stuck()
    }

    /// Tells of the whole book, for a reader to learn. Refused as 72 `Readers` if no place is free: there
    /// is one for each reader, and one for each book that a desk can have. So a publisher that tells of
    /// each book once is never refused. It never waits, and takes no memory.
    pub fn tell(&mut self) -> Result<Told, DeskFault>
        ensures told { IfOk result (λ told. told ≡ book_of self.old.pages) }
        ensures readers { IfErr result (λ fault. fault ≡ Readers) }
        ensures book { book_of self.new.pages ≡ book_of self.old.pages }
        ensures stuck { IsStuck self.new.pages ↔ IsStuck self.old.pages }
    {
        self.pages.tell()
    }

    /// Puts a level on top of the book, at once for every reader. Condition: if it is the book's next
    /// level, it is consistent over the book. Refused as 71 `NotNext` if it is not the next level,
    /// and as 73 `Memory` if memory runs out. After a refusal the book is as it was, and the call may
    /// be made again. But once a level that was to be published could not be shared, the publisher
    /// [is stuck](Publisher::is_stuck). It can wait for readers.
    pub fn publish(&mut self, level: Arc<Level, Global>) -> Result<(), DeskFault>
        requires { CanPublish (arc_value level) self.old.pages }
        ensures { Publishes (arc_value level) result self.old.pages self.new.pages }
    {
        self.pages.publish(&self.rt, level)
    }

    /// Ends the desk. It can wait for readers, as dropping the publisher can.
    pub fn close(self) {}
}

impl<R: Wait + Drop> Drop for Publisher<R> {
    fn drop(self) {
        let Self { pages, rt } = self;
        pages.close(&rt);
    }
}
