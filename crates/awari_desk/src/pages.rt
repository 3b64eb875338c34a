//! What is published, and what tells of it.

ghost use Rattle.std.specs.Prelude.{◌≡◌, [], replicate, IfOk};
ghost use Rattle.left_right.specs.Sides.{view};

use crate::books::{BookWriter, Telling};
use crate::faults::DeskFault;
use crate::publishing::add;
use crate::readers::{Reader, Told};
use awari_table::{Level, Shelf};
use core::mem::replace_with;
use std::alloc::{AllocError, Global};
use std::sync::{Arc, Wait};

/// The book that a publisher publishes, as contracts see it. It is not `Drop`, and is given up with its
/// publisher.
pub struct Pages {
    pub(crate) writer: BookWriter,
    ghost known: { view writer.desk.place ≡ writer.desk.shown.value.0 },
}

impl Pages {
    ghost use Rattle.std.specs.Prelude.{◌≡◌, ◌↔◌, IfOk, IfErr, IsTrue};
    ghost use Rattle.std.specs.Arc.{arc_value};
    ghost use Rattle.awari_desk.specs.Desks.{book_of, CanPublish, IsStuck, Publishes};
    ghost use Rattle.awari_desk.specs.declared.faults.DeskFault.TheVariants.{Readers};

    /// As `Publisher::book`.
    pub(crate) fn book(&self) -> &Shelf
        ensures { result.now ≡ book_of self.now }
    {
        &self.writer.published().0
    }

    /// As `Publisher::is_stuck`.
    pub(crate) fn is_stuck(&self) -> bool
        ensures { IsTrue result ↔ IsStuck self.now }
    {
        self.writer.has_pending_operations()
    }

    /// As `Publisher::tell`.
    pub(crate) fn tell(&mut self) -> Result<Told, DeskFault>
        ensures told { IfOk result (λ told. told ≡ book_of self.old) }
        ensures readers { IfErr result (λ fault. fault ≡ Readers) }
        ensures book { book_of self.new ≡ book_of self.old }
        ensures stuck { IsStuck self.new ↔ IsStuck self.old }
    {
        let levels = self.book().levels();
        let Ok(mut seat) = self.writer.factory().reader() else {
            return Err(DeskFault::Readers);
        };
        let note = self.writer.tell::<Telling>();
        seat.learn::<Telling>(note);
        Ok(Told {
            reader: Reader { seat, levels },
        })
    }

    /// As `Publisher::publish`.
    pub(crate) fn publish<R: Wait>(
        &mut self,
        rt: &R,
        level: Arc<Level, Global>,
    ) -> Result<(), DeskFault>
        requires { CanPublish (arc_value level) self.old }
        ensures { Publishes (arc_value level) result self.old self.new }
    {
        replace_with(self, level, |pages, level| add(rt, pages, level))
    }

    /// As `Publisher::close`.
    pub(crate) fn close<R: Wait>(self, rt: &R) {
        let Self { writer } = self;
        drop(writer.take(rt));
    }
}

/// This many readers that have seen nothing yet.
pub(crate) fn new_readers(
    alloc: Global,
    pages: &Pages,
    count: u8,
) -> Result<Vec<Reader>, AllocError>
    ensures { IfOk result (λ readers. readers.items ≡ replicate count []) }
{
    let mut readers = Vec::with_capacity(alloc, usize::from(count))?;
    for _reader in 0..count {
        let seat = pages.writer.factory().reader()?;
        readers.push(Reader { seat, levels: 0 })?;
    }
    Ok(readers)
}
