//! One step of the publisher.

ghost use Rattle.std.specs.Prelude.{◌≡◌, [], ◌∷◌, ◌++◌, Ok, OnOk};
ghost use Rattle.std.specs.Arc.{arc_value};
ghost use Rattle.awari_table.specs.Shelves.{Consistent};
ghost use Rattle.awari_desk.specs.Desks.{CanPublish, Publishes};

use crate::books::Look;
use crate::faults::DeskFault;
use crate::pages::Pages;
use awari_table::{Level, Shelf};
use std::alloc::{AllocError, Global};
use std::sync::{Arc, Wait};

/// The book with a level more.
fn longer_book(book: &Shelf, level: Arc<Level, Global>) -> Result<Shelf, AllocError>
    requires { Consistent book.now (arc_value level) }
    ensures { OnOk result (result ≡ Ok (book.now ++ arc_value level ∷ [])) }
{
    let mut next = book.share()?;
    next.push(level);
    Ok(next)
}

/// The pages with the level published, or as they were. What was refused within a publication is
/// left pending, and nothing is published from then on.
pub(crate) fn add<R: Wait>(
    rt: &R,
    pages: Pages,
    level: Arc<Level, Global>,
) -> (Pages, Result<(), DeskFault>)
    requires { CanPublish (arc_value level) pages }
    ensures { Publishes (arc_value level) result.1 pages result.0 }
{
    let Pages { mut writer } = pages;
    let book = &writer.published().0;
    if level.number() != book.levels() {
        return (Pages { writer }, Err(DeskFault::NotNext));
    }
    if writer.has_pending_operations() {
        return (Pages { writer }, Err(DeskFault::Memory));
    }
    let Ok(next) = longer_book(book, level) else {
        return (Pages { writer }, Err(DeskFault::Memory));
    };
    let Ok(()) = writer.append(next) else {
        return (Pages { writer }, Err(DeskFault::Memory));
    };
    let (writer, published) = writer.publish_as::<Look, R>(rt);
    match published {
        Ok(()) => (Pages { writer }, Ok(())),
        Err(AllocError) => (Pages { writer }, Err(DeskFault::Memory)),
    }
}
