//! A desk: a book with no level at first, and its readers.

ghost use Rattle.std.specs.Prelude.{◌≡◌, ◌<◌, ◌↔◌, ◌⊎◌, ◌≢◌, [], Err, IfOk, replicate};
ghost use Rattle.awari_desk.specs.Desks.{book_of, IsStuck};
ghost use Rattle.awari_desk.specs.declared.faults.DeskFault.TheVariants.{NotNext, Readers};

use crate::books::{Book, BookWriter};
use crate::faults::DeskFault;
use crate::pages::{Pages, new_readers};
use crate::publishers::Publisher;
use crate::readers::Reader;
use awari_table::{HIGHEST_LEVEL, Shelf};
use std::alloc::Global;
use std::sync::Wait;

/// The most readers that a desk may have.
pub const MOST_READERS: u8 = 8;

/// The books that a desk can have: with no level, and with each highest level.
const BOOKS: usize = HIGHEST_LEVEL as usize + 2;

/// The publisher of a book that has no level yet, and `readers` readers of it, which have seen
/// nothing. What the publisher tells takes places of its own, one for each book. Refused as 72 `Readers` if
/// there are not 1 to 8 readers, else as 73 `Memory` if memory runs out.
pub fn desk<R: Wait + Drop>(
    rt: R,
    alloc: Global,
    readers: u8,
) -> Result<(Publisher<R>, Vec<Reader>), DeskFault>
    ensures book { IfOk result (λ made. book_of made.0.pages ≡ []) }
    ensures free { IfOk result (λ made. IsStuck made.0.pages → ⊥) }
    ensures unseen { IfOk result (λ made. made.1.items ≡ replicate readers []) }
    ensures readers { (result ≡ Err Readers) ↔ ((readers ≡ 0) ⊎ (MOST_READERS < readers)) }
    ensures other { result ≢ Err NotNext }
{
    if readers == 0 || readers > MOST_READERS {
        return Err(DeskFault::Readers);
    }
    let places = usize::from(readers) + BOOKS;
    let first = Book(Shelf::empty());
    let second = Book(Shelf::empty());
    let writer = BookWriter::new(alloc, first, second, places)?;
    let publisher = Publisher {
        pages: Pages { writer },
        rt,
    };
    let readers = new_readers(alloc, &publisher.pages, readers)?;
    Ok((publisher, readers))
}
