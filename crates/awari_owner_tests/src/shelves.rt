//! The shelf that the tests stand on.

ghost use Rattle.std.specs.Prelude.{◌≡◌, IfOk, length};

use crate::expect::expect_equal;
use awari_build::build_alone;
use awari_table::Shelf;
use std::alloc::Global;
use std::process::Abort;
use std::sync::Arc;
use std::test::Fail;

/// The shelf of level 0.
pub(crate) fn one_level(alloc: Global) -> Result<Shelf, Fail>
    ensures { IfOk result (λ shelf. length shelf ≡ 1) }
{
    let mut shelf = Shelf::empty();
    let level = build_alone(alloc, &shelf)?;
    shelf.push(Arc::new(alloc, level)?);
    Ok(shelf)
}

/// The shelf with this many levels.
pub(crate) fn levels_below(alloc: Global, count: u8) -> Result<Shelf, Fail> {
    let mut shelf = Shelf::empty();
    for _level in 0..count {
        let level = build_alone(alloc, &shelf)?;
        shelf.push(Arc::new(alloc, level)?);
    }
    Ok(shelf)
}

/// The shelf has this many levels and this limit.
pub(crate) fn expect_limit(rt: &impl Abort, shelf: &Shelf, levels: u8, limit: u32) {
    let found = (shelf.levels(), shelf.limit());
    expect_equal(rt, "levels and limit", found, (levels, limit));
}
