//! Examples that stand whole at the head of the library they call.

use crate::expect::{expect, expect_equal};
use awari_index::Index;
use awari_lines::{grid, settle};
use awari_segments::{log_of, nearest, scanned_segments};
use awari_table::Shelf;
use std::test::Fail;

#[test]
fn rings_begin_empty(rt: HostRuntime) -> Result<(), Fail> {
    let mut all = grid::<u32>(rt.alloc(), 3, 1)?;
    expect_equal(&rt, "owners", all.len(), 3);
    expect(&rt, "nothing waits", settle(all.as_mut_slice()));
    Ok(())
}

#[test]
fn level_0_is_one_segment(rt: HostRuntime) -> Result<(), Fail> {
    let index = Index::of(rt.alloc(), 0)?;
    let segments = scanned_segments(rt.alloc(), &Shelf::empty(), &index, 1 << log_of(1))?;
    let due = nearest(segments.as_slice());
    expect_equal(&rt, "segments and due", (segments.len(), due), (1, None));
    Ok(())
}
