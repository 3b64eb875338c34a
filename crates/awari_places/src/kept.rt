//! Entries that are kept, since they were read last.

ghost use Rattle.std.specs.Prelude.{◌≡◌, ◌≤◌};
ghost use Rattle.awari_places.specs.declared.kept.TheConstants.{RUN_LEN};

use awari_table::Entry;

/// How many entries are read at once.
pub(crate) const RUN_LEN: usize = 2048;

/// Entries of one level that were read last, in order of rank.
#[derive(Clone, Copy)]
pub struct Run {
    /// The rank of the first of them.
    pub first: u32,
    /// How many there are.
    pub count: usize,
    /// They are the first this many of these.
    pub entries: [Entry; RUN_LEN],
    ghost within: { count ≤ RUN_LEN },
}

impl Run {
    /// A run of no entry.
    pub fn new() -> Self
        ensures { result.count ≡ 0 }
    {
        Run {
            first: 0,
            count: 0,
            entries: [Entry::NONE; RUN_LEN],
        }
    }
}
