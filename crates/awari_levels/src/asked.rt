//! A level that is asked about, and which of its boards are wanted.

ghost use Rattle.std.specs.Prelude.{◌≡◌, ℕ};
ghost use Rattle.awari_facts.specs.declared.sources.Source.TheVariants.{Files};
ghost use Rattle.awari_levels.specs.Listing.{IsAlone};

use crate::wanted::Wanted;
use awari_facts::Source;

/// A level that is asked about, and which of its boards are wanted. If files are read where they lie, an entry
/// and the rules say all that is wanted.
#[derive(Clone, Copy)]
pub(crate) struct Asked<'a> {
    /// Where the levels are.
    pub(crate) source: Source<'a>,
    /// The level.
    pub(crate) level: u8,
    /// Which of its boards are wanted.
    pub(crate) wanted: &'a Wanted,
    ghost alone: { (levels : ℕ) → source ≡ Files levels → IsAlone wanted.now },
}
