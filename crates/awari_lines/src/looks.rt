//! What all rings hold, once all ends are in one thread.

ghost use Rattle.std.specs.Prelude.{◌≡◌, ◌<◌, ◌↔◌, ℕ, length, slice_index_or, IsTrue};
ghost use Rattle.awari_lines.specs.Rings.{AreExact, IsGrid, LookedAt, NoneWait, NothingWaits, SameHistory};
ghost use Rattle.awari_lines.specs.declared.ends.Ends.{Ends as AnEnds};

use crate::ends::Ends;

/// Looks at every ring of a grid. All ends are here, in the order of their owners. On each ring, what
/// was received and then what waits is what was sent. True if nothing waits on any. It takes no
/// memory.
pub fn settle<T>(all: &mut [Ends<T>]) -> bool
    requires { IsGrid all.old }
    ensures grid { IsGrid all.new }
    ensures many { length all.new ≡ length all.old }
    ensures same { (i : ℕ) (d : AnEnds T) → i < length all.old → SameHistory (slice_index_or all.old i d) (slice_index_or all.new i d) }
    ensures exact { AreExact all.new }
    ensures flag { IsTrue result ↔ NoneWait all.new }
{
    let mut empty = true;
    for j in 0..all.len() {
        for i in 0..j {
            let quiet = settle_pair(all, i, j);
            empty = both(empty, quiet);
        }
    }
    empty
}

/// Looks at the two rings between two owners. True if nothing waits on them.
fn settle_pair<T>(all: &mut [Ends<T>], i: usize, j: usize) -> bool
    requires grid { IsGrid all.old }
    requires pair { (i < j) × (j < length all.old) }
    ensures looked { LookedAt all.old all.new i j }
    ensures flag { (d : AnEnds T) → IsTrue result ↔ NothingWaits (slice_index_or all.new i d) (slice_index_or all.new j d) }
{
    let (front, back) = all.split_at_mut(j);
    front[i].look_beside(&mut back[0])
}

fn both(a: bool, b: bool) -> bool
    ensures { IsTrue result ↔ (IsTrue a × IsTrue b) }
{
    a && b
}
