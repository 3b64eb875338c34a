//! What the rings hold, once all owners are in one thread.

ghost use Rattle.std.specs.Prelude.{◌≡◌, ◌<◌, ◌↔◌, length, map, slice_index_or, IsTrue};
ghost use Rattle.awari_block.specs.Each.{EachTo};
ghost use Rattle.awari_lines.specs.Rings.{IsGrid, LookedAt, NoneWait, NothingWaits, SameHistory};
ghost use Rattle.awari_lines.specs.declared.ends.Ends.{Ends as AnEnds};
ghost use Rattle.awari_phase.specs.Owners.{AreLooked, Notes, all_ends, rest_of};

use crate::owners::Owner;

/// Looks at every ring among owners that stand on one grid, and changes nothing else. On each ring,
/// what was received and then what waits is what was sent. True if nothing waits on any. It takes no
/// memory.
pub fn settle_owners(all: &mut [Owner]) -> bool
    requires { IsGrid (all_ends all.old) }
    ensures grid { IsGrid (all_ends all.new) }
    ensures same { EachTo SameHistory (all_ends all.old) (all_ends all.new) }
    ensures rest { map rest_of all.new ≡ map rest_of all.old }
    ensures exact { AreLooked all.new }
    ensures flag { IsTrue result ↔ NoneWait (all_ends all.new) }
{
    let mut empty = true;
    for j in 0..all.len() {
        for i in 0..j {
            let quiet = settle_pair(all, i, j);
            empty = both(empty, quiet);
        }
    }
    empty
}

/// Looks at the two rings between two owners. True if nothing waits on them.
fn settle_pair(all: &mut [Owner], i: usize, j: usize) -> bool
    requires grid { IsGrid (all_ends all.old) }
    requires pair { (i < j) × (j < length all.old) }
    ensures looked { LookedAt (all_ends all.old) (all_ends all.new) i j }
    ensures rest { map rest_of all.new ≡ map rest_of all.old }
    ensures flag { (d : AnEnds Notes) → IsTrue result ↔ NothingWaits (slice_index_or (all_ends all.new) i d) (slice_index_or (all_ends all.new) j d) }
{
    let (front, back) = all.split_at_mut(j);
    let one = &mut front[i];
    let other = &mut back[0];
    one.ends.look_beside(&mut other.ends)
}

fn both(a: bool, b: bool) -> bool
    ensures { IsTrue result ↔ (IsTrue a × IsTrue b) }
{
    a && b
}
