//! Sowing, stone by stone.

ghost use Rattle.std.specs.Prelude.{◌≡◌, ℕ, ◌+◌, ◌%◌, ◌<◌, ◌≤◌, slice_index, sum};
ghost use Rattle.awari_board.specs.Rules.{landing, last_pit, sown};

/// Sows the stones of pit `origin` one by one into the pits after it, and gives the pit of the last.
pub fn sow(pits: &mut [u8; 12], origin: u8) -> u8
    requires pit { origin < 12 }
    requires held { 0 < slice_index pits.old origin }
    requires few { sum pits.old ≤ 48 }
    ensures sown { pits.new ≡ sown pits.old origin }
    ensures last { result ≡ last_pit pits.old origin }
    ensures stones { sum pits.new ≡ sum pits.old }
{
    let stones = pits[origin as usize];
    pits[origin as usize] = 0;
    let mut last = origin;
    for _stone in 0..stones {
        last = pit_after(last, origin);
        pits[last as usize] += 1;
    }
    last
}

/// The pit after `pit` in a sowing from `origin`, which leaves `origin` out.
fn pit_after(pit: u8, origin: u8) -> u8
    requires on_board { pit < 12 }
    requires origin_on_board { origin < 12 }
    ensures on_board { result < 12 }
    ensures first { pit ≡ origin → result ≡ landing origin 1 }
    ensures next { (s : ℕ) → 1 ≤ s → pit ≡ landing origin s → result ≡ landing origin (s + 1) }
{
    let next = next_pit(pit);
    if next == origin { next_pit(next) } else { next }
}

/// The pit after `pit` in the circle; a test here is faster than a division.
fn next_pit(pit: u8) -> u8
    requires { pit < 12 }
    ensures { result ≡ (pit + 1) % 12 }
{
    if pit == 11 { 0 } else { pit + 1 }
}
