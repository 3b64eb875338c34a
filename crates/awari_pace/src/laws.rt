//! The limits of a pace. A caller has a law by calling its function, which does nothing.

ghost use Rattle.std.specs.Prelude.{◌≡◌};
ghost use Rattle.awari_pace.specs.declared.paces.TheConstants.{MOST_OWNERS, MOST_ROOM, MOST_SWEEPS};

/// A level has at most 16 owners. A ring has room for at most 256 batches, and a round has at most
/// 1000 sweeps of an owner.
pub fn paces_have_limits()
    ensures { (MOST_OWNERS ≡ 16) × (MOST_ROOM ≡ 256) × (MOST_SWEEPS ≡ 1000) }
{}
