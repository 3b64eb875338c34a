//! The numbers of boards that were worked out by hand. A caller has a law by calling its function, which does
//! nothing.

ghost use Rattle.std.specs.Prelude.{◌≡◌, ◌*◌, ◌^◌, [], ◌∷◌};
ghost use Rattle.awari_packed.specs.Packed.{packed, pits_of};

/// Worked rows. A stone in pit 11 is 1, one in pit 10 is 32, and twenty-four in pit 0 are the
/// greatest number. Three stones in three pits are packed and unpacked.
pub fn worked_examples()
    ensures last_pit { packed (0 ∷ 0 ∷ 0 ∷ 0 ∷ 0 ∷ 0 ∷ 0 ∷ 0 ∷ 0 ∷ 0 ∷ 0 ∷ 1 ∷ []) ≡ 1 }
    ensures pit_before { packed (0 ∷ 0 ∷ 0 ∷ 0 ∷ 0 ∷ 0 ∷ 0 ∷ 0 ∷ 0 ∷ 0 ∷ 1 ∷ 0 ∷ []) ≡ 32 }
    ensures greatest { packed (24 ∷ 0 ∷ 0 ∷ 0 ∷ 0 ∷ 0 ∷ 0 ∷ 0 ∷ 0 ∷ 0 ∷ 0 ∷ 0 ∷ []) ≡ 24 * 2 ^ 55 }
    ensures three { packed (0 ∷ 0 ∷ 0 ∷ 0 ∷ 0 ∷ 1 ∷ 1 ∷ 0 ∷ 1 ∷ 0 ∷ 0 ∷ 0 ∷ []) ≡ 1107329024 }
    ensures back { pits_of 1107329024 ≡ 0 ∷ 0 ∷ 0 ∷ 0 ∷ 0 ∷ 1 ∷ 1 ∷ 0 ∷ 1 ∷ 0 ∷ 0 ∷ 0 ∷ [] }
{}
