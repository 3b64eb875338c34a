//! Stones of a sowing taken back.

ghost use Rattle.std.specs.Prelude.{◌≡◌, ℕ, ◌-◌, ◌<◌, ◌≤◌, slice_index};
ghost use Rattle.awari_packed.specs.Packed.{IsPacking, IsPackOf, pits_of};
ghost use Rattle.awari_packed.specs.TakenBack.{taken_back};

/// At eight times `origin` and `last`, the number to add for a stone of each pit after `origin` up to
/// `last` that is taken back into `origin`.
static TAKEN_BACK: [u64; 48] = [
    0,
    34902897112121344,
    70896509758996480,
    106924207266332672,
    142952969925558272,
    178981765870780416,
    0,
    0,
    0,
    0,
    1090715534753792,
    2215515929968640,
    3341381477072896,
    4467280310173696,
    0,
    0,
    0,
    0,
    0,
    34084860461056,
    69234872811520,
    104418171158528,
    0,
    0,
    0,
    0,
    0,
    0,
    1065151889408,
    2163589775360,
    0,
    0,
    0,
    0,
    0,
    0,
    0,
    33285996544,
    0,
    0,
    0,
    0,
    0,
    0,
    0,
    0,
    0,
    0,
];

/// The number with a stone of each pit after `origin` up to `last` taken back into `origin`, all of them
/// the mover's. It is one addition.
#[inline(always)]
pub fn taken_back(bits: u64, origin: u8, last: u8) -> u64
    requires packing { IsPacking bits }
    requires from { origin ≤ last }
    requires own { last < 6 }
    requires held { (i : ℕ) → origin < i → i ≤ last → 0 < slice_index (pits_of bits) i }
    ensures { IsPackOf result (taken_back (pits_of bits) origin (last - origin)) }
{
    bits + TAKEN_BACK[(8 * origin + last) as usize]
}
