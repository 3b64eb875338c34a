//! What follows from the definitions of faults, for every shelf and image.

ghost use Rattle.std.specs.Prelude.{◌≡◌, List};
ghost use Rattle.awari_table.specs.declared.images.Image.{Image};
ghost use Rattle.awari_table.specs.Shelves.{Consistent};
ghost use Rattle.awari_verify.specs.VerifyFault.{IsDue};
ghost use Rattle.awari_verify.specs.declared.verdicts.VerifyFault.{VerifyFault};

/// At most one fault of an image is due, down to its rank and its rule, and none if the image is
/// consistent. So a contract that says that a fault is due says which fault.
pub fn one_fault_is_due()
    ensures one { (shelf : List Image) (image : Image) (fault other : VerifyFault) → IsDue shelf image fault → IsDue shelf image other → fault ≡ other }
    ensures none { (shelf : List Image) (image : Image) (fault : VerifyFault) → IsDue shelf image fault → Consistent shelf image → ⊥ }
{}
