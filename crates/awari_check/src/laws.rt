//! What follows of the faults of a check.

ghost use Rattle.std.specs.Prelude.{◌≡◌, ◌≢◌, ℕ, List};
ghost use Rattle.awari_table.specs.declared.images.Image.{Image};
ghost use Rattle.awari_table.specs.declared.faults.TableFault.TheVariants.{Memory};
ghost use Rattle.awari_check.specs.declared.checks.CheckFault.{CheckFault};
ghost use Rattle.awari_check.specs.declared.checks.CheckFault.TheVariants.{Table};
ghost use Rattle.awari_check.specs.CheckFault.{IsShelfText, IsCheckFault};

/// Apart from want of memory, bytes have at most one first fault, and none if they are the text of
/// right tables.
pub fn one_check_fault_is_due()
    ensures one { (bytes : List ℕ) (f g : CheckFault) → f ≢ Table Memory → g ≢ Table Memory
        → IsCheckFault bytes f → IsCheckFault bytes g → f ≡ g }
    ensures none { (bytes : List ℕ) (images : List Image) (fault : CheckFault) → fault ≢ Table Memory
        → IsShelfText bytes images → IsCheckFault bytes fault → ⊥ }
{}
