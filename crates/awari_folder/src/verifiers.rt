//! How a level is verified that was read from a file: by one thread, or by as many as there are
//! processors.

ghost use Rattle.std.specs.Prelude.{◌≤◌, ⊤};
ghost use Rattle.std.specs.Thread.{IsSync};
ghost use Rattle.awari_table.specs.declared.TheConstants.{HIGHEST_LEVEL};
ghost use Rattle.awari_file.specs.Sealing.{Seals};
ghost use Rattle.awari_folder.specs.Verifying.{IsJudged, IsVerdict};

use awari_file::{FileFault, Unsealed};
use awari_table::Shelf;
use awari_verify::{VerifyFault, fault_beside, fault_of};
use std::alloc::Global;
use std::thread::Threads;

/// One that says whether a file is whole, and its level the next of a shelf.
pub trait Verifier {
    /// What has to hold of its type: that threads may share what starts them, if there are any.
    ghost ready: { Type 0 };

    /// What has to hold of its type if it answers want of memory.
    ghost lacks: { Type 0 };

    /// Why the level of the file is not the shelf's next, none if it is. It is refused as 66 to 68 if
    /// the file is not sealed by its digest. Condition: the level is at most 24, as that of each file
    /// that was read.
    fn verify(
        &self,
        alloc: Global,
        shelf: &Shelf,
        file: &Unsealed,
    ) -> Result<Option<VerifyFault>, FileFault>
        requires ready { ready }
        requires low { file.now.loaded.image.level ≤ HIGHEST_LEVEL }
        ensures { IsJudged lacks shelf.now file.now result };
}

/// Verifies by one thread, and takes no memory.
#[derive(Drop)]
pub struct Alone;

impl Verifier for Alone {
    ghost ready = { ⊤ };

    ghost lacks = { ⊥ };

    fn verify(
        &self,
        _alloc: Global,
        shelf: &Shelf,
        file: &Unsealed,
    ) -> Result<Option<VerifyFault>, FileFault> {
        file.seal()?;
        Ok(fault_of(shelf, &file.loaded.image))
    }
}

/// Verifies by as many threads as there are processors, of which one first compares the digest. It takes
/// memory for what each thread has looked at.
#[derive(Drop)]
pub struct Together<'a, T>(pub &'a T);

impl<T: Threads + Sync> Verifier for Together<'_, T> {
    ghost ready = { IsSync T.row };

    ghost lacks = { ⊤ };

    fn verify(
        &self,
        alloc: Global,
        shelf: &Shelf,
        file: &Unsealed,
    ) -> Result<Option<VerifyFault>, FileFault> {
        verify_together(self.0, alloc, shelf, file)
    }
}

/// Verifies the level by threads, of which one first compares the digest.
fn verify_together<T: Threads + Sync>(
    rt: &T,
    alloc: Global,
    shelf: &Shelf,
    file: &Unsealed,
) -> Result<Option<VerifyFault>, FileFault>
    requires { file.now.loaded.image.level ≤ HIGHEST_LEVEL }
    ensures { IsJudged ⊤ shelf.now file.now result }
{
    let (sealed, fault) = fault_beside(
        rt,
        alloc,
        shelf,
        &file.loaded.image,
        || -> Result<(), FileFault>
            requires { file.now.loaded.image.level ≤ HIGHEST_LEVEL }
            ensures { Seals file.entry.now result }
        { file.seal() },
    );
    sealed?;
    Ok(fault)
}
