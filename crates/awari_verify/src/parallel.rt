//! The first refusal of a level, looked for by as many threads as there are processors.

ghost use Rattle.std.specs.Prelude.{◌≡◌, ◌⊎◌, ◌++◌, ◌∷◌, [], IsOk, IfOk, IfErr, IfSome, IsNone};
ghost use Rattle.std.specs.List.{All};
ghost use Rattle.std.specs.Thread.{IsSync};
ghost use Rattle.awari_rank.specs.Rank.{size_of};
ghost use Rattle.awari_table.specs.Certificate.{DistancesAreLeast};
ghost use Rattle.awari_table.specs.Images.{table_of};
ghost use Rattle.awari_table.specs.Shelves.{Consistent};
ghost use Rattle.awari_theory.specs.Truth.{TellsTruth};
ghost use Rattle.awari_verify.specs.VerifyFault.{IsShaped, IsDue};
ghost use Rattle.awari_verify.specs.FirstFailure.{IsFirst};
ghost use Rattle.awari_verify.specs.Pieces.{IsShare};
ghost use Rattle.awari_verify.specs.declared.verdicts.VerifyFault.{VerifyFault};

use crate::pieces::first_refusal;
use crate::search::Refusal;
use crate::shares::{Share, completed, joined, take_pieces, taken_shares};
use crate::verdicts::{VerifyFault, boards_of, fault_after};
use awari_rank::size;
use awari_table::{Image, Level, Shelf};
use rayon::join;
use std::alloc::{AllocError, Global};
use std::sync::atomic::AtomicU64;
use std::thread::Threads;

/// A level of fewer boards is judged by one thread.
const SHARED: u32 = 4096;

/// Answers what [`verify`](crate::verify) does, with the boards shared among as many threads as there
/// are processors. It takes memory for what each thread has looked at, 2 kB at most. Want of it is 23
/// `Memory`.
pub fn verify_parallel<R: Threads + Sync>(
    rt: &R,
    alloc: Global,
    shelf: &Shelf,
    image: Image,
) -> Result<Level, VerifyFault>
    ensures ok { IsOk result → Consistent shelf.now image }
    ensures level { IfOk result (λ level. level ≡ image) }
    ensures fault { IfErr result (λ fault. (fault ≡ VerifyFault.Memory) ⊎ IsDue shelf.now image fault) }

    // What the shelf with the level on it says of each of its boards is the truth: following its
    // plans secures the value, soon, the value is what the board is worth, and the distance is the
    // least.
    ensures meaning { IfOk result (λ level. TellsTruth (shelf.now ++ level ∷ [])) }
{
    match fault_of_parallel(rt, alloc, shelf, &image) {
        Some(fault) => Err(fault),
        None => Ok(Level::new(image)),
    }
}

/// Answers what [`fault_of`](crate::fault_of) does, with the boards shared among as many threads as
/// there are processors. It takes memory as [`verify_parallel`] does, and answers 23 `Memory` if that
/// runs out.
pub fn fault_of_parallel<R: Threads + Sync>(
    rt: &R,
    alloc: Global,
    shelf: &Shelf,
    image: &Image,
) -> Option<VerifyFault>
    // An image with no fault tells the truth, on the shelf: following the plans secures the value,
    // soon, the value is what the board is worth, and the distance is the least.
    ensures meaning { IsNone result → TellsTruth (shelf.now ++ image.now ∷ []) }
    ensures none { IsNone result → Consistent shelf.now image.now }
    ensures fault { IfSome result (λ fault. (fault ≡ VerifyFault.Memory) ⊎ IsDue shelf.now image.now fault) }
{
    let ((), fault) = fault_beside(rt, alloc, shelf, image, || {});
    fault
}

/// Answers what [`fault_of_parallel`] does, beside what `work` gives. One of the threads does the work,
/// and then looks at boards as the others do. Condition: the work may be done. It takes memory as
/// `fault_of_parallel` does, and answers 23 `Memory` if that runs out.
pub fn fault_beside<R: Threads + Sync, X: Send, W: FnOnce() -> X + Send>(
    rt: &R,
    alloc: Global,
    shelf: &Shelf,
    image: &Image,
    work: W,
) -> (X, Option<VerifyFault>)
    requires { W.pre work }
    ensures work { W.post work result.0 }
    // An image with no fault tells the truth, on the shelf: following the plans secures the value,
    // soon, the value is what the board is worth, and the distance is the least.
    ensures meaning { IsNone result.1 → TellsTruth (shelf.now ++ image.now ∷ []) }
    ensures none { IsNone result.1 → Consistent shelf.now image.now }
    ensures fault { IfSome result.1 (λ fault. (fault ≡ VerifyFault.Memory) ⊎ IsDue shelf.now image.now fault) }
{
    match boards_of(shelf, image) {
        Ok(_) => {}
        Err(fault) => return (work(), Some(fault)),
    }
    let (done, first) = first_beside(rt, alloc, shelf, image, work);
    match first {
        Ok(first) => (done, fault_after(image, first)),
        Err(_) => (done, Some(VerifyFault::Memory)),
    }
}

/// The first refusal among all boards of the level, beside what `work` gives.
fn first_beside<R: Threads + Sync, X: Send, W: FnOnce() -> X + Send>(
    rt: &R,
    alloc: Global,
    shelf: &Shelf,
    image: &Image,
    work: W,
) -> (X, Result<Option<Refusal>, AllocError>)
    requires shaped { IsShaped shelf.now image.now }
    requires work { W.pre work }
    ensures work { W.post work result.0 }
    ensures first { IfOk result.1 (IsFirst DistancesAreLeast (table_of (shelf.now ++ image.now ∷ [])) image.now.level 0 (size_of image.now.level)) }
{
    let boards = size(image.level);
    if boards < SHARED {
        let done = work();
        return (done, Ok(first_refusal(shelf, image, boards)));
    }
    let (done, share) = share_beside(rt, alloc, shelf, image, work);
    match share {
        Ok(share) => (done, Ok(completed(shelf, image, &share).refusal())),
        Err(lack) => (done, Err(lack)),
    }
}

/// What threads have looked at, one of which first did the work.
fn share_beside<R: Threads + Sync, X: Send, W: FnOnce() -> X + Send>(
    rt: &R,
    alloc: Global,
    shelf: &Shelf,
    image: &Image,
    work: W,
) -> (X, Result<Share, AllocError>)
    requires shaped { IsShaped shelf.now image.now }
    requires work { W.pre work }
    ensures work { W.post work result.0 }
    ensures share { IfOk result.1 (IsShare (table_of (shelf.now ++ image.now ∷ [])) image.now.level) }
{
    let turn = AtomicU64::new(0);
    let ((done, own), shares) = join(
        rt,
        || -> (X, Share)
            requires { IsShaped shelf.now image.now × W.pre work }
            ensures { W.post work result.0 × IsShare (table_of (shelf.entry.now ++ image.entry.now ∷ [])) image.entry.now.level result.1 }
        {
            let done = work();
            (done, take_pieces(shelf, image, &turn))
        },
        || -> Result<Vec<Share>, AllocError>
            requires { IsSync R.row × IsShaped shelf.now image.now }
            ensures { IfOk result (λ shares. All (IsShare (table_of (shelf.entry.now ++ image.entry.now ∷ [])) image.entry.now.level) shares.items) }
        { taken_shares(rt, alloc, shelf, image, &turn) },
    );
    match shares {
        Ok(shares) => (done, Ok(joined(own, &shares))),
        Err(lack) => (done, Err(lack)),
    }
}
