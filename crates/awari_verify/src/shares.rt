//! Threads that take the pieces of a level in turn, and what they find.
//!
//! Each thread takes the next piece once it is done with one, so that all are busy to the end. Nothing that
//! is proved rests on who takes which: each thread names the pieces that it has looked at, and [`completed`]
//! looks at the others.

ghost use Rattle.std.specs.Prelude.{◌≡◌, ◌≤◌, ◌<◌, ◌↔◌, ◌⊎◌, ◌++◌, ◌∷◌, [], ℕ, IfOk, List, false, true, replicate};
ghost use Rattle.std.specs.List.{All};
ghost use Rattle.awari_rank.specs.Rank.{size_of};
ghost use Rattle.awari_table.specs.Certificate.{Table, DistancesAreLeast};
ghost use Rattle.awari_table.specs.Images.{table_of};
ghost use Rattle.awari_table.specs.declared.TheConstants.{HIGHEST_LEVEL};
ghost use Rattle.awari_table.specs.declared.images.Image.{Image};
ghost use Rattle.awari_verify.specs.declared.pieces.TheConstants.{PIECES};
ghost use Rattle.awari_verify.specs.FirstFailure.{IsFirst};
ghost use Rattle.awari_verify.specs.Pieces.{piece_of, refusal_of, Looks, IsShare};
ghost use Rattle.awari_verify.specs.Shares.{has_seen, IsShareOf};
ghost use Rattle.awari_verify.specs.VerifyFault.{IsShaped};

use crate::pieces::{Nearest, PIECES, look_in_piece};
use crate::verdicts::boards_of;
use awari_rank::size;
use awari_table::{Image, Shelf};
use rayon::current_num_threads;
use std::alloc::{AllocError, Global};
use std::sync::atomic::{AtomicU64, Ordering};
use std::thread::{Threads, map_indices};

/// What was looked at of an image, by one thread or by several: which pieces, and the nearest breach in
/// them.
#[derive(Clone, Copy)]
pub struct Share {
    /// Which pieces.
    seen: [bool; PIECES as usize],
    /// The nearest breach in them.
    nearest: Nearest,
}

/// No piece is seen.
fn no_pieces() -> [bool; PIECES as usize]
    ensures { result ≡ replicate PIECES false }
{
    [false; PIECES as usize]
}

impl Share {
    /// Nothing of this image was looked at. Condition: its level is at most `HIGHEST_LEVEL`. It takes no
    /// memory.
    pub fn none(image: &Image) -> Share
        requires low { image.now.level ≤ HIGHEST_LEVEL }
        ensures share { (shelf : List Image) → IsShareOf shelf image.now result }
        ensures seen { (piece : ℕ) → has_seen result piece ≡ true → ⊥ }
    {
        Share {
            seen: no_pieces(),
            nearest: Nearest::none(size(image.level)),
        }
    }

    /// Looks at a piece too. Condition: the piece is below `PIECES`, and what was looked at before is of
    /// this image over this shelf. It takes no memory.
    pub fn look(&mut self, shelf: &Shelf, image: &Image, piece: u32)
        requires piece { piece < PIECES }
        requires share { IsShareOf shelf.now image.now self.old }
        ensures share { IsShareOf shelf.now image.now self.new }
        ensures seen { (other : ℕ) → (has_seen self.new other ≡ true) ↔ ((has_seen self.old other ≡ true) ⊎ (other ≡ piece)) }
    {
        self.nearest = look_if_shaped(shelf, image, piece, self.nearest);
        self.seen[piece as usize] = true;
    }

    /// Takes over what the other looked at. What both have of one image over one shelf, this has then. It
    /// takes no memory.
    pub fn join(&mut self, other: &Share)
        ensures share { (t : Table) (level : ℕ) → IsShare t level self.old → IsShare t level other.now → IsShare t level self.new }
        ensures seen { (piece : ℕ) → (has_seen self.new piece ≡ true) ↔ ((has_seen self.old piece ≡ true) ⊎ (has_seen other.now piece ≡ true)) }
    {
        let seen = &mut self.seen;
        for piece in 0..PIECES as usize {
            if other.seen[piece] {
                seen[piece] = true;
            }
        }
        self.nearest = self.nearest.or_nearer(other.nearest);
    }
}

/// Looks for a refusal among the boards of this piece, if the image has the shape of the shelf's next level.
fn look_if_shaped(shelf: &Shelf, image: &Image, piece: u32, nearest: Nearest) -> Nearest
    requires piece { piece < PIECES }
    requires within { IsShaped shelf.now image.now → nearest.rank ≤ size_of image.now.level }
    ensures { IsShaped shelf.now image.now → Looks (table_of (shelf.now ++ image.now ∷ [])) image.now.level (λ p. piece_of p ≡ piece) nearest result }
{
    match boards_of(shelf, image) {
        Ok(_) => look_in_piece(shelf, image, piece, nearest),
        Err(_) => nearest,
    }
}

/// Takes pieces in turn and looks for a refusal in each, until none is left.
pub fn take_pieces(shelf: &Shelf, image: &Image, turn: &AtomicU64) -> Share
    requires shaped { IsShaped shelf.now image.now }
    ensures { IsShare (table_of (shelf.now ++ image.now ∷ [])) image.now.level result }
{
    let mut share = Share::none(image);
    for _taken in 0..PIECES {
        let piece = turn.fetch_add(1, Ordering::SeqCst);
        if piece >= u64::from(PIECES) {
            break;
        }
        share.look(shelf, image, piece as u32);
    }
    share
}

/// Threads take pieces in turn, one fewer than there are processors.
pub fn taken_shares<R: Threads + Sync>(
    rt: &R,
    alloc: Global,
    shelf: &Shelf,
    image: &Image,
    turn: &AtomicU64,
) -> Result<Vec<Share>, AllocError>
    requires shaped { IsShaped shelf.now image.now }
    ensures { IfOk result (λ shares. All (IsShare (table_of (shelf.now ++ image.now ∷ [])) image.now.level) shares.items) }
{
    map_indices(
        rt,
        alloc,
        current_num_threads(rt) - 1,
        &|_| -> Share
            requires { IsShaped shelf.now image.now }
            ensures { IsShare (table_of (shelf.entry.now ++ image.entry.now ∷ [])) image.entry.now.level result }
        { take_pieces(shelf, image, turn) },
    )
}

/// What these threads have looked at together.
pub fn joined(own: Share, others: &[Share]) -> Share
    ensures { (t : Table) (level : ℕ) → IsShare t level own → All (IsShare t level) others.now → IsShare t level result }
{
    let mut all = own;
    for other in others {
        all.join(other);
    }
    all
}

/// The nearest breach of the level. Pieces that no thread has looked at are looked at here.
pub fn completed(shelf: &Shelf, image: &Image, share: &Share) -> Nearest
    requires shaped { IsShaped shelf.now image.now }
    requires share { IsShare (table_of (shelf.now ++ image.now ∷ [])) image.now.level share.now }
    ensures { IsFirst DistancesAreLeast (table_of (shelf.now ++ image.now ∷ [])) image.now.level 0 (size_of image.now.level) (refusal_of result) }
{
    let mut nearest = share.nearest;
    for piece in 0..PIECES {
        if !share.seen[piece as usize] {
            nearest = look_in_piece(shelf, image, piece, nearest);
        }
    }
    nearest
}
