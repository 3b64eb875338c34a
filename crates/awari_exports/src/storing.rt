//! Levels that are added to a handle, and shared, and files that are read into one.

ghost use Rattle.std.specs.Prelude.{◌≡◌, IfErr, IfSome, IsSomeAnd, OnErr, OnOk, None, Some, [], false, true, replicate};
ghost use Rattle.awari_theory.specs.Truth.{TellsTruth};
ghost use Rattle.awari_folder.specs.Candidates.{IsReadFrom, IsUntouched};
ghost use Rattle.awari_folder.specs.NextFile.{IsNextFile, IsFileFault};
ghost use Rattle.awari_exports.specs.Owned.{candidate_in, held_in, levels_in, digest_in, draft_in};

use crate::handles::{Handle, put};
use crate::held::Held;
use awari_folder::FolderFault;
use std::alloc::Global;

/// Puts the next level on these, and all into the handle, which is closed before. If the bytes are
/// refused, the levels go into it as they are.
pub(crate) fn add_to(
    handle: &mut Handle,
    alloc: Global,
    mut held: Box<Held>,
    bytes: &[u8],
) -> Result<(), FolderFault>
    ensures ok { OnOk result (IsNextFile held.value.stored.shelf held.value.stored.digest bytes.now (levels_in handle.new.is_open handle.new.held) (digest_in handle.new.is_open handle.new.held)) }
    ensures meaning { OnOk result (TellsTruth (levels_in handle.new.is_open handle.new.held)) }
    ensures refused { IfErr result (IsFileFault held.value.stored.shelf held.value.stored.digest bytes.now) }
    ensures kept { OnErr result (held_in handle.new.is_open handle.new.held ≡ Some held.value) }
{
    let added = held.add(alloc, bytes);
    put(handle, held);
    added
}

/// Puts level 0 into the handle, which is closed, and stays so if the bytes are refused.
pub(crate) fn add_first(handle: &mut Handle, alloc: Global, bytes: &[u8]) -> Result<(), FolderFault>
    requires { handle.old.is_open ≡ false }
    ensures ok { OnOk result (IsNextFile [] (replicate 32 0) bytes.now (levels_in handle.new.is_open handle.new.held) (digest_in handle.new.is_open handle.new.held)) }
    ensures meaning { OnOk result (TellsTruth (levels_in handle.new.is_open handle.new.held)) }
    ensures refused { IfErr result (IsFileFault [] (replicate 32 0) bytes.now) }
    ensures kept { OnErr result (handle.new.is_open ≡ false) }
{
    let mut held = Held::empty();
    held.add(alloc, bytes)?;
    put(handle, Box::new(alloc, held)?);
    Ok(())
}

/// The same levels once more, with none begun, and the file that was read; none if memory runs out.
pub(crate) fn shared_levels(held: &Held, alloc: Global) -> Option<Box<Held>>
    ensures stored { IfSome result (λ shared. shared.value.stored ≡ held.now.stored) }
    ensures none { IfSome result (λ shared. shared.value.draft ≡ None) }
    ensures candidate { IfSome result (λ shared. shared.value.candidate ≡ held.now.candidate) }
{
    let shared = held.share()?;
    Box::new(alloc, shared).ok()
}

/// Reads the next level's file, and puts all into the handle, which is closed before. If the bytes are
/// refused, the levels go into it as they are.
pub(crate) fn read_to(
    handle: &mut Handle,
    alloc: Global,
    mut held: Box<Held>,
    bytes: &[u8],
) -> Result<(), FolderFault>
    ensures open { handle.new.is_open ≡ true }
    ensures read { OnOk result (IsSomeAnd handle.new.held.candidate (λ c. IsReadFrom c bytes.now × IsUntouched c)) }
    ensures rest { (handle.new.held.stored ≡ held.value.stored) × (handle.new.held.draft ≡ held.value.draft) }
    ensures refused { IfErr result (IsFileFault held.value.stored.shelf held.value.stored.digest bytes.now) }
    ensures kept { OnErr result (handle.new.held ≡ held.value) }
{
    let read = held.read(alloc, bytes);
    put(handle, held);
    read
}

/// Reads the file of level 0 into the handle, which is closed, and stays so if the bytes are refused.
pub(crate) fn read_first(
    handle: &mut Handle,
    alloc: Global,
    bytes: &[u8],
) -> Result<(), FolderFault>
    requires { handle.old.is_open ≡ false }
    ensures read { OnOk result (IsSomeAnd (candidate_in handle.new.is_open handle.new.held) (λ c. IsReadFrom c bytes.now × IsUntouched c)) }
    ensures rest { OnOk result ((levels_in handle.new.is_open handle.new.held ≡ []) × (digest_in handle.new.is_open handle.new.held ≡ replicate 32 0) × (draft_in handle.new.is_open handle.new.held ≡ None)) }
    ensures refused { IfErr result (IsFileFault [] (replicate 32 0) bytes.now) }
    ensures kept { OnErr result (handle.new.is_open ≡ false) }
{
    let mut held = Held::empty();
    held.read(alloc, bytes)?;
    put(handle, Box::new(alloc, held)?);
    Ok(())
}
