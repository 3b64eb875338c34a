//! What a reader has, beside the file of a level.

ghost use Rattle.std.specs.Prelude.{◌≡◌, ◌↔◌, ◌≤◌, ◌+◌, ◌++◌, ℕ, List, [], length, take, drop, All, IfErr, IfOk, IfSome, IsSome, IsTrue, Ok, OnErr, OnSome, Some, true};
ghost use Rattle.std.specs.List.{flat_map};
ghost use Rattle.sha2.specs.Sha256.{sha256};
ghost use Rattle.sha2.specs.Hashers.{Holds256};
ghost use Rattle.awari_streams.specs.Counted.{inner_of, faults_of, Grew};
ghost use Rattle.awari_table.specs.Spelling.{FitsNumbers};
ghost use Rattle.awari_file.specs.FileText.{HasFile, entry_text, body_text, file_text};
ghost use Rattle.awari_rank.specs.Rank.{size_of};
ghost use Rattle.awari_file.specs.declared.sizes.TheConstants.{BUFFERED};
ghost use Rattle.awari_file.specs.Source.{Meets, RefusesAs};

use crate::faults::FileFault;
use crate::fields::VERSION;
use crate::sizes::{BUFFER_LEN, BUFFERED};
use crate::source::fill;
use crate::writing::{header_of, spell_run};
use awari_rank::size;
use awari_table::{Counted, Level};
use sha2::{Digest, Sha256};
use std::io::Read;

/// Whether the reader has these bytes next.
fn has_next<R: Read>(reader: &mut Counted<R>, bytes: &[u8]) -> Result<bool, FileFault>
    requires { length bytes.now ≤ 4080 }
    ensures met { (left : List ℕ) → R.remaining (inner_of reader.old) ≡ Some left
        → IfOk result (λ met. Meets met left (R.remaining (inner_of reader.new)) bytes.now) }
    ensures refused { RefusesAs FileFault.Read (faults_of reader.old) (faults_of reader.new) result }
{
    let mut buf = [0u8; BUFFER_LEN];
    let came = fill(reader, &mut buf, bytes.len());
    if came.count < bytes.len() {
        return match came.short {
            FileFault::Read => Err(FileFault::Read),
            _ => Ok(false),
        };
    }
    Ok(&buf[..came.count] == bytes)
}

/// Whether the reader has nothing left.
fn is_at_end<R: Read>(reader: &mut Counted<R>) -> Result<bool, FileFault>
    ensures end { (left : List ℕ) → R.remaining (inner_of reader.old) ≡ Some left → IfOk result (λ at_end. IsTrue at_end ↔ (left ≡ [])) }
    ensures refused { RefusesAs FileFault.Read (faults_of reader.old) (faults_of reader.new) result }
{
    let mut buf = [0u8; 1];
    let came = fill(reader, &mut buf, 1);
    if came.count == 1 {
        return Ok(false);
    }
    match came.short {
        FileFault::Read => Err(FileFault::Read),
        _ => Ok(true),
    }
}

/// Whether the reader has this many entries of a level next, from this rank on. They fit the buffer, and
/// are hashed if it has them.
fn has_run<R: Read>(
    reader: &mut Counted<R>,
    hasher: &mut Sha256,
    level: &Level,
    from: u32,
    count: u32,
) -> Result<bool, FileFault>
    requires within { from + count ≤ size_of level.now.level }
    requires few { count ≤ BUFFERED }
    ensures met { (left : List ℕ) → R.remaining (inner_of reader.old) ≡ Some left
        → IfOk result (λ met. Meets met left (R.remaining (inner_of reader.new)) (flat_map entry_text (take count (drop from level.now.entries)))) }
    ensures holds { result ≡ Ok true → (m : List ℕ) → Holds256 hasher.old m → Holds256 hasher.new (m ++ flat_map entry_text (take count (drop from level.now.entries))) }
    ensures fit { All FitsNumbers (take count (drop from level.now.entries)) }
    ensures refused { RefusesAs FileFault.Read (faults_of reader.old) (faults_of reader.new) result }
{
    let mut buf = [0u8; BUFFER_LEN];
    let len = spell_run(level, from, count, &mut buf);
    let bytes = &buf[..len];
    if !has_next(reader, bytes)? {
        return Ok(false);
    }
    hasher.update(bytes);
    Ok(true)
}

/// Whether the reader has the entries of a level next. They are hashed as far as it has them.
fn has_entries<R: Read>(
    reader: &mut Counted<R>,
    hasher: &mut Sha256,
    level: &Level,
) -> Result<bool, FileFault>
    ensures met { (left : List ℕ) → R.remaining (inner_of reader.old) ≡ Some left
        → IfOk result (λ met. Meets met left (R.remaining (inner_of reader.new)) (flat_map entry_text level.now.entries)) }
    ensures holds { result ≡ Ok true → (m : List ℕ) → Holds256 hasher.old m → Holds256 hasher.new (m ++ flat_map entry_text level.now.entries) }
    ensures fit { result ≡ Ok true → All FitsNumbers level.now.entries }
    ensures refused { RefusesAs FileFault.Read (faults_of reader.old) (faults_of reader.new) result }
{
    let boards = size(level.number());
    let mut from: u32 = 0;
    while from < boards {
        let count = (boards - from).min(BUFFERED);
        if !has_run(reader, hasher, level, from, count)? {
            return Ok(false);
        }
        from += count;
    }
    Ok(true)
}

/// Compares what the reader has left with the file of a level, over the file whose digest is `below`:
/// what [`write_level`](crate::write_level) would write. If it is that file, byte for byte, the digest
/// that it ends in is given, and else none. It takes no memory, and reads no further than the first
/// piece that differs.
///
/// It is refused as 68 if the reader answers a fault.
pub fn compare_level<R: Read>(
    level: &Level,
    below: [u8; 32],
    reader: &mut Counted<R>,
) -> Result<Option<[u8; 32]>, FileFault>
    ensures same { IfSome (R.remaining (inner_of reader.old)) (λ bytes. IfOk result (λ found. IsSome found ↔ (bytes ≡ file_text 2 level.now below))) }
    ensures digest { IfOk result (λ found. IfSome found (λ digest. digest ≡ sha256 (body_text 2 level.now below))) }
    // What it was compared with is a file that `read_image` reads.
    ensures has { IfOk result (λ found. OnSome found (HasFile 2 level.now below)) }
    ensures read { IfErr result (λ fault. fault ≡ FileFault.Read) }
    ensures grew { OnErr result (Grew (faults_of reader.old) (faults_of reader.new)) }
{
    let mut hasher = Sha256::new();
    let header = header_of(VERSION, level.number(), level.limit(), &below);
    if !has_next(reader, &header)? {
        return Ok(None);
    }
    hasher.update(&header);
    if !has_entries(reader, &mut hasher, level)? {
        return Ok(None);
    }
    let digest = hasher.finalize();
    if !has_next(reader, &digest)? {
        return Ok(None);
    }
    if !is_at_end(reader)? {
        return Ok(None);
    }
    Ok(Some(digest))
}
