//! Writing the file of a level.

ghost use Rattle.std.specs.Prelude.{◌≡◌, ◌≤◌, ◌+◌, length, take, drop, All, IfErr, OnOk, OnErr, IfOk};
ghost use Rattle.std.specs.List.{flat_map};
ghost use Rattle.std.specs.Io.KnownBytes.{Appends};
ghost use Rattle.awari_rank.specs.Rank.{size_of};
ghost use Rattle.sha2.specs.Sha256.{sha256};
ghost use Rattle.awari_table.specs.declared.TheConstants.{HIGHEST_LEVEL};
ghost use Rattle.awari_streams.specs.Counted.{inner_of, faults_of, Grew};
ghost use Rattle.awari_table.specs.Spelling.{FitsNumbers};
ghost use Rattle.awari_file.specs.declared.sizes.TheConstants.{BUFFERED};
ghost use Rattle.awari_file.specs.FileText.{HasFile, header_text, entry_text, body_text, file_text};
ghost use Rattle.awari_file.specs.Source.{Puts, RefusesAs};

use crate::faults::FileFault;
use crate::fields::{MAGIC, NO_PLAN, VERSION};
use crate::sizes::{BUFFER_LEN, BUFFERED, ENTRY_LEN, HEADER_LEN};
use awari_rank::size;
use awari_table::{Counted, Entry, Level};
use byteorder::{BigEndian, ByteOrder};
use sha2::{Digest, Sha256};
use std::io::Write;

/// What stands before the entries.
pub(crate) fn header_of(version: u16, level: u8, limit: u32, below: &[u8; 32]) -> [u8; 52]
    requires { level ≤ HIGHEST_LEVEL }
    ensures { result ≡ header_text version level limit below.now }
{
    let mut header = [0u8; HEADER_LEN];
    BigEndian::write_u32(&mut header, MAGIC);
    BigEndian::write_u16(&mut header[4..], version);
    header[6] = level;
    BigEndian::write_u64(&mut header[8..], u64::from(size(level)));
    BigEndian::write_u32(&mut header[16..], limit);
    header[20..].copy_from_slice(below);
    header
}

/// What stands for an entry.
fn bytes_of(entry: Entry) -> [u8; 6]
    ensures text { result ≡ entry_text entry }
    ensures fits { FitsNumbers entry }
{
    let mut bytes = [0u8; ENTRY_LEN];
    bytes[0] = entry.value.cast_unsigned();
    bytes[1] = entry.plan.unwrap_or(NO_PLAN);
    BigEndian::write_u32(&mut bytes[2..], entry.dist);
    bytes
}

/// Writes the bytes, and hashes them.
fn put<W: Write>(
    writer: &mut Counted<W>,
    hasher: &mut Sha256,
    bytes: &[u8],
) -> Result<(), FileFault>
    ensures ok { OnOk result (Puts (W.contents (inner_of writer.old)) (W.contents (inner_of writer.new)) hasher.old hasher.new bytes.now) }
    ensures refused { RefusesAs FileFault.Write (faults_of writer.old) (faults_of writer.new) result }
{
    match writer.write_all(bytes) {
        Ok(()) => {
            hasher.update(bytes);
            Ok(())
        }
        Err(_) => Err(FileFault::Write),
    }
}

/// Spells entries that fit the buffer, and gives how many bytes of it they take.
pub(crate) fn spell(entries: &[Entry], buf: &mut [u8; 4080]) -> usize
    requires { length entries.now ≤ BUFFERED }
    ensures len { result ≤ 4080 }
    ensures text { take result buf.new ≡ flat_map entry_text entries.now }
    ensures fit { All FitsNumbers entries.now }
{
    let mut len = 0;
    for entry in entries {
        let bytes = bytes_of(*entry);
        buf[len..len + ENTRY_LEN].copy_from_slice(&bytes);
        len += ENTRY_LEN;
    }
    len
}

/// Spells this many entries of a level, from this rank on, and gives how many bytes of the buffer they
/// take. They fit it.
pub(crate) fn spell_run(level: &Level, from: u32, count: u32, buf: &mut [u8; 4080]) -> usize
    requires within { from + count ≤ size_of level.now.level }
    requires few { count ≤ BUFFERED }
    ensures len { result ≤ 4080 }
    ensures text { take result buf.new ≡ flat_map entry_text (take count (drop from level.now.entries)) }
    ensures fit { All FitsNumbers (take count (drop from level.now.entries)) }
{
    let mut entries = [Entry::NONE; BUFFERED as usize];
    let run = &mut entries[..count as usize];
    level.copy_run(from, run);
    spell(run, buf)
}

/// Writes this many entries of a level, from this rank on. They fit the buffer.
fn put_run<W: Write>(
    writer: &mut Counted<W>,
    hasher: &mut Sha256,
    level: &Level,
    from: u32,
    count: u32,
) -> Result<(), FileFault>
    requires within { from + count ≤ size_of level.now.level }
    requires few { count ≤ BUFFERED }
    ensures ok { OnOk result (Puts (W.contents (inner_of writer.old)) (W.contents (inner_of writer.new)) hasher.old hasher.new (flat_map entry_text (take count (drop from level.now.entries)))) }
    ensures fit { All FitsNumbers (take count (drop from level.now.entries)) }
    ensures refused { RefusesAs FileFault.Write (faults_of writer.old) (faults_of writer.new) result }
{
    let mut buf = [0u8; BUFFER_LEN];
    let len = spell_run(level, from, count, &mut buf);
    put(writer, hasher, &buf[..len])
}

/// Writes the entries, a buffer at a time.
fn put_entries<W: Write>(
    writer: &mut Counted<W>,
    hasher: &mut Sha256,
    level: &Level,
) -> Result<(), FileFault>
    ensures ok { OnOk result (Puts (W.contents (inner_of writer.old)) (W.contents (inner_of writer.new)) hasher.old hasher.new (flat_map entry_text level.now.entries)) }
    ensures fit { OnOk result (All FitsNumbers level.now.entries) }
    ensures refused { RefusesAs FileFault.Write (faults_of writer.old) (faults_of writer.new) result }
{
    let boards = size(level.number());
    let mut from = 0u32;
    while from < boards {
        let count = (boards - from).min(BUFFERED);
        put_run(writer, hasher, level, from, count)?;
        from += count;
    }
    Ok(())
}

/// Writes the file of a level, in version 2, and gives the digest that the file ends in. `below` is
/// the digest of the file of the level below, zeros for level 0. It takes no memory, and doesn't
/// flush.
///
/// It is refused as 70 if the writer answers a fault or takes no byte. Then nothing is known of what
/// the writer holds.
pub fn write_level<W: Write>(
    level: &Level,
    below: [u8; 32],
    writer: &mut Counted<W>,
) -> Result<[u8; 32], FileFault>
    ensures written { OnOk result (Appends (W.contents (inner_of writer.old)) (W.contents (inner_of writer.new)) (file_text 2 level.now below)) }
    ensures digest { IfOk result (λ digest. digest ≡ sha256 (body_text 2 level.now below)) }
    // What was written is a file that `read_image` reads.
    ensures has { OnOk result (HasFile 2 level.now below) }
    ensures write { IfErr result (λ e. e ≡ FileFault.Write) }
    ensures grew { OnErr result (Grew (faults_of writer.old) (faults_of writer.new)) }
{
    let mut hasher = Sha256::new();
    let header = header_of(VERSION, level.number(), level.limit(), &below);
    put(writer, &mut hasher, &header)?;
    put_entries(writer, &mut hasher, level)?;
    let digest = hasher.finalize();
    match writer.write_all(&digest) {
        Ok(()) => Ok(digest),
        Err(_) => Err(FileFault::Write),
    }
}
