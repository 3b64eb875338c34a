//! Reading the file of a level.

ghost use Rattle.std.specs.Prelude.{◌≡◌, ◌≢◌, ◌≤◌, ◌+◌, min, List, ℕ, IfErr, IfOk, MatchResult, IsOk, IfSome, Some, Ok, Err};
ghost use Rattle.awari_table.specs.declared.TheConstants.{HIGHEST_LEVEL};
ghost use Rattle.awari_streams.specs.Counted.{inner_of, faults_of};
ghost use Rattle.awari_table.specs.declared.images.Image.{Image};
ghost use Rattle.awari_file.specs.declared.faults.FileFault.{FileFault};
ghost use Rattle.awari_file.specs.declared.sizes.TheConstants.{BUFFERED};
ghost use Rattle.awari_file.specs.FileText.{HasFile, IsFileOf, file_text, found_of};
ghost use Rattle.awari_file.specs.Reading.{header_at, entries_at, file_in};
ghost use Rattle.awari_file.specs.Source.{IsAt, StopsAt, Advances, Adds, AddsAt, AddsOrLacks, Answers, Judges};
ghost use Rattle.awari_file.specs.Sealing.{Ends, EndsEarly, IsUnsealed, Stops, StopsBy, Tells, TellsBehind, TellsOf, behind_by};

use crate::contents::{Header, Loaded};
use crate::faults::FileFault;
use crate::fields::{bytes_at, entry_at, header_of};
use crate::sealing::{Behind, End, Unsealed};
use crate::sizes::{BUFFER_LEN, BUFFERED, END_LEN, ENTRY_LEN, HEADER_LEN};
use crate::source::fill;
use awari_rank::size;
use awari_table::{Counted, Entries, Image};
use std::alloc::{AllocError, Global};
use std::io::Read;

/// All of the header is asked for at once, and its fields are judged in order on what came. So a
/// fault that the reader answered comes after the faults of the fields before it.
fn read_header<R: Read>(reader: &mut Counted<R>) -> Result<Header, FileFault>
    ensures parsed { (whole left : List ℕ) → IsAt whole left (R.remaining (inner_of reader.old))
        → Advances (λ h. h) header_at whole left (R.remaining (inner_of reader.new)) result }
    ensures stops { (whole left : List ℕ) → IsAt whole left (R.remaining (inner_of reader.old))
        → IfErr result (StopsAt header_at ⊥ left (R.remaining (inner_of reader.new))) }
    ensures low { IfOk result (λ h. h.level ≤ HIGHEST_LEVEL) }
    ensures counted { TellsOf (faults_of reader.old) (faults_of reader.new) result }
    ensures memory { result ≢ Err FileFault.Memory }
{
    let mut buf = [0u8; HEADER_LEN];
    let came = fill(reader, &mut buf, HEADER_LEN);
    let fields = &buf[..came.count];
    let (header, _) = header_of(fields, came.short)?;
    Ok(header)
}

/// Puts as many entries as the bytes have behind those that are there.
fn push_entries(
    alloc: Global,
    entries: &mut Entries,
    count: u32,
    bytes: &[u8],
    short: FileFault,
) -> Result<Result<(), FileFault>, AllocError>
    ensures { IfOk result (λ added. Adds entries.old entries.new added (entries_at count short bytes.now)) }
{
    let mut rest = bytes;
    for _ in 0..count {
        match entry_at(rest, short) {
            Ok((entry, after)) => {
                entries.push(alloc, entry)?;
                rest = after;
            }
            Err(fault) => return Ok(Err(fault)),
        }
    }
    Ok(Ok(()))
}

/// Judges as many entries as the bytes have, and keeps none.
fn judge_entries(count: u32, bytes: &[u8], short: FileFault) -> Result<(), FileFault>
    ensures { Judges result (entries_at count short bytes.now) }
{
    let mut rest = bytes;
    for _ in 0..count {
        let (_, after) = entry_at(rest, short)?;
        rest = after;
    }
    Ok(())
}

/// Puts as many entries as the bytes have behind those that are there. Room for them and all that are
/// left is taken before the first of all, once these are known to be right. More is taken at the first
/// entry that three bytes do not hold.
fn add_entries(
    alloc: Global,
    entries: &mut Entries,
    count: u32,
    left: u32,
    bytes: &[u8],
    short: FileFault,
) -> Result<(), FileFault>
    ensures added { AddsOrLacks entries.old entries.new result (entries_at count short bytes.now) }
{
    if entries.is_empty() {
        judge_entries(count, bytes, short)?;
        *entries = Entries::with_capacity(alloc, left as usize)?;
    }
    let Ok(added) = push_entries(alloc, entries, count, bytes, short) else {
        judge_entries(count, bytes, short)?;
        return Err(FileFault::Memory);
    };
    added
}

/// This many entries of those that are left, and nothing behind them. They fit the buffer.
fn read_some<R: Read>(
    alloc: Global,
    reader: &mut Counted<R>,
    entries: &mut Entries,
    count: u32,
    left: u32,
) -> Result<(), FileFault>
    requires few { count ≤ BUFFERED }
    ensures parsed { (whole left : List ℕ) → IsAt whole left (R.remaining (inner_of reader.old))
        → AddsAt entries.old entries.new count whole left (R.remaining (inner_of reader.new)) result }
    ensures stops { (whole left : List ℕ) → IsAt whole left (R.remaining (inner_of reader.old))
        → IfErr result (StopsAt (entries_at count) (IsOk (entries_at count FileFault.Truncated left)) left (R.remaining (inner_of reader.new))) }
    ensures counted { TellsOf (faults_of reader.old) (faults_of reader.new) result }
{
    let mut buf = [0u8; BUFFER_LEN];
    let came = fill(reader, &mut buf, count as usize * ENTRY_LEN);
    let bytes = &buf[..came.count];
    add_entries(alloc, entries, count, left, bytes, came.short)?;
    Ok(())
}

/// Reads no further than the last entry: what comes then is judged by the digest of all before it.
fn read_entries<R: Read>(
    alloc: Global,
    reader: &mut Counted<R>,
    entries: &mut Entries,
    count: u32,
) -> Result<(), FileFault>
    ensures parsed { (whole left : List ℕ) → IsAt whole left (R.remaining (inner_of reader.old))
        → AddsAt entries.old entries.new count whole left (R.remaining (inner_of reader.new)) result }
    // With 69, the entries that are read at once have come, and are right.
    ensures stops { (whole left : List ℕ) → IsAt whole left (R.remaining (inner_of reader.old))
        → IfErr result (StopsAt (entries_at count) (IsOk (entries_at (min count BUFFERED) FileFault.Truncated left)) left (R.remaining (inner_of reader.new))) }
    ensures counted { TellsOf (faults_of reader.old) (faults_of reader.new) result }
{
    let mut left = count;
    while left > 0 {
        let some = left.min(BUFFERED);
        read_some(alloc, reader, entries, some, left)?;
        left -= some;
    }
    Ok(())
}

/// The digest, and what comes behind it. Whether the digest is right is not asked.
fn read_end<R: Read>(reader: &mut Counted<R>) -> Result<End, FileFault>
    ensures ends { (left : List ℕ) → R.remaining (inner_of reader.old) ≡ Some left → IfOk result (λ end. Ends end.digest end.behind left (R.remaining (inner_of reader.new))) }
    ensures short { (left : List ℕ) → R.remaining (inner_of reader.old) ≡ Some left → IfErr result (EndsEarly left (R.remaining (inner_of reader.new))) }
    ensures counted { MatchResult result (λ end. TellsBehind end.behind (faults_of reader.old) (faults_of reader.new)) (λ fault. Tells fault (faults_of reader.old) (faults_of reader.new)) }
{
    let mut buf = [0u8; END_LEN];
    let came = fill(reader, &mut buf, END_LEN);
    let (digest, over) = bytes_at(&buf[..came.count], came.short)?;
    Ok(End {
        digest,
        behind: behind(over, came.short),
    })
}

/// What came behind a digest, if these bytes did, and no more for this reason.
fn behind(over: &[u8], short: FileFault) -> Behind
    ensures { result ≡ behind_by over.now short }
{
    if !over.is_empty() {
        return Behind::Byte;
    }
    match short {
        FileFault::Read => Behind::Fault,
        _ => Behind::Nothing,
    }
}

/// Reads the file of a level as [`read_image`] does, but compares no digest: [`Unsealed::seal`] does,
/// and then says what `read_image` would have said. So whoever verifies the level may let another
/// thread compare the digest. It is refused as 60 to 65, 68 and 69, and takes the memory that
/// `read_image` takes.
pub fn read_unsealed<R: Read>(alloc: Global, reader: &mut Counted<R>) -> Result<Unsealed, FileFault>
    // What was read is the file of what was found, but for its end.
    ensures found { IfSome (R.remaining (inner_of reader.old)) (λ bytes. IfOk result (λ file. IsUnsealed file bytes (R.remaining (inner_of reader.new)))) }
    // Otherwise it is the first fault, as `read_image` has it.
    ensures fault { IfSome (R.remaining (inner_of reader.old)) (λ bytes. IfErr result (Stops bytes (R.remaining (inner_of reader.new)))) }
    ensures low { IfOk result (λ file. file.loaded.image.level ≤ HIGHEST_LEVEL) }
    // The reader answered a fault if the result names one, and only then.
    ensures counted { MatchResult result (λ file. TellsBehind file.behind (faults_of reader.old) (faults_of reader.new)) (λ fault. Tells fault (faults_of reader.old) (faults_of reader.new)) }
{
    let Header {
        version,
        level,
        limit,
        below,
    } = read_header(reader)?;
    let mut entries = Entries::new(alloc);
    read_entries(alloc, reader, &mut entries, size(level))?;
    let End { digest, behind } = read_end(reader)?;
    let image = Image {
        level,
        limit,
        entries,
    };
    Ok(Unsealed {
        loaded: Loaded {
            version,
            image,
            below,
            digest,
        },
        behind,
    })
}

/// Reads the file of a level, of version 1 or 2, which has to be all that the reader has left. It
/// judges neither what the file says of boards, nor whether `below` is the digest of the file below.
///
/// The fields are read in order, each entry being one, and the first fault is answered. In a field
/// these are looked for in order:
///
/// - 68: the reader answered a fault.
/// - 60: the input ended within the field.
/// - 61 to 66: the field's own fault.
///
/// After the digest it asks for one more byte, and answers 67 if there is one. Room for all entries
/// is taken after the header and the first 680 entries, or all if there are fewer; want of it is 69.
/// So a file that ends early asks for no room, whatever its header says. It takes no other memory.
/// After a refusal nothing is known of the reader's place.
pub fn read_image<R: Read>(alloc: Global, reader: &mut Counted<R>) -> Result<Loaded, FileFault>
    // What is read is the file of a level, and all of it.
    ensures found { IfSome (R.remaining (inner_of reader.old)) (λ bytes. IfOk result (λ loaded. IsFileOf bytes loaded)) }

    // What is the file of a level is read, unless the reader answers a fault or memory runs out.
    ensures only { IfSome (R.remaining (inner_of reader.old)) (λ bytes. (version : ℕ) (image : Image) (below : List ℕ) →
        HasFile version image below → bytes ≡ file_text version image below → Answers (λ loaded. loaded) result (Ok (found_of version image below))) }

    // Otherwise it is the first fault, unless the reader answers one or memory runs out.
    ensures exact { IfSome (R.remaining (inner_of reader.old)) (λ bytes. Answers (λ loaded. loaded) result (file_in bytes)) }

    // An image and 60 come only from a reader that answered no fault, and 68 only from one that did.
    ensures counted { TellsOf (faults_of reader.old) (faults_of reader.new) result }

    // With 68, what came before has no fault of its own. With 61 to 67, it is the fault of what came: the
    // field that has it came whole, and with 67 a byte behind the digest. With 69, the header is right,
    // and so are the first 680 entries, or all if there are fewer.
    ensures stops { IfSome (R.remaining (inner_of reader.old)) (λ bytes. IfErr result (StopsBy bytes (R.remaining (inner_of reader.new)))) }
{
    let file = read_unsealed(alloc, reader)?;
    file.seal()?;
    Ok(file.loaded)
}
