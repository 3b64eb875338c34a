//! The fields of a file, each at the front of some bytes. `short` is the fault if there are too few
//! bytes.

ghost use Rattle.std.specs.Prelude.{◌≡◌, ◌≤◌, ◌==◌, nat_le, IfOk};
ghost use Rattle.std.specs.Int.{w8, w16, w32, w64};
ghost use Rattle.awari_rank.specs.Rank.{size_of};
ghost use Rattle.awari_table.specs.declared.TheConstants.{HIGHEST_LEVEL};
ghost use Rattle.awari_file.specs.FileText.{magic_number, highest_in};
ghost use Rattle.awari_file.specs.Reading.{Gives, field, number_if, any_number, as_they_are, is_version, header_at, entry_of};

use crate::contents::Header;
use crate::faults::FileFault;
use crate::sizes::ENTRY_LEN;
use awari_board::SIDE;
use awari_rank::size;
use awari_table::{Entry, HIGHEST_FALLING_LEVEL, HIGHEST_LEVEL};

/// `AWDB`.
pub(crate) const MAGIC: u32 = 0x4157_4442;

/// The version that is written.
pub(crate) const VERSION: u16 = 2;

/// The version of older tables, whose distances only had to fall. It is still read.
pub const OLD_VERSION: u16 = 1;

/// The byte of a plan that is none.
pub(crate) const NO_PLAN: u8 = 255;

fn magic_at(bytes: &[u8], short: FileFault) -> Result<(u32, &[u8]), FileFault>
    ensures { Gives (λ x. (x.0, x.1.now)) result (field 4 (number_if w32 (λ n. n == magic_number) FileFault.Magic) short bytes.now) }
{
    let Some((front, rest)) = bytes.split_first_chunk::<4>() else {
        return Err(short);
    };
    let magic = u32::from_be_bytes(*front);
    if magic != MAGIC {
        return Err(FileFault::Magic);
    }
    Ok((magic, rest))
}

fn version_at(bytes: &[u8], short: FileFault) -> Result<(u16, &[u8]), FileFault>
    ensures { Gives (λ x. (x.0, x.1.now)) result (field 2 (number_if w16 is_version FileFault.Version) short bytes.now) }
{
    let Some((front, rest)) = bytes.split_first_chunk::<2>() else {
        return Err(short);
    };
    let version = u16::from_be_bytes(*front);
    if version != VERSION && version != OLD_VERSION {
        return Err(FileFault::Version);
    }
    Ok((version, rest))
}

/// The highest level that a version has.
fn highest_in(version: u16) -> u8
    ensures is { result ≡ highest_in version }
    ensures low { result ≤ HIGHEST_LEVEL }
{
    if version == OLD_VERSION {
        HIGHEST_FALLING_LEVEL
    } else {
        HIGHEST_LEVEL
    }
}

/// A level that the version has.
fn level_at(version: u16, bytes: &[u8], short: FileFault) -> Result<(u8, &[u8]), FileFault>
    ensures value { Gives (λ x. (x.0, x.1.now)) result (field 1 (number_if w8 (λ n. nat_le n (highest_in version)) FileFault.LevelOutOfRange) short bytes.now) }
    ensures low { IfOk result (λ x. x.0 ≤ HIGHEST_LEVEL) }
{
    let Some(([level], rest)) = bytes.split_first_chunk::<1>() else {
        return Err(short);
    };
    if *level > highest_in(version) {
        return Err(FileFault::LevelOutOfRange);
    }
    Ok((*level, rest))
}

/// The byte that is always 0.
fn nought_at(bytes: &[u8], short: FileFault) -> Result<(u8, &[u8]), FileFault>
    ensures { Gives (λ x. (x.0, x.1.now)) result (field 1 (number_if w8 (λ n. n == 0) FileFault.Version) short bytes.now) }
{
    let Some(([nought], rest)) = bytes.split_first_chunk::<1>() else {
        return Err(short);
    };
    if *nought != 0 {
        return Err(FileFault::Version);
    }
    Ok((*nought, rest))
}

/// The number of entries, which is that of the level's boards.
fn count_at(level: u8, bytes: &[u8], short: FileFault) -> Result<(u64, &[u8]), FileFault>
    requires { level ≤ HIGHEST_LEVEL }
    ensures { Gives (λ x. (x.0, x.1.now)) result (field 8 (number_if w64 (λ n. n == size_of level) FileFault.Count) short bytes.now) }
{
    let Some((front, rest)) = bytes.split_first_chunk::<8>() else {
        return Err(short);
    };
    let count = u64::from_be_bytes(*front);
    if count != u64::from(size(level)) {
        return Err(FileFault::Count);
    }
    Ok((count, rest))
}

fn limit_at(bytes: &[u8], short: FileFault) -> Result<(u32, &[u8]), FileFault>
    ensures { Gives (λ x. (x.0, x.1.now)) result (field 4 (any_number w32) short bytes.now) }
{
    let Some((front, rest)) = bytes.split_first_chunk::<4>() else {
        return Err(short);
    };
    Ok((u32::from_be_bytes(*front), rest))
}

/// 32 bytes, of which any may stand there.
pub(crate) fn bytes_at(bytes: &[u8], short: FileFault) -> Result<([u8; 32], &[u8]), FileFault>
    ensures { Gives (λ x. (x.0, x.1.now)) result (field 32 as_they_are short bytes.now) }
{
    let Some((taken, rest)) = bytes.split_first_chunk::<32>() else {
        return Err(short);
    };
    Ok((*taken, rest))
}

/// All that stands before the entries, at the front of these bytes, and the bytes behind it. It is
/// refused as the first of its fields that is wrong: 61 to 64, or `short` if there are too few bytes. It
/// takes no memory.
#[tactic(auto, unfolding(crate::specs::Reading::header_at))]
pub fn header_of(bytes: &[u8], short: FileFault) -> Result<(Header, &[u8]), FileFault>
    ensures value { Gives (λ x. (x.0, x.1.now)) result (header_at short bytes.now) }
    ensures low { IfOk result (λ x. x.0.level ≤ HIGHEST_LEVEL) }
{
    let (_, rest) = magic_at(bytes, short)?;
    let (version, rest) = version_at(rest, short)?;
    let (level, rest) = level_at(version, rest, short)?;
    let (_, rest) = nought_at(rest, short)?;
    let (_, rest) = count_at(level, rest, short)?;
    let (limit, rest) = limit_at(rest, short)?;
    let (below, rest) = bytes_at(rest, short)?;
    Ok((
        Header {
            version,
            level,
            limit,
            below,
        },
        rest,
    ))
}

/// The entry at the front of these bytes, and the bytes behind it. It is refused as 65 if its plan is
/// neither a pit nor none, or as `short` if there are too few bytes. It takes no memory.
pub fn entry_at(bytes: &[u8], short: FileFault) -> Result<(Entry, &[u8]), FileFault>
    ensures { Gives (λ x. (x.0, x.1.now)) result (field 6 entry_of short bytes.now) }
{
    let Some((front, rest)) = bytes.split_first_chunk::<ENTRY_LEN>() else {
        return Err(short);
    };
    let plan = match front[1] {
        NO_PLAN => None,
        pit if pit < SIDE => Some(pit),
        _ => return Err(FileFault::EntryForm),
    };
    let entry = Entry {
        value: front[0].cast_signed(),
        plan,
        dist: u32::from_be_bytes([front[2], front[3], front[4], front[5]]),
    };
    Ok((entry, rest))
}
