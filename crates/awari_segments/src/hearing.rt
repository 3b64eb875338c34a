//! How a segment hears what members told.

ghost use Rattle.std.specs.Prelude.{◌≡◌, ◌/◌, ◌%◌, ◌^◌, ◌<◌, ◌≤◌, ◌∷◌, [], IfSome, IsTrue, true, All, OnOk, length};
ghost use Rattle.awari_block.specs.Boards.{HearsNote, stake_of};
ghost use Rattle.awari_block.specs.Cells.{is_settled};
ghost use Rattle.awari_block.specs.Part.{stored_at};
ghost use Rattle.awari_block.specs.Each.{EachTo};
ghost use Rattle.awari_segments.specs.Ahead.{TellSettled};
ghost use Rattle.awari_segments.specs.Segments.{IsCodeFor, IsReady, SettlesPast, notes_by};
ghost use Rattle.awari_segments.specs.Tellings.{HearsSurely, HearsTelling, telling_of};

use crate::halts::Halt;
use crate::rows::Row;
use crate::segments::Segment;
use crate::taking::is_same;
use awari_block::{Kind, Stake};
use std::alloc::AllocError;

/// How many notes are heard at a time, their cells being read ahead. Processors wait for fewer reads
/// than this at a time.
const HEARD_AT_ONCE: usize = 64;

/// The segments hear what a member told, each what the row has for it by its number: the rank of its
/// first board over 2 to the power `log`. Refused as `Unfit` if a segment has other than this stake, or may
/// not hear a note of it, and as `Memory`; then the level is lost.
pub fn hear_rows(log: u32, stake: Stake, row: &Row, segments: &mut [Segment]) -> Result<(), Halt>
    requires { log < 32 }
    ensures hears { OnOk result (EachTo (HearsTelling (2 ^ log) (telling_of stake row.now)) segments.old segments.new) }
    ensures settles { OnOk result (EachTo SettlesPast segments.old segments.new) }
{
    for k in 0..segments.len() {
        hear_row(log, stake, row, &mut segments[k])?;
    }
    Ok(())
}

/// One of them hears what the row has for it.
fn hear_row(log: u32, stake: Stake, row: &Row, segment: &mut Segment) -> Result<(), Halt>
    requires { log < 32 }
    ensures hears { OnOk result (HearsTelling (2 ^ log) (telling_of stake row.now) segment.old segment.new) }
    ensures settles { OnOk result (SettlesPast segment.old segment.new) }
{
    if !is_same(segment.stake(), stake) {
        return Err(Halt::Unfit);
    }
    let (start, _end) = segment.block();
    let number = (start >> log) as usize;
    hear_list(segment, Kind::Lost, row.list(Kind::Lost, number))?;
    hear_list(segment, Kind::Won, row.list(Kind::Won, number))?;
    Ok(())
}

/// The segment hears the notes of these codes, of one kind, and of the open gain and wave. Boards that
/// they settle join the fresh ones. It looks at each note first. Refused as `Unfit` if one is not for the
/// segment or is of a move that was heard, and as `Memory` if there was no room for a board that is
/// settled; then the level is lost.
fn hear_list(segment: &mut Segment, kind: Kind, codes: &[u32]) -> Result<(), Halt>
    ensures settles { OnOk result (SettlesPast segment.old segment.new) }
    ensures hears { OnOk result (HearsSurely (notes_by (stake_of segment.old) kind codes.now) segment.old segment.new) }
{
    let mut start: usize = 0;
    while start < codes.len() {
        let end = codes.len().min(start + HEARD_AT_ONCE);
        hear_batch(segment, kind, &codes[start..end])?;
        start = end;
    }
    Ok(())
}

/// It hears a few of them. Their cells are read before the first is heard, so the waits for memory
/// overlap.
fn hear_batch(segment: &mut Segment, kind: Kind, codes: &[u32]) -> Result<(), Halt>
    requires few { length codes.now ≤ HEARD_AT_ONCE }
    ensures settles { OnOk result (SettlesPast segment.old segment.new) }
    ensures hears { OnOk result (HearsSurely (notes_by (stake_of segment.old) kind codes.now) segment.old segment.new) }
{
    if !is_ready(segment) {
        return Err(Halt::Unfit);
    }
    let Some(settled) = settled_among(segment, codes) else {
        return Err(Halt::Unfit);
    };
    for k in 0..codes.len() {
        hear_unheard(segment, kind, codes[k], settled[k])?;
    }
    Ok(())
}

/// Whether a gain is open, and the wave is not the greatest u32.
fn is_ready(segment: &Segment) -> bool
    ensures { IsTrue result → IsReady segment.now }
{
    let stake = segment.stake();
    stake.gain <= stake.level && stake.wave != u32::MAX
}

/// It hears the note of this code, unless one of that move was heard.
#[inline(always)]
fn hear_unheard(segment: &mut Segment, kind: Kind, code: u32, settled: bool) -> Result<(), Halt>
    requires code { IsCodeFor segment.old code }
    requires settled { IsTrue settled → is_settled (stored_at segment.old (code / 8)).mark ≡ true }
    requires ready { IsReady segment.old }
    ensures settles { OnOk result (SettlesPast segment.old segment.new) }
    ensures hears { OnOk result (HearsSurely (notes_by (stake_of segment.old) kind (code ∷ [])) segment.old segment.new) }
{
    if !segment.cell(code / 8).has_left((code % 8) as u8) {
        return Err(Halt::Unfit);
    }
    hear_next(segment, kind, code, settled)?;
    Ok(())
}

/// For each of these notes whether its board is settled, or none if one is not for a board of the segment. It
/// only reads, so the next cell is asked for while the last is still on its way.
#[inline(always)]
fn settled_among(segment: &Segment, codes: &[u32]) -> Option<[bool; HEARD_AT_ONCE]>
    requires few { length codes.now ≤ HEARD_AT_ONCE }
    ensures codes { IfSome result (λ settled. All (IsCodeFor segment.now) codes.now) }
    ensures settled { IfSome result (TellSettled segment.now codes.now) }
{
    let mut settled = [false; HEARD_AT_ONCE];
    for k in 0..codes.len() {
        let code = codes[k];
        if !segment.holds(code / 8) || code % 8 >= 6 {
            return None;
        }
        settled[k] = segment.cell(code / 8).is_settled();
    }
    Some(settled)
}

/// It hears the note of this code, of a board that may be known to be settled.
#[inline(always)]
fn hear_next(segment: &mut Segment, kind: Kind, code: u32, settled: bool) -> Result<(), AllocError>
    requires code { IsCodeFor segment.old code }
    requires settled { IsTrue settled → is_settled (stored_at segment.old (code / 8)).mark ≡ true }
    requires ready { IsReady segment.old }
    ensures range { 1 ≤ segment.old.gain }
    ensures settles { OnOk result (SettlesPast segment.old segment.new) }
    ensures hears { OnOk result (HearsNote segment.old segment.new (code / 8) (code % 8) kind) }
{
    let _ = segment.stake();
    let pit = (code % 8) as u8;
    if settled {
        segment.hear_settled(code / 8, pit, kind);
        return Ok(());
    }
    segment.hear(code / 8, pit, kind)?;
    Ok(())
}
