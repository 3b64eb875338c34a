//! Notes put to the second of three owners of level 1, whose block has the ranks 4 to 7. The boards of
//! ranks 4, 5 and 7 are ended, and that of rank 6 has one move, which is quiet and leads to rank 11.

ghost use Rattle.std.specs.Prelude.{◌≡◌, ◌<◌, IfOk};

use crate::expect::expect_equal;
use crate::shelves::one_level;
use awari_block::{Kind, Note};
use awari_owner::{OwnerFault, Part};
use std::alloc::Global;
use std::process::Abort;
use std::test::Fail;

/// Rank 6 hears that its pit 5 leads to a board that wins 1 stone.
pub(crate) const NOTE: Note = Note {
    level: 1,
    target: 6,
    pit: 5,
    kind: Kind::Won,
    gain: 1,
    dist: 0,
};

/// The part of the second of three owners, with gain 1 open.
fn second_of_three(alloc: Global) -> Result<Part, Fail> {
    let shelf = one_level(alloc)?;
    let mut part = Part::scan(alloc, &shelf, 3, 1)?;
    part.open_gain(1);
    Ok(part)
}

/// The block is that of ranks 4 to 7, and what is known of the board of this rank is so.
fn expect_settled(rt: &impl Abort, part: &Part, rank: u32, settled: Option<(i8, u32)>) {
    assert!(rt; part.block() == (4, 8) && 4 <= rank && rank < 8);
    expect_equal(rt, rank, part.settled(rank), settled);
}

fn expect_answer(rt: &impl Abort, part: &mut Part, note: Note, answer: Result<(), OwnerFault>) {
    expect_equal(rt, note, part.take(note), answer);
}

#[test]
fn hears_a_note_once(rt: HostRuntime) -> Result<(), Fail> {
    let mut part = second_of_three(rt.alloc())?;
    expect_settled(&rt, &part, 5, Some((-1, 0)));
    expect_settled(&rt, &part, 6, None);
    expect_settled(&rt, &part, 7, Some((1, 0)));
    expect_answer(&rt, &mut part, NOTE, Ok(()));
    expect_settled(&rt, &part, 6, Some((-1, 1)));
    expect_answer(&rt, &mut part, NOTE, Err(OwnerFault::Doubled));
    Ok(())
}

#[test]
fn a_lost_board_gives_its_gain(rt: HostRuntime) -> Result<(), Fail> {
    let mut part = second_of_three(rt.alloc())?;
    let lost = Note {
        kind: Kind::Lost,
        ..NOTE
    };
    expect_answer(&rt, &mut part, lost, Ok(()));
    expect_settled(&rt, &part, 6, Some((1, 1)));
    Ok(())
}

/// Notes that the second of three owners does not expect.
const STRANGERS: [Note; 7] = [
    Note { level: 2, ..NOTE },
    Note { target: 8, ..NOTE },
    Note { gain: 2, ..NOTE },
    Note { pit: 4, ..NOTE },
    Note { dist: 1, ..NOTE },
    Note {
        dist: u32::MAX,
        ..NOTE
    },
    // The board of rank 4 is ended.
    Note {
        target: 4,
        pit: 0,
        ..NOTE
    },
];

#[test]
fn refuses_strangers(rt: HostRuntime) -> Result<(), Fail> {
    let mut part = second_of_three(rt.alloc())?;
    for stranger in &STRANGERS {
        expect_answer(&rt, &mut part, *stranger, Err(OwnerFault::Stranger));
    }
    Ok(())
}

/// The part of the seventh of twelve owners, whose one board is that of rank 6. Nothing settles it
/// before it hears a note, so any distance can be opened.
fn seventh_of_twelve(alloc: Global, wave: u32) -> Result<Part, Fail>
    requires { 0 < wave }
    ensures { IfOk result (λ part. part.wave ≡ wave) }
{
    let shelf = one_level(alloc)?;
    let mut part = Part::scan(alloc, &shelf, 12, 6)?;
    part.open_gain(1);
    if !part.idle() {
        return Err("a fresh board".into());
    }
    part.open_wave(wave);
    Ok(part)
}

/// The one board of the part of the seventh of twelve owners is settled so.
fn expect_rank_6(rt: &impl Abort, part: &Part, settled: Option<(i8, u32)>) {
    assert!(rt; part.block() == (6, 7));
    expect_equal(rt, "rank 6", part.settled(6), settled);
}

#[test]
fn refuses_the_greatest_distance(rt: HostRuntime) -> Result<(), Fail> {
    for (wave, answer, settled) in [
        (u32::MAX, Err(OwnerFault::Far), None),
        (u32::MAX - 1, Ok(()), Some((-1, u32::MAX))),
    ] {
        let mut part = seventh_of_twelve(rt.alloc(), wave)?;
        let note = Note { dist: wave, ..NOTE };
        expect_answer(&rt, &mut part, note, answer);
        expect_rank_6(&rt, &part, settled);
    }
    Ok(())
}

#[test]
fn faults_have_their_numbers(rt: HostRuntime) {
    let numbers = (OwnerFault::Stranger.number(), OwnerFault::Far.number());
    expect_equal(&rt, "numbers", numbers, (30, 32));
}
