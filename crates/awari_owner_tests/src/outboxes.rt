//! The outboxes of the third of three owners of level 1, whose block has the ranks 8 to 11. All of its
//! boards are ended. The board of rank 11 has one predecessor, that of rank 6, which the second owner has.

ghost use Rattle.awari_owner.specs.Spread.{IsPartOf};

use crate::expect::{expect, expect_equal};
use crate::notes::NOTE;
use crate::parts::{expect_none_due, open_gain_1, spread_next};
use crate::shelves::one_level;
use awari_owner::{Outboxes, Part};
use std::process::Abort;
use std::test::Fail;

/// The four boards are spread, before the last of which nothing is to be sent.
fn spread_four(rt: &impl Abort, part: &mut Part, outboxes: &mut Outboxes)
    requires made { IsPartOf part.old outboxes.old }
    ensures made { IsPartOf part.new outboxes.new }
{
    for _board in 0..4u8 {
        expect(rt, "nothing to send", outboxes.is_empty());
        spread_next(rt, part, outboxes);
    }
}

/// Nothing is sent to the first owner, to the third itself, or to a fourth.
fn expect_no_other(rt: &impl Abort, outboxes: &Outboxes) {
    for to in &[0u8, 2, 3] {
        expect(rt, *to, outboxes.front(*to).is_none());
    }
}

/// The note is all that is sent to the second owner.
fn send_the_note(rt: &impl Abort, outboxes: &mut Outboxes) -> Result<(), Fail> {
    let Some(batch) = outboxes.front(1) else {
        return Err("no batch".into());
    };
    expect_equal(rt, "the note", batch.as_slice(), [NOTE].as_slice());
    outboxes.drop_front(1);
    expect(rt, "nothing to send", outboxes.is_empty());
    Ok(())
}

#[test]
fn a_note_waits_for_its_owner(rt: HostRuntime) -> Result<(), Fail> {
    let shelf = one_level(rt.alloc())?;
    let mut part = Part::scan(rt.alloc(), &shelf, 3, 2)?;
    let mut outboxes = Outboxes::new(rt.alloc(), 3, 2)?;
    open_gain_1(&rt, &mut part, &outboxes);
    spread_four(&rt, &mut part, &mut outboxes);
    expect_none_due(&rt, &mut part, &mut outboxes);
    expect_no_other(&rt, &outboxes);
    send_the_note(&rt, &mut outboxes)
}
