//! The text of tables, whose end and whose first fault are answered again and again.

use crate::expect::{expect, expect_equal};
use awari_table::{TableFault, TableText};
use std::alloc::Global;
use std::process::Abort;
use std::test::Fail;

#[test]
fn the_end_is_answered_again(rt: HostRuntime) -> Result<(), Fail> {
    let mut text = TableText::new(rt.alloc(), b"level 0 limit 0\n0 - 0\n");
    expect(&rt, "level 0", text.next()?.is_some());
    for _ in 0..2u8 {
        expect(&rt, "no further level", text.next()?.is_none());
    }
    Ok(())
}

/// Texts, and the first fault of each.
const FAULTY: [(&[u8], TableFault); 22] = [
    (b"level 0 limit 0", TableFault::Short),
    (b"level 0 limit 0\n", TableFault::Short),
    (b"level 0 limit 0\n0 - 0", TableFault::Short),
    (b"level 25 limit 0", TableFault::Short),
    (b"\n", TableFault::Line { line: 1 }),
    (b"level 0 limit 00\n", TableFault::Line { line: 1 }),
    (
        b"level 0 limit 0\r\n0 - 0\r\n",
        TableFault::Line { line: 1 },
    ),
    (b"level 0  limit 0\n", TableFault::Line { line: 1 }),
    (b"level 0 limit 4294967296\n", TableFault::Line { line: 1 }),
    (b"level 256 limit 0\n", TableFault::Line { line: 1 }),
    (b"level 255 limit 0\n", TableFault::High { line: 1 }),
    (b"level 25 limit 0\n", TableFault::High { line: 1 }),
    (b"level 24 limit 0\n", TableFault::Order { line: 1 }),
    (b"level 13 limit 0\n", TableFault::Order { line: 1 }),
    (b"level 1 limit 1\n", TableFault::Order { line: 1 }),
    (b"level 0 limit 0\n-0 - 0\n", TableFault::Line { line: 2 }),
    (b"level 0 limit 0\n00 - 0\n", TableFault::Line { line: 2 }),
    (b"level 0 limit 0\n128 - 0\n", TableFault::Line { line: 2 }),
    (b"level 0 limit 0\n-129 - 0\n", TableFault::Line { line: 2 }),
    (b"level 0 limit 0\n-128 6 0\n", TableFault::Line { line: 2 }),
    (
        b"level 0 limit 0\n0 - 0\n0 - 0\n",
        TableFault::Line { line: 3 },
    ),
    (
        b"level 0 limit 0\n-128 5 4294967295\nlevel 0 limit 0\n",
        TableFault::Order { line: 3 },
    ),
];

/// Reads the text until it is refused, and three times more.
fn expect_fault(rt: &impl Abort, alloc: Global, text: &[u8], fault: TableFault) {
    let mut reader = TableText::new(alloc, text);
    let mut met = None;
    for _ in 0..4 {
        match reader.next() {
            Ok(image) => expect(rt, text, met.is_none() && image.is_some()),
            Err(other) => {
                expect_equal(rt, text, other, fault);
                met = Some(other);
            }
        }
    }
    expect(rt, text, met.is_some());
}

#[test]
fn answers_the_first_fault_again_and_again(rt: HostRuntime) {
    for (text, fault) in &FAULTY {
        expect_fault(&rt, rt.alloc(), text, *fault);
    }
}

#[test]
fn numbers_of_its_refusals(rt: HostRuntime) {
    let numbers = [
        TableFault::Line { line: 1 }.number(),
        TableFault::Order { line: 1 }.number(),
        TableFault::High { line: 1 }.number(),
        TableFault::Short.number(),
        TableFault::Memory.number(),
    ];
    expect_equal(&rt, "numbers", numbers, [10, 11, 12, 13, 15]);
}
