//! The program over a host whose folders are known: each command finds what lies in the folder that it
//! names, and writes there alone.

use crate::expect::expect_equal;
use crate::hosts::MemoryHost;
use awari_cli::{Streams, run};
use std::alloc::Global;
use std::process::Abort;
use std::sync::Wait;
use std::thread::Threads;
use std::time::Clock;
use std::{io, str};

/// Words of the program, what it prints of them, and its status.
type Line = (&'static [&'static str], &'static str, u8);

const LEVELS_0_TO_1: &str = "\
level 0 boards 1 won 0 even 1 lost 0 limit 0
level 1 boards 12 won 5 even 0 lost 7 limit 1
";

const LEVELS_0_TO_2: &str = "\
level 0 boards 1 won 0 even 1 lost 0 limit 0
level 1 boards 12 won 5 even 0 lost 7 limit 1
level 2 boards 78 won 24 even 13 lost 41 limit 9
";

const NO_LEVELS: &str = "\
levels 0 digest 0000000000000000000000000000000000000000000000000000000000000000
";

const RIGHT_LEVELS_0_TO_2: &str = "\
level 0 ok limit 0
level 1 ok limit 1
level 2 ok limit 9
levels 3 digest 326cbe86f97046809b09630f35e9ca500777be5ba275edb931a71fa1af1a4a9f
";

const BROUGHT: &str = "\
level 0 limit 0 to 0
level 1 limit 1 to 1
level 2 limit 9 to 9
levels 3 digest 326cbe86f97046809b09630f35e9ca500777be5ba275edb931a71fa1af1a4a9f
";

const CAPTURE: &str = "0,0,0,0,0,1/0,0,0,0,0,0";

/// What the first and the second folder of the host hold is told apart, and any other is empty.
const IN_TWO_FOLDERS: [Line; 10] = [
    (&["awari", "verify", "first"], NO_LEVELS, 0),
    (
        &["awari", "build", "2", "--folder", "first"],
        LEVELS_0_TO_2,
        0,
    ),
    (&["awari", "verify", "first"], RIGHT_LEVELS_0_TO_2, 0),
    (&["awari", "verify", "second"], NO_LEVELS, 0),
    (
        &["awari", "ask", "second", CAPTURE],
        "refused 59 NotYet levels 0\n",
        1,
    ),
    (&["awari", "ask", "first", CAPTURE], "-1 5 1\n", 0),
    (&["awari", "build", "2", "--folder", "first"], "", 0),
    (&["awari", "migrate", "first", "second"], BROUGHT, 0),
    (&["awari", "verify", "second"], RIGHT_LEVELS_0_TO_2, 0),
    (
        &["awari", "migrate", "second", "first"],
        "refused 85 Occupied level 0\n",
        1,
    ),
];

/// A folder that the host does not keep is built in like any other, and is empty again once it is closed.
const IN_NO_FOLDER: [Line; 3] = [
    (
        &["awari", "build", "1", "--folder", "third"],
        LEVELS_0_TO_1,
        0,
    ),
    (&["awari", "verify", "third"], NO_LEVELS, 0),
    (&["awari", "verify", "first"], NO_LEVELS, 0),
];

/// Runs the program on the words of each line, one after the other over this host.
fn expect_on(
    rt: &(impl Abort + Threads + Clock + Wait + Sync + Send + Clone + Drop + 'static),
    alloc: Global,
    host: &mut MemoryHost,
    lines: &[Line],
) {
    for (words, printed, status) in lines {
        expect_line(rt, alloc, host, (words, printed, *status));
    }
}

fn expect_line(
    rt: &(impl Abort + Threads + Clock + Wait + Sync + Send + Clone + Drop + 'static),
    alloc: Global,
    host: &mut MemoryHost,
    (words, printed, expected): (&[&'static str], &str, u8),
) {
    let mut streams = Streams {
        input: io::empty(),
        output: Vec::new(alloc),
        errors: io::sink(),
    };
    let status = run(rt, alloc, host, words, &mut streams);
    let found = (str::from_utf8(&streams.output), status);
    expect_equal(rt, words, found, (Ok(printed), expected));
}

#[test]
fn each_command_finds_the_folder_named(rt: HostRuntime) {
    let mut host = MemoryHost::new(rt.alloc());
    expect_on(&rt, rt.alloc(), &mut host, &IN_TWO_FOLDERS);
}

#[test]
fn a_folder_that_is_not_kept_is_empty(rt: HostRuntime) {
    let mut host = MemoryHost::new(rt.alloc());
    expect_on(&rt, rt.alloc(), &mut host, &IN_NO_FOLDER);
}
