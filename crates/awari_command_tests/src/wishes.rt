//! `verify` with a wish: which levels a folder is to have, and which digest.

use crate::expect::expect_equal;
use crate::plain::{build, memory_folder, refuse, verified_as};
use awari_file_tests::MemoryFolder;
use awari_queries::VerifyQuery;
use std::process::Abort;
use std::str;
use std::sync::Wait;
use std::thread::Threads;
use std::time::Clock;

const RIGHT_LEVELS_0_TO_1: &str = "\
level 0 ok limit 0
level 1 ok limit 1
levels 2 digest e5a9a57f6858a25baad0b0a5a6a39407e11a4315b2a1df329ebea00cef062deb
";

/// Nothing is wished.
const ANY: VerifyQuery<'_> = VerifyQuery {
    levels: None,
    digest: None,
    progress: false,
};

/// What the error stream tells of levels 0 and 1 if these are wished, and the status.
fn expect_wish(
    rt: &(impl Abort + AllocGlobal + Threads + Clock + Wait + Sync + Send + Clone + Drop + 'static),
    folder: &mut MemoryFolder,
    query: VerifyQuery<'_>,
    told: &str,
    expected: u8,
) {
    let mut output = Vec::new(rt.alloc());
    let mut errors = Vec::new(rt.alloc());
    let status = verified_as(rt, folder, query, &mut output, &mut errors);
    expect_equal(rt, told, str::from_utf8(&output), Ok(RIGHT_LEVELS_0_TO_1));
    expect_equal(rt, "told", str::from_utf8(&errors), Ok(told));
    expect_equal(rt, told, status, expected);
}

/// A folder in memory with levels 0 and 1.
fn two_levels(
    rt: &(impl Abort + AllocGlobal + Threads + Clock + Wait + Sync + Send + Clone + Drop + 'static),
) -> MemoryFolder {
    let mut folder = memory_folder(rt.alloc());
    let mut output = Vec::new(rt.alloc());
    expect_equal(rt, "built", build(rt, &mut folder, &mut output), 0);
    folder
}

/// The words of the program take no digest of fewer digits.
#[test]
fn a_digest_is_wished(rt: HostRuntime) {
    let mut folder = two_levels(&rt);
    let digest = Some("e5a9");
    let query = VerifyQuery { digest, ..ANY };
    let told = "digest e5a9 was asked for; the folder has digest \
        e5a9a57f6858a25baad0b0a5a6a39407e11a4315b2a1df329ebea00cef062deb\n";
    expect_wish(&rt, &mut folder, query, told, 1);
}

/// The calls of a load come first, and then those that look for files above.
#[test]
fn a_file_above_does_not_open(rt: HostRuntime) {
    let mut folder = two_levels(&rt);
    let mut output = Vec::new(rt.alloc());
    let mut errors = Vec::new(rt.alloc());
    let levels = Some(1);
    let query = VerifyQuery { levels, ..ANY };
    refuse(&mut folder, 4);
    let status = verified_as(&rt, &mut folder, query, &mut output, &mut errors);
    let printed = str::from_utf8(&output);
    expect_equal(&rt, "refused", printed, Ok("refused 82 Open level 2\n"));
    expect_equal(&rt, "status", status, 1);
    let told = str::from_utf8(&errors);
    expect_equal(
        &rt,
        "told",
        told,
        Ok("The folder or a file does not open\n"),
    );
}
