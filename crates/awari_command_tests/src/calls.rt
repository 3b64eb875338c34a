//! The commands on a folder in memory, of which one call is refused.

use crate::expect::{expect, expect_equal};
use crate::plain::{asked, build, has_draft, lined, memory_folder, refuse, refuse_files, verified};
use awari_file_tests::MemoryFolder;
use awari_folder::{Draft, Folder};
use awari_table::HIGHEST_LEVEL;
use std::alloc::Global;
use std::io::{Read, Write};
use std::process::Abort;
use std::str;
use std::sync::Wait;
use std::test::Fail;
use std::thread::Threads;
use std::time::Clock;

const LEVEL_1: &str = "level 1 boards 12 won 5 even 0 lost 7 limit 1\n";

const LEVELS_0_TO_1: &str = "\
level 0 boards 1 won 0 even 1 lost 0 limit 0
level 1 boards 12 won 5 even 0 lost 7 limit 1
";

const OPEN_0: &str = "refused 82 Open level 0\n";

const OPEN_0_TWICE: &str = "refused 82 Open level 0\nrefused 82 Open level 0\n";

const LEVEL_0_AND_OPEN_1: &str = "\
level 0 boards 1 won 0 even 1 lost 0 limit 0
refused 82 Open level 1
";

const RIGHT_LEVELS_0_TO_1: &str = "\
level 0 ok limit 0
level 1 ok limit 1
levels 2 digest e5a9a57f6858a25baad0b0a5a6a39407e11a4315b2a1df329ebea00cef062deb
";

/// What was printed, and the status.
fn expect_printed(rt: &impl Abort, (output, status): (&[u8], u8), printed: &str, expected: u8) {
    expect_equal(rt, status, str::from_utf8(output), Ok(printed));
    expect_equal(rt, printed, status, expected);
}

/// Builds up to level 1 in the folder, and compares what is printed and the status.
fn expect_build(
    rt: &(impl Abort + AllocGlobal + Threads + Clock + Wait + Sync + Send + Clone + Drop + 'static),
    folder: &mut MemoryFolder,
    printed: &str,
    expected: u8,
) {
    let mut output = Vec::new(rt.alloc());
    let status = build(rt, folder, &mut output);
    expect_printed(rt, (&output, status), printed, expected);
}

/// Verifies the folder, and compares what is printed and the status.
fn expect_verify(
    rt: &(impl Abort + AllocGlobal + Threads + Clock + Wait + Sync + Send + Clone + Drop + 'static),
    folder: &mut MemoryFolder,
    printed: &str,
    expected: u8,
) {
    let mut output = Vec::new(rt.alloc());
    let status = verified(rt, folder, &mut output);
    expect_printed(rt, (&output, status), printed, expected);
}

/// Nothing lies in the folder of a file that got no name.
fn expect_no_draft(rt: &impl Abort, folder: &MemoryFolder) {
    expect(rt, "no draft", !has_draft(folder));
}

/// Builds in an empty folder of which the call of this number is refused, and then once more: the
/// second time the rest is built.
fn expect_both(
    rt: &(impl Abort + AllocGlobal + Threads + Clock + Wait + Sync + Send + Clone + Drop + 'static),
    call: u32,
    printed: &str,
    status: u8,
    rest: &str,
) {
    let mut folder = memory_folder(rt.alloc());
    refuse(&mut folder, call);
    expect_build(rt, &mut folder, printed, status);
    refuse(&mut folder, 0);
    expect_no_draft(rt, &folder);
    expect_build(rt, &mut folder, rest, 0);
    expect_verify(rt, &mut folder, RIGHT_LEVELS_0_TO_1, 0);
}

#[test]
fn each_call_of_a_build_is_refused(rt: HostRuntime) {
    expect_both(&rt, 0, LEVELS_0_TO_1, 0, "");
    for call in 1..5u32 {
        expect_both(&rt, call, OPEN_0, 1, LEVELS_0_TO_1);
    }
    for call in 5..8u32 {
        expect_both(&rt, call, LEVEL_0_AND_OPEN_1, 1, LEVEL_1);
    }
    expect_both(&rt, 8, LEVELS_0_TO_1, 0, "");
}

/// A build whose new file refuses this writes nothing.
fn expect_not_written(
    rt: &(impl Abort + AllocGlobal + Threads + Clock + Wait + Sync + Send + Clone + Drop + 'static),
    folder: &mut MemoryFolder,
    (writes, sync): (bool, bool),
) {
    refuse_files(folder, writes, sync);
    expect_build(rt, folder, "refused 81 File level 0: 70 Write\n", 1);
    expect_no_draft(rt, folder);
}

#[test]
fn a_level_that_is_not_written_is_refused(rt: HostRuntime) {
    let mut folder = memory_folder(rt.alloc());
    expect_not_written(&rt, &mut folder, (true, false));
    expect_not_written(&rt, &mut folder, (false, true));
    refuse_files(&mut folder, false, false);
    expect_build(&rt, &mut folder, LEVELS_0_TO_1, 0);
}

/// Gives these bytes the name of a level.
pub(crate) fn lay(folder: &mut MemoryFolder, level: u8, bytes: &[u8]) -> Result<(), Fail> {
    if level > HIGHEST_LEVEL {
        return Err(Fail::new("a level"));
    }
    let Ok(mut draft) = folder.create(level) else {
        return Err(Fail::new("a new file"));
    };
    draft.write_all(bytes)?;
    if draft.sync().is_err() || folder.replace(level, draft).is_err() {
        return Err(Fail::new("a file"));
    }
    Ok(())
}

/// The bytes of a level's file.
fn file_of(alloc: Global, folder: &mut MemoryFolder, level: u8) -> Result<Vec<u8>, Fail> {
    if level > HIGHEST_LEVEL {
        return Err(Fail::new("a level"));
    }
    let mut bytes = Vec::new(alloc);
    if let Ok(Some(mut file)) = folder.open(level) {
        file.read_to_end(&mut bytes)?;
    }
    Ok(bytes)
}

/// The file of this level has these bytes.
fn expect_file(
    rt: &(impl Abort + AllocGlobal),
    folder: &mut MemoryFolder,
    level: u8,
    bytes: &[u8],
) -> Result<(), Fail> {
    let file = file_of(rt.alloc(), folder, level)?;
    expect_equal(rt, level, file.as_slice(), bytes);
    Ok(())
}

/// A folder in which level 1 alone has a file, of these bytes.
fn folder_with_a_gap(
    rt: &(impl Abort + AllocGlobal + Threads + Clock + Wait + Sync + Send + Clone + Drop + 'static),
    second: &[u8],
) -> Result<MemoryFolder, Fail> {
    let mut folder = memory_folder(rt.alloc());
    lay(&mut folder, 1, second)?;
    Ok(folder)
}

/// The files of levels 0 and 1.
pub(crate) fn two_files(
    rt: &(impl Abort + AllocGlobal + Threads + Clock + Wait + Sync + Send + Clone + Drop + 'static),
) -> Result<(Vec<u8>, Vec<u8>), Fail> {
    let mut folder = memory_folder(rt.alloc());
    expect_build(rt, &mut folder, LEVELS_0_TO_1, 0);
    let first = file_of(rt.alloc(), &mut folder, 0)?;
    let second = file_of(rt.alloc(), &mut folder, 1)?;
    Ok((first, second))
}

#[test]
fn a_right_file_above_a_gap_counts_as_saved(rt: HostRuntime) -> Result<(), Fail> {
    let (first, second) = two_files(&rt)?;
    let mut folder = folder_with_a_gap(&rt, &second)?;
    // The load makes one call, the save of level 0 three, and that of level 1 one: none writes there.
    refuse(&mut folder, 6);
    expect_build(&rt, &mut folder, LEVELS_0_TO_1, 0);
    refuse(&mut folder, 0);
    expect_no_draft(&rt, &folder);
    expect_file(&rt, &mut folder, 0, &first)?;
    expect_file(&rt, &mut folder, 1, &second)?;
    expect_verify(&rt, &mut folder, RIGHT_LEVELS_0_TO_1, 0);
    Ok(())
}

/// What `ask` and `line` print of a board and their status, where the folder refuses a call.
fn expect_no_answer(
    rt: &(impl Abort + AllocGlobal + Threads + Clock + Wait + Sync + Send + Clone + Drop + 'static),
    folder: &mut MemoryFolder,
    board: &str,
) {
    let mut output = Vec::new(rt.alloc());
    refuse(folder, 1);
    let status = asked(rt, folder, board, &mut output);
    expect_printed(rt, (&output, status), OPEN_0, 1);
    refuse(folder, 1);
    let status = lined(rt, folder, board, &mut output);
    expect_printed(rt, (&output, status), OPEN_0_TWICE, 1);
}

#[test]
fn a_folder_that_is_refused_answers_nothing(rt: HostRuntime) {
    let mut folder = memory_folder(rt.alloc());
    expect_build(&rt, &mut folder, LEVELS_0_TO_1, 0);
    refuse(&mut folder, 1);
    expect_verify(&rt, &mut folder, OPEN_0, 1);
    expect_no_answer(&rt, &mut folder, "0,0,0,0,0,1/0,0,0,0,0,0");
}
