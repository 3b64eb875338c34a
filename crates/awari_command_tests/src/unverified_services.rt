//! The service over files that nobody verified.

use crate::broken::Broken;
use crate::calls::{lay, two_files};
use crate::expect::expect_equal;
use crate::plain::{memory_folder, refuse, served_said};
use awari_answers::{Remarks, Streams};
use awari_file_tests::MemoryFolder;
use awari_folder::{Folder, HostFolder};
use std::alloc::Global;
use std::fs::{self, File};
use std::io::{self, Read};
use std::path::Path;
use std::process::Abort;
use std::rt::Files;
use std::str;
use std::sync::Wait;
use std::test::Fail;
use std::thread::Threads;
use std::time::Clock;

/// The board of rank 6 of level 1, whose value is -1, asked for by two requests.
const TWO_REQUESTS: &str = "\
ask 0,0,0,0,0,1/0,0,0,0,0,0
moves 0,0,0,0,0,1/0,0,0,0,0,0
";

/// Serves lines by what the files say, and compares what is printed and the status.
fn expect_said<F: Folder>(
    rt: &(impl Abort + AllocGlobal),
    folder: &mut F,
    input: impl Read + Drop,
    printed: &str,
    expected: u8,
) {
    let mut streams = Streams {
        input,
        output: Vec::new(rt.alloc()),
        errors: (),
    };
    let status = served_said(folder, &mut streams);
    let Streams { output, .. } = streams;
    expect_equal(rt, status, str::from_utf8(&output), Ok(printed));
    expect_equal(rt, printed, status, expected);
}

/// A folder with the right files of levels 0 and 1.
fn right_folder(
    rt: &(impl Abort + AllocGlobal + Threads + Clock + Wait + Sync + Send + Clone + Drop + 'static),
) -> Result<MemoryFolder, Fail> {
    let (first, second) = two_files(rt)?;
    folder_of(rt.alloc(), &first, &second)
}

/// A folder with these files of levels 0 and 1.
fn folder_of(alloc: Global, first: &[u8], second: &[u8]) -> Result<MemoryFolder, Fail> {
    let mut folder = memory_folder(alloc);
    lay(&mut folder, 0, first)?;
    lay(&mut folder, 1, second)?;
    Ok(folder)
}

/// The headers of levels 0 and 1 are the first two calls, and the third finds no file of level 2.
#[test]
fn a_call_that_is_refused_ends_no_service(rt: HostRuntime) -> Result<(), Fail> {
    let mut folder = right_folder(&rt)?;
    refuse(&mut folder, 4);
    let printed = "\
refused 82 Open level 1
pit 5 captures 0 value -1 distance 1 plan

";
    let input = TWO_REQUESTS.as_bytes();
    expect_said(&rt, &mut folder, input, printed, 0);
    refuse(&mut folder, 1);
    expect_said(&rt, &mut folder, input, "refused 82 Open level 0\n", 1);
    Ok(())
}

#[test]
fn a_stream_that_fails_ends_the_service(rt: HostRuntime) -> Result<(), Fail> {
    let mut folder = right_folder(&rt)?;
    let mut seen: &[u8] = b"seen\n";
    expect_said(
        &rt,
        &mut folder,
        (&mut seen).chain(Broken),
        "seen 2\nrefused 90 Read\n",
        1,
    );
    expect_no_writer(&rt, &mut folder);
    Ok(())
}

/// Serves to a writer that takes nothing.
fn expect_no_writer(rt: &impl Abort, folder: &mut MemoryFolder) {
    let seen: &[u8] = b"seen\n";
    let mut streams = Streams {
        input: seen,
        output: Broken,
        errors: (),
    };
    expect_equal(rt, "status", served_said(folder, &mut streams), 1);
}

const FOLDER: &str = "awari_cli_test_unverified_service";

const SECOND: &str = "awari_cli_test_unverified_service/level_01.awdb";

/// A new folder of this name.
fn empty_folder(rt: &(impl Files + AllocGlobal), folder: &str) -> io::Result<()> {
    let _ = fs::remove_dir_all(rt, folder);
    fs::create_dir(rt, folder)
}

/// Gives a line, cuts the file of level 1, and gives the line again.
#[derive(Drop)]
struct Cutting<'a, R> {
    files: &'a R,
    calls: u8,
}

impl<R: Files<File = File>> Read for Cutting<'_, R> {
    fn read(&mut self, buf: &mut [u8]) -> io::Result<usize> {
        let mut line: &[u8] = b"ask 0,0,0,0,0,1/0,0,0,0,0,0\n";
        match self.calls {
            0 => {}
            1 => fs::write(self.files, SECOND, b"AWDB")?,
            _ => line = b"",
        }
        self.calls = self.calls.saturating_add(1);
        line.read(buf)
    }
}

#[test]
fn a_file_that_is_cut_while_it_is_served_is_told(rt: HostRuntime) -> Result<(), Fail> {
    let (first, second) = two_files(&rt)?;
    empty_folder(&rt, FOLDER)?;
    fs::write(
        &rt,
        "awari_cli_test_unverified_service/level_00.awdb",
        &first,
    )?;
    fs::write(&rt, SECOND, &second)?;
    let mut folder = HostFolder::new(&rt, rt.alloc(), Path::new(FOLDER));
    let input = Cutting {
        files: &rt,
        calls: 0,
    };
    let printed = "-1 5 1\nrefused 81 File level 1: 60 Truncated\n";
    expect_said(&rt, &mut folder, input, printed, 0);
    fs::remove_dir_all(&rt, FOLDER)?;
    Ok(())
}
