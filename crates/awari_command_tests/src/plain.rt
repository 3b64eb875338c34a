//! The calls on a folder in memory, each in a function of its own that promises nothing. What a call
//! promises is a premise of each goal behind it, and no test is proved from that: it is seen when the
//! test runs.

use awari_answers::{Remarks, Streams};
use awari_boards::{run_ask, run_line, run_moves, run_serve_unverified};
use awari_build::Pace;
use awari_builds::{BuildProgress, Builder, HowTold, ProgressLines, Way, run_build_in, run_serve};
use awari_file_tests::MemoryFolder;
use awari_folder::Folder;
use awari_heard::Silent;
use awari_levels::{run_all_boards, run_boards, run_text, run_verify};
use awari_queries::{
    Added, AskQuery, BoardSpans, BoardsQuery, LineQuery, MovesQuery, ServeQuery, VerifyQuery,
};
use std::alloc::Global;
use std::io::{self, Read, Write};
use std::sync::Wait;
use std::thread::Threads;
use std::time::Clock;

/// A build without owners.
const OWNERLESS: Pace = Pace {
    owners: 0,
    room: 64,
    sweeps: 1000,
};

/// An empty folder in memory.
pub(crate) fn memory_folder(alloc: Global) -> MemoryFolder {
    MemoryFolder::new(alloc)
}

/// Has a folder in memory refuse the call of this number.
pub(crate) fn refuse(folder: &mut MemoryFolder, call: u32) {
    folder.refuse(call);
}

/// Has the new files of a folder in memory refuse to be written, or to be brought to the disk.
pub(crate) fn refuse_files(folder: &mut MemoryFolder, writes: bool, sync: bool) {
    folder.refuse_files(writes, sync);
}

/// Whether something lies in a folder in memory of a file that got no name.
pub(crate) fn has_draft(folder: &MemoryFolder) -> bool {
    folder.has_draft()
}

/// Builds up to level 1 in the folder without owners, and gives the status.
pub(crate) fn build(
    rt: &(impl AllocGlobal + Threads + Clock + Wait + Sync + Send + Clone + Drop + 'static),
    folder: &mut MemoryFolder,
    output: &mut impl Remarks,
) -> u8 {
    build_to(rt, folder, 1, &mut Silent, output)
}

/// Builds up to this level in the folder by two threads together, and gives the status.
fn build_to(
    rt: &(impl AllocGlobal + Threads + Clock + Wait + Sync + Send + Clone + Drop + 'static),
    folder: &mut MemoryFolder,
    top: u8,
    progress: &mut (impl BuildProgress + Send),
    output: &mut impl Remarks,
) -> u8 {
    let mut builder = Builder {
        rt,
        alloc: rt.alloc(),
        way: Way::of(2, OWNERLESS),
        progress,
    };
    run_build_in(&mut builder, folder, top, output)
}

/// Builds up to level 1 in the folder by this many threads together, and gives the status.
pub(crate) fn build_by(
    rt: &(impl AllocGlobal + Threads + Clock + Wait + Sync + Send + Clone + Drop + 'static),
    threads: usize,
    folder: &mut MemoryFolder,
    progress: &mut (impl BuildProgress + Send),
    output: &mut impl Remarks,
) -> u8 {
    let mut builder = Builder {
        rt,
        alloc: rt.alloc(),
        way: Way::of(threads, OWNERLESS),
        progress,
    };
    run_build_in(&mut builder, folder, 1, output)
}

/// Builds up to this level without owners, tells on this stream how far it is, and gives the status.
pub(crate) fn build_telling(
    rt: &(impl AllocGlobal + Threads + Clock + Wait + Sync + Send + Clone + Drop + 'static),
    clock: &(impl Clock + Sync),
    how: HowTold,
    errors: &mut Vec<u8>,
) -> u8 {
    let mut output = Vec::new(rt.alloc());
    let mut folder = memory_folder(rt.alloc());
    let mut lines = ProgressLines::new(clock, errors, how);
    build_to(rt, &mut folder, how.top, &mut lines, &mut output)
}

/// Verifies the folder, and gives the status.
pub(crate) fn verified(
    rt: &(impl AllocGlobal + Threads + Clock + Wait + Sync + Send + Clone + Drop + 'static),
    folder: &mut MemoryFolder,
    output: &mut impl Remarks,
) -> u8 {
    let query = VerifyQuery {
        levels: None,
        digest: None,
        progress: false,
    };
    verified_as(rt, folder, query, output, &mut io::sink())
}

/// Verifies the folder as it is wished, and gives the status.
pub(crate) fn verified_as(
    rt: &(impl AllocGlobal + Threads + Clock + Wait + Sync + Send + Clone + Drop + 'static),
    folder: &mut MemoryFolder,
    query: VerifyQuery<'_>,
    output: &mut impl Remarks,
    errors: &mut impl Write,
) -> u8 {
    let mut streams = Streams {
        input: io::empty(),
        output,
        errors,
    };
    run_verify(rt, rt.alloc(), folder, query, &mut streams)
}

/// Asks the folder for a board, and gives the status.
pub(crate) fn asked(
    rt: &(impl AllocGlobal + Threads + Clock + Wait + Sync + Send + Clone + Drop + 'static),
    folder: &mut MemoryFolder,
    board: &str,
    output: &mut Vec<u8>,
) -> u8 {
    let query = AskQuery {
        board,
        json: false,
        unverified: false,
    };
    run_ask(rt, rt.alloc(), folder, query, output)
}

/// Plays the line of a board by the folder, and gives the status.
pub(crate) fn lined(
    rt: &(impl AllocGlobal + Threads + Clock + Wait + Sync + Send + Clone + Drop + 'static),
    folder: &mut MemoryFolder,
    board: &str,
    output: &mut impl Remarks,
) -> u8 {
    let query = LineQuery {
        board,
        longest: false,
        plies: false,
        json: false,
        unverified: false,
    };
    run_line(rt, rt.alloc(), folder, query, output)
}

/// Says what the moves of a board are worth by the folder, and gives the status.
pub(crate) fn weighed(
    rt: &(impl AllocGlobal + Threads + Clock + Wait + Sync + Send + Clone + Drop + 'static),
    folder: &mut MemoryFolder,
    board: &str,
    output: &mut impl Remarks,
) -> u8 {
    let query = MovesQuery {
        board,
        replies: false,
        json: false,
        unverified: false,
    };
    run_moves(rt, rt.alloc(), folder, query, output)
}

/// Prints the text of the levels of the folder, and gives the status.
pub(crate) fn texted(
    rt: &(impl AllocGlobal + Threads + Clock + Wait + Sync + Send + Clone + Drop + 'static),
    folder: &mut MemoryFolder,
    output: &mut impl Remarks,
) -> u8 {
    run_text(rt, rt.alloc(), folder, None, output)
}

/// Prints the boards of level 1 of the folder, and gives the status.
pub(crate) fn listed(
    rt: &(impl AllocGlobal + Threads + Clock + Wait + Sync + Send + Clone + Drop + 'static),
    folder: &mut MemoryFolder,
    output: &mut impl Remarks,
) -> u8 {
    let query = BoardsQuery {
        level: 1,
        spans: BoardSpans::default(),
        waits: false,
        ended: false,
        running: false,
        farthest: false,
        every: 1,
        random: 0,
        seed: 0,
        sort: None,
        most: 0,
        added: Added::default(),
        count: false,
        json: false,
        csv: false,
        unverified: false,
    };
    run_boards(rt, rt.alloc(), folder, &query, output)
}

/// Prints the boards of all levels of the folder, and gives the status.
pub(crate) fn all_listed(
    rt: &(impl AllocGlobal + Threads + Clock + Wait + Sync + Send + Clone + Drop + 'static),
    folder: &mut MemoryFolder,
    output: &mut impl Remarks,
) -> u8 {
    run_all_boards(rt, rt.alloc(), folder, None, output)
}

/// Serves the folder while levels up to this one are built by this many owners, and gives the status.
pub(crate) fn served(
    rt: &(impl AllocGlobal + Threads + Clock + Wait + Sync + Send + Clone + Drop + 'static),
    folder: &mut MemoryFolder,
    (top, owners): (u8, u8),
    input: &mut impl Read,
    output: &mut impl Remarks,
) -> u8 {
    let mut streams = Streams {
        input,
        output,
        errors: io::sink(),
    };
    let query = ServeQuery {
        top,
        owners,
        unverified: false,
    };
    run_serve(rt, rt.alloc(), folder, query, &mut streams)
}

/// Serves a folder by what its files say, and gives the status.
pub(crate) fn served_said<F: Folder, R: Read, W: Remarks, E>(
    folder: &mut F,
    streams: &mut Streams<R, W, E>,
) -> u8 {
    run_serve_unverified(folder, streams)
}
