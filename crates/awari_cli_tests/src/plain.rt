//! The program on the host's disk, in a function that promises nothing. What a call promises is a premise of
//! each goal behind it, and no test is proved from that: it is seen when the test runs.

use awari_cli::{Disk, Remarks, Streams, run};
use std::alloc::Global;
use std::fs::File;
use std::io::{Read, Write};
use std::rt::Files;
use std::sync::Wait;
use std::thread::Threads;
use std::time::Clock;

/// Runs the program on these words over the host's disk, and gives the status.
pub(crate) fn run_on_disk<'a>(
    rt: &'a (impl Files<File = File>
        + Threads
        + Clock
        + Wait
        + Sync
        + Send
        + Clone
        + Drop
        + 'static),
    alloc: Global,
    words: &'a [&'a str],
    streams: &mut Streams<impl Read, impl Remarks, impl Write + Send>,
) -> u8 {
    run(rt, alloc, &mut Disk::new(rt, alloc), words, streams)
}
