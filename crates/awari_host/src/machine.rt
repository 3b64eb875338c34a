//! How much memory the machine has left, as Linux tells it. No proof knows anything of it.

use std::alloc::Global;
use std::fs::{self, File};
use std::io;
use std::path::Path;
use std::rt::Files;

/// Where Linux tells what is left of memory, in a line.
const MEMORY: &str = "/proc/meminfo";

/// The files in which Linux tells how much memory the programs of a container may take, and how much they
/// take, in the two ways in which containers are made.
const CONTAINERS: [(&str, &str); 2] = [
    ("/sys/fs/cgroup/memory.max", "/sys/fs/cgroup/memory.current"),
    (
        "/sys/fs/cgroup/memory/memory.limit_in_bytes",
        "/sys/fs/cgroup/memory/memory.usage_in_bytes",
    ),
];

/// How many bytes of memory are left, if that can be told: to the machine, or to the container if that
/// has less.
pub(crate) fn memory_left<T: Files<File = File>>(files: &T, alloc: Global) -> Option<u64> {
    let mut left = left_of_machine(files, alloc);
    for (most, taken) in CONTAINERS {
        let room = number_in(files, alloc, most).zip(number_in(files, alloc, taken));
        if let Some((most, taken)) = room {
            let rest = most.saturating_sub(taken);
            left = Some(match left {
                Some(left) => left.min(rest),
                None => rest,
            });
        }
    }
    left
}

/// How many bytes of memory the machine has left.
fn left_of_machine<T: Files<File = File>>(files: &T, alloc: Global) -> Option<u64> {
    let text = text_of(files, alloc, MEMORY)?;
    for line in text.lines() {
        if let Some(rest) = line.strip_prefix("MemAvailable:") {
            let kilobytes: u64 = rest.trim().strip_suffix(" kB")?.parse().ok()?;
            return Some(kilobytes.saturating_mul(1024));
        }
    }
    None
}

/// The number that is all of a file, if it is one.
fn number_in<T: Files<File = File>>(files: &T, alloc: Global, path: &str) -> Option<u64> {
    text_of(files, alloc, path)?.trim().parse().ok()
}

/// The text of a file, if it is there and can be read.
fn text_of<T: Files<File = File>>(files: &T, alloc: Global, path: &str) -> Option<String> {
    let file = fs::open(files, Path::new(path)).ok()?;
    io::read_to_string(alloc, file).ok()
}
