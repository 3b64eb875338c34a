//! Levels that are built while the one below is saved.

ghost use Rattle.std.specs.Prelude.{⊤};

use crate::expect::expect_equal;
use crate::plain::{build_by, memory_folder, refuse};
use awari_builds::BuildProgress;
use awari_file_tests::MemoryFolder;
use awari_heard::{Progress, Stage};
use std::process::Abort;
use std::str;
use std::sync::Wait;
use std::thread::Threads;
use std::time::Clock;

const LEVEL_1: &str = "level 1 boards 12 won 5 even 0 lost 7 limit 1\n";

const LEVEL_0_AND_STOPPED: &str = "\
level 0 boards 1 won 0 even 1 lost 0 limit 0
refused 52 Phase: 43 Stopped
";

const OPEN_0: &str = "refused 82 Open level 0\n";

/// Wants the levels up to one, and counts those that are begun.
#[derive(Drop)]
struct Wanting {
    top: usize,
    level: usize,
    begun: u32,
}

impl Wanting {
    fn up_to(top: usize) -> Wanting {
        Wanting {
            top,
            level: 0,
            begun: 0,
        }
    }
}

impl Progress for Wanting {
    ghost stops = { ⊤ };

    ghost hears = { λ _ _ _. ⊤ };

    fn hear(&mut self, told: Stage) {
        if let Stage::Begun { level, .. } = told {
            self.level = level;
            self.begun = self.begun.saturating_add(1);
        }
    }

    fn is_wanted(&mut self) -> bool {
        self.level <= self.top
    }
}

impl BuildProgress for Wanting {}

/// Builds up to level 1 by this many threads, and compares what is printed, the status, and how many levels
/// were begun.
fn expect_build(
    rt: &(impl Abort + AllocGlobal + Threads + Clock + Wait + Sync + Send + Clone + Drop + 'static),
    threads: usize,
    folder: &mut MemoryFolder,
    top: usize,
    expected: (&str, u8, u32),
) {
    let mut output = Vec::new(rt.alloc());
    let mut progress = Wanting::up_to(top);
    let status = build_by(rt, threads, folder, &mut progress, &mut output);
    let (printed, due, begun) = expected;
    expect_equal(rt, threads, str::from_utf8(&output), Ok(printed));
    expect_equal(rt, printed, (status, progress.begun), (due, begun));
}

/// The line of a level that is saved comes first, and then the refusal of the level above it.
#[test]
fn a_refusal_comes_behind_the_line_of_the_level_below(rt: HostRuntime) {
    for threads in 3..6usize {
        let mut folder = memory_folder(rt.alloc());
        expect_build(&rt, threads, &mut folder, 0, (LEVEL_0_AND_STOPPED, 1, 2));
        expect_build(&rt, threads, &mut folder, 1, (LEVEL_1, 0, 1));
    }
}

/// If a save is refused, its refusal alone is printed, whatever becomes of the level beside it. Fewer than four
/// threads begin that level only once the save is done.
#[test]
fn a_refused_save_ends_a_build(rt: HostRuntime) {
    for top in 0..2usize {
        for threads in 3..6usize {
            let mut folder = memory_folder(rt.alloc());
            refuse(&mut folder, 2);
            let begun = if threads < 4 { 1 } else { 2 };
            expect_build(&rt, threads, &mut folder, top, (OPEN_0, 1, begun));
        }
    }
}
