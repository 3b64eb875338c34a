//! How far a build is, as `build --progress` tells it.

use crate::expect::expect_equal;
use crate::plain::build_telling;
use awari_builds::{BuildProgress, HowTold, ProgressLines};
use awari_heard::{Progress, Stage};
use std::process::Abort;
use std::sync::Wait;
use std::sync::atomic::{AtomicU64, Ordering};
use std::thread::Threads;
use std::time::{Clock, Duration};
use std::{io, str};

/// A clock that goes on by this many milliseconds whenever it is asked.
#[derive(Drop)]
struct Ticking {
    step: u64,
    time: AtomicU64,
}

impl Ticking {
    fn by(step: u64) -> Ticking {
        Ticking {
            step,
            time: AtomicU64::new(0),
        }
    }
}

impl Clock for Ticking {
    fn monotonic(&self) -> io::Result<Duration> {
        let time = self.time.fetch_add(self.step, Ordering::SeqCst);
        Ok(Duration::from_millis(time))
    }

    fn since_1970(&self) -> io::Result<Duration> {
        self.monotonic()
    }
}

/// A clock that gives no time.
struct Stopped;

impl Clock for Stopped {
    fn monotonic(&self) -> io::Result<Duration> {
        Err(io::ErrorKind::Other.into())
    }

    fn since_1970(&self) -> io::Result<Duration> {
        Err(io::ErrorKind::Other.into())
    }
}

/// What is told of the levels 0 to 2 where less than a quarter of a second lies between two lines.
const AT_EACH_GAIN: &str = "\
level 0 of 2 scan of 1; 0% done in 0.0 s
level 0 of 2 plans of 1; 0% done in 0.0 s
level 1 of 2 scan of 12; 1% done in 0.0 s
level 1 of 2 gain 1 settled 0 of 12; 2% done in 0.0 s
level 1 of 2 plans of 12; 10% done in 0.0 s
level 2 of 2 scan of 78; 14% done in 0.0 s
level 2 of 2 gain 2 settled 0 of 78; 24% done in 0.0 s
level 2 of 2 gain 1 settled 65 of 78; 68% done in 0.0 s
level 2 of 2 plans of 78; 78% done in 0.0 s
";

/// What is told where a tenth of a second goes by whenever the time is looked at: within a gain each
/// third time.
const EACH_THIRD_TIME: &str = "\
level 0 of 2 scan of 1; 0% done in 0.1 s
level 0 of 2 plans of 1; 0% done in 0.2 s
level 1 of 2 scan of 12; 1% done in 0.3 s
level 1 of 2 gain 1 settled 0 of 12; 2% done in 0.4 s
level 1 of 2 plans of 12; 10% done in 0.6 s
level 2 of 2 scan of 78; 14% done in 0.7 s
level 2 of 2 gain 2 settled 0 of 78; 24% done in 0.8 s
level 2 of 2 gain 2 settled 45 of 78; 54% done in 1.1 s, 50 boards a second, 0 s to go
level 2 of 2 gain 2 settled 57 of 78; 62% done in 1.4 s, 57 boards a second, 0 s to go
level 2 of 2 gain 2 settled 63 of 78; 67% done in 1.7 s, 61 boards a second, 0 s to go
level 2 of 2 gain 1 settled 65 of 78; 68% done in 1.8 s, 62 boards a second, 0 s to go
level 2 of 2 plans of 78; 78% done in 1.9 s, 71 boards a second, 0 s to go
";

/// What is told of level 0 on a terminal: the line of its entries takes the place of that of its scan.
const ANEW: &str = "\
\x1b[?7llevel 0 of 0 scan of 1; 0% done in 0.0 s\x1b[?7h
\x1b[A\r\x1b[K\x1b[?7llevel 0 of 0 plans of 1; 0% done in 0.0 s\x1b[?7h
";

/// What is told on a terminal of level 1 while the line of level 0 is printed behind the first of these: the
/// second takes no line's place.
const BESIDE_A_LINE: &str = "\
\x1b[?7llevel 1 of 1 scan of 12; 0% done in 0.0 s\x1b[?7h
\x1b[?7llevel 1 of 1 gain 1 settled 0 of 12; 8% done in 0.0 s\x1b[?7h
\x1b[A\r\x1b[K\x1b[?7llevel 1 of 1 plans of 12; 75% done in 0.0 s\x1b[?7h
";

/// Builds without owners, and compares what is told by this clock.
fn expect_told(
    rt: &(impl Abort + AllocGlobal + Threads + Clock + Wait + Sync + Send + Clone + Drop + 'static),
    clock: &(impl Clock + Sync),
    how: HowTold,
    expected: &str,
) {
    let mut errors = Vec::new(rt.alloc());
    let status = build_telling(rt, clock, how, &mut errors);
    expect_equal(rt, "status", status, 0);
    expect_equal(rt, "told", str::from_utf8(&errors), Ok(expected));
}

/// Lines of levels 0 to 2, none in the place of another.
const LINES: HowTold = HowTold {
    top: 2,
    anew: false,
};

#[test]
fn a_build_tells_of_each_gain(rt: HostRuntime) {
    expect_told(&rt, &Ticking::by(0), LINES, AT_EACH_GAIN);
    expect_told(&rt, &Stopped, LINES, AT_EACH_GAIN);
}

#[test]
fn a_build_tells_at_most_four_times_a_second(rt: HostRuntime) {
    expect_told(&rt, &Ticking::by(100), LINES, EACH_THIRD_TIME);
}

#[test]
fn a_terminal_has_one_line_a_level(rt: HostRuntime) {
    let how = HowTold { top: 0, anew: true };
    expect_told(&rt, &Ticking::by(0), how, ANEW);
}

#[test]
fn a_line_stays_on_a_terminal_between_those_of_the_next_level(rt: HostRuntime) {
    let clock = Ticking::by(0);
    let mut errors = Vec::new(rt.alloc());
    let how = HowTold { top: 1, anew: true };
    let mut lines = ProgressLines::new(&clock, &mut errors, how);
    lines.hear(Stage::Begun {
        level: 1,
        boards: 12,
    });
    lines.hear_line();
    lines.hear(Stage::Settled { gain: 1, boards: 0 });
    lines.hear(Stage::Planned);
    expect_equal(&rt, "told", str::from_utf8(&errors), Ok(BESIDE_A_LINE));
}
