//! How far a build is, told on a stream.

ghost use Rattle.std.specs.Prelude.{⊤};

use crate::beside::BuildProgress;
use crate::estimates::Estimate;
use awari_answers::print;
use awari_heard::{Progress, Stage};
use std::fmt::{self, Display};
use std::io::Write;
use std::time::{Clock, Duration, Instant};

/// How many milliseconds lie between two lines of one gain, at least.
const MILLISECONDS_BETWEEN: u128 = 250;

/// Of the work at a level, an eighth is its scan, and five are its gains. The rest are its entries and its
/// file.
const EIGHTHS: u64 = 8;

const EIGHTHS_OF_GAINS: u64 = 5;

/// Has a terminal go back to the line before and empty it; cut what is too long for its line; and no longer.
const UP: &str = "\x1b[A\r\x1b[K";

const CUT: &str = "\x1b[?7l";

const WRAP: &str = "\x1b[?7h";

/// Tells on a stream how far a build is: when a level is begun, at each gain, when the entries are begun,
/// and between these at most four times a second. A line that cannot be written is left out. If the clock
/// gives no time, there is a line at each gain alone, and its time is 0. On a terminal the lines of a level
/// take the place of each other.
#[derive(Drop)]
pub struct ProgressLines<'a, C, E> {
    clock: &'a C,
    errors: &'a mut E,
    how: HowTold,
    begun: Option<Instant>,
    told: Option<Instant>,
    level: usize,
    boards: u64,
    gain: Option<usize>,
    /// The boards of all levels that are to be built, once the first is begun.
    all: Option<u64>,
    /// The boards of those that were built.
    built: u64,
    /// Whether the line before is of the same level, and has its place on a terminal.
    follows: bool,
}

/// How the progress of a build is told.
#[derive(Clone, Copy, Debug, PartialEq, Eq)]
pub struct HowTold {
    /// The highest level that is to be built.
    pub top: u8,
    /// Whether the stream is a terminal, on which a line can be written anew.
    pub anew: bool,
}

impl<'a, C: Clock, E: Write> ProgressLines<'a, C, E> {
    /// The lines of a build that begins now.
    pub fn new(clock: &'a C, errors: &'a mut E, how: HowTold) -> ProgressLines<'a, C, E> {
        let begun = Instant::now(clock).ok();
        ProgressLines {
            clock,
            errors,
            how,
            begun,
            told: begun,
            level: 0,
            boards: 0,
            gain: None,
            all: None,
            built: 0,
            follows: false,
        }
    }

    /// Tells that all levels are built, if one was to be and the build ended with status 0.
    pub fn end(&mut self, status: u8) {
        if status != 0 || self.all.is_none() {
            return;
        }
        let now = Instant::now(self.clock).ok();
        let top = self.how.top;
        let pace = self.pace(now, self.built.saturating_add(self.boards));
        self.tell(&format_args!("all levels to {top} are built; {pace}"));
    }

    /// Tells a line, in place of the one before if that is of the same level and the stream a terminal.
    fn tell<T: Display>(&mut self, line: &T) {
        // There is nowhere to say that this could not be written.
        if !self.how.anew {
            print(self.errors, line);
            return;
        }
        let place = if self.follows { UP } else { "" };
        self.follows = true;
        print(self.errors, &format_args!("{place}{CUT}{line}{WRAP}"));
    }

    /// A level with this many stones begins, which has that many boards.
    fn begin(&mut self, level: usize, boards: usize) {
        if self.all.is_none() {
            let first = u8::try_from(level).unwrap_or(u8::MAX);
            self.all = Some(Estimate::of(first, self.how.top).boards());
        }
        self.built = self.built.saturating_add(self.boards);
        self.level = level;
        self.boards = boards as u64;
        self.gain = None;
        let now = Instant::now(self.clock).ok();
        self.told = now;
        self.follows = false;
        let pace = self.pace(now, self.built);
        let top = self.how.top;
        self.tell(&format_args!("level {level} of {top} scan of {boards}; {pace}"));
    }

    /// This gain is open, and this many boards are settled.
    fn settled(&mut self, gain: usize, boards: usize) {
        let now = Instant::now(self.clock).ok();
        if self.gain == Some(gain) && !self.is_due(now) {
            return;
        }
        self.gain = Some(gain);
        self.told = now;
        let pace = self.pace(now, self.done(1, boards as u64));
        let (level, top, all) = (self.level, self.how.top, self.boards);
        self.tell(&format_args!(
            "level {level} of {top} gain {gain} settled {boards} of {all}; {pace}"
        ));
    }

    /// The entries are begun.
    fn plan(&mut self) {
        let now = Instant::now(self.clock).ok();
        self.told = now;
        let pace = self.pace(now, self.done(1 + EIGHTHS_OF_GAINS, 0));
        let (level, top, all) = (self.level, self.how.top, self.boards);
        self.tell(&format_args!("level {level} of {top} plans of {all}; {pace}"));
        // The level's line comes next, and stays.
        self.follows = false;
    }

    /// Whether the last line is long enough ago.
    fn is_due(&self, now: Option<Instant>) -> bool {
        between(self.told, now).as_millis() >= MILLISECONDS_BETWEEN
    }

    /// How far the build is with this many boards done.
    fn pace(&self, now: Option<Instant>, done: u64) -> Pace {
        Pace {
            done,
            all: self.all.unwrap_or(0),
            gone: between(self.begun, now),
        }
    }

    /// The boards that are done, if this many eighths of this level are, and this many of its boards are settled.
    fn done(&self, eighths: u64, settled: u64) -> u64 {
        let begun = self.boards.saturating_mul(eighths) / EIGHTHS;
        let gains = settled.saturating_mul(EIGHTHS_OF_GAINS) / EIGHTHS;
        self.built.saturating_add(begun).saturating_add(gains)
    }
}

/// The time from one moment to another, zero if one of them is not known.
fn between(earlier: Option<Instant>, later: Option<Instant>) -> Duration {
    match (earlier, later) {
        (Some(earlier), Some(later)) => later.saturating_duration_since(earlier),
        _ => Duration::ZERO,
    }
}

impl<C: Clock, E: Write> Progress for ProgressLines<'_, C, E> {
    ghost stops = { ⊥ };

    ghost hears = { λ _ _ _. ⊤ };

    fn hear(&mut self, told: Stage) {
        match told {
            Stage::Begun { level, boards } => self.begin(level, boards),
            Stage::Settled { gain, boards } => self.settled(gain, boards),
            Stage::Planned => self.plan(),
        }
    }
}

impl<C: Clock, E: Write> BuildProgress for ProgressLines<'_, C, E> {
    fn hear_line(&mut self) {
        self.follows = false;
    }
}

/// How much of a build is done, and after how long. It is printed as the share, the time gone, and after a
/// second of work the rate and the time that the rest takes at that rate.
#[derive(Clone, Copy)]
struct Pace {
    done: u64,
    all: u64,
    gone: Duration,
}

impl fmt::Display for Pace {
    fn fmt<W: fmt::Write>(&self, f: &mut fmt::Formatter<W>) -> fmt::Result {
        let Pace { done, all, gone } = *self;
        let share = done.saturating_mul(100) / all.max(1);
        write!(f, "{share}% done in {} s", Seconds(gone))?;
        let seconds = gone.as_secs();
        if seconds == 0 || done == 0 {
            return Ok(());
        }
        let rate = done / seconds;
        let left = all.saturating_sub(done).saturating_mul(seconds) / done;
        let left = Span(left);
        write!(f, ", {rate} boards a second, {left} to go")
    }
}

/// A time, printed in seconds with a digit behind the point.
#[derive(Clone, Copy)]
struct Seconds(Duration);

impl fmt::Display for Seconds {
    ghost use Rattle.std.specs.Prelude.{Some};
    ghost use Rattle.awari_builds.specs.Seconds.{seconds_text};

    ghost output = { λ time. Some (seconds_text time.0) };

    fn fmt<W: fmt::Write>(&self, f: &mut fmt::Formatter<W>) -> fmt::Result {
        let (seconds, tenths) = (self.0.as_secs(), self.0.subsec_millis() / 100);
        write!(f, "{seconds}.{tenths}")
    }
}

/// This many seconds, printed with a unit.
#[derive(Clone, Copy)]
struct Span(u64);

impl fmt::Display for Span {
    fn fmt<W: fmt::Write>(&self, f: &mut fmt::Formatter<W>) -> fmt::Result {
        match self.0 {
            0..120 => write!(f, "{} s", self.0),
            120..7200 => write!(f, "{} min", self.0 / 60),
            _ => write!(f, "{} h", self.0 / 3600),
        }
    }
}
