//! Threads that build levels together, and rest if that is slow.

ghost use Rattle.std.specs.Prelude.{◌≡◌, ◌<◌, ◌≤◌, ◌↔◌, IsTrue, false, min};
ghost use Rattle.awari_build.specs.Teams.{given_up, rested};

/// How many levels one thread builds once they gave up. A level takes nearly twice as long as the one
/// below, so that they try again in time.
const LEVELS_OF_REST: u8 = 3;

/// Levels below this one are built by one thread. More would gain little, and on a busy machine they
/// wait for each other longer than they work.
const LEAST_LEVEL: u8 = 11;

/// The most threads that share the work.
pub(crate) const MOST_MEMBERS: u8 = 16;

/// Threads that build levels together. If they gave up at a level, one of them builds the next ones.
#[derive(Clone, Copy, Debug, PartialEq, Eq)]
pub struct Team {
    /// How many they are. Those above 16 have nothing to do.
    pub threads: usize,
    /// How many of the next levels one thread builds.
    pub rest: u8,
    /// Whether they ever gave up.
    pub gave_up: bool,
}

impl Team {
    /// So many threads, which never gave up.
    pub fn of(threads: usize) -> Team
        ensures { result ≡ record { threads = threads; rest = 0; gave_up = false } }
    {
        Team {
            threads,
            rest: 0,
            gave_up: false,
        }
    }

    /// How many of them build the level of this many stones. If they rest, they have one level less to
    /// rest then.
    pub(crate) fn members(&mut self, level: u8) -> u8
        ensures low { level < LEAST_LEVEL → (result ≡ 1) × (self.new ≡ self.old) }
        ensures rests { LEAST_LEVEL ≤ level → 0 < self.old.rest → (result ≡ 1) × (self.new ≡ rested self.old) }
        ensures works { LEAST_LEVEL ≤ level → self.old.rest ≡ 0 → (result ≡ min self.old.threads MOST_MEMBERS) × (self.new ≡ self.old) }
    {
        if level < LEAST_LEVEL || self.rests() {
            return 1;
        }
        self.threads.min(usize::from(MOST_MEMBERS)) as u8
    }

    /// Whether they rest at the next level. If so, they have one level less to rest.
    fn rests(&mut self) -> bool
        ensures rests { IsTrue result ↔ (0 < self.old.rest) }
        ensures less { self.new ≡ rested self.old }
    {
        if self.rest == 0 {
            return false;
        }
        self.rest -= 1;
        true
    }

    /// They gave up.
    pub(crate) fn give_up(&mut self)
        ensures { self.new ≡ given_up self.old }
    {
        self.rest = LEVELS_OF_REST;
        self.gave_up = true;
    }
}
