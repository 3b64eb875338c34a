//! Who hears how far a build is, and may stop it.

ghost use Rattle.std.specs.Prelude.{◌≡◌, false};

/// What is told of the build of a level.
#[derive(Clone, Copy, Debug, PartialEq, Eq)]
pub enum Stage {
    /// A level with this many stones begins, which has that many boards.
    Begun { level: usize, boards: usize },
    /// This gain is open, and this many boards of the level are settled and were spread.
    Settled { gain: usize, boards: usize },
    /// All gains are closed, and the entries are begun, with their plans.
    Planned,
}

/// Hears how far the build of a level is, and is asked whether the level is still wanted. A level that
/// is built does not depend on it.
pub trait Progress {
    ghost use Rattle.awari_heard.specs.declared.progress.Stage.{Stage};

    /// What holds if a level is not wanted any more. If it is ⊥, no build is stopped.
    ghost stops: { Type 0 };

    /// What becomes of a progress that is told this.
    ghost hears: { Self → Stage → Self → Type 0 };

    /// Hears this.
    fn hear(&mut self, told: Stage)
        ensures { hears self.old told self.new };

    /// Whether the level is still wanted. If it is not, its build is refused as 43 `Stopped`.
    fn is_wanted(&mut self) -> bool
        ensures { result ≡ false → stops }
    {
        true
    }
}

/// A progress that ignores what it hears, and stops nothing.
#[derive(Clone, Copy)]
pub struct Silent;

impl Progress for Silent {
    ghost use Rattle.std.specs.Prelude.{◌≡◌};

    ghost stops = { ⊥ };

    ghost hears = { λ old _ new. new ≡ old };

    fn hear(&mut self, _told: Stage) {}
}
