//! A progress that keeps what it hears, and stops a build at any of its asks.

ghost use Rattle.std.specs.Prelude.{⊤};

use awari_build::{
    BuildFault, Pace, Watch, build_alone_with_progress, build_by_crew, build_level_with_progress,
};
use awari_crew::Crew;
use awari_heard::{Progress, Stage};
use awari_phase::Open;
use awari_table::{Level, Shelf};
use std::alloc::Global;
use std::sync::Wait;
use std::thread::Threads;
use std::time::Clock;

/// What a progress is told, and where it is asked whether the level is still wanted.
#[derive(Clone, Copy, Debug, PartialEq, Eq)]
pub(crate) enum Heard {
    /// A level with this many stones begins, which has that many boards.
    Begun(usize, usize),
    /// The level is wanted as far as it is asked.
    Asked,
    /// This gain is open, and this many boards are settled and were spread.
    Settled(usize, usize),
    /// The entries are begun.
    Planned,
}

/// Keeps what it hears, and wants the level this many times.
#[derive(Drop)]
struct Listener {
    wants: u32,
    heard: Vec<Heard>,
}

impl Listener {
    /// What is not kept for want of memory is missed later.
    fn keep(&mut self, heard: Heard) {
        let _ = self.heard.push(heard);
    }
}

impl Progress for Listener {
    ghost stops = { ⊤ };

    ghost hears = { λ _ _ _. ⊤ };

    fn hear(&mut self, told: Stage) {
        self.keep(match told {
            Stage::Begun { level, boards } => Heard::Begun(level, boards),
            Stage::Settled { gain, boards } => Heard::Settled(gain, boards),
            Stage::Planned => Heard::Planned,
        });
    }

    fn is_wanted(&mut self) -> bool {
        self.keep(Heard::Asked);
        if self.wants == 0 {
            return false;
        }
        self.wants -= 1;
        true
    }
}

/// Who builds a level.
#[derive(Clone, Copy, Debug)]
pub(crate) enum Builder {
    /// One part.
    Alone,
    /// A crew of this many.
    Together(u8),
    /// This many owners.
    Owners(u8),
}

/// Builds the shelf's next level.
fn built(
    rt: &(impl Threads + Clock + Wait + Sync + Send + Clone + Drop + 'static),
    alloc: Global,
    shelf: &Shelf,
    builder: Builder,
    progress: &mut Listener,
) -> Result<Level, BuildFault> {
    match builder {
        Builder::Alone => build_alone_with_progress(alloc, shelf, progress),
        Builder::Together(members) => {
            let crew = Crew {
                members,
                patience: 1_000_000,
                soon: u64::MAX,
            };
            let built = build_by_crew(rt, alloc, shelf, crew, progress)?;
            Ok(built.level)
        }
        Builder::Owners(owners) => {
            let gate = &Open;
            let watch = Watch { gate, progress };
            build_level_with_progress(rt, alloc, shelf, Pace::usual(owners), watch)
        }
    }
}

/// Builds the shelf's next level while it is wanted this many times. Gives the refusal, and what was heard.
pub(crate) fn listened(
    rt: &(impl Threads + Clock + Wait + Sync + Send + Clone + Drop + 'static),
    alloc: Global,
    shelf: &Shelf,
    builder: Builder,
    wants: u32,
) -> (Option<BuildFault>, Vec<Heard>) {
    let mut listener = Listener {
        wants,
        heard: Vec::new(alloc),
    };
    let fault = built(rt, alloc, shelf, builder, &mut listener).err();
    let Listener { wants: _, heard } = listener;
    (fault, heard)
}
