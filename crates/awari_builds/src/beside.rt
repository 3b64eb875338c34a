//! A level that is built while the one below it is saved: what the thread that builds hears of the save.

ghost use Rattle.std.specs.Prelude.{⊤};

use awari_heard::{Progress, Silent, Stage};
use rtrb::{Consumer, Producer, RingBuffer};
use std::alloc::{AllocError, Global};

/// Hears how far a build in a folder is, where a level is built while the one below it is saved.
pub trait BuildProgress: Progress {
    /// The line of a level was printed while the next one is built. What was told before stays above it.
    fn hear_line(&mut self) {}
}

impl BuildProgress for Silent {}

/// What a save tells the thread that builds beside it.
#[derive(Clone, Copy, Debug, PartialEq, Eq)]
pub(crate) enum SaveTold {
    /// A line is being printed.
    Prints,
    /// It was printed.
    Printed,
    /// The save came to nothing, so that no further level is wanted.
    Refused,
}

/// How many things one save may tell.
const MOST_TOLD: usize = 3;

/// A save, which tells what it does if a thread builds beside it.
#[derive(Drop)]
pub(crate) struct Saving {
    beside: Option<Producer<SaveTold>>,
}

impl Saving {
    /// A save beside which nothing is built.
    pub(crate) fn alone() -> Saving {
        Saving { beside: None }
    }

    /// Tells the thread that builds beside it. There is room for all that one save tells.
    pub(crate) fn tell(&mut self, told: SaveTold) {
        if let Some(ring) = &mut self.beside {
            let _ = ring.push(told);
        }
    }
}

/// What the thread that builds has heard of a save.
#[derive(Drop)]
pub(crate) struct SaveHeard {
    ring: Consumer<SaveTold>,
    /// Whether a line is being printed.
    prints: bool,
    /// Whether one was printed of which the progress has not heard.
    printed: bool,
    /// Whether the save came to nothing.
    refused: bool,
}

/// A save beside which a level is built, and how that hears of it. It takes memory for one ring.
pub(crate) fn saving_beside(alloc: Global) -> Result<(Saving, SaveHeard), AllocError> {
    let (told, ring) = RingBuffer::new(alloc, MOST_TOLD)?;
    let saving = Saving { beside: Some(told) };
    let heard = SaveHeard {
        ring,
        prints: false,
        printed: false,
        refused: false,
    };
    Ok((saving, heard))
}

impl SaveHeard {
    /// Hears what the save has told since.
    fn catch_up(&mut self) {
        for _told in 0..MOST_TOLD {
            let Ok(told) = self.ring.pop() else {
                return;
            };
            self.hear(told);
        }
    }

    /// Whether a line was printed since this was asked, or may be printed now.
    fn has_printed(&mut self) -> bool {
        let printed = self.prints || self.printed || self.refused;
        self.printed = false;
        printed
    }

    fn hear(&mut self, told: SaveTold) {
        match told {
            SaveTold::Prints => self.prints = true,
            SaveTold::Printed => {
                self.prints = false;
                self.printed = true;
            }
            SaveTold::Refused => self.refused = true,
        }
    }
}

/// Hears how far the build of a level is beside a save, and passes it on to `progress`. The level is not wanted
/// once the save is refused.
#[derive(Drop)]
pub(crate) struct Beside<'s, 'p, P> {
    pub(crate) save: &'s mut SaveHeard,
    pub(crate) progress: &'p mut P,
}

impl<P: BuildProgress> Progress for Beside<'_, '_, P> {
    ghost stops = { ⊤ };

    ghost hears = { λ _ _ _. ⊤ };

    fn hear(&mut self, told: Stage) {
        self.save.catch_up();
        if self.save.has_printed() {
            self.progress.hear_line();
        }
        self.progress.hear(told);
    }

    fn is_wanted(&mut self) -> bool {
        self.save.catch_up();
        !self.save.refused && self.progress.is_wanted()
    }
}
