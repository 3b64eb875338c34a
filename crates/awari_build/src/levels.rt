//! What all ways to build a level share: how it begins, and what it is once its parts are settled.

ghost use Rattle.std.specs.Prelude.{◌≡◌, ◌≤◌, ◌<◌, ◌⊎◌, ◌↔◌, length, IfErr, OnOk, Err};
ghost use Rattle.awari_build.specs.BuildFault.{IsStopped};
ghost use Rattle.awari_build.specs.NextLevel.{IsNextLevel};
ghost use Rattle.awari_build.specs.Settled.{IsSettled};
ghost use Rattle.awari_table.specs.declared.TheConstants.{HIGHEST_LEVEL};

use crate::faults::BuildFault;
use crate::telling::{begin, expect_wanted};
use awari_heard::Progress;
use awari_plan::kept_levels_are_right;
use awari_table::{HIGHEST_LEVEL, Image, Level, Shelf};

/// Tells that the shelf's next level begins, and asks whether it is wanted. Refused as 51 `TooHigh`,
/// with nothing told, if the shelf has all levels, and as 52 `Phase` if the level is not wanted.
pub(crate) fn begin_next<P: Progress>(shelf: &Shelf, progress: &mut P) -> Result<(), BuildFault>
    ensures low { OnOk result (length shelf.now ≤ HIGHEST_LEVEL) }
    ensures too_high { (result ≡ Err BuildFault.TooHigh) ↔ (HIGHEST_LEVEL < length shelf.now) }
    ensures fault { IfErr result (λ fault. (fault ≡ BuildFault.TooHigh) ⊎ IsStopped P.stops fault) }
{
    if shelf.levels() > HIGHEST_LEVEL {
        return Err(BuildFault::TooHigh);
    }
    begin(progress, shelf.levels());
    expect_wanted(progress)
}

/// The shelf's next level, which has this image. Conditions: the shelf has at most `HIGHEST_LEVEL`
/// levels, and the image was made of settled parts. It takes no memory.
pub(crate) fn level_of(shelf: &Shelf, image: Image) -> Level
    requires low { length shelf.now ≤ HIGHEST_LEVEL }
    requires settled { IsSettled shelf.now image }
    ensures { IsNextLevel shelf.now result }
{
    // Ghost: over a shelf the image of settled parts is right, so nothing is verified.
    let _levels = shelf.levels();
    kept_levels_are_right();
    Level::new(image)
}
