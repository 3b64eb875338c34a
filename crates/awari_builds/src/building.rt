//! The command `build`: levels built one on another.

ghost use Rattle.std.specs.Prelude.{◌≡◌, ◌≤◌, ◌<◌, ◌+◌, ◌-◌, ◌++◌, ◌∷◌, [], ℕ, List, length, Option, true, OnOk, OnErr, IfOk, IfSome};
ghost use Rattle.std.specs.Arc.{arc_value};
ghost use Rattle.awari_table.specs.declared.images.Image.{Image};
ghost use Rattle.awari_play.specs.Least.{HasLowestPlans, IsPlannedLowest};
ghost use Rattle.awari_table.specs.Shelves.{Consistent};
ghost use Rattle.awari_folder.specs.Contents.{AreNames, HoldsIn, Same, KeepsFiles};
ghost use Rattle.awari_answers.specs.LevelLines.{IsToldOf};
ghost use Rattle.awari_builds.specs.Building.{AddsFile, BuildsTo, KeepsLevels, LeavesFiles, PrintsAllLevels, PrintsLevels, SameOutside, SavesLevel, SavesTop};

use crate::beside::{Beside, BuildProgress, SaveHeard, SaveTold, Saving, saving_beside};
use crate::estimates::{Bytes, Estimate};
use crate::faults::CommandFault;
use crate::ways::{Way, build_by};
use awari_answers::{LevelLine, Remarks, line_of_level, print, refuse, status_of};
use awari_build::BuildFault;
use awari_folder::{Folder, FolderFault, Stored, Together, load, save_or_keep};
use awari_heard::Progress;
use awari_play::lowest_plans_stay;
use awari_table::{HIGHEST_LEVEL, Level, Shelf};
use rayon::join_mut;
use std::alloc::Global;
use std::sync::{Arc, Wait};
use std::thread::Threads;
use std::time::Clock;

/// What a build works with: its threads and memory, by whom levels are built, and who hears how far that is.
#[derive(Drop)]
pub struct Builder<'a, T, P> {
    pub rt: &'a T,
    pub alloc: Global,
    pub way: Way,
    pub progress: &'a mut P,
}

/// What a level is built with.
#[derive(Drop)]
struct Tools<'a, T> {
    rt: &'a T,
    alloc: Global,
    way: Way,
}

/// What this builder builds the next level with.
fn tools_of<'a, T, P>(builder: &Builder<'a, T, P>) -> Tools<'a, T> {
    Tools {
        rt: builder.rt,
        alloc: builder.alloc,
        way: builder.way,
    }
}

/// What came of a level, and by whom the next one is built.
#[derive(Drop)]
struct Built {
    level: Result<Arc<Level>, CommandFault>,
    way: Way,
}

/// Builds the levels up to `top` and prints the line of each. A refusal is printed behind the lines
/// before it.
pub fn run_build<
    T: Threads + Clock + Wait + Sync + Send + Clone + Drop + 'static,
    P: Progress,
    W: Remarks,
>(builder: &mut Builder<'_, T, P>, top: u8, writer: &mut W) -> u8
    ensures status { result ≤ 1 }
    ensures built { result ≡ 0 → PrintsAllLevels top (W.contents writer.old) (W.contents writer.new) }
{
    build_up(builder, top, &mut Shelf::empty(), writer)
}

/// Builds the levels above those of the folder, up to `top`, and prints the line of each once it is
/// saved there. A file that stands there already stays: it counts as saved if it is the level's, and
/// else the level is refused as 85. A refusal is printed behind the lines before it.
pub fn run_build_in<
    T: Threads + Clock + Wait + Sync + Send + Clone + Drop + 'static,
    P: BuildProgress + Send,
    F: Folder,
    W: Remarks,
>(builder: &mut Builder<'_, T, P>, folder: &mut F, top: u8, writer: &mut W) -> u8
    ensures status { result ≤ 1 }
    ensures built { result ≡ 0
        → PrintsLevels top (F.state folder.old).stands (F.state folder.new).stands (W.contents writer.old) (W.contents writer.new) }

    // Each file stays that was there. A folder that is at fault stays as it was, and no level that is
    // there is written again.
    ensures kept { KeepsFiles (F.state folder.old).stands (F.state folder.new).stands }
    ensures keeps { (names : ℕ → Option (List ℕ)) → AreNames (F.state folder.old).stands names
        → KeepsLevels top names (F.state folder.old).stands (F.state folder.new).stands (F.state folder.old).may_leave (F.state folder.new).may_leave }
{
    match load(&Together(builder.rt), builder.alloc, folder, HIGHEST_LEVEL) {
        Ok(mut stored) => build_up_in(builder, folder, top, &mut stored, writer),
        Err(fault) => refuse(writer, fault.refusal()),
    }
}

/// Builds the levels above the shelf up to `top`, and prints the line of each.
fn build_up<
    T: Threads + Clock + Wait + Sync + Send + Clone + Drop + 'static,
    P: Progress,
    W: Remarks,
>(builder: &mut Builder<'_, T, P>, top: u8, shelf: &mut Shelf, writer: &mut W) -> u8
    ensures status { result ≤ 1 }
    ensures built { result ≡ 0 → BuildsTo top shelf.old shelf.new (W.contents writer.old) (W.contents writer.new) }
    ensures no_more { result ≡ 0 → length shelf.old ≤ top + 1 → length shelf.new ≤ top + 1 }
{
    while shelf.levels() <= top {
        match build_next(builder, shelf) {
            Ok(told) => {
                if !print(writer, &told) {
                    return 1;
                }
            }
            Err(fault) => return refuse_level(writer, shelf.levels(), fault),
        }
    }
    0
}

/// Builds the levels above those that the folder has stored up to `top`, saves each there, and prints
/// its line. A refusal is printed behind the lines before it, with status 1.
pub fn build_up_in<
    T: Threads + Clock + Wait + Sync + Send + Clone + Drop + 'static,
    P: BuildProgress + Send,
    F: Folder,
    W: Remarks,
>(
    builder: &mut Builder<'_, T, P>,
    folder: &mut F,
    top: u8,
    stored: &mut Stored,
    writer: &mut W,
) -> u8
    ensures status { result ≤ 1 }
    ensures built { result ≡ 0 → BuildsTo top stored.old.shelf stored.new.shelf (W.contents writer.old) (W.contents writer.new) }
    ensures holds { HoldsIn (F.state folder.old).stands stored.old.shelf stored.old.digest → result ≡ 0 → HoldsIn (F.state folder.new).stands stored.new.shelf stored.new.digest }
    ensures same { SameOutside (length stored.old.shelf) top (F.state folder.old).stands (F.state folder.new).stands }
    ensures kept { KeepsFiles (F.state folder.old).stands (F.state folder.new).stands }
    ensures crash { (names : ℕ → Option (List ℕ)) → AreNames (F.state folder.old).stands names
        → LeavesFiles (length stored.old.shelf) names (F.state folder.old).may_leave (F.state folder.new).may_leave }
{
    if top < stored.shelf.levels() {
        return 0;
    }
    if let Err(fault) = build_next(builder, &mut stored.shelf) {
        return refuse_level(writer, stored.shelf.levels(), fault);
    }
    while stored.shelf.levels() <= top {
        if !save_and_build(builder, folder, stored, writer) {
            return 1;
        }
    }
    status_of(save_last(folder, stored, writer))
}

/// Writes the refusal of the level of this number, and gives the status 1. If memory ran out, it is told how
/// much the level takes.
fn refuse_level<W: Remarks>(writer: &mut W, level: u8, fault: CommandFault) -> u8
    ensures { result ≡ 1 }
{
    let status = refuse(writer, fault.refusal());
    if let CommandFault::Build {
        fault: BuildFault::Memory,
    } = fault
    {
        let needed = Bytes(Estimate::of(level, level).memory());
        writer.remark(&format_args!(
            "level {level} takes {needed} of memory, with the levels below it"
        ));
    }
    status
}

/// Builds the level above the shelf, and puts it on top.
fn build_next<T: Threads + Clock + Wait + Sync + Send + Clone + Drop + 'static, P: Progress>(
    builder: &mut Builder<'_, T, P>,
    shelf: &mut Shelf,
) -> Result<LevelLine, CommandFault>
    ensures built { IfOk result (λ told. (image : Image) × (shelf.new ≡ shelf.old ++ image ∷ []) × IsToldOf image told) }
    ensures planned { OnOk result (HasLowestPlans shelf.old → HasLowestPlans shelf.new) }
{
    // Ghost: the plans stay the lowest.
    lowest_plans_stay();
    let tools = tools_of(builder);
    let built = built_level(&tools, shelf, builder.progress);
    builder.way = built.way;
    let level = built.level?;
    let told = line_of_level(&level);
    shelf.push(level);
    Ok(told)
}

/// Saves the level on top of the shelf, and puts the next one on it. True if both was done. If not, the
/// refusal is printed, behind the line of the level if that is saved.
fn save_and_build<
    T: Threads + Clock + Wait + Sync + Send + Clone + Drop + 'static,
    P: BuildProgress + Send,
    F: Folder,
    W: Remarks,
>(builder: &mut Builder<'_, T, P>, folder: &mut F, stored: &mut Stored, writer: &mut W) -> bool
    requires { 0 < length stored.old.shelf }
    ensures saved { result ≡ true → SavesTop stored.old.shelf stored.old.digest stored.new.digest (F.state folder.old) (F.state folder.new) (W.contents writer.old) (W.contents writer.new) }
    ensures built { result ≡ true → (image : Image) × (stored.new.shelf ≡ stored.old.shelf ++ image ∷ []) }
    ensures planned { result ≡ true → HasLowestPlans stored.old.shelf → HasLowestPlans stored.new.shelf }
    ensures adds { AddsFile (length stored.old.shelf - 1) (F.state folder.old) (F.state folder.new) }
{
    // Ghost: the plans stay the lowest.
    lowest_plans_stay();
    let tools = tools_of(builder);
    let Some(saved) = saved_and_built(&tools, builder.progress, folder, stored, writer) else {
        return false;
    };
    let own = saved.digest;
    stored.digest = own;
    builder.way = saved.built.way;
    match saved.built.level {
        Ok(level) => {
            stored.shelf.push(level);
            true
        }
        Err(fault) => {
            refuse_level(writer, stored.shelf.levels(), fault);
            false
        }
    }
}

/// A level that was saved, and what was built above it.
#[derive(Drop)]
struct Saved {
    /// The digest that the level's file ends in.
    digest: [u8; 32],
    built: Built,
}

/// Saves the level on top of the shelf, and builds the next one above it. If several threads build, one more saves
/// meanwhile. It gives nothing if the level is not saved, or its line not written.
fn saved_and_built<
    T: Threads + Clock + Wait + Sync + Send + Clone + Drop + 'static,
    P: BuildProgress + Send,
    F: Folder,
    W: Remarks,
>(
    tools: &Tools<'_, T>,
    progress: &mut P,
    folder: &mut F,
    stored: &Stored,
    writer: &mut W,
) -> Option<Saved>
    requires { 0 < length stored.now.shelf }
    ensures saved { IfSome result (λ saved. SavesTop stored.now.shelf stored.now.digest saved.digest (F.state folder.old) (F.state folder.new) (W.contents writer.old) (W.contents writer.new)) }
    ensures built { IfSome result (λ saved. IfOk saved.built.level (λ level. Consistent stored.now.shelf (arc_value level) × IsPlannedLowest stored.now.shelf (arc_value level))) }
    ensures adds { AddsFile (length stored.now.shelf - 1) (F.state folder.old) (F.state folder.new) }
{
    if !tools.way.saves_beside() {
        return saved_then_built(tools, progress, folder, stored, writer);
    }
    let Ok((mut saving, mut save)) = saving_beside(tools.alloc) else {
        return saved_then_built(tools, progress, folder, stored, writer);
    };
    let (built, saved) = join_mut(
        tools.rt,
        &mut || built_beside(&mut save, tools, &stored.shelf, progress),
        &mut || save_or_refuse(&mut saving, folder, stored, writer),
    );
    let digest = saved?;
    Some(Saved { digest, built })
}

/// The level above the shelf, built while the level below is saved. It is not wanted once that is refused.
fn built_beside<T: Threads + Clock + Wait + Sync + Send + Clone + Drop + 'static, P: BuildProgress>(
    save: &mut SaveHeard,
    tools: &Tools<'_, T>,
    shelf: &Shelf,
    progress: &mut P,
) -> Built
    ensures consistent { IfOk result.level (λ level. Consistent shelf.now (arc_value level)) }
    ensures planned { IfOk result.level (λ level. IsPlannedLowest shelf.now (arc_value level)) }
{
    let mut beside = Beside { save, progress };
    built_level(tools, shelf, &mut beside)
}

/// Saves the level on top of the shelf, and then builds the next one above it. It gives nothing if the level is
/// not saved, or its line not written.
fn saved_then_built<
    T: Threads + Clock + Wait + Sync + Send + Clone + Drop + 'static,
    P: BuildProgress,
    F: Folder,
    W: Remarks,
>(
    tools: &Tools<'_, T>,
    progress: &mut P,
    folder: &mut F,
    stored: &Stored,
    writer: &mut W,
) -> Option<Saved>
    requires { 0 < length stored.now.shelf }
    ensures saved { IfSome result (λ saved. SavesTop stored.now.shelf stored.now.digest saved.digest (F.state folder.old) (F.state folder.new) (W.contents writer.old) (W.contents writer.new)) }
    ensures built { IfSome result (λ saved. IfOk saved.built.level (λ level. Consistent stored.now.shelf (arc_value level) × IsPlannedLowest stored.now.shelf (arc_value level))) }
    ensures adds { AddsFile (length stored.now.shelf - 1) (F.state folder.old) (F.state folder.new) }
{
    let digest = save_or_refuse(&mut Saving::alone(), folder, stored, writer)?;
    let built = built_level(tools, &stored.shelf, progress);
    Some(Saved { digest, built })
}

/// Saves the level on top of the shelf. True if that was done; if not, the refusal is printed.
fn save_last<F: Folder, W: Remarks>(folder: &mut F, stored: &mut Stored, writer: &mut W) -> bool
    requires { 0 < length stored.old.shelf }
    ensures saved { result ≡ true → SavesTop stored.old.shelf stored.old.digest stored.new.digest (F.state folder.old) (F.state folder.new) (W.contents writer.old) (W.contents writer.new) }
    ensures shelf { stored.new.shelf ≡ stored.old.shelf }
    ensures adds { AddsFile (length stored.old.shelf - 1) (F.state folder.old) (F.state folder.new) }
{
    match save_or_refuse(&mut Saving::alone(), folder, stored, writer) {
        Some(own) => {
            stored.digest = own;
            true
        }
        None => false,
    }
}

/// Saves the level on top of the shelf unless its file is there, and prints its line. It gives the digest of the
/// file, or nothing if that is refused, which is printed, or if the line is not written. Then no further
/// level is wanted.
fn save_or_refuse<F: Folder, W: Remarks>(
    saving: &mut Saving,
    folder: &mut F,
    stored: &Stored,
    writer: &mut W,
) -> Option<[u8; 32]>
    requires { 0 < length stored.now.shelf }
    ensures saved { IfSome result (λ own. SavesTop stored.now.shelf stored.now.digest own (F.state folder.old) (F.state folder.new) (W.contents writer.old) (W.contents writer.new)) }
    ensures adds { AddsFile (length stored.now.shelf - 1) (F.state folder.old) (F.state folder.new) }
{
    let number = stored.shelf.levels() - 1;
    let level = stored.shelf.level(number);
    let below = stored.digest;
    match save_and_tell(saving, folder, level, below, writer) {
        Ok(Some(own)) => Some(own),
        Ok(None) => {
            saving.tell(SaveTold::Refused);
            None
        }
        Err(fault) => {
            saving.tell(SaveTold::Refused);
            refuse_level(writer, number, CommandFault::Folder { fault });
            None
        }
    }
}

/// Saves the level unless its file is there, and prints its line. It gives the digest of the file, or nothing
/// if the line is not written. Nothing is refused once the file is saved, so a level that is saved is
/// always told.
fn save_and_tell<F: Folder, W: Remarks>(
    saving: &mut Saving,
    folder: &mut F,
    level: &Level,
    below: [u8; 32],
    writer: &mut W,
) -> Result<Option<[u8; 32]>, FolderFault>
    ensures saved { IfOk result (λ told. IfSome told (λ own. SavesLevel level.now below own (F.state folder.old) (F.state folder.new) (W.contents writer.old) (W.contents writer.new))) }
    ensures err { OnErr result (Same (F.state folder.old).stands (F.state folder.new).stands) }
    ensures adds { AddsFile level.now.level (F.state folder.old) (F.state folder.new) }
{
    let own = save_or_keep(folder, level, below)?;
    let line = line_of_level(level);
    saving.tell(SaveTold::Prints);
    if print(writer, &line) {
        saving.tell(SaveTold::Printed);
        Ok(Some(own))
    } else {
        Ok(None)
    }
}

/// The level above the shelf, built with these tools.
fn built_level<T: Threads + Clock + Wait + Sync + Send + Clone + Drop + 'static, P: Progress>(
    tools: &Tools<'_, T>,
    shelf: &Shelf,
    progress: &mut P,
) -> Built
    ensures consistent { IfOk result.level (λ level. Consistent shelf.now (arc_value level)) }
    ensures planned { IfOk result.level (λ level. IsPlannedLowest shelf.now (arc_value level)) }
{
    let mut way = tools.way;
    let level = shared_level(tools, &mut way, shelf, progress);
    Built { level, way }
}

/// The level above the shelf, built so, in the `Arc` that a shelf holds.
fn shared_level<T: Threads + Clock + Wait + Sync + Send + Clone + Drop + 'static, P: Progress>(
    tools: &Tools<'_, T>,
    way: &mut Way,
    shelf: &Shelf,
    progress: &mut P,
) -> Result<Arc<Level>, CommandFault>
    ensures consistent { IfOk result (λ level. Consistent shelf.now (arc_value level)) }
    ensures planned { IfOk result (λ level. IsPlannedLowest shelf.now (arc_value level)) }
{
    let level = build_by(tools.rt, tools.alloc, shelf, way, progress)?;
    let shared = Arc::new(tools.alloc, level).map_err(|_| BuildFault::Memory)?;
    Ok(shared)
}
