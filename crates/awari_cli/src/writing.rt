//! Commands that write into folders of the host: `build` and `migrate`.

ghost use Rattle.std.specs.Prelude.{◌≡◌, ◌≢◌, ◌≤◌, ◌<◌, ℕ, List, Option, Some, false};
ghost use Rattle.std.specs.Io.KnownBytes.{Keeps};
ghost use Rattle.awari_builds.specs.Building.{KeepsLevels, PrintsAllLevels, PrintsLevels};
ghost use Rattle.awari_cli.specs.Done.{IsFolder, LeavesFolders, PrintsBrought, PrintsBuild, PrintsBuilt};
ghost use Rattle.awari_host.specs.Hosts.{AllStay, OthersStay};
ghost use Rattle.awari_folder.specs.Contents.{AreNames, Same, KeepsFiles};

use awari_answers::{Remarks, Streams, load_watched, print, refuse};
use awari_builds::{
    Builder, Estimate, HowTold, ProgressLines, Way, build_up_in, run_build, run_migrate,
    warn_of_memory,
};
use awari_folder::{Folder, FolderFault};
use awari_heard::Silent;
use awari_host::{Host, Purpose};
use awari_words::BuildQuery;
use rayon::current_num_threads;
use std::alloc::Global;
use std::io::{Read, Write};
use std::sync::Wait;
use std::thread::Threads;
use std::time::Clock;

/// A build, and how its progress is told.
#[derive(Clone, Copy)]
struct Build<'a> {
    query: BuildQuery<'a>,
    /// Whether the error stream is a terminal, on which a line can be written anew.
    anew: bool,
}

impl Build<'_> {
    /// How its progress is told.
    fn how_told(self) -> HowTold {
        HowTold {
            top: self.query.top,
            anew: self.anew,
        }
    }
}

/// A build in the folder of this name.
#[derive(Clone, Copy)]
struct BuildIn<'a> {
    folder: &'a str,
    build: Build<'a>,
}

/// Builds the levels that are asked for, in the folder if one is named.
pub(crate) fn run_build_asked<
    'a,
    T: Threads + Clock + Wait + Sync + Send + Clone + Drop + 'static,
    H: Host<'a>,
    R: Read,
    W: Remarks,
    E: Write + Send,
>(rt: &T, alloc: Global, host: &mut H, query: BuildQuery<'a>, streams: &mut Streams<R, W, E>) -> u8
    ensures status { result ≤ 1 }
    ensures leaves { LeavesFolders H.keeps (IsFolder query.entry.folder) (H.holds host.old) (H.holds host.new) }
    ensures built { result ≡ 0 → PrintsBuild H.keeps query.entry.top query.entry.folder (H.holds host.old) (H.holds host.new)
        (W.contents streams.old.output) (W.contents streams.new.output) }
{
    let anew = host.machine().on_terminal;
    let build = Build { query, anew };
    tell_unused_threads(query, &mut streams.errors);
    match query.folder {
        None => {
            tell_needs(host, 0, build, &mut streams.errors);
            run_build_alone(rt, alloc, build, streams)
        }
        Some(folder) => run_build_on(rt, alloc, host, BuildIn { folder, build }, streams),
    }
}

/// Builds the levels that are asked for.
fn run_build_alone<
    T: Threads + Clock + Wait + Sync + Send + Clone + Drop + 'static,
    R: Read,
    W: Remarks,
    E: Write,
>(rt: &T, alloc: Global, build: Build<'_>, streams: &mut Streams<R, W, E>) -> u8
    ensures status { result ≤ 1 }
    ensures built { result ≡ 0 → PrintsAllLevels build.entry.query.top (W.contents streams.old.output) (W.contents streams.new.output) }
{
    if build.query.progress {
        let mut lines = ProgressLines::new(rt, &mut streams.errors, build.how_told());
        let mut builder = builder_for(rt, alloc, build, &mut lines);
        let status = run_build(&mut builder, build.query.top, &mut streams.output);
        let way = builder.way;
        lines.end(status);
        tell_if_given_up(way, &mut streams.errors);
        return status;
    }
    let mut silent = Silent;
    let mut builder = builder_for(rt, alloc, build, &mut silent);
    let status = run_build(&mut builder, build.query.top, &mut streams.output);
    tell_if_given_up(builder.way, &mut streams.errors);
    status
}

/// Tells `errors` that one thread built some levels in place of several, if it was so: the processors were
/// busy, or a thread lacked memory.
fn tell_if_given_up<E: Write>(way: Way, errors: &mut E) {
    if way.gave_up() {
        // There is nowhere to say that this could not be written.
        print(
            errors,
            &format_args!("several threads gave up, so one thread built some levels alone"),
        );
    }
}

/// Builds the levels that are asked for in the folder of this name.
fn run_build_on<
    'a,
    T: Threads + Clock + Wait + Sync + Send + Clone + Drop + 'static,
    H: Host<'a>,
    R: Read,
    W: Remarks,
    E: Write + Send,
>(rt: &T, alloc: Global, host: &mut H, asked: BuildIn<'a>, streams: &mut Streams<R, W, E>) -> u8
    ensures status { result ≤ 1 }
    ensures others { OthersStay asked.entry.folder.now (H.holds host.old) (H.holds host.new) }
    ensures kept { H.keeps asked.entry.folder.now → KeepsFiles (H.holds host.old asked.entry.folder.now) (H.holds host.new asked.entry.folder.now) }
    ensures built { result ≡ 0 → PrintsBuilt H.keeps asked.entry.build.query.top asked.entry.folder.now (H.holds host.old) (H.holds host.new)
        (W.contents streams.old.output) (W.contents streams.new.output) }
{
    let BuildIn {
        folder: name,
        build,
    } = asked;
    let mut folder = host.open(name, Purpose::Build, &mut streams.errors);
    match host.lock(name, &mut folder, build.query.top, &mut streams.errors) {
        Ok(()) => {}
        Err(fault) => {
            host.tell(name, &folder, &mut streams.errors);
            host.close(name, folder);
            return refuse(&mut streams.output, fault.refusal());
        }
    }
    tell_needs(host, host.levels_in(&folder), build, &mut streams.errors);
    let status = run_build_of(rt, alloc, &mut folder, build, streams);
    host.tell(name, &folder, &mut streams.errors);
    host.close(name, folder);
    status
}

/// Builds the levels that are asked for in this folder.
fn run_build_of<
    T: Threads + Clock + Wait + Sync + Send + Clone + Drop + 'static,
    F: Folder,
    R: Read,
    W: Remarks,
    E: Write + Send,
>(rt: &T, alloc: Global, folder: &mut F, build: Build<'_>, streams: &mut Streams<R, W, E>) -> u8
    ensures status { result ≤ 1 }
    ensures kept { KeepsFiles (F.state folder.old).stands (F.state folder.new).stands }
    ensures keeps { (names : ℕ → Option (List ℕ)) → AreNames (F.state folder.old).stands names
        → KeepsLevels build.entry.query.top names (F.state folder.old).stands (F.state folder.new).stands (F.state folder.old).may_leave (F.state folder.new).may_leave }
    ensures built { result ≡ 0 → PrintsLevels build.entry.query.top (F.state folder.old).stands (F.state folder.new).stands (W.contents streams.old.output) (W.contents streams.new.output) }
{
    let mut stored = match load_watched(
        rt,
        alloc,
        folder,
        build.query.progress,
        &mut streams.errors,
    ) {
        Ok(stored) => stored,
        Err(fault) => return refuse(&mut streams.output, fault.refusal()),
    };
    let output = &mut streams.output;
    if build.query.progress {
        let mut lines = ProgressLines::new(rt, &mut streams.errors, build.how_told());
        let mut builder = builder_for(rt, alloc, build, &mut lines);
        let status = build_up_in(&mut builder, folder, build.query.top, &mut stored, output);
        let way = builder.way;
        lines.end(status);
        tell_if_given_up(way, &mut streams.errors);
        return status;
    }
    let mut silent = Silent;
    let mut builder = builder_for(rt, alloc, build, &mut silent);
    let done = build_up_in(&mut builder, folder, build.query.top, &mut stored, output);
    tell_if_given_up(builder.way, &mut streams.errors);
    done
}

/// Tells `errors` what a build of the levels from `first` on takes, if its progress is asked for, and if less
/// memory is left.
fn tell_needs<'a, H: Host<'a>, E: Write>(host: &H, first: u8, build: Build<'_>, errors: &mut E) {
    let estimate = Estimate::of(first, build.query.top);
    if build.query.progress {
        // There is nowhere to say that this could not be written.
        print(errors, &estimate);
    }
    warn_of_memory(estimate, host.machine().memory_left, errors);
}

/// Tells `errors` if threads are asked for beside owners, who are threads of their own.
fn tell_unused_threads<E: Write>(query: BuildQuery<'_>, errors: &mut E) {
    if query.threads.is_some() && query.pace.owners > 0 {
        // There is nowhere to say that this could not be written.
        print(
            errors,
            &"--threads is not used, since owners build the levels",
        );
    }
}

/// Tells `errors` what a build would take, and builds nothing. It is refused as 82 if the folder in which it
/// would build is not there.
pub(crate) fn run_estimate<'a, H: Host<'a>, W: Remarks, E: Write>(
    host: &mut H,
    query: BuildQuery<'a>,
    output: &mut W,
    errors: &mut E,
) -> u8
    ensures status { result ≤ 1 }
    ensures same { AllStay H.keeps (H.holds host.old) (H.holds host.new) }
    ensures nothing { result ≡ 0 → Keeps (W.contents output.old) (W.contents output.new) }
{
    let first = match first_to_build(host, query.folder, errors) {
        Ok(first) => first,
        Err(fault) => return refuse(output, fault.refusal()),
    };
    let estimate = Estimate::of(first, query.top);
    // There is nowhere to say that this could not be written.
    print(errors, &estimate);
    warn_of_memory(estimate, host.machine().memory_left, errors);
    0
}

/// The first level that a build in the folder of this name begins with, or one without a folder. It is refused
/// as 82 if the folder is not there.
fn first_to_build<'a, H: Host<'a>, E: Write>(
    host: &mut H,
    folder: Option<&'a str>,
    errors: &mut E,
) -> Result<u8, FolderFault>
    ensures { AllStay H.keeps (H.holds host.old) (H.holds host.new) }
{
    let Some(name) = folder else {
        return Ok(0);
    };
    let folder = host.open(name, Purpose::Write, errors);
    let first = host.levels_in(&folder);
    host.close(name, folder);
    if host.is_there(name) {
        Ok(first)
    } else {
        Err(FolderFault::Open { level: 0 })
    }
}

/// What builds the levels that are asked for: by the owners or by the threads that are asked for.
fn builder_for<'a, T: Threads, P>(
    rt: &'a T,
    alloc: Global,
    build: Build<'_>,
    progress: &'a mut P,
) -> Builder<'a, T, P>
    ensures owners { 0 < build.entry.query.pace.owners → result.way ≡ Way.Owners build.entry.query.pace }
    ensures threads { (threads : ℕ) → build.entry.query.threads ≡ Some threads → build.entry.query.pace.owners ≡ 0
        → result.way ≡ Way.Together (record { threads = threads; rest = 0; gave_up = false }) }
{
    let way = Way::of(threads_of(rt, build.query.threads), build.query.pace);
    Builder {
        rt,
        alloc,
        way,
        progress,
    }
}

/// How many threads build together: as many as were asked for, or else one for each processor.
fn threads_of(rt: &impl Threads, asked: Option<u8>) -> usize
    ensures { (n : ℕ) → asked ≡ Some n → result ≡ n }
{
    match asked {
        Some(threads) => usize::from(threads),
        None => current_num_threads(rt),
    }
}

/// The names of the folder that is read in a migration, and of the one that is written into.
#[derive(Clone, Copy)]
pub(crate) struct Migration<'a> {
    pub(crate) from: &'a str,
    pub(crate) to: &'a str,
}

/// Brings the levels of one folder over into the other.
pub(crate) fn run_migration<'a, H: Host<'a>, R: Read, W: Remarks, E: Write>(
    alloc: Global,
    host: &mut H,
    migration: Migration<'a>,
    streams: &mut Streams<R, W, E>,
) -> u8
    ensures status { result ≤ 1 }
    ensures others { (name : List ℕ) → H.keeps name → name ≢ migration.entry.to.now → Same (H.holds host.old name) (H.holds host.new name) }
    ensures kept { H.keeps migration.entry.to.now → KeepsFiles (H.holds host.old migration.entry.to.now) (H.holds host.new migration.entry.to.now) }
    ensures brought { result ≡ 0 → PrintsBrought H.keeps migration.entry.from.now migration.entry.to.now (H.holds host.old) (H.holds host.new)
        (W.contents streams.old.output) (W.contents streams.new.output) }
{
    let Migration { from, to } = migration;
    let mut source = host.open(from, Purpose::Read, &mut streams.errors);
    let mut target = host.open(to, Purpose::Write, &mut streams.errors);
    let status = run_migrate(alloc, &mut source, &mut target, &mut streams.output);
    host.tell(to, &target, &mut streams.errors);
    host.tell(from, &source, &mut streams.errors);
    host.close(to, target);
    host.close(from, source);
    status
}
