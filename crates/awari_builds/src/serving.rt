//! The command `serve`: a reader of the levels in a folder that is served while a thread builds those
//! above them.

ghost use Rattle.std.specs.Prelude.{◌≡◌, ◌≤◌, ◌<◌, ◌+◌, ◌↔◌, ℕ, [], length, Ok, Err, IsOk, IfOk, OnOk};
ghost use Rattle.awari_build.specs.declared.teams.Team.{Team as ATeam};
ghost use Rattle.awari_desk.specs.Desks.{book_of};
ghost use Rattle.awari_folder.specs.Contents.{Same};
ghost use Rattle.awari_table.specs.Shelves.{Consistent, IsShelf};
ghost use Rattle.awari_builds.specs.Serving.{PrintsService, HasLevelsTo, IsServed, nobody_asks};
ghost use Rattle.awari_builds.specs.declared.faults.CommandFault.{CommandFault as ACommandFault};

use crate::faults::CommandFault;
use crate::lasting::{WhileServed, lasting_service};
use crate::ways::{Way, build_by};
use awari_answers::{Remarks, Streams, refuse};
use awari_build::{BuildFault, Pace};
use awari_desk::{DeskFault, Publisher, Reader, ServeFault, desk, serve};
use awari_folder::{Folder, Together, load};
use awari_phase::PhaseFault;
use awari_queries::ServeQuery;
use awari_table::{Counted, HIGHEST_LEVEL, Level, Shelf};
use core::mem::replace_with;
use rayon::current_num_threads;
use std::alloc::Global;
use std::io::{Read, Write};
use std::sync::{Arc, Wait};
use std::thread::{self, Promise, Threads};
use std::time::Clock;

/// How the building beside a service has ended.
#[derive(Clone, Copy)]
enum Grown {
    /// The levels up to the top are published.
    ToTop,
    /// The service had ended, and so no further level was wanted.
    Stopped,
}

/// What builds levels beside a service: its threads and memory, by whom they are built, and whether they
/// are wanted.
#[derive(Drop)]
struct Grower<T> {
    rt: T,
    alloc: Global,
    way: Way,
    wanted: WhileServed,
}

/// Answers the lines of the input by the levels of the folder, and by the levels above them, which a
/// thread builds and publishes meanwhile as `query` says. Nothing is saved. A refusal is printed
/// after the answers, unless these could not be written.
///
/// Once nobody can ask any more, the thread stops at the next gain, distance or round, and that is no
/// refusal. So nothing is promised of the levels above the folder's but that each answer is right.
pub fn run_serve<
    T: Threads + Clock + Wait + Sync + Send + Clone + Drop + 'static,
    F: Folder,
    R: Read,
    W: Remarks,
    E: Write,
>(rt: &T, alloc: Global, folder: &mut F, query: ServeQuery, streams: &mut Streams<R, W, E>) -> u8
    ensures status { result ≤ 1 }

    // What was written is a service by right levels, of which the first are those of the folder, which
    // stays as it was.
    ensures same { Same (F.state folder.old).stands (F.state folder.new).stands }
    ensures served { result ≡ 0 → PrintsService (F.state folder.old).stands (R.remaining streams.old.input) (W.contents streams.old.output) (W.contents streams.new.output) }
{
    match serve_beside(rt, alloc, folder, query, streams) {
        Ok(Grown::ToTop | Grown::Stopped) => 0,
        Err(
            CommandFault::Serve {
                fault: ServeFault::Write,
            },
        ) => 1,
        Err(fault) => refuse(&mut streams.output, fault.refusal()),
    }
}

/// Serves while a thread builds, has that stop when the service has ended, and joins it. The refusal
/// of the service comes before that of the thread.
fn serve_beside<
    T: Threads + Clock + Wait + Sync + Send + Clone + Drop + 'static,
    F: Folder,
    R: Read,
    W: Write,
    E: Write,
>(
    rt: &T,
    alloc: Global,
    folder: &mut F,
    query: ServeQuery,
    streams: &mut Streams<R, W, E>,
) -> Result<Grown, CommandFault>
    ensures same { Same (F.state folder.old).stands (F.state folder.new).stands }
    ensures served { OnOk result (PrintsService (F.state folder.old).stands (R.remaining streams.old.input) (W.contents streams.old.output) (W.contents streams.new.output)) }
    ensures grown { IfOk result (λ end. end ≡ Grown.ToTop → HasLevelsTo query.top) }
{
    let stored = load(&Together(rt), alloc, folder, HIGHEST_LEVEL)?;
    let (publisher, known) = published(rt.clone()?, alloc, &stored.shelf)?;
    let (service, wanted) = lasting_service(alloc)?;
    let grower = grower_for(rt.clone()?, alloc, query, wanted);
    let top = query.top;
    let Ok(builder) = thread::spawn_with(rt, GrowsTo(top), move || grow(grower, publisher, top))
    else {
        return Err(CommandFault::Start {
            fault: PhaseFault::NotStarted,
        });
    };
    let served = serve_lines(known, &mut streams.input, &mut streams.output);
    drop(service);
    let (publisher, grown) = builder.join(rt);
    publisher.close();
    served?;
    let end = ended(grown)?;
    Ok(end)
}

/// What builds levels as `query` says: by this many owners, or by all processors together if there are none.
fn grower_for<T: Threads>(rt: T, alloc: Global, query: ServeQuery, wanted: WhileServed) -> Grower<T>
    ensures owners { 0 < query.owners → result.way ≡ Way.Owners (record { owners = query.owners; room = 64; sweeps = 1000 }) }
    ensures together { query.owners ≡ 0 → (team : ATeam) × (result.way ≡ Way.Together team) }
{
    let way = Way::of(current_num_threads(&rt), Pace::usual(query.owners));
    Grower {
        rt,
        alloc,
        way,
        wanted,
    }
}

/// How the building has ended, which is no refusal if nobody wanted the level.
fn ended(grown: Result<(), CommandFault>) -> Result<Grown, CommandFault>
    ensures to_top { (result ≡ Ok Grown.ToTop) ↔ IsOk grown }
    ensures stopped { (result ≡ Ok Grown.Stopped) ↔ (grown ≡ Err nobody_asks) }
    ensures refused { (fault : ACommandFault) → result ≡ Err fault → grown ≡ Err fault }
{
    match grown {
        Ok(()) => Ok(Grown::ToTop),
        Err(
            CommandFault::Build {
                fault: BuildFault::Phase {
                    fault: PhaseFault::Stopped,
                },
            },
        ) => Ok(Grown::Stopped),
        Err(fault) => Err(fault),
    }
}

/// The promise of the thread that builds: unless it is refused, it has published right levels up to
/// this one.
#[derive(Drop)]
struct GrowsTo(u8);

impl<T: Wait + Drop> Promise<(Publisher<T>, Result<(), CommandFault>)> for GrowsTo {
    ghost kept_by = { λ promise grown. OnOk grown.1 (IsShelf (book_of grown.0.pages) × (promise.0 < length (book_of grown.0.pages))) };
}

/// A publisher of the levels of the shelf, and a reader that knows them.
fn published<T: Wait + Drop>(
    rt: T,
    alloc: Global,
    shelf: &Shelf,
) -> Result<(Publisher<T>, Reader), CommandFault>
    ensures known { IfOk result (λ made. made.1 ≡ shelf.now) }
    ensures shelf { OnOk result (IsShelf shelf.now) }
{
    let (mut publisher, mut readers) = desk(rt, alloc, 1)?;
    publish_each(&mut publisher, shelf)?;
    let Some(mut reader) = readers.pop() else {
        unreachable!()
    };
    reader.learn(publisher.tell()?);
    Ok((publisher, reader))
}

/// Publishes each level of the shelf.
fn publish_each<T: Wait + Drop>(
    publisher: &mut Publisher<T>,
    shelf: &Shelf,
) -> Result<(), CommandFault>
    requires { book_of publisher.old.pages ≡ [] }
    ensures book { OnOk result (book_of publisher.new.pages ≡ shelf.now) }
    ensures shelf { IsShelf shelf.now }
{
    for number in 0..shelf.levels() {
        publisher.publish(Arc::try_clone(shelf.level(number))?)?;
    }
    Ok(())
}

/// Answers the lines of the reader by what this one knows.
fn serve_lines<R: Read, W: Write>(
    known: Reader,
    reader: &mut R,
    writer: &mut W,
) -> Result<(), ServeFault>
    ensures { OnOk result (IsServed known (R.remaining reader.old) (W.contents writer.old) (W.contents writer.new)) }
{
    replace_with(writer, (known, reader), |writer, (known, reader)| {
        served_by(known, reader, writer)
    })
}

/// The writer with the answers written, so far as that went.
fn served_by<R: Read, W: Write>(
    mut known: Reader,
    reader: &mut R,
    writer: W,
) -> (W, Result<(), ServeFault>)
    ensures { OnOk result.1 (IsServed known (R.remaining reader.old) (W.contents writer) (W.contents result.0)) }
{
    let mut output = Counted::new(writer);
    let served = serve(&mut known, &mut Counted::new(reader), &mut output);
    (output.into_inner(), served)
}

/// Builds the levels above the book up to `top`, and publishes each. It is refused as 52 with 43 once
/// the levels are not wanted any more.
fn grow<T: Threads + Clock + Wait + Sync + Send + Clone + Drop + 'static>(
    mut grower: Grower<T>,
    mut publisher: Publisher<T>,
    top: u8,
) -> (Publisher<T>, Result<(), CommandFault>)
    ensures { OnOk result.1 (IsShelf (book_of result.0.pages) × (top < length (book_of result.0.pages))) }
{
    'level: while publisher.book().levels() <= top {
        if let Err(fault) = grow_by_one(&mut grower, &mut publisher) {
            return (publisher, Err(fault));
        }
    }
    (publisher, Ok(()))
}

/// Builds the level above the book, and publishes it.
fn grow_by_one<T: Threads + Clock + Wait + Sync + Send + Clone + Drop + 'static>(
    grower: &mut Grower<T>,
    publisher: &mut Publisher<T>,
) -> Result<(), CommandFault>
    ensures { OnOk result (length (book_of publisher.new.pages) ≡ length (book_of publisher.old.pages) + 1) }
{
    let level = next_level(grower, publisher.book())?;
    let level = Arc::new(grower.alloc, level).map_err(|_| DeskFault::Memory)?;
    publisher.publish(level)?;
    Ok(())
}

/// The level above the book.
fn next_level<T: Threads + Clock + Wait + Sync + Send + Clone + Drop + 'static>(
    grower: &mut Grower<T>,
    book: &Shelf,
) -> Result<Level, BuildFault>
    ensures { IfOk result (λ level. Consistent book.now level) }
{
    let Grower {
        rt,
        alloc,
        way,
        wanted,
    } = grower;
    build_by(&*rt, *alloc, book, way, wanted)
}
