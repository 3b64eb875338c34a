//! The command `verify`: the levels in a folder verified.

ghost use Rattle.std.specs.Prelude.{◌≡◌, ◌≤◌, true};
ghost use Rattle.std.specs.Io.KnownBytes.{Appends};
ghost use Rattle.awari_table.specs.Shelves.{IsShelf};
ghost use Rattle.awari_folder.specs.Contents.{Same};
ghost use Rattle.awari_levels.specs.Folders.{PrintsStored, right_lines};
ghost use Rattle.awari_levels.specs.Wishes.{PrintsFolder};

use crate::wishes::{has_wished_digest, has_wished_levels};
use awari_answers::{Streams, Summary, load_watched, print, refuse_folder, status_of};
use awari_folder::{Folder, Stored};
use awari_queries::VerifyQuery;
use awari_table::Shelf;
use std::alloc::Global;
use std::fmt;
use std::io::Write;
use std::thread::Threads;

/// A level of a folder that is right. It is printed as its line, without the line feed.
#[derive(Clone, Copy)]
struct RightLevel {
    level: u8,
    limit: u32,
}

impl fmt::Display for RightLevel {
    ghost use Rattle.std.specs.Prelude.{Some};
    ghost use Rattle.awari_levels.specs.Folders.{right_text};

    ghost output = { λ right. Some (right_text right) };

    fn fmt<W: fmt::Write>(&self, f: &mut fmt::Formatter<W>) -> fmt::Result {
        write!(f, "level {} ok limit {}", self.level, self.limit)
    }
}

/// Verifies the levels of a folder, and prints a line for each and one for all. A refusal is printed
/// alone, and the error stream is told what it means. If a board is at fault, it is told which, and what
/// its rule asks.
///
/// If the folder is right and not as it is wished, the same lines are printed, and the status is 1. The
/// error stream is told what was wished, and what was found.
pub fn run_verify<T: Threads + Sync, F: Folder, R, W: Write, E: Write>(
    rt: &T,
    alloc: Global,
    folder: &mut F,
    query: VerifyQuery<'_>,
    streams: &mut Streams<R, W, E>,
) -> u8
    ensures status { result ≤ 1 }
    ensures verified { result ≡ 0 → PrintsFolder query.entry.levels query.entry.digest (F.state folder.old).stands (W.contents streams.old.output) (W.contents streams.new.output) }
    ensures same { Same (F.state folder.old).stands (F.state folder.new).stands }
{
    let stored = match load_watched(rt, alloc, folder, query.progress, &mut streams.errors) {
        Ok(stored) => stored,
        Err(fault) => return refuse_folder(&mut streams.output, &mut streams.errors, fault),
    };
    let errors = &mut streams.errors;
    let has_levels = match has_wished_levels(folder, &stored.shelf, query.levels, errors) {
        Ok(has_levels) => has_levels,
        Err(fault) => return refuse_folder(&mut streams.output, &mut streams.errors, fault),
    };
    let has_digest = has_wished_digest(&stored.digest, query.digest, &mut streams.errors);
    if !print_stored(&stored, &mut streams.output) {
        return 1;
    }
    if !has_levels {
        return 1;
    }
    status_of(has_digest)
}

/// Prints the line of each level and the one for all, and says whether the writer took them.
fn print_stored<W: Write>(stored: &Stored, writer: &mut W) -> bool
    ensures { result ≡ true → PrintsStored stored.now.shelf stored.now.digest (W.contents writer.old) (W.contents writer.new) }
{
    if !print_levels(&stored.shelf, writer) {
        return false;
    }
    let levels = usize::from(stored.shelf.levels());
    let digest = stored.digest;
    print(writer, &Summary { levels, digest })
}

/// Prints the line of each level, and says whether the writer took them.
fn print_levels<W: Write>(shelf: &Shelf, writer: &mut W) -> bool
    ensures { result ≡ true → IsShelf shelf.now × Appends (W.contents writer.old) (W.contents writer.new) (right_lines shelf.now) }
{
    for level in 0..shelf.levels() {
        let limit = shelf.level(level).limit();
        if !print(writer, &RightLevel { level, limit }) {
            return false;
        }
    }
    true
}
