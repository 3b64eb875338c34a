//! The command `counts`: the levels of a folder in numbers.

ghost use Rattle.std.specs.Prelude.{◌≡◌, ◌<◌, ◌≤◌, ◌+◌, List, IfErr, IfOk, IfSome, IsSomeAnd, None, Ok, length, slice_get, true};
ghost use Rattle.std.specs.Io.KnownBytes.{Appends};
ghost use Rattle.awari_folder.specs.Contents.{Lacks, Same};
ghost use Rattle.awari_folder.specs.State.{Unchanged};
ghost use Rattle.awari_table.specs.declared.TheConstants.{HIGHEST_LEVEL};
ghost use Rattle.awari_table.specs.declared.images.Image.{Image};
ghost use Rattle.awari_counts.specs.Counts.{AppendsCounts, PrintsCountsBy, PrintsCountsSaid, count_lines, shown_levels};
ghost use Rattle.awari_members.specs.Forms.{form_of};
ghost use Rattle.awari_counts.specs.Numbers.{AreNumbersOf, HasLevels, HasOpened, IsNotLoaded, IsNotOpened};
ghost use Rattle.awari_facts.specs.Sources.{SaysBy, levels_of};
ghost use Rattle.awari_counts.specs.Tallies.{AreWide, IsCountsFault, IsNumbersFault};

use crate::rows::{Row, print_row};
use crate::shown::{print_level, print_names, print_top};
use crate::sums::{Tally, tally_level};
use crate::tables::table_of;
use awari_answers::{LevelLine, NoAnswer, Remarks, load_levels, refuse_level, status_of};
use awari_facts::{Levels, Source, count_levels, load_to, open_all, open_to, read_limit};
use awari_folder::{Folder, FolderFault};
use awari_members::{Form, form_of};
use awari_places::Opened;
use awari_queries::{Column, CountsQuery, Pair};
use awari_rank::size;
use awari_table::{HIGHEST_LEVEL, Shelf};
use std::alloc::Global;
use std::io::Write;
use std::thread::Threads;

/// A level in numbers.
#[derive(Drop)]
struct Numbers {
    told: LevelLine,
    tally: Tally,
}

/// What is printed: the levels of a source, or the one of a number, in a form.
#[derive(Clone, Copy)]
struct Task<'s> {
    source: Source<'s>,
    level: Option<u8>,
    form: Form,
}

/// A level in numbers. Condition: the source has the level. It looks at each entry once, and takes memory
/// for four bytes a pair of a value and a distance. It is refused as [`read_limit`] or [`tally_level`] is, and as
/// 83 with V7 if the limit is above the number of boards.
fn numbers_of<T: Threads + Sync, F: Folder>(
    rt: &T,
    alloc: Global,
    source: Source<'_>,
    folder: &mut F,
    level: u8,
) -> Result<Numbers, FolderFault>
    requires level { level < levels_of source }
    requires low { level ≤ HIGHEST_LEVEL }
    ensures wide { IfOk result (λ numbers. AreWide numbers.told.limit numbers.tally) }
    ensures said { (images : List Image) → SaysBy source.entry (F.state folder.old).stands images
        → IfOk result (λ numbers. IsSomeAnd (slice_get images level) (λ image. AreNumbersOf image numbers)) }
    ensures same { Unchanged (F.state folder.old) (F.state folder.new) }
    ensures fault { IfErr result (IsNumbersFault source.entry (F.state folder.old).stands level) }
{
    let limit = read_limit(source, folder, level)?;
    let pair = Pair {
        first: Column::Value,
        second: Column::Distance,
    };
    let table = table_of(level, pair, limit)?;
    let tally = tally_level(rt, alloc, source, folder, table)?;
    let told = LevelLine {
        level,
        boards: size(level),
        counts: tally.counts,
        limit,
    };
    Ok(Numbers { told, tally })
}

/// Prints what stands above, and the lines of a level's values and distances, and says whether the writer took
/// them.
fn print_numbers<W: Write>(numbers: &Numbers, form: Form, writer: &mut W) -> bool
    requires { AreWide numbers.now.told.limit numbers.now.tally }
    ensures { (image : Image) → AreNumbersOf image numbers.now → result ≡ true → Appends (W.contents writer.old) (W.contents writer.new) (count_lines form image) }
{
    // For the proof: the limit has 32 bits.
    let _limit = numbers.told.limit;
    if !print_top(numbers.told, form, writer) {
        return false;
    }
    let values = Row {
        beside: None,
        column: Column::Value,
    };
    if !print_row(numbers.tally.values.as_slice(), values, form, writer) {
        return false;
    }
    let distances = Row {
        beside: None,
        column: Column::Distance,
    };
    print_row(numbers.tally.distances.as_slice(), distances, form, writer)
}

/// Prints the line of each level, and says whether the writer took them. Condition: there are at most 25. It is
/// refused as the numbers of one of them are.
fn print_levels<T: Threads + Sync, F: Folder, W: Write>(
    rt: &T,
    alloc: Global,
    task: Task<'_>,
    folder: &mut F,
    writer: &mut W,
) -> Result<bool, FolderFault>
    requires { levels_of task.source ≤ HIGHEST_LEVEL + 1 }
    ensures printed { (images : List Image) → SaysBy task.entry.source (F.state folder.old).stands images → result ≡ Ok true
        → Appends (W.contents writer.old) (W.contents writer.new) (shown_levels task.entry.form images) }
    ensures same { Unchanged (F.state folder.old) (F.state folder.new) }
    ensures fault { IfErr result (IsCountsFault task.entry.source (F.state folder.old).stands None) }
{
    if !print_names(task.form, writer) {
        return Ok(false);
    }
    for number in 0..count_levels(task.source) {
        let numbers = numbers_of(rt, alloc, task.source, folder, number)?;
        if !print_level(numbers.told, task.form, writer) {
            return Ok(false);
        }
    }
    Ok(true)
}

/// Prints what is asked of the levels of the source, and says whether the writer took that. Conditions: there are at
/// most 25 levels, and the one that is asked for is there. It is refused as the numbers of one that is asked for are.
fn print_counts<T: Threads + Sync, F: Folder, W: Write>(
    rt: &T,
    alloc: Global,
    task: Task<'_>,
    folder: &mut F,
    writer: &mut W,
) -> Result<bool, FolderFault>
    requires few { levels_of task.source ≤ HIGHEST_LEVEL + 1 }
    requires level { IfSome task.level (λ level. level < levels_of task.source) }
    ensures printed { (images : List Image) → SaysBy task.entry.source (F.state folder.old).stands images → result ≡ Ok true
        → AppendsCounts task.entry.form task.entry.level images (W.contents writer.old) (W.contents writer.new) }
    ensures same { Unchanged (F.state folder.old) (F.state folder.new) }
    ensures fault { IfErr result (IsCountsFault task.entry.source (F.state folder.old).stands task.entry.level) }
{
    let Some(level) = task.level else {
        return print_levels(rt, alloc, task, folder, writer);
    };
    match numbers_of(rt, alloc, task.source, folder, level) {
        Ok(numbers) => Ok(print_numbers(&numbers, task.form, writer)),
        Err(fault) => Err(fault),
    }
}

/// Prints the refusal, in the form of the lines, and gives the status 1.
fn refuse_counts<W: Remarks>(writer: &mut W, query: CountsQuery<'_>, fault: NoAnswer) -> u8
    ensures { result ≡ 1 }
{
    let form = form_of(query.json, query.csv);
    refuse_level(writer, form, "counts", query.level, fault)
}

/// The levels in a folder, up to the one of this number if there is one. It is refused as [`load_levels`] is, or
/// as [`load_to`] is.
fn load_for<T: Threads + Sync, F: Folder>(
    rt: &T,
    alloc: Global,
    folder: &mut F,
    level: Option<u8>,
) -> Result<Shelf, NoAnswer>
    ensures levels { IfOk result (HasLevels level (F.state folder.old).stands) }
    ensures same { Same (F.state folder.old).stands (F.state folder.new).stands }
    ensures fault { IfErr result (IsNotLoaded (Lacks (F.state folder.old).refusals (F.state folder.new).refusals) level (F.state folder.old).stands) }
{
    if let Some(number) = level {
        return load_to(rt, alloc, folder, number);
    }
    match load_levels(rt, alloc, folder, HIGHEST_LEVEL) {
        Ok(shelf) => Ok(shelf),
        Err(fault) => Err(NoAnswer::Folder { fault }),
    }
}

/// Prints the line of each level in a folder, or the lines of the one of this number, or the refusal, all in one
/// form. It takes memory for the levels, if they are to be verified, and for four bytes a pair of a value and a
/// distance.
pub fn run_counts<T: Threads + Sync, F: Folder, W: Remarks>(
    rt: &T,
    alloc: Global,
    folder: &mut F,
    query: CountsQuery<'_>,
    writer: &mut W,
) -> u8
    ensures status { result ≤ 1 }
    ensures same { Same (F.state folder.old).stands (F.state folder.new).stands }
    ensures found { result ≡ 0 → PrintsCountsBy query.entry.unverified (form_of query.entry.json query.entry.csv) (F.state folder.old).stands query.entry.level (W.contents writer.old) (W.contents writer.new) }
{
    if query.unverified {
        return run_counts_said(rt, alloc, folder, query, writer);
    }
    let shelf = match load_for(rt, alloc, folder, query.level) {
        Ok(shelf) => shelf,
        Err(fault) => return refuse_counts(writer, query, fault),
    };
    // For the proof: the levels are a shelf.
    let _levels = shelf.levels();
    let task = Task {
        source: Source::Memory(Levels::Right(&shelf)),
        level: query.level,
        form: form_of(query.json, query.csv),
    };
    match print_counts(rt, alloc, task, folder, writer) {
        Ok(written) => status_of(written),
        Err(fault) => refuse_counts(writer, query, NoAnswer::Folder { fault }),
    }
}

/// Prints the same by what the files say.
fn run_counts_said<T: Threads + Sync, F: Folder, W: Remarks>(
    rt: &T,
    alloc: Global,
    folder: &mut F,
    query: CountsQuery<'_>,
    writer: &mut W,
) -> u8
    ensures status { result ≤ 1 }
    ensures same { Same (F.state folder.old).stands (F.state folder.new).stands }
    ensures found { result ≡ 0 → PrintsCountsSaid (form_of query.entry.json query.entry.csv) (F.state folder.old).stands query.entry.level (W.contents writer.old) (W.contents writer.new) }
{
    let opened = match open_for(folder, query.level) {
        Ok(opened) => opened,
        Err(fault) => return refuse_counts(writer, query, fault),
    };
    let task = Task {
        source: Source::Files(opened.levels),
        level: query.level,
        form: form_of(query.json, query.csv),
    };
    match print_counts(rt, alloc, task, folder, writer) {
        Ok(written) => status_of(written),
        Err(fault) => refuse_counts(writer, query, NoAnswer::Folder { fault }),
    }
}

/// The levels in a folder, up to the one of this number if there is one, by the headers of their files. It is
/// refused as [`open_all`] is, or as [`open_to`] is.
fn open_for<F: Folder>(folder: &mut F, level: Option<u8>) -> Result<Opened, NoAnswer>
    ensures opened { IfOk result (HasOpened level (F.state folder.old).stands) }
    ensures few { IfOk result (λ opened. opened.levels ≤ HIGHEST_LEVEL + 1) }
    ensures same { Same (F.state folder.old).stands (F.state folder.new).stands }
    ensures fault { IfErr result (IsNotOpened level (F.state folder.old).stands) }
{
    match level {
        Some(number) => open_to(folder, number),
        None => open_all(folder),
    }
}
