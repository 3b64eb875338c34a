//! The commands `boards` and `text --boards`: the boards of a level with what is known of them.

ghost use Rattle.std.specs.Io.KnownBytes.{Appends};
ghost use Rattle.std.specs.Prelude.{◌≡◌, ◌≤◌, ◌<◌, true, List, IfErr, IfOk, Ok};
ghost use Rattle.awari_places.specs.Places.{IsLevelOf};
ghost use Rattle.awari_facts.specs.Sources.{IsSaidOf, SaysBy, levels_of};
ghost use Rattle.awari_facts.specs.declared.sources.Levels.TheVariants.{Said as SaidLevels};
ghost use Rattle.awari_facts.specs.declared.sources.Source.TheVariants.{Memory};
ghost use Rattle.awari_folder.specs.Contents.{Same};
ghost use Rattle.awari_folder.specs.State.{Unchanged};
ghost use Rattle.awari_table.specs.declared.images.Image.{Image};
ghost use Rattle.awari_levels.specs.Listing.{IsListFault};
ghost use Rattle.awari_levels.specs.Boards.{AppendsWanted, IsRefused, IsWanted, PrintsAllBoards, PrintsBoardsBy, all_lines};

use crate::asked::Asked;
use crate::listing::{count_boards, print_boards};
use crate::wanted::{Wanted, is_alone};
use awari_answers::{NoAnswer, Remarks, load_levels, print, refuse, refuse_level, status_of};
use awari_facts::{Levels, Source, load_to, open_to};
use awari_folder::{Folder, FolderFault};
use awari_members::{Form, form_of};
use awari_places::{Said, read_levels};
use awari_queries::{Added, BoardsQuery, Spans, asked_order, asked_spans};
use awari_table::{HIGHEST_LEVEL, Shelf};
use std::alloc::Global;
use std::io::Write;
use std::thread::Threads;

/// All boards of a level.
const ALL: Wanted = Wanted {
    spans: Spans {
        value: None,
        distance: None,
        plan: None,
        captures: None,
        greedy: None,
        side: None,
        moves: None,
        keep: None,
        trap: None,
        other: None,
    },
    waits: false,
    ended: false,
    running: false,
    farthest: false,
    every: 1,
    random: 0,
    seed: 0,
    order: None,
    most: 0,
    added: Added {
        moves: false,
        keep: false,
        greedy: false,
        trap: false,
        other: false,
        waits: false,
    },
    count: false,
    form: Form::Text,
};

/// The boards that the query asks for. It is refused as 95 if a word is no span, and then as 96 if the word for
/// the order is none.
pub fn wanted_of(query: &BoardsQuery<'_>) -> Result<Wanted, NoAnswer>
    ensures wanted { IfOk result (IsWanted query.now) }
    ensures none { IfErr result (IsRefused query.now) }
{
    let spans = asked_spans(&query.spans)?;
    let order = asked_order(query.sort)?;
    Ok(Wanted {
        spans,
        waits: query.waits,
        ended: query.ended,
        running: query.running,
        farthest: query.farthest,
        every: query.every.max(1),
        random: query.random,
        seed: query.seed,
        order,
        most: query.most,
        added: query.added,
        count: query.count,
        form: form_of(query.json, query.csv),
    })
}

/// Prints how many boards are wanted, or a line for each, and says whether the writer took that. Conditions:
/// the source has the level, and not each 0th board is wanted.
fn print_wanted<R: Threads + Sync, F: Folder, W: Write>(
    rt: &R,
    alloc: Global,
    folder: &mut F,
    asked: Asked<'_>,
    writer: &mut W,
) -> Result<bool, FolderFault>
    requires level { IsLevelOf (levels_of asked.source) asked.level }
    requires every { 0 < asked.wanted.now.every }
    ensures printed { (images : List Image) → SaysBy asked.entry.source (F.state folder.old).stands images → result ≡ Ok true
        → AppendsWanted images asked.entry.level asked.entry.wanted.now (W.contents writer.old) (W.contents writer.new) }
    ensures fault { IfErr result (IsListFault asked.entry.source asked.entry.level (F.state folder.old).stands) }
    ensures same { Unchanged (F.state folder.old) (F.state folder.new) }
{
    if !asked.wanted.count {
        return print_boards(rt, alloc, folder, asked, writer);
    }
    let count = count_boards(rt, alloc, folder, asked)?;
    Ok(print(writer, &count))
}

/// Prints the same, or the refusal, and gives the status. Conditions as for [`print_wanted`].
fn run_asked<R: Threads + Sync, F: Folder, W: Remarks>(
    rt: &R,
    alloc: Global,
    folder: &mut F,
    asked: Asked<'_>,
    writer: &mut W,
) -> u8
    requires level { IsLevelOf (levels_of asked.source) asked.level }
    requires every { 0 < asked.wanted.now.every }
    ensures status { result ≤ 1 }
    ensures printed { (images : List Image) → SaysBy asked.entry.source (F.state folder.old).stands images → result ≡ 0
        → AppendsWanted images asked.entry.level asked.entry.wanted.now (W.contents writer.old) (W.contents writer.new) }
    ensures same { Unchanged (F.state folder.old) (F.state folder.new) }
{
    match print_wanted(rt, alloc, folder, asked, writer) {
        Ok(written) => status_of(written),
        Err(fault) => {
            let form = asked.wanted.form;
            refuse_level(
                writer,
                form,
                "boards",
                Some(asked.level),
                NoAnswer::Folder { fault },
            )
        }
    }
}

/// Prints the refusal of a query, and gives the status 1.
fn refuse_boards<W: Remarks>(writer: &mut W, query: &BoardsQuery<'_>, fault: NoAnswer) -> u8
    ensures { result ≡ 1 }
{
    let form = form_of(query.json, query.csv);
    refuse_level(writer, form, "boards", Some(query.level), fault)
}

/// Which boards of a level are asked for.
#[derive(Clone, Copy)]
struct Wish<'a> {
    level: u8,
    wanted: &'a Wanted,
}

/// Prints the boards of a level that the query asks for, by rank or sorted, or how many there are, or the
/// refusal, in the form of the lines. It takes memory for the levels, for boards that threads look at, and for
/// those that are sorted. If it asks for files that nobody verified, it takes none for levels, unless something
/// is wanted that other boards say.
pub fn run_boards<T: Threads + Sync, F: Folder, W: Remarks>(
    rt: &T,
    alloc: Global,
    folder: &mut F,
    query: &BoardsQuery<'_>,
    writer: &mut W,
) -> u8
    ensures status { result ≤ 1 }
    ensures same { Same (F.state folder.old).stands (F.state folder.new).stands }
    ensures found { result ≡ 0 → PrintsBoardsBy query.now.unverified (F.state folder.old).stands query.now (W.contents writer.old) (W.contents writer.new) }
{
    let wanted = match wanted_of(query) {
        Ok(wanted) => wanted,
        Err(fault) => return refuse_boards(writer, query, fault),
    };
    let level = query.level;
    if query.unverified {
        let wanted = &wanted;
        return run_boards_said(rt, alloc, folder, Wish { level, wanted }, writer);
    }
    let shelf = match load_to(rt, alloc, folder, level) {
        Ok(shelf) => shelf,
        Err(fault) => return refuse_boards(writer, query, fault),
    };
    let asked = Asked {
        source: Source::Memory(Levels::Right(&shelf)),
        level,
        wanted: &wanted,
    };
    run_asked(rt, alloc, folder, asked, writer)
}

/// Prints the same by what the files say.
fn run_boards_said<T: Threads + Sync, F: Folder, W: Remarks>(
    rt: &T,
    alloc: Global,
    folder: &mut F,
    wish: Wish<'_>,
    writer: &mut W,
) -> u8
    requires { 0 < wish.wanted.now.every }
    ensures status { result ≤ 1 }
    ensures same { Same (F.state folder.old).stands (F.state folder.new).stands }
    ensures found { result ≡ 0 → IsSaidOf wish.entry.level (F.state folder.old).stands
        (λ images. AppendsWanted images wish.entry.level wish.entry.wanted.now (W.contents writer.old) (W.contents writer.new)) }
{
    let Wish { level, wanted } = wish;
    let opened = match open_to(folder, level) {
        Ok(opened) => opened,
        Err(fault) => return refuse_level(writer, wanted.form, "boards", Some(level), fault),
    };
    if is_alone(wanted) {
        let asked = Asked {
            source: Source::Files(opened.levels),
            level,
            wanted,
        };
        return run_asked(rt, alloc, folder, asked, writer);
    }
    let said = match read_levels(alloc, folder, opened.levels) {
        Ok(said) => said,
        Err(fault) => {
            let fault = NoAnswer::Folder { fault };
            return refuse_level(writer, wanted.form, "boards", Some(level), fault);
        }
    };
    // For the proof: each level has its number and its boards.
    let _levels = said.levels();
    run_asked(rt, alloc, folder, asked_of(&said, wish), writer)
}

/// What is asked of levels that were read.
fn asked_of<'a>(said: &'a Said, wish: Wish<'a>) -> Asked<'a>
    ensures source { result.source ≡ Memory (SaidLevels said.entry) }
    ensures level { result.level ≡ wish.entry.level }
    ensures wanted { result.wanted ≡ wish.entry.wanted }
{
    Asked {
        source: Source::Memory(Levels::Said(said)),
        level: wish.level,
        wanted: wish.wanted,
    }
}

/// Prints all boards of all levels, and says whether the writer took them.
fn print_levels<R: Threads + Sync, F: Folder, W: Write>(
    rt: &R,
    alloc: Global,
    folder: &mut F,
    shelf: &Shelf,
    writer: &mut W,
) -> Result<bool, FolderFault>
    ensures printed { result ≡ Ok true → Appends (W.contents writer.old) (W.contents writer.new) (all_lines shelf.now) }
    ensures same { Unchanged (F.state folder.old) (F.state folder.new) }
{
    for level in 0..shelf.levels() {
        let asked = Asked {
            source: Source::Memory(Levels::Right(shelf)),
            level,
            wanted: &ALL,
        };
        if !print_boards(rt, alloc, folder, asked, writer)? {
            return Ok(false);
        }
    }
    Ok(true)
}

/// Prints all boards of the level of this number, or of all levels in a folder, or the refusal.
pub fn run_all_boards<T: Threads + Sync, F: Folder, W: Remarks>(
    rt: &T,
    alloc: Global,
    folder: &mut F,
    level: Option<u8>,
    writer: &mut W,
) -> u8
    ensures status { result ≤ 1 }
    ensures same { Same (F.state folder.old).stands (F.state folder.new).stands }
    ensures found { result ≡ 0 → PrintsAllBoards (F.state folder.old).stands level (W.contents writer.old) (W.contents writer.new) }
{
    let Some(level) = level else {
        let shelf = match load_levels(rt, alloc, folder, HIGHEST_LEVEL) {
            Ok(shelf) => shelf,
            Err(fault) => return refuse(writer, fault.refusal()),
        };
        return match print_levels(rt, alloc, folder, &shelf, writer) {
            Ok(written) => status_of(written),
            Err(fault) => refuse(writer, fault.refusal()),
        };
    };
    let shelf = match load_to(rt, alloc, folder, level) {
        Ok(shelf) => shelf,
        Err(fault) => return refuse(writer, fault.refusal()),
    };
    let asked = Asked {
        source: Source::Memory(Levels::Right(&shelf)),
        level,
        wanted: &ALL,
    };
    run_asked(rt, alloc, folder, asked, writer)
}
