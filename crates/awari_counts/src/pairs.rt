//! The command `counts --by`: a level's boards by two columns.

ghost use Rattle.std.specs.Prelude.{◌≡◌, ◌<◌, ◌≤◌, ◌↔◌, ◌+◌, ℕ, List, IfErr, IfOk, Ok, length, true};
ghost use Rattle.std.specs.Io.KnownBytes.{Appends};
ghost use Rattle.awari_facts.specs.Sources.{IsSaidOf, images_of, limit_of};
ghost use Rattle.awari_folder.specs.Contents.{Same};
ghost use Rattle.awari_folder.specs.State.{Unchanged};
ghost use Rattle.awari_places.specs.Places.{Says};
ghost use Rattle.awari_rank.specs.Tuples.{tuples};
ghost use Rattle.awari_table.specs.declared.TheConstants.{HIGHEST_LEVEL};
ghost use Rattle.awari_table.specs.declared.images.Image.{Image};
ghost use Rattle.awari_counts.specs.Pairs.{PrintsPairsBy, header_of, pair_lines};
ghost use Rattle.awari_counts.specs.Tables.{AreTabled, IsOwn, cells_of};
ghost use Rattle.awari_counts.specs.Asking.{IsHeldFault, IsPairsFault, IsReadFault, IsRefused, IsWish};

use crate::cells::count_on;
use crate::ranges::width_of;
use crate::rows::{Placed, Row, print_row};
use crate::shown::Names;
use crate::tables::{CellTable, count_own, table_of};
use awari_answers::{NoAnswer, Remarks, print, refuse_level, status_of};
use awari_facts::{Levels, is_own, levels_in, limit_on, load_to, open_to};
use awari_folder::{Folder, FolderFault};
use awari_members::{Form, form_of};
use awari_places::{limit_in_header, read_levels};
use awari_queries::{CountsQuery, NoColumn, Pair, asked_pair};
use std::alloc::Global;
use std::io::Write;
use std::thread::Threads;

/// What is printed: the boards of a level by two columns, in a form.
#[derive(Clone, Copy)]
struct Wish {
    level: u8,
    pair: Pair,
    form: Form,
}

/// Prints what stands above the lines, and says whether the writer took it.
#[tactic(auto, unfolding(crate::specs::Pairs::header_of))]
fn print_header<W: Write>(form: Form, pair: Pair, writer: &mut W) -> bool
    ensures { result ≡ true → Appends (W.contents writer.old) (W.contents writer.new) (header_of form pair) }
{
    match form {
        Form::Csv => print(writer, &Names(pair)),
        Form::Text | Form::Json => true,
    }
}

/// Prints a line for each pair of numbers that some boards have, and says whether the writer took them.
/// These are how many boards are in each cell.
fn print_table<W: Write>(counts: &[u32], table: CellTable, form: Form, writer: &mut W) -> bool
    requires { length counts.now ≡ cells_of table }
    ensures { (images : List Image) → AreTabled images table (tuples 12 table.level) counts.now → result ≡ true
        → Appends (W.contents writer.old) (W.contents writer.new) (pair_lines form table.pair images table.level table.limit) }
{
    if !print_header(form, table.pair, writer) {
        return false;
    }
    let Pair { first, second } = table.pair;
    let columns = width_of(second, table.limit);
    for place in 0..width_of(first, table.limit) {
        let boards = &counts[place * columns..(place + 1) * columns];
        let beside = Placed {
            column: first,
            place: place as u32,
        };
        let row = Row {
            beside: Some(beside),
            column: second,
        };
        if !print_row(boards, row, form, writer) {
            return false;
        }
    }
    true
}

/// Prints the boards of a level in memory by two columns, and says whether the writer took that. Condition: the
/// level is there. It takes memory for four bytes a pair of numbers, and for a segment of boards. It is refused
/// as [`count_on`] is, and as 83 with V7 if the limit is above the number of boards.
fn print_pairs_on<T: Threads + Sync, W: Write>(
    rt: &T,
    alloc: Global,
    levels: Levels<'_>,
    wish: Wish,
    writer: &mut W,
) -> Result<bool, FolderFault>
    requires { wish.level < length (images_of levels) }
    ensures printed { result ≡ Ok true → Appends (W.contents writer.old) (W.contents writer.new) (pair_lines wish.form wish.pair (images_of levels.entry) wish.level (limit_of (images_of levels.entry) wish.level)) }
    ensures fault { IfErr result (IsHeldFault wish (images_of levels.entry)) }
{
    // For the proof: there are at most 25 levels.
    let _levels = levels_in(levels);
    let table = table_of(wish.level, wish.pair, limit_on(levels, wish.level))?;
    let counts = count_on(rt, alloc, levels, table)?;
    Ok(print_table(counts.as_slice(), table, wish.form, writer))
}

/// Prints the boards of a level by two columns, by what its file says, and says whether the writer took that.
/// Conditions: an entry and the rules say both numbers, and the level is at most 24. It takes memory for four
/// bytes a pair of numbers. It is refused as [`limit_in_header`] and [`count_own`] are, and as 83 with V7 if the
/// limit is above the number of boards.
fn print_own_pairs<F: Folder, W: Write>(
    alloc: Global,
    folder: &mut F,
    wish: Wish,
    writer: &mut W,
) -> Result<bool, FolderFault>
    requires own { IsOwn wish.pair }
    requires level { wish.level ≤ HIGHEST_LEVEL }
    ensures printed { (levels : ℕ) (images : List Image) → Says (F.state folder.old).stands levels images → wish.level < levels → result ≡ Ok true
        → Appends (W.contents writer.old) (W.contents writer.new) (pair_lines wish.form wish.pair images wish.level (limit_of images wish.level)) }
    ensures same { Unchanged (F.state folder.old) (F.state folder.new) }
    ensures fault { IfErr result (IsPairsFault wish (F.state folder.old).stands) }
{
    let limit = limit_in_header(folder, wish.level)?;
    let table = table_of(wish.level, wish.pair, limit)?;
    let counts = count_own(alloc, folder, table)?;
    Ok(print_table(counts.as_slice(), table, wish.form, writer))
}

/// Prints the same with the levels up to this one in memory, as the files say them. Condition: the level is at
/// most 24. It is refused as [`read_levels`] and as [`print_pairs_on`] is.
fn print_read_pairs<T: Threads + Sync, F: Folder, W: Write>(
    rt: &T,
    alloc: Global,
    folder: &mut F,
    wish: Wish,
    writer: &mut W,
) -> Result<bool, FolderFault>
    requires { wish.level ≤ HIGHEST_LEVEL }
    ensures printed { (images : List Image) → Says (F.state folder.old).stands (wish.level + 1) images → result ≡ Ok true
        → Appends (W.contents writer.old) (W.contents writer.new) (pair_lines wish.form wish.pair images wish.level (limit_of images wish.level)) }
    ensures same { Unchanged (F.state folder.old) (F.state folder.new) }
    ensures fault { IfErr result (IsReadFault wish (F.state folder.old).stands) }
{
    let said = read_levels(alloc, folder, wish.level + 1)?;
    print_pairs_on(rt, alloc, Levels::Said(&said), wish, writer)
}

/// What is printed for a query. It is refused as 96 if no level is asked for, or if the word names no two
/// columns.
fn wish_of(query: &CountsQuery<'_>) -> Result<Wish, NoAnswer>
    ensures asked { IfOk result (IsWish query.now) }
    ensures none { IfErr result (IsRefused query.now) }
{
    let level = query.level.ok_or(NoColumn::Level)?;
    let by = query.by.ok_or(NoColumn::By)?;
    let pair = asked_pair(by)?;
    Ok(Wish {
        level,
        pair,
        form: form_of(query.json, query.csv),
    })
}

/// Prints how many boards of a level have each pair of numbers, by the first and then by the second. Pairs
/// that no board has are left out. It may print a refusal, in the form of the lines: 96 if no level is asked
/// for, or if the word names no two columns. It takes memory for four bytes a pair of numbers, and for the
/// levels, if they are to be verified or a column is of the moves that keep the value. Other files that nobody
/// verified are read board by board.
pub fn run_pairs<T: Threads + Sync, F: Folder, W: Remarks>(
    rt: &T,
    alloc: Global,
    folder: &mut F,
    query: &CountsQuery<'_>,
    writer: &mut W,
) -> u8
    ensures status { result ≤ 1 }
    ensures same { Same (F.state folder.old).stands (F.state folder.new).stands }
    ensures found { result ≡ 0 → PrintsPairsBy query.now.unverified (F.state folder.old).stands query.now (W.contents writer.old) (W.contents writer.new) }
{
    let wish = match wish_of(query) {
        Ok(wish) => wish,
        Err(fault) => {
            let form = form_of(query.json, query.csv);
            return refuse_level(writer, form, "counts", query.level, fault);
        }
    };
    if query.unverified {
        return run_pairs_said(rt, alloc, folder, wish, writer);
    }
    let shelf = match load_to(rt, alloc, folder, wish.level) {
        Ok(shelf) => shelf,
        Err(fault) => return refuse_pairs(writer, wish, fault),
    };
    match print_pairs_on(rt, alloc, Levels::Right(&shelf), wish, writer) {
        Ok(written) => status_of(written),
        Err(fault) => refuse_pairs(writer, wish, NoAnswer::Folder { fault }),
    }
}

/// Prints the refusal, and gives the status 1.
fn refuse_pairs<W: Remarks>(writer: &mut W, wish: Wish, fault: NoAnswer) -> u8
    ensures { result ≡ 1 }
{
    refuse_level(writer, wish.form, "counts", Some(wish.level), fault)
}

/// Whether an entry and the rules say both numbers of a board.
fn are_own(pair: Pair) -> bool
    ensures { result ≡ true ↔ IsOwn pair }
{
    is_own(pair.first) && is_own(pair.second)
}

/// Prints the same by what the files say.
fn run_pairs_said<T: Threads + Sync, F: Folder, W: Remarks>(
    rt: &T,
    alloc: Global,
    folder: &mut F,
    wish: Wish,
    writer: &mut W,
) -> u8
    ensures status { result ≤ 1 }
    ensures same { Same (F.state folder.old).stands (F.state folder.new).stands }
    ensures found { result ≡ 0 → IsSaidOf wish.level (F.state folder.old).stands
        (λ images. Appends (W.contents writer.old) (W.contents writer.new) (pair_lines wish.form wish.pair images wish.level (limit_of images wish.level))) }
{
    match open_to(folder, wish.level) {
        Ok(_) => {}
        Err(fault) => return refuse_pairs(writer, wish, fault),
    }
    if are_own(wish.pair) {
        return match print_own_pairs(alloc, folder, wish, writer) {
            Ok(written) => status_of(written),
            Err(fault) => refuse_pairs(writer, wish, NoAnswer::Folder { fault }),
        };
    }
    match print_read_pairs(rt, alloc, folder, wish, writer) {
        Ok(written) => status_of(written),
        Err(fault) => refuse_pairs(writer, wish, NoAnswer::Folder { fault }),
    }
}
