//! The command `text`: the levels in a folder as the text of tables.

ghost use Rattle.std.specs.Prelude.{◌≡◌, ◌≤◌, ◌<◌, true, IfSome, OnOk, length};
ghost use Rattle.awari_streams.specs.Counted.{inner_of};
ghost use Rattle.awari_folder.specs.Contents.{Same};
ghost use Rattle.awari_levels.specs.Texts.{AppendsText, PrintsText};

use awari_answers::{Remarks, load_levels, refuse, status_of};
use awari_facts::load_to;
use awari_folder::Folder;
use awari_table::{Counted, HIGHEST_LEVEL, Shelf, write_level_text, write_shelf_text};
use core::mem::replace_with;
use std::alloc::Global;
use std::io::{self, Write};
use std::thread::Threads;

/// Prints the text of the levels in a folder, or of the one of this number, or the refusal. It is 59
/// if the folder has no level of this number. No file above it is read.
pub fn run_text<T: Threads + Sync, F: Folder, W: Remarks>(
    rt: &T,
    alloc: Global,
    folder: &mut F,
    level: Option<u8>,
    writer: &mut W,
) -> u8
    ensures status { result ≤ 1 }
    ensures text { result ≡ 0 → PrintsText (F.state folder.old).stands level (W.contents writer.old) (W.contents writer.new) }
    ensures same { Same (F.state folder.old).stands (F.state folder.new).stands }
{
    let Some(number) = level else {
        return match load_levels(rt, alloc, folder, HIGHEST_LEVEL) {
            Ok(shelf) => status_of(print_text(&shelf, None, writer)),
            Err(fault) => refuse(writer, fault.refusal()),
        };
    };
    match load_to(rt, alloc, folder, number) {
        Ok(shelf) => status_of(print_text(&shelf, Some(number), writer)),
        Err(fault) => refuse(writer, fault.refusal()),
    }
}

/// Prints the text of the shelf, or of its level of this number, and says whether the writer took it.
fn print_text<W: Write>(shelf: &Shelf, level: Option<u8>, writer: &mut W) -> bool
    requires { IfSome level (λ number. number < length shelf.now) }
    ensures { result ≡ true → AppendsText shelf.now level (W.contents writer.old) (W.contents writer.new) }
{
    replace_with(writer, (shelf, level), |writer, (shelf, level)| {
        text_by(shelf, level, writer)
    })
}

/// The writer with the text written, so far as that went.
fn text_by<W: Write>(shelf: &Shelf, level: Option<u8>, writer: W) -> (W, bool)
    requires { IfSome level (λ number. number < length shelf.now) }
    ensures { result.1 ≡ true → AppendsText shelf.now level (W.contents writer) (W.contents result.0) }
{
    let mut output = Counted::new(writer);
    let written = write_text(shelf, level, &mut output).is_ok() && output.flush().is_ok();
    (output.into_inner(), written)
}

/// Writes the text of the shelf, or of its level of this number.
fn write_text<W: Write>(shelf: &Shelf, level: Option<u8>, output: &mut Counted<W>) -> io::Result<()>
    requires { IfSome level (λ number. number < length shelf.now) }
    ensures { OnOk result (AppendsText shelf.now level (W.contents (inner_of output.old)) (W.contents (inner_of output.new))) }
{
    // For the proof: the levels are a shelf.
    let _levels = shelf.levels();
    let Some(number) = level else {
        write_shelf_text(shelf, output)?;
        return Ok(());
    };
    write_level_text(shelf.level(number), output)?;
    Ok(())
}
