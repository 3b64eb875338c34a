//! The command `serve` with `--unverified`.

ghost use Rattle.std.specs.Prelude.{◌≡◌, ◌≤◌, ◌+◌, OnOk};
ghost use Rattle.awari_folder.specs.Contents.{Same};
ghost use Rattle.awari_table.specs.declared.TheConstants.{HIGHEST_LEVEL};
ghost use Rattle.awari_boards.specs.Said.{IsServedSaid, PrintsServiceSaid};

use crate::asking::serve_files;
use crate::files::Asked;
use awari_answers::{Remarks, Streams, refuse};
use awari_desk::ServeFault;
use awari_faults::Refusal;
use awari_folder::Folder;
use awari_places::{Files, open_levels};
use awari_table::{Counted, HIGHEST_LEVEL};
use core::mem::replace_with;
use std::io::{Read, Write};

/// Answers the lines of the input by what the files of the folder say, read where they lie, whether that is
/// right or not. It looks at the headers and the lengths of the files once, before the first line, and
/// reads six bytes for each board that is looked at. It builds nothing and saves nothing, and takes memory
/// for names alone.
///
/// A file that can't be read any more is told in the place of an answer, and the service goes on. A refusal
/// of the files at the beginning, or of the streams, is printed after the answers, unless these could not
/// be written.
pub fn run_serve_unverified<F: Folder, R: Read, W: Remarks, E>(
    folder: &mut F,
    streams: &mut Streams<R, W, E>,
) -> u8
    ensures status { result ≤ 1 }

    // What was written is a service by what the folder's files say. The folder stays as it was.
    ensures same { Same (F.state folder.old).stands (F.state folder.new).stands }
    ensures served { result ≡ 0 → PrintsServiceSaid (F.state folder.old).stands (R.remaining streams.old.input) (W.contents streams.old.output) (W.contents streams.new.output) }
{
    let opened = match open_levels(folder, HIGHEST_LEVEL) {
        Ok(opened) => opened,
        Err(fault) => return refuse(&mut streams.output, fault.refusal()),
    };
    let served = serve_lines(
        folder,
        opened.levels,
        &mut streams.input,
        &mut streams.output,
    );
    match served {
        Ok(()) => 0,
        Err(ServeFault::Write) => 1,
        Err(fault) => refuse(&mut streams.output, Refusal::alone(fault.reason())),
    }
}

/// Answers the lines of the reader by the files of this many levels.
fn serve_lines<F: Folder, R: Read, W: Write>(
    folder: &mut F,
    levels: u8,
    reader: &mut R,
    writer: &mut W,
) -> Result<(), ServeFault>
    requires { levels ≤ HIGHEST_LEVEL + 1 }
    ensures same { Same (F.state folder.old).stands (F.state folder.new).stands }
    ensures served { OnOk result (IsServedSaid (F.state folder.old).stands levels (R.remaining reader.old) (W.contents writer.old) (W.contents writer.new)) }
{
    let Ended { folder: _, served } = lend(folder, levels, reader, writer);
    served
}

/// The folder that was lent to a service, and how that ended.
#[derive(Drop)]
struct Ended<'a, F> {
    folder: &'a mut F,
    served: Result<(), ServeFault>,
}

/// What is lent to a service besides its writer.
#[derive(Drop)]
struct Lent<'a, F, R> {
    folder: &'a mut F,
    levels: u8,
    reader: &'a mut R,
    ghost few: { levels ≤ HIGHEST_LEVEL + 1 },
}

/// Lends the folder and the streams to a service.
fn lend<'a, F: Folder, R: Read, W: Write>(
    folder: &'a mut F,
    levels: u8,
    reader: &'a mut R,
    writer: &mut W,
) -> Ended<'a, F>
    requires { levels ≤ HIGHEST_LEVEL + 1 }
    ensures lent { result.folder.ghost_name ≡ folder.entry.ghost_name }
    ensures same { Same (F.state folder.entry.now).stands (F.state result.folder.now).stands }
    ensures served { OnOk result.served (IsServedSaid (F.state folder.entry.now).stands levels (R.remaining reader.entry.now) (W.contents writer.old) (W.contents writer.new)) }
{
    let lent = Lent {
        folder,
        levels,
        reader,
    };
    replace_with(writer, lent, |writer, lent| served_by(lent, writer))
}

/// The writer with the answers written, so far as that went.
fn served_by<'a, F: Folder, R: Read, W: Write>(lent: Lent<'a, F, R>, writer: W) -> (W, Ended<'a, F>)
    ensures lent { result.1.folder.ghost_name ≡ lent.entry.folder.ghost_name }
    ensures same { Same (F.state lent.entry.folder.now).stands (F.state result.1.folder.now).stands }
    ensures served { OnOk result.1.served (IsServedSaid (F.state lent.entry.folder.now).stands lent.entry.levels (R.remaining lent.entry.reader.now) (W.contents writer) (W.contents result.0)) }
{
    let Lent {
        folder,
        levels,
        reader,
    } = lent;
    let mut asked = Asked {
        files: Files { folder, levels },
    };
    let mut output = Counted::new(writer);
    let served = serve_files(&mut asked, &mut Counted::new(reader), &mut output);
    let Files { folder, levels: _ } = asked.files;
    (output.into_inner(), Ended { folder, served })
}
