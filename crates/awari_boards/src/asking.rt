//! A service that asks the files of a folder.

ghost use Rattle.std.specs.Prelude.{OnOk};
ghost use Rattle.awari_streams.specs.Counted.{inner_of};
ghost use Rattle.awari_places.specs.Asked.{Keeps, stands_in};
ghost use Rattle.awari_boards.specs.Said.{IsServedSaid};

use crate::files::Asked;
use awari_desk::{ServeFault, serve};
use awari_folder::Folder;
use awari_streams::Counted;
use std::io::{Read, Write};

/// Answers the requests of the input by the files that are asked.
pub(crate) fn serve_files<F: Folder, R: Read, W: Write>(
    asked: &mut Asked<'_, F>,
    input: &mut Counted<R>,
    output: &mut Counted<W>,
) -> Result<(), ServeFault>
    ensures keeps { Keeps F.state asked.old.files asked.new.files }
    ensures served { OnOk result (IsServedSaid (stands_in F.state asked.old.files) asked.old.files.levels (R.remaining (inner_of input.old)) (W.contents (inner_of output.old)) (W.contents (inner_of output.new))) }
{
    serve(asked, input, output)
}
