//! The right tables of levels 0 to 2, and their files.

use crate::plain::{level_of, next_image, put_on, save_into, write};
use awari_folder::Folder;
use awari_table::{Counted, Shelf, TableText};
use std::alloc::Global;
use std::test::Fail;

/// The text of levels 0 to 2, with `;` for each line feed. What each board of two stones is worth
/// was worked out by hand: none has more than one legal move.
const LEVELS: &str = "\
level 0 limit 0;0 - 0;level 1 limit 1;-1 - 0;-1 - 0;-1 - 0;-1 - 0;-1 - 0;-1 - 0;-1 5 1;\
1 - 0;1 - 0;1 - 0;1 - 0;1 - 0;level 2 limit 9;-2 - 0;-2 - 0;-2 - 0;-2 - 0;-2 - 0;-2 - 0;\
-2 - 0;-2 - 0;-2 - 0;-2 - 0;-2 - 0;-2 - 0;-2 - 0;-2 - 0;-2 - 0;-2 - 0;-2 - 0;-2 - 0;-2 - 0;\
-2 - 0;-2 - 0;0 5 0;-2 5 1;-2 5 1;-2 5 1;-2 5 1;-2 5 1;-2 5 1;0 4 0;0 4 0;-2 4 3;-2 4 3;\
-2 4 3;-2 4 3;-2 5 5;-2 4 3;2 3 2;0 3 0;0 3 0;-2 3 5;-2 3 5;-2 3 5;-2 5 7;2 - 0;2 - 0;2 2 2;\
2 2 4;0 2 0;0 2 0;-2 2 7;-2 2 7;-2 5 9;2 - 0;2 - 0;2 - 0;2 1 2;2 1 4;2 1 6;0 1 0;0 1 0;\
-2 1 9;0 5 0;2 - 0;2 - 0;2 - 0;2 - 0;2 0 2;2 0 4;2 0 6;2 0 8;0 0 0;0 0 0;0 5 0;2 - 0;2 - 0;\
2 - 0;2 - 0;2 - 0;";

/// The text of levels 0 to 2, in lines.
fn right_text(alloc: Global) -> Result<Vec<u8>, Fail> {
    let mut text = Vec::new(alloc);
    for byte in LEVELS.bytes() {
        text.push(if byte == b';' { b'\n' } else { byte })?;
    }
    Ok(text)
}

/// The shelf of levels 0 to 2.
pub(crate) fn right_shelf(alloc: Global) -> Result<Shelf, Fail> {
    let text = right_text(alloc)?;
    let mut text = TableText::new(alloc, text.as_slice());
    let mut shelf = Shelf::empty();
    for _ in 0..3u8 {
        let image = next_image(&mut text)?;
        put_on(alloc, &mut shelf, image)?;
    }
    Ok(shelf)
}

/// Saves levels 0 and 1 of the shelf into a folder, and gives their digests.
pub(crate) fn save_two(
    folder: &mut impl Folder,
    shelf: &Shelf,
) -> Result<([u8; 32], [u8; 32]), Fail> {
    let below = save_into(folder, level_of(shelf, 0)?, [0; 32])?;
    let digest = save_into(folder, level_of(shelf, 1)?, below)?;
    Ok((below, digest))
}

/// The file of a level of the shelf, over a file that ends in this digest.
fn file_of(alloc: Global, shelf: &Shelf, number: u8, below: [u8; 32]) -> Result<Vec<u8>, Fail> {
    let mut file = Vec::new(alloc);
    write(
        level_of(shelf, number)?,
        below,
        &mut Counted::new(&mut file),
    )?;
    Ok(file)
}

/// The file of level 0, 1 or 2, each over the one before.
pub(crate) fn right_file(alloc: Global, number: u8) -> Result<Vec<u8>, Fail> {
    let shelf = right_shelf(alloc)?;
    let mut file = file_of(alloc, &shelf, 0, [0; 32])?;
    for level in 1..=number {
        file = file_of(alloc, &shelf, level, digest_in(&file))?;
    }
    Ok(file)
}

/// The last 32 bytes of a file, zeros for a shorter one.
pub(crate) fn digest_in(file: &[u8]) -> [u8; 32] {
    let mut digest = [0; 32];
    if file.len() >= 32 {
        digest.copy_from_slice(&file[file.len() - 32..]);
    }
    digest
}

/// The file with this byte at this place.
pub(crate) fn changed(alloc: Global, file: &[u8], place: usize, byte: u8) -> Result<Vec<u8>, Fail> {
    let mut bytes = file.to_vec(alloc)?;
    *bytes.get_mut(place).ok_or("a place in the file")? = byte;
    Ok(bytes)
}
