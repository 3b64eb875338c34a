//! Examples that stand whole at the head of the libraries they call.

use crate::expect::expect_equal;
use crate::memory::MemoryFolder;
use awari_file::{read_image, write_level};
use awari_folder::{Alone, load, save};
use awari_table::{Counted, HIGHEST_LEVEL, Shelf, TableText};
use awari_verify::verify;
use std::test::Fail;

#[test]
fn a_level_is_written_and_read(rt: HostRuntime) -> Result<(), Fail> {
    let mut text = TableText::new(rt.alloc(), b"level 0 limit 0\n0 - 0\n");
    let image = text.next()?.ok_or("a level")?;
    let level = verify(&Shelf::empty(), image)?;
    let mut file = Vec::new(rt.alloc());
    let digest = write_level(&level, [0; 32], &mut Counted::new(&mut file))?;
    let loaded = read_image(rt.alloc(), &mut Counted::new(file.as_slice()))?;
    expect_equal(&rt, "digest", loaded.digest, digest);
    let entries = loaded.image.entries.to_vec(rt.alloc())?;
    expect_equal(&rt, "entries", entries, level.to_vec(rt.alloc())?);
    Ok(())
}

#[test]
fn a_saved_level_is_loaded(rt: HostRuntime) -> Result<(), Fail> {
    let mut text = TableText::new(rt.alloc(), b"level 0 limit 0\n0 - 0\n");
    let image = text.next()?.ok_or("a level")?;
    let level = verify(&Shelf::empty(), image)?;
    let mut folder = MemoryFolder::new(rt.alloc());
    let digest = save(&mut folder, &level, [0; 32])?;
    let stored = load(&Alone, rt.alloc(), &mut folder, HIGHEST_LEVEL)?;
    expect_equal(&rt, "levels", stored.shelf.levels(), 1);
    expect_equal(&rt, "digest", stored.digest, digest);
    Ok(())
}
