//! Folders in memory, of which one call is refused.

use crate::expect::{expect, expect_equal};
use crate::levels::{digest_in, right_file, right_shelf, save_two};
use crate::memory::MemoryFolder;
use crate::plain::{
    bring_over, has_draft, keep_in, level_of, load_from, look_up, memory_folder, open, refuse,
    refuse_files, save_into,
};
use awari_board::Board;
use awari_file::FileFault;
use awari_folder::FolderFault;
use awari_table::Level;
use std::alloc::Global;
use std::io::Read;
use std::process::Abort;
use std::test::Fail;

/// What is loaded from the folder: how many levels.
fn levels_in(folder: &mut MemoryFolder, alloc: Global) -> Result<u8, FolderFault> {
    Ok(load_from(folder, alloc)?.shelf.levels())
}

/// What is loaded from the folder: the digest of the last file.
fn digest_of(folder: &mut MemoryFolder, alloc: Global) -> Result<[u8; 32], FolderFault> {
    Ok(load_from(folder, alloc)?.digest)
}

/// The refusal to save a level.
fn refusal_of(folder: &mut MemoryFolder, level: &Level, below: [u8; 32]) -> Option<FolderFault> {
    save_into(folder, level, below).err()
}

/// What is refused to save two levels where the call of this number is refused, and what is loaded
/// afterwards.
fn saved(
    rt: &(impl Abort + AllocGlobal),
    levels: (&Level, &Level),
    below: [u8; 32],
    call: u32,
) -> (Option<FolderFault>, Option<FolderFault>, u8) {
    let mut folder = memory_folder(rt.alloc());
    refuse(&mut folder, call);
    let zero = refusal_of(&mut folder, levels.0, [0; 32]);
    let one = refusal_of(&mut folder, levels.1, below);
    refuse(&mut folder, 0);
    expect(rt, "no draft", !has_draft(&folder));
    let count = match levels_in(&mut folder, rt.alloc()) {
        Ok(count) => count,
        Err(_) => 13,
    };
    (zero, one, count)
}

/// The call that is refused, what is answered for it to the saving of levels 0 and 1, and how many
/// levels the folder has then.
const SAVES: [(u32, Option<FolderFault>, Option<FolderFault>, u8); 6] = [
    (0, None, None, 2),
    (1, Some(FolderFault::Open { level: 0 }), None, 0),
    (2, Some(FolderFault::Open { level: 0 }), None, 0),
    (3, None, Some(FolderFault::Open { level: 1 }), 1),
    (4, None, Some(FolderFault::Open { level: 1 }), 1),
    (5, None, None, 2),
];

/// Refuses each call of the saving of two levels in turn.
fn refuse_each_save(rt: &(impl Abort + AllocGlobal), levels: (&Level, &Level), below: [u8; 32]) {
    for (call, zero, one, count) in SAVES {
        let found = saved(rt, levels, below, call);
        expect_equal(rt, call, found, (zero, one, count));
    }
}

#[test]
fn each_call_of_a_save_is_refused(rt: HostRuntime) -> Result<(), Fail> {
    let shelf = right_shelf(rt.alloc())?;
    let first = right_file(rt.alloc(), 0)?;
    let levels = (level_of(&shelf, 0)?, level_of(&shelf, 1)?);
    refuse_each_save(&rt, levels, digest_in(&first));
    Ok(())
}

/// A folder of levels 0 and 1.
fn folder_of_two(alloc: Global) -> Result<MemoryFolder, Fail> {
    let shelf = right_shelf(alloc)?;
    let mut folder = memory_folder(alloc);
    save_two(&mut folder, &shelf)?;
    Ok(folder)
}

/// Refuses each call of a load of levels 0 and 1 in turn.
fn refuse_each_load(rt: &(impl Abort + AllocGlobal), folder: &mut MemoryFolder) {
    for level in 0..3u8 {
        refuse(folder, u32::from(level).saturating_add(1));
        let refused = FolderFault::Open { level };
        expect_equal(rt, level, levels_in(folder, rt.alloc()), Err(refused));
    }
    refuse(folder, 4);
    expect_equal(
        rt,
        "refused behind the levels",
        levels_in(folder, rt.alloc()),
        Ok(2),
    );
}

#[test]
fn each_call_of_a_load_is_refused(rt: HostRuntime) -> Result<(), Fail> {
    let mut folder = folder_of_two(rt.alloc())?;
    let second = right_file(rt.alloc(), 1)?;
    expect_equal(
        &rt,
        "digest",
        digest_of(&mut folder, rt.alloc())?,
        digest_in(&second),
    );
    refuse_each_load(&rt, &mut folder);
    Ok(())
}

/// Whether the folder has level 0's file with these bytes.
fn has_first(folder: &mut MemoryFolder, alloc: Global, first: &[u8]) -> Result<bool, Fail> {
    let Some(mut file) = open(folder, 0)? else {
        return Ok(false);
    };
    let mut bytes = Vec::new(alloc);
    file.read_to_end(&mut bytes)?;
    Ok(bytes.as_slice() == first)
}

/// Has a save of level 0 over a wrong file refused, whose new file refuses this.
fn refuse_file(
    rt: &(impl Abort + AllocGlobal),
    folder: &mut MemoryFolder,
    level: &Level,
    (writes, sync): (bool, bool),
) {
    refuse_files(folder, writes, sync);
    let refused = refusal_of(folder, level, [1; 32]);
    let fault = FileFault::Write;
    expect_equal(
        rt,
        "refused",
        refused,
        Some(FolderFault::File { level: 0, fault }),
    );
    expect(rt, "no draft", !has_draft(folder));
}

/// The same, once for each that a new file can refuse.
fn refuse_each_file(
    rt: &(impl Abort + AllocGlobal),
    folder: &mut MemoryFolder,
    level: &Level,
    first: &[u8],
) -> Result<(), Fail> {
    refuse_file(rt, folder, level, (true, false));
    expect(rt, "after a write", has_first(folder, rt.alloc(), first)?);
    refuse_file(rt, folder, level, (false, true));
    expect(rt, "after a sync", has_first(folder, rt.alloc(), first)?);
    refuse_files(folder, false, false);
    Ok(())
}

/// Has a save of level 0 over a wrong file refused, once for each call of it.
fn refuse_each_call(
    rt: &(impl Abort + AllocGlobal),
    folder: &mut MemoryFolder,
    level: &Level,
    first: &[u8],
) -> Result<(), Fail> {
    for call in 1..3u32 {
        refuse(folder, call);
        let refused = refusal_of(folder, level, [1; 32]);
        expect_equal(rt, call, refused, Some(FolderFault::Open { level: 0 }));
        expect(rt, call, has_first(folder, rt.alloc(), first)?);
    }
    Ok(())
}

/// Sees that a folder keeps this file of level 0 where a save of the level is refused.
fn expect_kept(rt: &(impl Abort + AllocGlobal), level: &Level, first: &[u8]) -> Result<(), Fail> {
    let mut folder = folder_of_two(rt.alloc())?;
    refuse_each_file(rt, &mut folder, level, first)?;
    refuse_each_call(rt, &mut folder, level, first)?;
    Ok(())
}

#[test]
fn a_save_that_is_refused_keeps_the_old_file(rt: HostRuntime) -> Result<(), Fail> {
    let shelf = right_shelf(rt.alloc())?;
    let first = right_file(rt.alloc(), 0)?;
    expect_kept(&rt, level_of(&shelf, 0)?, &first)?;
    Ok(())
}

/// What is answered where level 1 is to be kept in a folder of levels 0 and 1, and the call of this
/// number is refused.
fn kept(
    rt: &(impl Abort + AllocGlobal),
    level: &Level,
    below: [u8; 32],
    call: u32,
) -> Result<Result<[u8; 32], FolderFault>, Fail> {
    let mut folder = folder_of_two(rt.alloc())?;
    refuse(&mut folder, call);
    let answer = keep_in(&mut folder, level, below);
    refuse(&mut folder, 0);
    expect(rt, "no draft", !has_draft(&folder));
    expect_equal(rt, "levels", levels_in(&mut folder, rt.alloc()), Ok(2));
    Ok(answer)
}

#[test]
fn a_file_that_is_there_is_kept(rt: HostRuntime) -> Result<(), Fail> {
    let shelf = right_shelf(rt.alloc())?;
    let below = digest_in(&right_file(rt.alloc(), 0)?);
    let digest = digest_in(&right_file(rt.alloc(), 1)?);
    let level = level_of(&shelf, 1)?;
    let refused = FolderFault::Open { level: 1 };
    let occupied = FolderFault::Occupied { level: 1 };
    expect_equal(&rt, "kept", kept(&rt, level, below, 0)?, Ok(digest));
    expect_equal(&rt, "opened alone", kept(&rt, level, below, 2)?, Ok(digest));
    expect_equal(&rt, "refused", kept(&rt, level, below, 1)?, Err(refused));
    expect_equal(
        &rt,
        "occupied",
        kept(&rt, level, [7; 32], 0)?,
        Err(occupied),
    );
    Ok(())
}

/// Has the folder refuse this call of a look-up, which is for a file of this level.
fn expect_call_refused(
    rt: &impl Abort,
    folder: &mut MemoryFolder,
    board: Board,
    (call, level): (u32, u8),
) {
    refuse(folder, call);
    let refused = Err(FolderFault::Open { level });
    expect_equal(rt, call, look_up(folder, board), refused);
}

#[test]
fn each_call_of_a_look_up_is_refused(rt: HostRuntime) -> Result<(), Fail> {
    let board = Board::parse(b"0,0,0,0,0,1/0,0,0,0,0,0")?;
    let shelf = right_shelf(rt.alloc())?;
    let mut folder = memory_folder(rt.alloc());
    save_two(&mut folder, &shelf)?;
    for call in [(1, 0), (2, 1), (3, 2), (4, 1)] {
        expect_call_refused(&rt, &mut folder, board, call);
    }
    refuse(&mut folder, 5);
    let right = shelf.entry(&board)?;
    expect_equal(&rt, "behind it", look_up(&mut folder, board), Ok(right));
    Ok(())
}

/// The levels of one folder are not brought over to another, since this level's file does not open in
/// one of both.
fn expect_not_brought(
    rt: &(impl Abort + AllocGlobal),
    from: &mut MemoryFolder,
    to: &mut MemoryFolder,
    level: u8,
) {
    let refused = bring_over(rt.alloc(), from, to).err();
    let opens = FolderFault::Open { level };
    expect_equal(rt, level, refused, Some(opens));
}

/// The levels are not brought over to a folder of which this call is refused, nor from one.
fn expect_move_refused(rt: &(impl Abort + AllocGlobal), from: &mut MemoryFolder, call: u8) {
    let mut to = memory_folder(rt.alloc());
    refuse(&mut to, u32::from(call));
    expect_not_brought(rt, from, &mut to, 0);
    refuse(&mut to, 0);
    refuse(from, u32::from(call));
    let level = call.saturating_sub(1);
    expect_not_brought(rt, from, &mut to, level);
    // What was written before stands.
    expect_equal(rt, call, levels_in(&mut to, rt.alloc()), Ok(level));
}

#[test]
fn each_call_of_a_move_is_refused(rt: HostRuntime) -> Result<(), Fail> {
    let mut from = folder_of_two(rt.alloc())?;
    for call in 1..=3u8 {
        expect_move_refused(&rt, &mut from, call);
    }
    Ok(())
}
