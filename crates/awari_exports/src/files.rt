//! What a program calls with the bytes of files, where they lie, and with no handle.

ghost use Rattle.std.specs.Prelude.{◌≡◌, ◌≢◌, ◌<◌, ◌≤◌, ◌+◌, ◌*◌, ◌↔◌, ℕ, List, IsFalse, IsTrue, false, sum, length, take, drop, map, pos, ◌-ℤ◌, slice_index, slice_index_or, [], ◌∷◌};
ghost use Rattle.std.specs.Int.{w8, w32, cast_signed, from_be_bytes};
ghost use Rattle.awari_board.specs.Rules.{IsLegal};
ghost use Rattle.awari_rank.specs.Rank.{size_of};
ghost use Rattle.awari_table.specs.Certificate.{plies};
ghost use Rattle.awari_table.specs.Images.{table_of};
ghost use Rattle.awari_table.specs.declared.images.Image.{Image};
ghost use Rattle.awari_exports.specs.Boards.{IsAnswer};
ghost use Rattle.awari_exports.specs.Files.{AreFilesOf, AreSized, IsFilesAnswer, IsFirstMisfit, IsMisfit, IsOver, IsSized, IsUnfit, TellsEntry};
ghost use Rattle.awari_exports.specs.Told.{TellsMove};
ghost use Rattle.awari_exports.specs.declared.answers.PlainMove.{PlainMove as AMove};

use crate::answers::{NOT_YET, PlainEntry, PlainMove, no_move, told_worth};
use awari_board::{Board, BoardFault};
use awari_file::{FileFault, OLD_VERSION, entry_place, file_len, read_image};
use awari_folder::FolderFault;
use awari_play::MoveWorth;
use awari_rank::rank;
use awari_table::{Counted, HIGHEST_LEVEL};
use awari_verify::VerifyFault;
use std::alloc::Global;

/// What the file of the board's level says of the board, and 0. It is 3 if the board has more than 48
/// stones, and 59 if it has more than 24. If there are not as many bytes as that file has, it is 20 if the file
/// of another level has as many, and else 60 or 67 for too few or too many. Nothing is verified: what it says is
/// the truth if a level was verified that has these very bytes. It copies nothing, and takes no memory.
#[unsafe(no_mangle)]
pub extern "C" fn awari_probe_file(bytes: &[u8], pits: &[u8; 12], out: &mut PlainEntry) -> u8
    ensures entry { result ≡ 0 → TellsEntry bytes.now pits.now out.new }
    ensures many { 48 < sum pits.now → result ≡ 3 }
    ensures high { 24 < sum pits.now → sum pits.now ≤ 48 → result ≡ 59 }
    ensures misfit { sum pits.now ≤ 24 → result ≢ 0 → IsMisfit (sum pits.now) bytes.now result }
    ensures sized { sum pits.now ≤ 24 → (result ≡ 0) ↔ IsSized (sum pits.now) bytes.now }
    ensures untouched { result ≢ 0 → out.new ≡ out.old }
{
    let Ok(board) = Board::of(*pits) else {
        return BoardFault::TooMany.number();
    };
    let stones = board.stones();
    if stones > HIGHEST_LEVEL {
        return NOT_YET;
    }
    if !is_sized(bytes, stones) {
        return misfit(bytes, stones);
    }
    let found = entry_at(bytes, &board);
    *out = found;
    0
}

/// What each pit of a board is worth by the files of level 0 up to the board's, and 0; `files` has each at
/// its level's place. It is 3 if the board has more than 48 stones, and 59 if it has more than 24 or the file
/// of its level is not there. If one of them has not as many bytes as the file of its level, it is 20, 60 or 67
/// for the first of these, as by `awari_probe_file`. Nothing is verified, as there. It copies nothing, and takes
/// no memory.
#[unsafe(no_mangle)]
pub extern "C" fn awari_probe_moves_files(
    files: &[&[u8]],
    pits: &[u8; 12],
    out: &mut [PlainMove; 6],
) -> u8
    ensures moves { result ≡ 0 → (levels : List Image) → AreFilesOf (sum pits.now + 1) (map (λ file. file.now) files.now) levels
        → (pit : ℕ) (d : AMove) → pit < 6 → TellsMove (table_of levels) pits.now pit (slice_index_or out.new pit d) }
    ensures answer { IsFilesAnswer (sum pits.now) (map (λ file. file.now) files.now) result }
    ensures untouched { result ≢ 0 → out.new ≡ out.old }
{
    let Ok(board) = Board::of(*pits) else {
        return BoardFault::TooMany.number();
    };
    let stones = board.stones();
    if stones > HIGHEST_LEVEL || stones as usize >= files.len() {
        return NOT_YET;
    }
    let answer = first_misfit(files, stones);
    if answer != 0 {
        return answer;
    }
    let moves = moves_by(files, &board);
    *out = moves;
    0
}

/// Whether there are as many bytes as the file of this level has.
fn is_sized(bytes: &[u8], level: u8) -> bool
    requires { level ≤ 24 }
    ensures { IsTrue result ↔ IsSized level bytes.now }
{
    bytes.len() as u64 == file_len(level)
}

/// Why there are not as many bytes as the file of this level has. Condition: there are not.
fn misfit(bytes: &[u8], level: u8) -> u8
    requires low { level ≤ 24 }
    requires other { IsSized level bytes.now → ⊥ }
    ensures { IsMisfit level bytes.now result }
{
    if is_long_as_some(bytes) {
        VerifyFault::WrongLevel.number()
    } else if (bytes.len() as u64) < file_len(level) {
        FileFault::Truncated.number()
    } else {
        FileFault::Trailing.number()
    }
}

/// Whether the file of some level has as many bytes.
fn is_long_as_some(bytes: &[u8]) -> bool
    ensures some { IsTrue result → (n : ℕ) × (n ≤ 24) × IsSized n bytes.now }
    ensures none { IsFalse result → (n : ℕ) → n ≤ 24 → IsSized n bytes.now → ⊥ }
{
    for level in 0..HIGHEST_LEVEL + 1 {
        if is_sized(bytes, level) {
            return true;
        }
    }
    false
}

/// Why the first file up to this level's has not as many bytes as it should, or 0 if each has.
fn first_misfit(files: &[&[u8]], highest: u8) -> u8
    requires low { highest ≤ 24 }
    requires there { highest < length files.now }
    ensures sized { (result ≡ 0) ↔ AreSized (map (λ file. file.now) files.now) (highest + 1) }
    ensures first { result ≢ 0 → (level : ℕ) × (level ≤ highest) × IsFirstMisfit (map (λ file. file.now) files.now) level result }
{
    for level in 0..highest + 1 {
        let file = file_at(files, level);
        if !is_sized(file, level) {
            return misfit(file, level);
        }
    }
    0
}

/// The file at this level's place.
fn file_at<'a>(files: &[&'a [u8]], level: u8) -> &'a [u8]
    requires { level < length files.now }
    ensures { result.now ≡ slice_index_or (map (λ file. file.now) files.now) level [] }
{
    files[level as usize]
}

/// What the pits of a board are worth by the files of the levels up to the board's.
fn moves_by(files: &[&[u8]], board: &Board) -> [PlainMove; 6]
    requires low { sum board.now ≤ 24 }
    requires there { sum board.now < length files.now }
    requires sized { AreSized (map (λ file. file.now) files.now) (sum board.now + 1) }
    ensures { (levels : List Image) → AreFilesOf (sum board.now + 1) (map (λ file. file.now) files.now) levels → (pit : ℕ) (d : AMove) → pit < 6 → TellsMove (table_of levels) board.now pit (slice_index_or result pit d) }
{
    [
        move_by(files, board, 0),
        move_by(files, board, 1),
        move_by(files, board, 2),
        move_by(files, board, 3),
        move_by(files, board, 4),
        move_by(files, board, 5),
    ]
}

/// What a pit of a board is worth by the files of the levels up to the board's.
fn move_by(files: &[&[u8]], board: &Board, pit: u8) -> PlainMove
    requires low { sum board.now ≤ 24 }
    requires there { sum board.now < length files.now }
    requires sized { AreSized (map (λ file. file.now) files.now) (sum board.now + 1) }
    ensures { (levels : List Image) → AreFilesOf (sum board.now + 1) (map (λ file. file.now) files.now) levels → TellsMove (table_of levels) board.now pit result }
{
    let Ok(moved) = board.play(pit) else {
        return no_move();
    };
    let left = moved.board.stones();
    let entry = entry_at(file_at(files, left), &moved.board);
    told_worth(worth_by(pit, moved.captured, entry))
}

/// What a move is worth that captures this many stones and leaves a board of this entry.
fn worth_by(pit: u8, captured: u8, entry: PlainEntry) -> MoveWorth
    ensures pit { result.pit ≡ pit }
    ensures captured { result.captured ≡ captured }
    ensures gain { result.value ≡ pos captured -ℤ entry.value }
    ensures even { result.value ≡ pos 0 → result.plies ≡ 0 }
    ensures uneven { result.value ≢ pos 0 → result.plies ≡ plies captured entry.distance }
{
    let value = i16::from(captured) - i16::from(entry.value);
    let plies = match (value, captured) {
        (0, _) => 0,
        (_, 0) => u64::from(entry.distance) + 1,
        _ => 1,
    };
    MoveWorth {
        pit,
        captured,
        value,
        plies,
    }
}

/// What the file of the board's level says of the board.
fn entry_at(bytes: &[u8], board: &Board) -> PlainEntry
    requires low { sum board.now ≤ 24 }
    requires sized { IsSized (sum board.now) bytes.now }
    ensures { TellsEntry bytes.now board.now result }
{
    let place = entry_place(rank(board));
    told_by(six_at(bytes, place as usize))
}

/// The six bytes from there on.
fn six_at(bytes: &[u8], at: usize) -> &[u8]
    requires { at + 6 ≤ length bytes.now }
    ensures bytes { result.now ≡ take 6 (drop at bytes.now) }
    ensures six { length result.now ≡ 6 }
{
    let (_, rest) = bytes.split_at(at);
    let (six, _) = rest.split_at(6);
    six
}

/// What the bytes of an entry say.
fn told_by(bytes: &[u8]) -> PlainEntry
    requires { length bytes.now ≡ 6 }
    ensures value { result.value ≡ cast_signed w8 (slice_index bytes.now 0) }
    ensures plan { result.plan ≡ slice_index bytes.now 1 }
    ensures distance { result.distance ≡ from_be_bytes w32 (slice_index bytes.now 2 ∷ slice_index bytes.now 3 ∷ slice_index bytes.now 4 ∷ slice_index bytes.now 5 ∷ []) }
{
    PlainEntry {
        value: bytes[0].cast_signed(),
        plan: bytes[1],
        distance: u32::from_be_bytes([bytes[2], bytes[3], bytes[4], bytes[5]]),
    }
}

/// Whether these bytes are a level's file over the file that ends in the digest `below`: 0, with the
/// digest in which they end, or the number of the refusal, 60 to 67, 80, 84 or 86. Form, digest and chain
/// are judged, and not whether the level is right. It takes memory for three bytes a board, and gives it
/// back.
#[unsafe(no_mangle)]
pub extern "C" fn awari_check_file(
    alloc: Global,
    bytes: &[u8],
    below: &[u8; 32],
    digest: &mut [u8; 32],
) -> u8
    ensures ok { result ≡ 0 → IsOver below.now bytes.now digest.new }
    ensures refused { result ≢ 0 → IsUnfit below.now bytes.now result }
    ensures untouched { result ≢ 0 → digest.new ≡ digest.old }
{
    let loaded = match read_image(alloc, &mut Counted::new(bytes)) {
        Ok(loaded) => loaded,
        // Bytes in memory answer no fault, though no contract of a reader says so.
        Err(FileFault::Memory | FileFault::Read) => return FolderFault::Memory.number(),
        Err(fault) => return fault.number(),
    };
    let level = loaded.image.level;
    if loaded.version == OLD_VERSION {
        return FolderFault::Old { level }.number();
    }
    if loaded.below != *below {
        return FolderFault::Below { level }.number();
    }
    *digest = loaded.digest;
    0
}
