//! The levels of one folder brought over to another.

ghost use Rattle.std.specs.Prelude.{◌≡◌, ◌≤◌, ℕ, List, Option, Some, None, [], ◌∷◌, ◌++◌, IfOk, IfErr, IfSome, OnOk, OnErr, MatchResult, length};
ghost use Rattle.awari_table.specs.declared.TheConstants.{HIGHEST_LEVEL};
ghost use Rattle.awari_table.specs.declared.images.Image.{Image};
ghost use Rattle.awari_streams.specs.Counted.{faults_of, inner_of};
ghost use Rattle.awari_table.specs.Shelves.{Consistent};
ghost use Rattle.awari_theory.specs.Older.{ConsistentOld};
ghost use Rattle.awari_folder.specs.FolderFault.{Names, NamesLevel};
ghost use Rattle.awari_folder.specs.Contents.{OpenIfEither, AreNames, KeepsFiles};
ghost use Rattle.awari_folder.specs.Verifying.{IsReadAs, IsRefusal, IsToldOf, TellsReader};
ghost use Rattle.awari_folder.specs.State.{IsOwnIfFree, OnlyReads, Outcome, Unchanged};
ghost use Rattle.awari_migrate.specs.Migration.{IsDueIn, IsMigratedImage, IsMigratedFile, IsNextMigrated, IsMigrationFault, IsMigrated, IsFirstMigrationFault, IsStoreFault, CrashesWhole, LacksLeast};

use awari_file::{FileFault, Loaded, OLD_VERSION, Unsealed, read_unsealed};
use awari_folder::{Folder, FolderFault, Refusal, place, save};
use awari_play::least;
use awari_table::{Counted, HIGHEST_LEVEL, Image, Level, Shelf};
use awari_verify::{VerifyFault, verify, verify_old};
use std::alloc::{AllocError, Global};
use std::io::Read;
use std::sync::Arc;

/// The levels from 0 to the highest.
const LEVELS: usize = HIGHEST_LEVEL as usize + 1;

/// The limit of a level before it was brought over, and after.
#[derive(Clone, Copy, Debug, PartialEq, Eq)]
pub struct Limits {
    /// The limit that its file named.
    pub before: u32,
    /// The greatest of its least distances.
    pub after: u32,
}

/// What was brought over.
#[derive(Drop)]
pub struct Migrated {
    /// The limits of the levels, from level 0 on.
    pub limits: Vec<Limits>,
    /// The digest of the last file that was written, zeros for none.
    pub digest: [u8; 32],
}

/// Brings the levels of one folder over to another, which has no files of theirs yet. They are the
/// levels whose files [`load`](awari_folder::load) would look for, of version 1 or 2, and each is
/// judged over those that were brought over before. The new files are of version 2, and have their own
/// chain of digests.
///
/// A level of version 1 has to be right by the rules of that version. It keeps its values, and gets
/// the least distances and the lowest plans. One of version 2 has to be right by the rules in force,
/// and stays as it is.
///
/// It takes memory for names, entries, limits and an `Arc` for each level; want of it is 84. The
/// levels that were written before a refusal stay. They are taken in turn, and each is refused as the
/// first of these that is due:
///
/// - 82: its file in `from` is there and does not open.
/// - 81: this file is not read.
/// - 80: it does not name the digest of the file before it.
/// - 83: the level is not right.
/// - 85: the level has a file in `to`.
/// - 82, or 81 with 70: it can't be written there.
pub fn migrate<F: Folder, G: Folder>(
    alloc: Global,
    from: &mut F,
    to: &mut G,
) -> Result<Migrated, FolderFault>
    // If it is known what has the names in both: all levels are brought over, or there is the first
    // fault.
    ensures exact { (names others : ℕ → Option (List ℕ)) → AreNames (F.state from.old).stands names → AreNames (G.state to.old).stands others
        → MatchResult result (λ done. IsMigrated names others (G.state to.new).stands done.limits.items done.digest) (IsFirstMigrationFault names others (G.state to.new).stands) }
    ensures named { IfErr result NamesLevel }
    // Whether it is refused or not, each file stays that was there.
    ensures kept { KeepsFiles (G.state to.old).stands (G.state to.new).stands }
    // A crash at any moment leaves no half of a file, and harms none that was there.
    ensures whole { CrashesWhole (G.state to.old) (G.state to.new) }
    // It is 82 if one of the folders refused to open, to make or to name a file, and only then.
    ensures refused { OpenIfEither result (F.state from.old).refusals (F.state from.new).refusals (G.state to.old).refusals (G.state to.new).refusals }
    // Nothing is changed in the folder that the levels come from.
    ensures unchanged { Unchanged (F.state from.old) (F.state from.new) }
{
    let mut limits = Vec::with_capacity(alloc, LEVELS)?;
    let mut shelf = Shelf::empty();
    let mut below = [0u8; 32];
    let mut digest = [0u8; 32];
    for _ in 0..=HIGHEST_LEVEL {
        let Some(next) = next_migrated(alloc, from, &shelf, below)? else {
            break;
        };
        let level = Arc::new(alloc, next.level)?;
        digest = store(to, &level, digest)?;
        shelf.push(level);
        limits.push_reserved(next.limits);
        below = next.digest;
    }
    Ok(Migrated { limits, digest })
}

/// A level as it is to be written.
#[derive(Drop)]
struct MigratedLevel {
    level: Level,
    limits: Limits,
    /// The digest of the file that it comes from.
    digest: [u8; 32],
}

/// The shelf's next level, read from a folder and brought over, or none if it has no file there.
fn next_migrated<F: Folder>(
    alloc: Global,
    from: &mut F,
    shelf: &Shelf,
    below: [u8; 32],
) -> Result<Option<MigratedLevel>, FolderFault>
    requires { length shelf.now ≤ HIGHEST_LEVEL }
    ensures exact { (name other : Option (List ℕ)) → (F.state from.old).stands (length shelf.now) ≡ Some name
        → MatchResult result (IsNextMigrated shelf.now below name) (IsMigrationFault shelf.now below name other) }
    ensures right { IfOk result (λ next. IfSome next (λ migrated. Consistent shelf.now migrated.level)) }
    ensures named { IfErr result (Names (length shelf.now)) }
    ensures reads { OnlyReads result (F.state from.old) (F.state from.new) }
{
    let level = shelf.levels();
    match from.open(level) {
        Ok(Some(file)) => {
            let migrated = read_migrated(alloc, shelf, below, &mut Counted::new(file))?;
            Ok(Some(migrated))
        }
        Ok(None) => Ok(None),
        Err(Refusal::Refused) => Err(FolderFault::Open { level }),
        Err(Refusal::Memory) => Err(FolderFault::Memory),
    }
}

/// Reads the file of the shelf's next level, and makes of it the level that is to be written.
fn read_migrated<R: Read>(
    alloc: Global,
    shelf: &Shelf,
    below: [u8; 32],
    reader: &mut Counted<R>,
) -> Result<MigratedLevel, FolderFault>
    ensures ok { IfSome (R.remaining (inner_of reader.old)) (λ bytes. IfOk result (λ migrated. IsMigratedFile shelf.now below bytes migrated.level migrated.digest migrated.limits)) }
    ensures fault { (other : Option (List ℕ)) → IfSome (R.remaining (inner_of reader.old)) (λ bytes. IfErr result (IsMigrationFault shelf.now below (Some bytes) other)) }
    ensures right { IfOk result (λ migrated. Consistent shelf.now migrated.level) }
    ensures refused { IfErr result (IsRefusal (length shelf.now) (λ fault. TellsReader fault (faults_of reader.old) (faults_of reader.new))) }
{
    let read = read_unsealed(alloc, reader);
    migrated_of(alloc, shelf, below, read)
}

/// Makes the level that is to be written of what was read.
fn migrated_of(
    alloc: Global,
    shelf: &Shelf,
    below: [u8; 32],
    read: Result<Unsealed, FileFault>,
) -> Result<MigratedLevel, FolderFault>
    requires low { IfOk read (λ file. file.loaded.image.level ≤ HIGHEST_LEVEL) }
    ensures ok { (bytes : List ℕ) (known : Option (List ℕ)) → IsReadAs read bytes known → IfOk result (λ migrated. IsMigratedFile shelf.now below bytes migrated.level migrated.digest migrated.limits) }
    ensures fault { (bytes : List ℕ) (known other : Option (List ℕ)) → IsReadAs read bytes known → IfErr result (IsMigrationFault shelf.now below (Some bytes) other) }
    ensures right { IfOk result (λ migrated. Consistent shelf.now migrated.level) }
    ensures refused { IfErr result (IsRefusal (length shelf.now) (IsToldOf (LacksLeast shelf.now below) read)) }
{
    let level = shelf.levels();
    let file = match read {
        Ok(file) => file,
        Err(FileFault::Memory) => return Err(FolderFault::Memory),
        Err(fault) => return Err(FolderFault::File { level, fault }),
    };
    place(&file, level, OLD_VERSION, &below)?;
    if let Err(fault) = file.seal() {
        return Err(FolderFault::File { level, fault });
    }
    let Unsealed { loaded, .. } = file;
    let Loaded {
        version,
        image,
        digest,
        ..
    } = loaded;
    let before = image.limit;
    match migrated_over(alloc, shelf, version, image)? {
        Ok(migrated) => {
            let after = migrated.limit();
            Ok(MigratedLevel {
                level: migrated,
                limits: Limits { before, after },
                digest,
            })
        }
        Err(fault) => Err(FolderFault::Verify { level, fault }),
    }
}

/// The level that an image becomes over the shelf, if it is right by the rules of its version.
fn migrated_over(
    alloc: Global,
    shelf: &Shelf,
    version: u16,
    image: Image,
) -> Result<Result<Level, VerifyFault>, AllocError>
    ensures ok { IfOk result (λ judged. IfOk judged (IsMigratedImage version shelf.now image)) }
    ensures fault { IfOk result (λ judged. IfErr judged (IsDueIn version shelf.now image)) }
    ensures memory { OnErr result ((version ≡ 1) × ConsistentOld shelf.now image) }
{
    if version != OLD_VERSION {
        return Ok(verify(shelf, image));
    }
    match verify_old(shelf, &image) {
        Ok(()) => {}
        Err(fault) => return Ok(Err(fault)),
    }
    let least = least(alloc, shelf, image)?;
    Ok(Ok(Level::new(least)))
}

/// Saves a level into a folder that has no file of it yet.
fn store<G: Folder>(to: &mut G, level: &Level, below: [u8; 32]) -> Result<[u8; 32], FolderFault>
    ensures outcome { Outcome level.now below (IsOwnIfFree level.now below) result (G.state to.old) (G.state to.new) }
    ensures free { OnOk result (IfSome ((G.state to.old).stands level.now.level) (λ other. other ≡ None)) }
    ensures fault { IfSome ((G.state to.old).stands level.now.level) (λ other. IfErr result (IsStoreFault level.now.level other)) }
    ensures named { IfErr result (Names level.now.level) }
    ensures kept { KeepsFiles (G.state to.old).stands (G.state to.new).stands }
{
    let number = level.number();
    match to.open(number) {
        Ok(None) => {}
        Ok(Some(_)) => return Err(FolderFault::Occupied { level: number }),
        Err(Refusal::Refused) => return Err(FolderFault::Open { level: number }),
        Err(Refusal::Memory) => return Err(FolderFault::Memory),
    }
    save(to, level, below)
}
