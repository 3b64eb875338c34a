//! What is wished of a folder that is verified: which levels it has, and the digest of its last file.

ghost use Rattle.std.specs.Prelude.{◌≡◌, ◌≤◌, true, false, None, Ok, IfOk, IfSome};
ghost use Rattle.awari_folder.specs.Contents.{Same};
ghost use Rattle.awari_table.specs.declared.TheConstants.{HIGHEST_LEVEL};
ghost use Rattle.awari_table.specs.Shelves.{IsShelf};
ghost use Rattle.awari_levels.specs.Wishes.{AreWished, HasNoneAbove, IsWished};

use awari_answers::{hex_of, print};
use awari_folder::{Folder, FolderFault, Refusal};
use awari_table::{HIGHEST_LEVEL, Shelf};
use std::fmt;
use std::io::Write;

/// Whether a folder with the levels of this shelf has just those that are wished, and no file above
/// them. If not, `errors` is told what was found. Files above are looked for, and not opened. The refusals are
/// 82 Open, with the level, and 84 Memory.
pub(crate) fn has_wished_levels<F: Folder, E: Write>(
    folder: &mut F,
    shelf: &Shelf,
    wished: Option<u8>,
    errors: &mut E,
) -> Result<bool, FolderFault>
    ensures wished { IfOk result (λ has. has ≡ true → AreWished wished (F.state folder.old).stands shelf.now) }
    ensures same { Same (F.state folder.old).stands (F.state folder.new).stands }
{
    let Some(top) = wished else {
        return Ok(true);
    };
    let levels = shelf.levels();
    let above = file_above(folder, top)?;
    if above.is_none() && usize::from(levels) == usize::from(top) + 1 {
        return Ok(true);
    }
    let found = Found { levels, above };
    // There is nowhere to say that this could not be written.
    print(
        errors,
        &format_args!("levels 0 to {top} were asked for; the folder has {found}"),
    );
    Ok(false)
}

/// The first level above `top` that has a file.
fn file_above<F: Folder>(folder: &mut F, top: u8) -> Result<Option<u8>, FolderFault>
    ensures none { result ≡ Ok None → HasNoneAbove top (F.state folder.old).stands }
    ensures same { Same (F.state folder.old).stands (F.state folder.new).stands }
{
    for level in 0..=HIGHEST_LEVEL {
        if level > top && has_file(folder, level)? {
            return Ok(Some(level));
        }
    }
    Ok(None)
}

/// Whether the level has a file, which is not opened.
fn has_file<F: Folder>(folder: &mut F, level: u8) -> Result<bool, FolderFault>
    requires { level ≤ HIGHEST_LEVEL }
    ensures none { result ≡ Ok false → IfSome ((F.state folder.old).stands level) (λ name. name ≡ None) }
    ensures same { Same (F.state folder.old).stands (F.state folder.new).stands }
{
    match folder.has_file(level) {
        Ok(has) => Ok(has),
        Err(Refusal::Refused) => Err(FolderFault::Open { level }),
        Err(Refusal::Memory) => Err(FolderFault::Memory),
    }
}

/// Whether the last file's digest is the one that is wished. If not, `errors` is told what was found.
pub(crate) fn has_wished_digest<E: Write>(
    digest: &[u8; 32],
    wished: Option<&str>,
    errors: &mut E,
) -> bool
    ensures { result ≡ true → IsWished wished.entry digest.now }
{
    let Some(digits) = wished else {
        return true;
    };
    let found = hex_of(digest);
    if digits.as_bytes().eq_ignore_ascii_case(found.as_bytes()) {
        return true;
    }
    // There is nowhere to say that this could not be written.
    print(
        errors,
        &format_args!("digest {digits} was asked for; the folder has digest {found}"),
    );
    false
}

/// Which levels a folder has. It is printed as the end of a sentence.
#[derive(Clone, Copy)]
struct Found {
    /// How many levels there are from 0 on.
    levels: u8,
    /// A level above that has a file too.
    above: Option<u8>,
}

impl fmt::Display for Found {
    fn fmt<W: fmt::Write>(&self, f: &mut fmt::Formatter<W>) -> fmt::Result {
        match self.levels {
            0 => write!(f, "no level")?,
            levels => write!(f, "levels 0 to {}", levels - 1)?,
        }
        match self.above {
            Some(level) if level >= self.levels => write!(f, " and a file of level {level}"),
            _ => Ok(()),
        }
    }
}
