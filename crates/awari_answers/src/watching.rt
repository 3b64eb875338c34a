//! A folder that is loaded while a stream is told which levels are right.

ghost use Rattle.std.specs.Prelude.{IfErr, IfOk};
ghost use Rattle.awari_answers.specs.Asked.{IsUnloaded};
ghost use Rattle.awari_folder.specs.Contents.{IsStoredIn, Lacks};
ghost use Rattle.awari_folder.specs.State.{OnlyReads};
ghost use Rattle.awari_table.specs.declared.TheConstants.{HIGHEST_LEVEL};

use crate::printing::print;
use awari_file::{FileFault, Unsealed};
use awari_folder::{Folder, FolderFault, Stored, Together, Verifier, load};
use awari_table::{HIGHEST_LEVEL, Shelf};
use awari_verify::VerifyFault;
use std::alloc::Global;
use std::cell::RefCell;
use std::io::Write;
use std::thread::Threads;

/// Loads all levels of a folder. If `tells` says so, `errors` is told of each level once it is found
/// right. It is refused as [`load`] is, and takes the memory that it takes.
pub fn load_watched<T: Threads + Sync, F: Folder, E: Write>(
    rt: &T,
    alloc: Global,
    folder: &mut F,
    tells: bool,
    errors: &mut E,
) -> Result<Stored, FolderFault>
    ensures stored { IfOk result (λ stored. IsStoredIn (F.state folder.old).stands stored.shelf stored.digest) }
    ensures fault { IfErr result (IsUnloaded (Lacks (F.state folder.old).refusals (F.state folder.new).refusals) HIGHEST_LEVEL (F.state folder.old).stands) }
    ensures reads { OnlyReads result (F.state folder.old) (F.state folder.new) }
{
    let verifier = Watching::new(Together(rt), errors, tells);
    match load(&verifier, alloc, folder, HIGHEST_LEVEL) {
        Ok(stored) => Ok(stored),
        Err(fault) => Err(fault),
    }
}

/// Verifies as another does, and tells a stream of each level once it is found right, unless it is to be
/// silent. A line that cannot be written is left out.
#[derive(Drop)]
struct Watching<'a, V, E> {
    verifier: V,
    errors: RefCell<&'a mut E>,
    tells: bool,
}

impl<'a, V, E: Write> Watching<'a, V, E> {
    /// What verifies as `verifier` does, and tells `errors` of it if `tells` says so.
    fn new(verifier: V, errors: &'a mut E, tells: bool) -> Self {
        Watching {
            verifier,
            errors: RefCell::new(errors),
            tells,
        }
    }

    /// Tells that this level is right.
    fn tell(&self, level: u8) {
        if !self.tells {
            return;
        }
        if let Ok(mut errors) = self.errors.try_borrow_mut() {
            print(&mut **errors, &format_args!("level {level} is right"));
        }
    }
}

impl<V: Verifier, E: Write> Verifier for Watching<'_, V, E> {
    ghost ready = { V.ready };

    ghost lacks = { V.lacks };

    fn verify(
        &self,
        alloc: Global,
        shelf: &Shelf,
        file: &Unsealed,
    ) -> Result<Option<VerifyFault>, FileFault> {
        let verdict = self.verifier.verify(alloc, shelf, file)?;
        if verdict.is_none() {
            self.tell(file.loaded.image.level);
        }
        Ok(verdict)
    }
}
