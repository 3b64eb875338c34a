//! The command `migrate`: the levels of a folder brought over into another one.

ghost use Rattle.std.specs.Prelude.{◌≡◌, ◌≤◌, true};
ghost use Rattle.std.specs.Io.KnownBytes.{Appends};
ghost use Rattle.awari_folder.specs.State.{Unchanged};
ghost use Rattle.awari_folder.specs.Contents.{KeepsFiles};
ghost use Rattle.awari_builds.specs.Migrating.{LeavesMigrated, PrintsMigrated, migrated_lines};

use awari_answers::{Remarks, Summary, print, refuse, status_of};
use awari_folder::Folder;
use awari_migrate::{Limits, migrate};
use std::alloc::Global;
use std::fmt;
use std::io::Write;

/// A level that was brought over. It is printed as its line, without the line feed.
#[derive(Clone, Copy)]
struct MigratedLevel {
    level: usize,
    limits: Limits,
}

impl fmt::Display for MigratedLevel {
    ghost use Rattle.std.specs.Prelude.{Some};
    ghost use Rattle.awari_builds.specs.Migrating.{migrated_text};

    ghost output = { λ migrated. Some (migrated_text migrated) };

    fn fmt<W: fmt::Write>(&self, f: &mut fmt::Formatter<W>) -> fmt::Result {
        let Limits { before, after } = self.limits;
        write!(f, "level {} limit {before} to {after}", self.level)
    }
}

/// Brings the levels of one folder over into another, and prints a line for each and one for all. A
/// refusal is printed alone, and the files that were written before it stay.
pub fn run_migrate<F: Folder, G: Folder, W: Remarks>(
    alloc: Global,
    from: &mut F,
    to: &mut G,
    writer: &mut W,
) -> u8
    ensures status { result ≤ 1 }
    ensures migrated { result ≡ 0
        → PrintsMigrated (F.state from.old).stands (G.state to.old).stands (G.state to.new).stands (W.contents writer.old) (W.contents writer.new) }

    // Whatever is printed or not, all levels were brought over, or those below the first that is
    // refused.
    ensures leaves { LeavesMigrated (F.state from.old).stands (G.state to.old).stands (G.state to.new).stands }
    ensures kept { KeepsFiles (G.state to.old).stands (G.state to.new).stands }

    // The folder that is read stays as it was.
    ensures unchanged { Unchanged (F.state from.old) (F.state from.new) }
{
    let migrated = match migrate(alloc, from, to) {
        Ok(migrated) => migrated,
        Err(fault) => return refuse(writer, fault.refusal()),
    };
    if !print_migrated(&migrated.limits, writer) {
        return 1;
    }
    let levels = migrated.limits.len();
    let digest = migrated.digest;
    status_of(print(writer, &Summary { levels, digest }))
}

/// Prints the line of each level, and says whether the writer took them.
fn print_migrated<W: Write>(migrated: &[Limits], writer: &mut W) -> bool
    ensures { result ≡ true → Appends (W.contents writer.old) (W.contents writer.new) (migrated_lines migrated.now) }
{
    for (level, limits) in migrated.iter().enumerate() {
        let limits = *limits;
        if !print(writer, &MigratedLevel { level, limits }) {
            return false;
        }
    }
    true
}
