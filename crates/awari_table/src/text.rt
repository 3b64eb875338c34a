//! The text of a table, read level by level.

ghost use Rattle.std.specs.Prelude.{◌≡◌, ◌≢◌, ◌⊎◌, ◌++◌, List, ℕ, [], Some, None, Ok, Err};
ghost use Rattle.awari_table.specs.declared.images.Image.{Image};
ghost use Rattle.awari_table.specs.declared.faults.TableFault.{TableFault};
ghost use Rattle.awari_table.specs.Spelling.{block, IsImage};
ghost use Rattle.awari_table.specs.TableFault.{IsDueAt};
ghost use Rattle.awari_table.specs.Place.{Place, Reads};
ghost use Rattle.awari_table.specs.Blocks.{Answers};

use crate::blocks::block;
use crate::faults::TableFault;
use crate::images::Image;
use std::alloc::Global;
use std::marker::Model;

/// Reads the levels of a text, one a call. A contract sees a reader as the place that it has come to.
#[derive(Drop)]
pub struct TableText<'a> {
    text: &'a [u8],
    next: u8,
    line: u64,
    refused: Option<TableFault>,
    alloc: Global,
}

impl<'a> Model for TableText<'a> {
    ghost use Rattle.std.specs.Prelude.{◌+◌, ◌*◌, ◌≤◌, ◌^◌};
    ghost use Rattle.awari_table.specs.declared.TheConstants.{HIGHEST_LEVEL};
    ghost use Rattle.awari_table.specs.Place.{Place};

    ghost Value = { Place };

    ghost view = { λ t. record { rest = t.text.now; next = t.next; line = t.line; refused = t.refused } };

    // A level has fewer than 2 ^ 32 entries, so no number of a line can overflow.
    ghost invariant = { λ t. (t.next ≤ HIGHEST_LEVEL + 1) × (t.line ≤ 1 + 2 ^ 33 * t.next) };
}

impl<'a> TableText<'a> {
    /// A reader at the start of the text. It takes no memory yet: `next` takes each level's from this
    /// allocator.
    pub fn new(alloc: Global, text: &'a [u8]) -> Self
        ensures { result ≡ record { rest = text.now; next = 0; line = 1; refused = None } }
    {
        TableText {
            text,
            next: 0,
            line: 1,
            refused: None,
            alloc,
        }
    }

    /// The next level, none at the end of the text, or the first fault. What the level says of boards
    /// is not judged. Once a fault was answered, each later call answers the same fault.
    ///
    /// It takes memory for the level's entries, all at once, after the level's header.
    pub fn next(&mut self) -> Result<Option<Image>, TableFault>
        // What is read is spelled so, and a fault that is answered is due.
        ensures reads { Reads self.old result self.new }

        // What is spelled so is read, unless memory runs out.
        ensures only { (image : Image) (rest : List ℕ) → self.old.refused ≡ None → IsImage self.old.next image → self.old.rest ≡ block image ++ rest
            → (result ≡ Ok (Some image)) ⊎ (result ≡ Err TableFault.Memory) }

        // The fault that is due is answered, unless memory runs out.
        ensures exact { (fault : TableFault) → self.old.refused ≡ None → self.old.rest ≢ [] → fault ≢ TableFault.Memory
            → IsDueAt self.old.next self.old.line self.old.rest fault → (result ≡ Err fault) ⊎ (result ≡ Err TableFault.Memory) }

        // A refusal is repeated.
        ensures again { (fault : TableFault) → self.old.refused ≡ Some fault → (result ≡ Err fault) × (self.new ≡ self.old) }
    {
        self.step()
    }

    fn step(&mut self) -> Result<Option<Image>, TableFault>
        ensures { Answers self.old result self.new }
    {
        if let Some(fault) = self.refused {
            return Err(fault);
        }
        if self.text.is_empty() {
            return Ok(None);
        }
        match block(self.alloc, self.next, self.line, self.text) {
            Ok((image, rest)) => {
                self.text = rest;
                self.line += 1 + image.entries.len() as u64;
                self.next += 1;
                Ok(Some(image))
            }
            Err(fault) => {
                self.refused = Some(fault);
                Err(fault)
            }
        }
    }
}
