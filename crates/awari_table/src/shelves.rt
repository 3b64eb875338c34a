//! The levels that were verified, from the lowest on.

ghost use Rattle.std.specs.Prelude.{◌≡◌, ◌<◌, ◌+◌, ◌↔◌, [], ◌∷◌, ◌++◌, Some, IsOk, IfOk, IfErr, length, slice_get, sum};
ghost use Rattle.std.specs.Arc.{arc_value};
ghost use Rattle.awari_faults.specs.Parts.{reason_said};
ghost use Rattle.awari_table.specs.Images.{entry_of, greatest_limit};
ghost use Rattle.awari_table.specs.Shelves.{Consistent, IsShelf};

use crate::HIGHEST_LEVEL;
use crate::images::Entry;
use crate::levels::Level;
use arrayvec::ArrayVec;
use awari_board::Board;
use awari_faults::Reason;
use awari_packed::PackedBoard;
use awari_rank::rank;
use std::alloc::{AllocError, Global};
use std::fmt;
use std::marker::Model;
use std::sync::Arc;
use thiserror::Error;

/// The levels from 0 to the highest.
const SLOTS: usize = HIGHEST_LEVEL as usize + 1;

/// The board's level is not on the shelf. It is printed as its number, its name, and its field with
/// its name.
#[derive(Clone, Copy, Debug, PartialEq, Eq, Error)]
pub struct NotYet {
    /// How many levels the shelf has. They are numbered from 0, so this one is the first that it
    /// lacks.
    pub levels: u8,
}

impl NotYet {
    ghost use Rattle.awari_table.specs.NotYet.{reason_of};

    /// The number of this refusal, 59.
    pub fn number(self) -> u8
        ensures { result ≡ 59 }
    {
        59
    }

    /// What is told of it: its number, and how many levels there are.
    pub fn reason(self) -> Reason
        ensures { reason_said result ≡ reason_of self }
    {
        Reason::with_number(self.number(), "levels", u128::from(self.levels))
    }
}

impl fmt::Display for NotYet {
    ghost use Rattle.std.specs.Prelude.{Some};
    ghost use Rattle.awari_faults.specs.Refusals.{words_text};
    ghost use Rattle.awari_table.specs.NotYet.{reason_of};

    ghost output = { λ fault. Some (words_text (reason_of fault)) };

    fn fmt<W: fmt::Write>(&self, f: &mut fmt::Formatter<W>) -> fmt::Result {
        write!(f, "{}", self.reason())
    }
}

/// The levels 0, 1, 2 and so on, at most up to `HIGHEST_LEVEL`, each consistent over those below it.
/// A contract sees a shelf as the list of their images.
#[derive(Drop)]
pub struct Shelf {
    slots: ArrayVec<Option<Arc<Level, Global>>, SLOTS>,
}

impl Model for Shelf {
    ghost use Rattle.std.specs.Prelude.{List, map};
    ghost use Rattle.awari_table.specs.declared.images.Image.{Image};
    ghost use Rattle.awari_table.specs.Slots.{image_in, HoldsShelf};

    ghost Value = { List Image };

    ghost view = { λ s. map image_in s.slots.items };

    ghost invariant = { λ s. HoldsShelf s.slots.items };
}

impl Shelf {
    /// The shelf with no level. It takes no memory.
    pub fn empty() -> Self
        ensures { result ≡ [] }
    {
        Shelf {
            slots: ArrayVec::new(),
        }
    }

    /// How many levels there are.
    pub fn levels(&self) -> u8
        ensures levels { result ≡ length self.now }
        ensures shelf { IsShelf self.now }
    {
        self.slots.len() as u8
    }

    /// The greatest limit of the levels, in plies; 0 if there is no level.
    pub fn limit(&self) -> u32
        ensures { result ≡ greatest_limit self.now }
    {
        let mut limit = 0u32;
        for number in 0..self.levels() {
            limit = limit.max(self.level(number).limit());
        }
        limit
    }

    /// A second shelf that holds the same levels. Each level's `Arc` is shared, and the call is
    /// refused only if that is. It takes no other memory.
    pub fn share(&self) -> Result<Shelf, AllocError>
        ensures { IfOk result (λ shelf. shelf ≡ self.now) }
    {
        let mut shelf = Shelf::empty();
        for number in 0..self.levels() {
            shelf.push(Arc::try_clone(self.level(number))?);
        }
        Ok(shelf)
    }

    /// Puts a level on top. Condition: the level is consistent over the shelf, and so its next level.
    /// It takes no memory.
    pub fn push(&mut self, level: Arc<Level, Global>)
        requires { Consistent self.old (arc_value level) }
        ensures { self.new ≡ self.old ++ arc_value level ∷ [] }
    {
        self.slots.push(Some(level));
    }

    /// The level of this number. Condition: it is below `levels()`.
    pub fn level(&self, number: u8) -> &Arc<Level, Global>
        requires { number < length self.now }
        ensures { slice_get self.now number ≡ Some (arc_value result.now) }
    {
        match &self.slots[number as usize] {
            Some(level) => level,
            None => unreachable!(),
        }
    }

    /// The entry of a board. It is refused as 59 if the board has at least as many stones as there
    /// are levels, and only then. It takes no memory.
    pub fn entry(&self, board: &Board) -> Result<Entry, NotYet>
        ensures known { IsOk result ↔ (sum board.now < length self.now) }
        ensures entry { IfOk result (λ e. e ≡ entry_of self.now board.now) }
        ensures not_yet { IfErr result (λ e. e.levels ≡ length self.now) }
    {
        let stones = board.stones();
        if stones < self.levels() {
            Ok(self.level(stones).entry_at(rank(board)))
        } else {
            Err(NotYet {
                levels: self.levels(),
            })
        }
    }

    /// The entry of a packed board. Conditions: the board has `stones` stones, and there are more
    /// levels than that. It takes no memory.
    #[inline(always)]
    pub fn entry_below(&self, board: &PackedBoard, stones: u8) -> Entry
        requires stones { sum board.now ≡ stones }
        requires known { stones < length self.now }
        ensures { result ≡ entry_of self.now board.now }
    {
        // Only the count says that each level stands at its number.
        if stones >= self.levels() {
            unreachable!();
        }
        self.level(stones).entry_at(board.rank())
    }

    /// The value of a packed board. Condition: it has this many stones, fewer than there are levels. It
    /// takes no memory. Neither plan nor distance is read.
    #[inline(always)]
    pub fn value_below(&self, board: &PackedBoard, stones: u8) -> i8
        requires stones { sum board.now ≡ stones }
        requires known { stones < length self.now }
        ensures { result ≡ (entry_of self.now board.now).value }
    {
        // Only the count says that each level stands at its number.
        if stones >= self.levels() {
            unreachable!();
        }
        self.level(stones).value_at(board.rank())
    }
}
