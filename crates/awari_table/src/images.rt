//! What is said of each board of a level, unchecked.

ghost use Rattle.std.specs.Prelude.{ℕ, ◌≡◌, ◌==◌, ◌<◌, ◌≤◌, ◌+◌, ◌++◌, ◌∷◌, [], Some, IfOk, OnOk, OnErr, length, take, drop, slice_get, slice_index_or};
ghost use Rattle.awari_table.specs.Images.{greatest_dist, no_entry};

use crate::columns::{Columns, fits_columns};
use std::alloc::{AllocError, Global};
use std::marker::Model;

/// What a table says of one board, as its mover sees it.
#[derive(Clone, Copy, Debug, PartialEq, Eq)]
pub struct Entry {
    /// The best difference in stones that the mover can still gain. It counts what the mover captures
    /// from here on, less what the opponent does, with what the end of play gives.
    pub value: i8,
    /// The mover's pit to play, 0 to 5, or none if the play has ended.
    pub plan: Option<u8>,
    /// The plies within which a capture or the end of play comes, while the side with the positive
    /// value follows its plans. It is 0 if the value is 0 or the play has ended.
    pub dist: u32,
}

impl Entry {
    /// What stands for an entry that is not there.
    pub const NONE: Entry = Entry {
        value: 0,
        plan: None,
        dist: 0,
    };
}

/// How entries lie in memory.
#[derive(Debug, Drop)]
enum Form {
    /// Each as it is, in eight bytes.
    Whole(Vec<Entry>),
    /// In columns, in three bytes each.
    Split(Columns),
}

impl Form {
    ghost use Rattle.std.specs.Prelude.{◌≡◌, ◌++◌, ◌∷◌, [], OnOk, OnErr};
    ghost use Rattle.awari_table.specs.declared.images.Entry.{Entry};
    ghost use Rattle.awari_table.specs.Forms.{entries_in, Takes};

    /// Puts an entry at the end. Condition: columns can hold it, if this is in columns.
    #[inline(always)]
    fn push(&mut self, entry: Entry) -> Result<(), AllocError>
        requires { Takes self.old entry }
        ensures ok { OnOk result (entries_in self.new ≡ entries_in self.old ++ entry ∷ []) }
        ensures err { OnErr result (entries_in self.new ≡ entries_in self.old) }
    {
        match self {
            Form::Whole(items) => match items.push(entry) {
                Ok(()) => Ok(()),
                Err(_) => Err(AllocError),
            },
            Form::Split(columns) => columns.push(entry),
        }
    }

    /// Lays entries that are in columns out whole, with as much room as the columns have.
    fn widen(&mut self, alloc: Global) -> Result<(), AllocError>
        ensures same { entries_in self.new ≡ entries_in self.old }
        ensures takes { OnOk result ((entry : Entry) → Takes self.new entry) }
    {
        if let Form::Split(columns) = self {
            let items = columns.to_vec(alloc)?;
            *self = Form::Whole(items);
        }
        Ok(())
    }
}

/// The entries of a level, in order of rank. A contract sees them as a list.
///
/// They lie in three bytes each, as long as each distance is below 8192.
#[derive(Debug, Drop)]
pub struct Entries {
    form: Form,
}

impl Model for Entries {
    ghost use Rattle.std.specs.Prelude.{List};
    ghost use Rattle.awari_table.specs.declared.images.Entry.{Entry};
    ghost use Rattle.awari_table.specs.Forms.{entries_in};

    ghost Value = { List Entry };

    ghost view = { λ e. entries_in e.form };
}

/// Takes a vector over as it is, with no memory.
impl From<Vec<Entry>> for Entries {
    ghost from_gives = { λ v e. e ≡ v.items };

    fn from(items: Vec<Entry>) -> Self {
        Entries {
            form: Form::Whole(items),
        }
    }
}

impl Entries {
    /// No entries. It takes no memory.
    pub fn new(alloc: Global) -> Self
        ensures { result ≡ [] }
    {
        Entries {
            form: Form::Split(Columns::new(alloc)),
        }
    }

    /// No entries, with room for this many. It takes memory for three bytes an entry.
    pub fn with_capacity(alloc: Global, count: usize) -> Result<Self, AllocError>
        ensures { IfOk result (λ e. e ≡ []) }
    {
        let columns = Columns::with_capacity(alloc, count)?;
        Ok(Entries {
            form: Form::Split(columns),
        })
    }

    /// Puts an entry at the end. It takes memory if there is no room for it. At the first entry that
    /// three bytes do not hold, all are laid out in eight bytes each, which takes memory too. If that is
    /// refused, the entries stay as they were.
    #[inline(always)]
    pub fn push(&mut self, alloc: Global, entry: Entry) -> Result<(), AllocError>
        ensures ok { OnOk result (self.new ≡ self.old ++ entry ∷ []) }
        ensures err { OnErr result (self.new ≡ self.old) }
    {
        if !fits_columns(entry) {
            self.form.widen(alloc)?;
        }
        self.form.push(entry)
    }

    /// Puts other entries at the end. It takes memory as `push` does. If that is refused, some of them
    /// may have been put there.
    pub fn join(&mut self, alloc: Global, more: &Entries) -> Result<(), AllocError>
        ensures ok { OnOk result (self.new ≡ self.old ++ more.now) }
        ensures err { OnErr result ((n : ℕ) × (self.new ≡ self.old ++ take n more.now)) }
    {
        if let Form::Split(others) = &more.form {
            if let Form::Split(columns) = &mut self.form {
                return columns.join(others);
            }
        }
        self.push_each(alloc, more)
    }

    /// Puts other entries at the end, one by one.
    fn push_each(&mut self, alloc: Global, more: &Entries) -> Result<(), AllocError>
        ensures ok { OnOk result (self.new ≡ self.old ++ more.now) }
        ensures err { OnErr result ((n : ℕ) × (self.new ≡ self.old ++ take n more.now)) }
    {
        for rank in 0..more.len() {
            self.push(alloc, more.at(rank))?;
        }
        Ok(())
    }

    /// How many entries there are.
    pub fn len(&self) -> usize
        ensures { result ≡ length self.now }
    {
        match &self.form {
            Form::Whole(items) => items.len(),
            Form::Split(columns) => columns.len(),
        }
    }

    /// Whether there is no entry.
    pub fn is_empty(&self) -> bool
        ensures { result ≡ (length self.now == 0) }
    {
        self.len() == 0
    }

    /// The entry at a rank. Condition: the rank is below the number of entries.
    #[inline(always)]
    pub fn at(&self, rank: usize) -> Entry
        requires { rank < length self.now }
        ensures { slice_get self.now rank ≡ Some result }
    {
        match &self.form {
            Form::Whole(items) => items[rank],
            Form::Split(columns) => columns.at(rank),
        }
    }

    /// The value of the entry at a rank. Condition: the rank is below the number of entries.
    #[inline(always)]
    pub fn value(&self, rank: usize) -> i8
        requires { rank < length self.now }
        ensures { result ≡ (slice_index_or self.now rank no_entry).value }
    {
        match &self.form {
            Form::Whole(items) => value_of(items[rank]),
            Form::Split(columns) => columns.value(rank),
        }
    }

    /// The greatest distance of the entries, in plies; 0 if there are none. It takes no memory.
    pub fn greatest_dist(&self) -> u32
        ensures { result ≡ greatest_dist self.now }
    {
        match &self.form {
            Form::Whole(items) => greatest_dist(items.as_slice()),
            Form::Split(columns) => columns.greatest_dist(),
        }
    }

    /// Copies the entries from this rank on into `run`, as many as it holds. Condition: that many are
    /// there. It takes no memory.
    pub fn copy_run(&self, from: usize, run: &mut [Entry])
        requires { from + length run.old ≤ length self.now }
        ensures { run.new ≡ take (length run.old) (drop from self.now) }
    {
        match &self.form {
            Form::Whole(items) => run.copy_from_slice(&items[from..from + run.len()]),
            Form::Split(columns) => columns.copy_run(from, run),
        }
    }

    /// A vector of the entries. It takes memory for eight bytes an entry.
    pub fn to_vec(&self, alloc: Global) -> Result<Vec<Entry>, AllocError>
        ensures { IfOk result (λ v. v.items ≡ self.now) }
    {
        match &self.form {
            Form::Whole(items) => items.as_slice().to_vec(alloc),
            Form::Split(columns) => columns.to_vec(alloc),
        }
    }

    /// The entries as a vector. It takes memory as `to_vec` does, and none if they came as a vector.
    pub fn into_vec(self, alloc: Global) -> Result<Vec<Entry>, AllocError>
        ensures { IfOk result (λ v. v.items ≡ self) }
    {
        let Entries { form } = self;
        match form {
            Form::Whole(items) => Ok(items),
            Form::Split(columns) => columns.to_vec(alloc),
        }
    }
}

/// The value alone.
#[inline(always)]
fn value_of(entry: Entry) -> i8
    ensures { result ≡ entry.value }
{
    entry.value
}

/// What is said to be a level: an entry for each board of `level` stones. Nothing of it has been
/// checked.
#[derive(Debug, Drop)]
pub struct Image {
    /// The stones on each board.
    pub level: u8,
    /// The greatest distance, in plies.
    pub limit: u32,
    /// What is said of each board, in order of rank.
    pub entries: Entries,
}

/// The greatest distance of the entries, in plies; 0 if there are none. It takes no memory.
pub fn greatest_dist(entries: &[Entry]) -> u32
    ensures { result ≡ greatest_dist entries.now }
{
    entries.iter().fold(0, |most, entry| most.max(entry.dist))
}

/// How many boards of a level are won, even and lost for the mover.
#[derive(Clone, Copy, Debug, PartialEq, Eq)]
pub struct Counts {
    /// Boards of positive value.
    pub won: u32,
    /// Boards of value 0.
    pub even: u32,
    /// Boards of negative value.
    pub lost: u32,
}
