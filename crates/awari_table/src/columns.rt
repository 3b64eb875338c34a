//! Entries that lie in two columns, in three bytes a board.

ghost use Rattle.std.specs.Prelude.{◌≡◌, ◌<◌, ◌≤◌, ◌+◌, ◌++◌, ◌∷◌, [], OnOk, OnErr, IfOk, IsTrue, ◌↔◌, Some, fold, length, max, take, drop, slice_get, slice_index_or};
ghost use Rattle.awari_table.specs.Columns.{FitsColumns, row};
ghost use Rattle.awari_table.specs.Images.{greatest_dist, no_entry};

use crate::images::Entry;
use std::alloc::{AllocError, Global};
use std::marker::Model;

/// The plan and the distance of an entry in one number: the distance in its upper thirteen bits, and
/// in its lower three 0 for no plan, or one more than the pit.
#[inline(always)]
fn tail_of(entry: Entry) -> u16
    requires { FitsColumns entry }
    ensures { row entry.value result ≡ entry }
{
    let code = match entry.plan {
        Some(pit) => pit as u16 + 1,
        None => 0,
    };
    entry.dist as u16 * 8 + code
}

/// The entry of a value and a tail.
#[inline(always)]
fn entry_of_row(value: i8, tail: u16) -> Entry
    ensures { result ≡ row value tail }
{
    let code = tail % 8;
    let dist = (tail / 8) as u32;
    if code == 0 {
        return Entry {
            value,
            plan: None,
            dist,
        };
    }
    Entry {
        value,
        plan: Some((code - 1) as u8),
        dist,
    }
}

/// Whether the columns can hold an entry.
#[inline(always)]
pub fn fits_columns(entry: Entry) -> bool
    ensures { IsTrue result ↔ FitsColumns entry }
{
    if entry.dist >= 8192 {
        return false;
    }
    match entry.plan {
        Some(pit) => pit < 7,
        None => true,
    }
}

/// The greatest of these tails, 0 if there are none.
fn greatest_tail(tails: &[u16]) -> u16
    ensures { result ≡ fold (λ most tail. max most tail) 0 tails.now }
{
    tails.iter().fold(0, |most, tail| most.max(*tail))
}

/// Entries in two columns: a byte of value for each, and two of plan and distance. A contract sees
/// them as the list of the entries.
#[derive(Debug, Drop)]
pub struct Columns {
    values: Vec<i8>,
    tails: Vec<u16>,
}

impl Model for Columns {
    ghost use Rattle.std.specs.Prelude.{◌≡◌, List, length};
    ghost use Rattle.awari_table.specs.declared.images.Entry.{Entry};
    ghost use Rattle.awari_table.specs.Columns.{rows};

    ghost Value = { List Entry };

    ghost view = { λ c. rows c.values.items c.tails.items };

    ghost invariant = { λ c. length c.values.items ≡ length c.tails.items };
}

impl Columns {
    /// The columns with no entry. It takes no memory.
    pub fn new(alloc: Global) -> Self
        ensures { result ≡ [] }
    {
        Columns {
            values: Vec::new(alloc),
            tails: Vec::new(alloc),
        }
    }

    /// The columns with no entry, and with room for this many.
    pub fn with_capacity(alloc: Global, count: usize) -> Result<Self, AllocError>
        ensures { IfOk result (λ c. c ≡ []) }
    {
        let values = Vec::with_capacity(alloc, count)?;
        let tails = Vec::with_capacity(alloc, count)?;
        Ok(Columns { values, tails })
    }

    /// How many entries there are.
    pub fn len(&self) -> usize
        ensures { result ≡ length self.now }
    {
        self.values.len()
    }

    /// The value of the entry at a rank. Condition: the rank is below the number of entries.
    #[inline(always)]
    pub fn value(&self, rank: usize) -> i8
        requires { rank < length self.now }
        ensures { result ≡ (slice_index_or self.now rank no_entry).value }
    {
        self.values[rank]
    }

    /// The entry at a rank. Condition: the rank is below the number of entries.
    #[inline(always)]
    pub fn at(&self, rank: usize) -> Entry
        requires { rank < length self.now }
        ensures { slice_get self.now rank ≡ Some result }
    {
        entry_of_row(self.values[rank], self.tails[rank])
    }

    /// Puts an entry at the end. Condition: the columns can hold it.
    #[inline(always)]
    pub fn push(&mut self, entry: Entry) -> Result<(), AllocError>
        requires { FitsColumns entry }
        ensures ok { OnOk result (self.new ≡ self.old ++ entry ∷ []) }
        ensures err { OnErr result (self.new ≡ self.old) }
    {
        let tail = tail_of(entry);
        self.values.push(entry.value)?;
        match self.tails.push(tail) {
            Ok(()) => Ok(()),
            Err(_) => {
                self.values.pop();
                Err(AllocError)
            }
        }
    }

    /// Puts the entries of other columns at the end.
    pub fn join(&mut self, more: &Columns) -> Result<(), AllocError>
        ensures ok { OnOk result (self.new ≡ self.old ++ more.now) }
        ensures err { OnErr result (self.new ≡ self.old) }
    {
        let count = self.values.len();
        self.values.extend_from_slice(more.values.as_slice())?;
        match self.tails.extend_from_slice(more.tails.as_slice()) {
            Ok(()) => Ok(()),
            Err(error) => {
                self.values.truncate(count);
                Err(error)
            }
        }
    }

    /// The greatest distance of the entries, in plies; 0 if there are none.
    ///
    /// The distances are the upper bits of the tails, so the greatest tail has it.
    pub fn greatest_dist(&self) -> u32
        ensures { result ≡ greatest_dist self.now }
    {
        u32::from(greatest_tail(self.tails.as_slice()) / 8)
    }

    /// The entries as a vector, with as much room as the columns have.
    pub fn to_vec(&self, alloc: Global) -> Result<Vec<Entry>, AllocError>
        ensures { IfOk result (λ v. v.items ≡ self.now) }
    {
        let mut entries = Vec::with_capacity(alloc, self.values.capacity())?;
        for rank in 0..self.len() {
            entries.push(self.at(rank))?;
        }
        Ok(entries)
    }

    /// Copies the entries from this rank on into `run`, as many as it holds. Condition: that many are
    /// there.
    pub fn copy_run(&self, from: usize, run: &mut [Entry])
        requires { from + length run.old ≤ length self.now }
        ensures { run.new ≡ take (length run.old) (drop from self.now) }
    {
        // Ghost: the count bounds each rank, so that no sum below overflows.
        let _count = self.len();
        for k in 0..run.len() {
            run[k] = self.at(from + k);
        }
    }
}
