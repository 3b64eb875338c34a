//! Numbers in lists by a number: the fresh boards of a block by distance, the notes of a row by block.

ghost use Rattle.std.specs.Prelude.{◌≡◌, ℕ, ◌+◌, ◌++◌, ◌^◌, ◌<◌, ◌≤◌, [], ◌∷◌, All, IfNone, IfOk, IfSome, IsTrue, List, OnOk, OnErr, length};
ghost use Rattle.awari_block.specs.Blocks.{due_dist};
ghost use Rattle.awari_segments.specs.Lists.{dues_of, list_at, with_put, without};

use std::alloc::{AllocError, Global};
use std::marker::Model;

/// For how many numbers an emptied list keeps its memory.
const KEPT: usize = 256;

/// A list for each number from 0 on, empty ones behind the last that is kept.
#[derive(Drop)]
pub struct Lists {
    lists: Vec<Vec<u32>>,
    alloc: Global,
}

impl Model for Lists {
    ghost use Rattle.std.specs.Prelude.{ℕ, List, length, ◌≤◌, ◌^◌};
    ghost use Rattle.awari_segments.specs.Lists.{lists_of};

    ghost Value = { List (List ℕ) };

    ghost view = { λ l. lists_of l.lists.items };

    // a number below that of the lists fits a u32
    ghost invariant = { λ l. length l.lists.items ≤ 2 ^ 32 };
}

impl Lists {
    /// No list yet.
    pub fn new(alloc: Global) -> Lists
        ensures { result ≡ [] }
    {
        Lists {
            lists: Vec::new(alloc),
            alloc,
        }
    }

    /// The list at this number.
    pub fn list(&self, at: usize) -> &[u32]
        ensures { result.now ≡ list_at self.now at }
    {
        if at < self.lists.len() {
            return self.lists[at].as_slice();
        }
        &[]
    }

    /// The least number from `from` on whose list is not empty, none if there is none. Condition: no
    /// list below `from` has anything.
    pub fn first_from(&self, from: u32) -> Option<u32>
        requires empty { All (λ f. from ≤ due_dist f) (dues_of self.now) }
        ensures none { IfNone result (dues_of self.now ≡ []) }
        ensures least { IfSome result (λ at. (from ≤ at) × All (λ f. at ≤ due_dist f) (dues_of self.now)) }
        ensures some { IfSome result (λ at. (value : ℕ) × (rest : List ℕ) × (list_at self.now at ≡ value ∷ rest)) }
    {
        for at in from as usize..self.lists.len() {
            if !self.lists[at].is_empty() {
                return Some(at as u32);
            }
        }
        None
    }

    /// Whether no list from `from` on and below `end` has anything. Condition: no list below `from` has
    /// anything.
    pub fn are_empty_to(&self, from: u32, end: u32) -> bool
        requires empty { All (λ f. from ≤ due_dist f) (dues_of self.now) }
        ensures { IsTrue result → All (λ f. end ≤ due_dist f) (dues_of self.now) }
    {
        for at in from as usize..self.lists.len().min(end as usize) {
            if !self.lists[at].is_empty() {
                return false;
            }
        }
        true
    }

    /// Puts one behind the list at this number. If it is refused the lists hold what they held.
    #[inline(always)]
    pub fn put(&mut self, at: u32, value: u32) -> Result<(), AllocError>
        ensures put { OnOk result (self.new ≡ with_put self.old at value) }
        ensures refused { OnErr result (dues_of self.new ≡ dues_of self.old) }
    {
        self.reach(at)?;
        self.lists[at as usize].push(value)?;
        Ok(())
    }

    /// Moves the list at this number behind others, and gives its memory back if that is much. The result
    /// is how many it moved. Refused if there is no room for them there, and then nothing changes.
    pub fn give(&mut self, at: u32, to: &mut Vec<u32>) -> Result<usize, AllocError>
        ensures count { IfOk result (λ count. count ≡ length (list_at self.old at)) }
        ensures given { OnOk result (to.new.items ≡ to.old.items ++ list_at self.old at) }
        ensures left { OnOk result (self.new ≡ without self.old at) }
        ensures refused { OnErr result (self.new ≡ self.old) }
    {
        let at = at as usize;
        if at < self.lists.len() {
            let count = self.lists[at].len();
            to.extend_from_slice(self.lists[at].as_slice())?;
            empty(self.alloc, &mut self.lists[at]);
            return Ok(count);
        }
        Ok(0)
    }

    /// Empties all lists. They keep their memory.
    pub fn clear(&mut self)
        ensures { (at : ℕ) → list_at self.new at ≡ [] }
    {
        for k in 0..self.lists.len() {
            self.lists[k].clear();
        }
    }

    /// Makes lists up to this number.
    #[inline(always)]
    fn reach(&mut self, at: u32) -> Result<(), AllocError>
        ensures reached { OnOk result (at < length self.new) }
        ensures dues { dues_of self.new ≡ dues_of self.old }
        ensures same { OnOk result ((v : ℕ) → with_put self.new at v ≡ with_put self.old at v) }
    {
        for _more in self.lists.len()..at as usize + 1 {
            self.lists.push(Vec::new(self.alloc))?;
        }
        Ok(())
    }
}

/// Empties a list. It gives its memory back unless that is little: a distance comes once a gain, and
/// so its list stays empty for long.
fn empty(alloc: Global, list: &mut Vec<u32>)
    ensures { list.new.items ≡ [] }
{
    if list.capacity() > KEPT {
        *list = Vec::new(alloc);
    } else {
        list.clear();
    }
}
