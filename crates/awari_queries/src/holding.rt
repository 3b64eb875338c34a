//! The first boards by a number, of those that come one by one.

ghost use Rattle.std.specs.Prelude.{◌≡◌, ◌≤◌, ◌<◌, ◌++◌, ◌∷◌, ◌-◌, [], List, IfOk, IfSome, IsTrue, Some, true, ℤ, length, int_le, slice_index_or};
ghost use Rattle.awari_queries.specs.Holding.{Holds, first, number_of, sorted};
ghost use Rattle.awari_queries.specs.declared.holding.Held.{Held as AHeld};

use std::alloc::{AllocError, Global};

/// How many boards are held at least before they are sorted.
const FEW: usize = 8192;

/// A board that is held.
#[derive(Clone, Copy, Debug, Default, PartialEq, Eq)]
pub struct Held {
    /// The number by which it is sorted.
    pub number: i64,
    /// Its rank.
    pub rank: u32,
}

/// The first boards by a number, of those that came: all, or at most twice as many as are wanted, or 8192.
#[derive(Drop)]
pub struct Holding {
    /// How many are wanted; 0 is all.
    most: u32,
    /// The first ones, and others.
    boards: Vec<Held>,
    /// As many as are wanted have no greater number than this.
    bound: Option<i64>,
}

impl Holding {
    /// What holds no board yet, of which so many are wanted; 0 is all.
    pub fn new(alloc: Global, most: u32) -> Holding
        ensures none { Holds [] result }
        ensures most { result.most ≡ most }
    {
        Holding {
            most,
            boards: Vec::new(alloc),
            bound: None,
        }
    }

    /// Holds one more, if it may be among the first ones. It takes memory for one, and to sort; it is refused if
    /// there is none, and then nothing is said of those that are held.
    pub fn hold(&mut self, one: Held) -> Result<(), AllocError>
        ensures held { IfOk result (λ _. (seen : List AHeld) → Holds seen self.old → Holds (seen ++ one ∷ []) self.new) }
        ensures most { self.new.most ≡ self.old.most }
    {
        if is_behind(self.bound, one) {
            return Ok(());
        }
        push(&mut self.boards, one)?;
        if self.most == 0 || self.boards.len() < FEW.max(2 * self.most as usize) {
            return Ok(());
        }
        let done = self.cut()?;
        Ok(done)
    }

    /// Holds the first ones alone. Condition: not all are wanted.
    fn cut(&mut self) -> Result<(), AllocError>
        requires { 0 < self.old.most }
        ensures held { IfOk result (λ _. (seen : List AHeld) → Holds seen self.old → Holds seen self.new) }
        ensures most { self.new.most ≡ self.old.most }
    {
        keep_first(&mut self.boards, self.most)?;
        self.bound = bound_of(self.boards.as_slice(), self.most);
        Ok(())
    }

    /// The first ones of those that came, sorted. It takes memory to sort them, and is refused if there is none.
    pub fn into_first(self) -> Result<Vec<Held>, AllocError>
        ensures { IfOk result (λ held. (seen : List AHeld) → Holds seen self → held.items ≡ first self.most (sorted number_of seen)) }
    {
        let Holding {
            most,
            mut boards,
            ..
        } = self;
        keep_first(&mut boards, most)?;
        Ok(boards)
    }
}

/// Whether a board's number is not below the bound, if there is one.
fn is_behind(bound: Option<i64>, one: Held) -> bool
    ensures { IsTrue result → (n : ℤ) × (bound ≡ Some n) × (int_le n one.number ≡ true) }
{
    match bound {
        None => false,
        Some(bound) => bound <= one.number,
    }
}

/// Puts one behind the others.
fn push(boards: &mut Vec<Held>, one: Held) -> Result<(), AllocError>
    ensures { IfOk result (λ _. boards.new.items ≡ boards.old.items ++ one ∷ []) }
{
    match boards.push(one) {
        Ok(()) => Ok(()),
        Err(_) => Err(AllocError),
    }
}

/// Sorts boards, and drops those behind the first ones.
fn keep_first(boards: &mut Vec<Held>, most: u32) -> Result<(), AllocError>
    ensures { IfOk result (λ _. boards.new.items ≡ first most (sorted number_of boards.old.items)) }
{
    sort(boards)?;
    if most > 0 {
        boards.truncate(most as usize);
    }
    Ok(())
}

/// Sorts boards by number. Those of one number stay in their order.
fn sort(boards: &mut Vec<Held>) -> Result<(), AllocError>
    ensures { IfOk result (λ _. boards.new.items ≡ sorted number_of boards.old.items) }
{
    let done = boards.sort_by_key(|held: &Held| held.number)?;
    Ok(done)
}

/// The number of the last of these, if there are as many as are wanted.
fn bound_of(boards: &[Held], most: u32) -> Option<i64>
    ensures { IfSome result (λ n. (0 < most) × (most ≤ length boards.now) × ((d : AHeld) → n ≡ (slice_index_or boards.now (length boards.now - 1) d).number)) }
{
    if boards.is_empty() || boards.len() < most as usize || most == 0 {
        return None;
    }
    Some(boards[boards.len() - 1].number)
}
