//! The rules of a table, judged of what was seen of one board.

ghost use Rattle.std.specs.Prelude.{◌≡◌, ◌≤◌, ◌↔◌, ℕ, List, IsTrue, IfSome, IsSomeAnd, All, Any, MatchOption};
ghost use Rattle.awari_table.specs.Certificate.{DistancesAreLeast, Table, IsRight, IsRightBy};
ghost use Rattle.awari_table.specs.Reached.{gain_of};
ghost use Rattle.awari_verify.specs.Sights.{Sees, planned_of, IsNearer, KeepsRange, KeepsEnd, KeepsPlan, KeepsGain, KeepsPlanGain, KeepsEven, KeepsWinning, GainsJustIn, KeepsWon, KeepsLost, KeepsLeast};
ghost use Rattle.awari_verify.specs.FirstFailure.{BreaksFirst};

use awari_board::SIDE;
use awari_table::{Entry, Reached};
use std::fmt;

/// The rules of a table, in the order in which they are judged. V1 to V6 are judged of each board,
/// and V7 of the image as a whole. A rule is printed as its name.
#[derive(Clone, Copy, Debug, PartialEq, Eq)]
pub enum Rule {
    /// The value is within the stones on the board, and the plan is absent or 0 to 5.
    V1,
    /// An ended board has its gain, no plan, and distance 0.
    V2,
    /// Any other board has a legal plan.
    V3,
    /// No move gains more than the value.
    V4,
    /// The plan gains the value.
    V5,
    /// Distances are the least. A board of value 0 has distance 0. A won board that is not ended has
    /// the fewest plies of a move that gains its value, and a lost one the most plies of any move. A
    /// capture takes one ply, and a quiet move one more than the distance that it leads to. The plan
    /// of a won board captures or goes to a smaller distance.
    V6,
    /// The limit is the greatest distance.
    V7,
}

impl Rule {
    ghost use Rattle.std.specs.Prelude.{length};
    ghost use Rattle.awari_verify.specs.Rule.{rule_name};

    /// The name of this rule.
    pub fn name(self) -> &'static str
        ensures name { result.now ≡ rule_name self }
        ensures short { length result.now ≡ 2 }
    {
        match self {
            Rule::V1 => "V1",
            Rule::V2 => "V2",
            Rule::V3 => "V3",
            Rule::V4 => "V4",
            Rule::V5 => "V5",
            Rule::V6 => "V6",
            Rule::V7 => "V7",
        }
    }
}

impl fmt::Display for Rule {
    ghost use Rattle.std.specs.Prelude.{Some};
    ghost use Rattle.awari_verify.specs.Rule.{rule_name};

    ghost output = { λ rule. Some (rule_name rule) };

    fn fmt<W: fmt::Write>(&self, f: &mut fmt::Formatter<W>) -> fmt::Result {
        f.write_str(self.name())
    }
}

/// All that the rules need to know of a board.
#[derive(Clone, Copy)]
pub struct Seen {
    /// The stones on the board.
    pub stones: u8,
    pub entry: Entry,
    /// The mover's gain if the board is ended.
    pub end: Option<i8>,
    /// The move of each own pit, none if it is not legal.
    pub moves: [Option<Reached>; 6],
}

impl Seen {
    /// A blank, to be filled in.
    pub fn nothing() -> Self {
        Seen {
            stones: 0,
            entry: Entry::NONE,
            end: None,
            moves: [None; 6],
        }
    }
}

/// The first of V1 to V6 that the board breaks.
pub fn first_broken_rule(seen: &Seen) -> Option<Rule>
    ensures { (t : Table) (p : List ℕ) → Sees t p seen.now → MatchOption result (IsRight t p) (BreaksFirst DistancesAreLeast t p) }
{
    first_broken(seen, keeps_least(seen))
}

/// The first of V1 to V6 that the board breaks, where it is told whether V6 is kept.
#[inline(always)]
pub fn first_broken(seen: &Seen, distance: bool) -> Option<Rule>
    ensures { (t : Table) (p : List ℕ) → Sees t p seen.now
        → MatchOption result (IsRightBy (λ u q. IsTrue distance) t p) (BreaksFirst (λ u q. IsTrue distance) t p) }
{
    if !keeps_range(seen) {
        return Some(Rule::V1);
    }
    if !keeps_end(seen) {
        return Some(Rule::V2);
    }
    if !keeps_plan(seen) {
        return Some(Rule::V3);
    }
    if !keeps_gain(seen) {
        return Some(Rule::V4);
    }
    if !keeps_plan_gain(seen) {
        return Some(Rule::V5);
    }
    if !distance {
        return Some(Rule::V6);
    }
    None
}

fn keeps_range(seen: &Seen) -> bool
    ensures { IsTrue result ↔ KeepsRange seen.now }
{
    // An unchecked value may be -128, whose opposite is no i8.
    let stones = i16::from(seen.stones);
    let value = i16::from(seen.entry.value);
    if value < -stones || stones < value {
        return false;
    }
    match seen.entry.plan {
        Some(pit) => pit < SIDE,
        None => true,
    }
}

fn keeps_end(seen: &Seen) -> bool
    ensures { IsTrue result ↔ KeepsEnd seen.now }
{
    match seen.end {
        Some(gain) => seen.entry.value == gain && seen.entry.plan.is_none() && seen.entry.dist == 0,
        None => true,
    }
}

fn keeps_plan(seen: &Seen) -> bool
    ensures { IsTrue result ↔ KeepsPlan seen.now }
{
    seen.end.is_some() || planned(seen).is_some()
}

fn keeps_gain(seen: &Seen) -> bool
    ensures { IsTrue result ↔ KeepsGain seen.now }
{
    seen.moves.iter().all(|reached| match reached {
        Some(reached) => reached.gain() <= i16::from(seen.entry.value),
        None => true,
    })
}

fn keeps_plan_gain(seen: &Seen) -> bool
    ensures { IsTrue result ↔ KeepsPlanGain seen.now }
{
    match planned(seen) {
        Some(reached) => reached.gain() == i16::from(seen.entry.value),
        None => true,
    }
}

pub fn keeps_even(seen: &Seen) -> bool
    ensures { IsTrue result ↔ KeepsEven seen.now }
{
    seen.entry.value != 0 || seen.entry.dist == 0
}

pub fn keeps_winning(seen: &Seen) -> bool
    ensures { IsTrue result ↔ KeepsWinning seen.now }
{
    if seen.entry.value <= 0 {
        return true;
    }
    match planned(seen) {
        Some(reached) => is_nearer(&reached, seen.entry.dist),
        None => true,
    }
}

fn keeps_least(seen: &Seen) -> bool
    ensures { IsTrue result ↔ KeepsLeast seen.now }
{
    keeps_even(seen) && keeps_won(seen) && keeps_lost(seen) && keeps_winning(seen)
}

fn keeps_won(seen: &Seen) -> bool
    ensures { IsTrue result ↔ KeepsWon seen.now }
{
    if seen.end.is_some() || seen.entry.value <= 0 {
        return true;
    }
    some_gains_in(seen) && none_gains_sooner(seen)
}

/// Whether a move gains the value in as many plies as the distance.
fn some_gains_in(seen: &Seen) -> bool
    ensures { IsTrue result ↔ Any (λ o. IsSomeAnd o (GainsJustIn seen.now.entry.value seen.now.entry.dist)) seen.now.moves }
{
    seen.moves.iter().any(|reached| match reached {
        Some(reached) => {
            reached.gain() == i16::from(seen.entry.value)
                && reached.plies == u64::from(seen.entry.dist)
        }
        None => false,
    })
}

/// Whether each move that gains the value takes at least as many plies as the distance.
fn none_gains_sooner(seen: &Seen) -> bool
    ensures { IsTrue result ↔ All (λ o. IfSome o (λ m. gain_of m ≡ seen.now.entry.value → seen.now.entry.dist ≤ m.plies)) seen.now.moves }
{
    seen.moves.iter().all(|reached| match reached {
        Some(reached) => {
            reached.gain() != i16::from(seen.entry.value)
                || u64::from(seen.entry.dist) <= reached.plies
        }
        None => true,
    })
}

fn keeps_lost(seen: &Seen) -> bool
    ensures { IsTrue result ↔ KeepsLost seen.now }
{
    if seen.end.is_some() || seen.entry.value >= 0 {
        return true;
    }
    some_takes(seen) && none_takes_longer(seen)
}

/// Whether a move takes as many plies as the distance.
fn some_takes(seen: &Seen) -> bool
    ensures { IsTrue result ↔ Any (λ o. IsSomeAnd o (λ m. m.plies ≡ seen.now.entry.dist)) seen.now.moves }
{
    seen.moves.iter().any(|reached| match reached {
        Some(reached) => reached.plies == u64::from(seen.entry.dist),
        None => false,
    })
}

/// Whether each move takes at most as many plies as the distance.
fn none_takes_longer(seen: &Seen) -> bool
    ensures { IsTrue result ↔ All (λ o. IfSome o (λ m. m.plies ≤ seen.now.entry.dist)) seen.now.moves }
{
    seen.moves.iter().all(|reached| match reached {
        Some(reached) => reached.plies <= u64::from(seen.entry.dist),
        None => true,
    })
}

/// The plan's move, if the plan is legal.
fn planned(seen: &Seen) -> Option<Reached>
    ensures { result ≡ planned_of seen.now }
{
    match seen.entry.plan {
        Some(pit) if pit < SIDE => seen.moves[pit as usize],
        _ => None,
    }
}

/// Whether the move captures, or leads to a board of a smaller distance.
pub fn is_nearer(reached: &Reached, dist: u32) -> bool
    ensures { IsTrue result ↔ IsNearer reached.now dist }
{
    reached.captured > 0 || reached.plies <= u64::from(dist)
}
