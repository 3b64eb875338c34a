//! Which boards of a level are wanted.

ghost use Rattle.std.specs.Prelude.{◌≡◌, ◌<◌, ◌≤◌, ◌↔◌, true, false, ℕ, List, Option, IfSome, IsNone, IsSome, length, sum, ℤ};
ghost use Rattle.awari_facts.specs.Facts.{gains_in};
ghost use Rattle.awari_facts.specs.Numbers.{IsAt};
ghost use Rattle.awari_facts.specs.Sources.{images_of};
ghost use Rattle.awari_facts.specs.declared.looks.Gained.{Gained as AGained};
ghost use Rattle.awari_rank.specs.Rank.{size_of};
ghost use Rattle.awari_table.specs.Images.{entry_of};
ghost use Rattle.awari_table.specs.declared.TheConstants.{HIGHEST_LEVEL};
ghost use Rattle.awari_table.specs.declared.images.Entry.{Entry as AnEntry};
ghost use Rattle.awari_table.specs.declared.images.Image.{Image};
ghost use Rattle.awari_levels.specs.Listing.{IsAlone, adds_others, asks_moves, asks_turned, fits, is_of_kind, is_weighed, is_within, key_if, suits, takes, turns, weighs};

use awari_facts::{
    Gains, Levels, Seen, gains_of, is_own, is_zugzwang, largest_capture, legal_moves, levels_in,
    moves_gaining, number_of, other_value, own_number, own_stones, plan_captures, trap_by,
};
use awari_members::Form;
use awari_packed::PackedBoard;
use awari_queries::{Added, Order, Spans, has, is_in, key_of};
use awari_table::Entry;

/// Which boards of a level are wanted, and how.
#[derive(Clone, Copy, Debug, PartialEq, Eq)]
pub struct Wanted {
    /// Those whose numbers are in these.
    pub spans: Spans,
    /// Those with a legal move that are worth less than if the opponent had to move.
    pub waits: bool,
    /// Those where the play has ended.
    pub ended: bool,
    /// Those where it has not.
    pub running: bool,
    /// Those of the greatest distance that is left.
    pub farthest: bool,
    /// One in this many of these.
    pub every: u32,
    /// This many of them, drawn by chance; 0 is all.
    pub random: u32,
    /// The number that decides which are drawn.
    pub seed: u32,
    /// These by a number, if not by rank.
    pub order: Option<Order>,
    /// This many of the first ones; 0 is all.
    pub most: u32,
    /// Which further numbers each line has.
    pub added: Added,
    /// How many there are, and not the boards.
    pub count: bool,
    /// How they are printed.
    pub form: Form,
}

/// Whether value, distance and plan are in the spans.
#[tactic(auto, unfolding(crate::specs::Listing::fits))]
fn fits(spans: &Spans, entry: Entry) -> bool
    ensures { result ≡ fits spans.now entry }
{
    is_in(spans.value, i64::from(entry.value))
        && is_in(spans.distance, i64::from(entry.dist))
        && has(spans.plan, entry.plan)
}

/// Whether the rules say of the board what is wanted.
#[tactic(auto, unfolding(crate::specs::Listing::suits))]
fn suits(wanted: &Wanted, board: &PackedBoard, entry: Entry) -> bool
    ensures { result ≡ suits wanted.now board.now entry }
{
    let moves = legal_moves(board);
    if !is_in(wanted.spans.side, i64::from(own_stones(board))) {
        return false;
    }
    if !is_in(wanted.spans.moves, i64::from(moves)) {
        return false;
    }
    takes(&wanted.spans, board, entry) && is_of_kind(wanted, moves)
}

/// Whether what the plan captures, and the largest capture, are in the spans.
#[tactic(auto, unfolding(crate::specs::Listing::takes))]
fn takes(spans: &Spans, board: &PackedBoard, entry: Entry) -> bool
    ensures { result ≡ takes spans.now board.now entry }
{
    if !has(spans.captures, plan_captures(board, entry.plan)) {
        return false;
    }
    spans.greedy.is_none() || has(spans.greedy, largest_capture(board))
}

/// Whether a board with this many legal moves has ended or has not, if that is wanted.
fn is_of_kind(wanted: &Wanted, moves: u8) -> bool
    ensures { result ≡ is_of_kind wanted.now moves }
{
    if wanted.ended && 0 < moves {
        return false;
    }
    !(wanted.running && moves == 0)
}

/// Whether something is wanted that the rules say of a board.
#[tactic(auto, unfolding(crate::specs::Listing::suits, crate::specs::Listing::takes))]
fn asks_rules(wanted: &Wanted) -> bool
    ensures { result ≡ false → (board : List ℕ) (e : AnEntry) → suits wanted.now board e ≡ true }
{
    let Spans {
        captures,
        greedy,
        side,
        moves,
        ..
    } = wanted.spans;
    let of_rules = side.is_some() || moves.is_some() || captures.is_some() || greedy.is_some();
    of_rules || wanted.ended || wanted.running
}

/// Whether something is wanted of what the moves of a board gain.
fn asks_moves(spans: &Spans) -> bool
    ensures asks { result ≡ asks_moves spans.now }
    ensures none { result ≡ false → (moves : List (Option AGained)) (value : ℤ) → weighs spans.now moves value ≡ true }
{
    spans.keep.is_some() || spans.trap.is_some()
}

/// Whether something is wanted of what the board turned is worth.
fn asks_turned(wanted: &Wanted) -> bool
    ensures asks { result ≡ asks_turned wanted.now }
    ensures none { result ≡ false → (moves : ℕ) (value other : ℤ) → turns wanted.now moves value other ≡ true }
{
    wanted.waits || wanted.spans.other.is_some()
}

/// Whether the rules say of the board of a rank what is wanted. Condition: the level has that many boards.
fn suits_rules(wanted: &Wanted, seen: &Seen) -> bool
    requires level { seen.now.level ≤ HIGHEST_LEVEL }
    requires rank { seen.now.rank < size_of seen.now.level }
    ensures { (images : List Image) (board : List ℕ) → IsAt images seen.now.level seen.now.rank board seen.now.entry → result ≡ suits wanted.now board seen.now.entry }
{
    if !asks_rules(wanted) {
        return true;
    }
    suits(wanted, &seen.board(), seen.entry)
}

/// Whether the board of a rank has all that is wanted of each, if that is known without a look at other
/// boards. Condition: the level has that many boards.
fn settled(wanted: &Wanted, seen: &Seen) -> Option<bool>
    requires level { seen.now.level ≤ HIGHEST_LEVEL }
    requires rank { seen.now.rank < size_of seen.now.level }
    ensures some { (images : List Image) (board : List ℕ) → IsAt images seen.now.level seen.now.rank board seen.now.entry → IfSome result (λ b. b ≡ is_within wanted.now images board) }
    ensures none { (images : List Image) (board : List ℕ) → IsAt images seen.now.level seen.now.rank board seen.now.entry → IsNone result
        → is_weighed wanted.now images board ≡ is_within wanted.now images board }
    ensures alone { asks_turned wanted.now ≡ false → asks_moves wanted.now.spans ≡ false → IsSome result }
{
    if !fits(&wanted.spans, seen.entry) {
        return Some(false);
    }
    if !suits_rules(wanted, seen) {
        return Some(false);
    }
    if asks_turned(wanted) || asks_moves(&wanted.spans) {
        return None;
    }
    Some(true)
}

/// Whether what these moves of a board of this value gain is as it is wanted.
fn weighs(spans: &Spans, moves: &Gains, value: i8) -> bool
    ensures { result ≡ weighs spans.now moves.now value }
{
    let keeping = moves_gaining(moves, value);
    let lost = trap_by(moves, value);
    is_in(spans.keep, i64::from(keeping)) && is_in(spans.trap, lost)
}

/// Whether what the moves of a board of this value gain is as it is wanted. Condition: its level is there.
fn weighs_in(levels: Levels<'_>, spans: &Spans, board: &PackedBoard, value: i8) -> bool
    requires { sum board.now < length (images_of levels) }
    ensures { result ≡ weighs spans.now (gains_in (images_of levels.entry) board.now) value }
{
    if !asks_moves(spans) {
        return true;
    }
    weighs(spans, &gains_of(levels, board), value)
}

/// Whether the value of the board turned is as it is wanted, on a board with this many legal moves and of this
/// value; and whether it is a burden to move, if that is wanted.
fn turns(wanted: &Wanted, moves: u8, value: i8, other: i8) -> bool
    ensures { result ≡ turns wanted.now moves value other }
{
    if !is_in(wanted.spans.other, i64::from(other)) {
        return false;
    }
    !wanted.waits || is_zugzwang(moves, value, other)
}

/// Whether the levels say of other boards what is wanted of this one, of this value. Condition: its level is
/// there.
fn is_weighed(levels: Levels<'_>, wanted: &Wanted, board: &PackedBoard, value: i8) -> bool
    requires { sum board.now < length (images_of levels) }
    ensures { value ≡ (entry_of (images_of levels.entry) board.now).value → result ≡ is_weighed wanted.now (images_of levels.entry) board.now }
{
    if !weighs_in(levels, &wanted.spans, board, value) {
        return false;
    }
    if !asks_turned(wanted) {
        return true;
    }
    turns(
        wanted,
        legal_moves(board),
        value,
        other_value(levels, board),
    )
}

/// Whether the board of a rank has all that is wanted of each. Condition: the level is there, and has that many
/// boards.
fn is_within(levels: Levels<'_>, wanted: &Wanted, seen: &Seen) -> bool
    requires level { seen.now.level < length (images_of levels) }
    requires rank { seen.now.rank < size_of seen.now.level }
    ensures { (board : List ℕ) → IsAt (images_of levels.entry) seen.now.level seen.now.rank board seen.now.entry → result ≡ is_within wanted.now (images_of levels.entry) board }
{
    // For the proof: there are at most 25 levels.
    let _levels = levels_in(levels);
    match settled(wanted, seen) {
        Some(within) => within,
        None => is_weighed(levels, wanted, &seen.board(), seen.entry.value),
    }
}

/// What the board of a rank is sorted by, if it has all that is wanted of each. Condition: the level is there,
/// and has that many boards.
pub(crate) fn key_on(levels: Levels<'_>, wanted: &Wanted, seen: &Seen) -> Option<i64>
    requires level { seen.now.level < length (images_of levels) }
    requires rank { seen.now.rank < size_of seen.now.level }
    ensures { (board : List ℕ) → IsAt (images_of levels.entry) seen.now.level seen.now.rank board seen.now.entry → result ≡ key_if wanted.now (images_of levels.entry) board }
{
    if !is_within(levels, wanted, seen) {
        return None;
    }
    match wanted.order {
        None => Some(0),
        Some(order) => Some(key_of(order, number_of(levels, order.by, seen))),
    }
}

/// Whether each line has a number that other boards say.
fn adds_others(added: Added) -> bool
    ensures { result ≡ adds_others added }
{
    added.keep || added.trap || added.other || added.waits
}

/// Whether an entry and the rules say of a board whether it is wanted, and all that is printed of it.
pub(crate) fn is_alone(wanted: &Wanted) -> bool
    ensures { result ≡ true ↔ IsAlone wanted.now }
{
    if asks_turned(wanted) || adds_others(wanted.added) || asks_moves(&wanted.spans) {
        return false;
    }
    match wanted.order {
        None => true,
        Some(order) => is_own(order.by),
    }
}

/// What the board of a rank is sorted by, if it has all that is wanted of each. Conditions: its entry and the
/// rules say all that is wanted, the level is at most 24, and has that many boards.
pub(crate) fn own_key(wanted: &Wanted, seen: &Seen) -> Option<i64>
    requires alone { IsAlone wanted.now }
    requires level { seen.now.level ≤ HIGHEST_LEVEL }
    requires rank { seen.now.rank < size_of seen.now.level }
    ensures { (images : List Image) (board : List ℕ) → IsAt images seen.now.level seen.now.rank board seen.now.entry → result ≡ key_if wanted.now images board }
{
    match settled(wanted, seen) {
        Some(true) => {}
        Some(false) => return None,
        None => unreachable!(),
    }
    let Some(order) = wanted.order else {
        return Some(0);
    };
    match own_number(order.by, seen) {
        Some(number) => Some(key_of(order, number)),
        None => unreachable!(),
    }
}
