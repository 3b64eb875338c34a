//! What is known of a board by the boards that its moves leave, and by the board turned.

ghost use Rattle.std.specs.Prelude.{◌≡◌, ◌<◌, ◌-ℤ◌, ℕ, List, IfSome, IsNone, length, pos, sum};
ghost use Rattle.awari_board.specs.Rules.{IsLegal};
ghost use Rattle.awari_rank.specs.Rank.{size_of};
ghost use Rattle.awari_facts.specs.Facts.{gained_by, gains, gains_in, greedier, greediest, is_zugzwang, lost_by, lost_by_moving, moves_gaining, other_value};
ghost use Rattle.awari_facts.specs.Left.{IsLeft};
ghost use Rattle.awari_facts.specs.Numbers.{IsNumber};
ghost use Rattle.awari_facts.specs.Sources.{images_of};

use crate::sources::{Levels, value_at, value_on};
use awari_board::SIDE;
use awari_packed::PackedBoard;

/// What a move captures and gains.
#[derive(Clone, Copy, Debug, PartialEq, Eq)]
pub struct Gained {
    /// The stones that it captures.
    pub captured: u8,
    /// These, less the value of the board that it leaves.
    pub value: i16,
}

/// What the move from each of the mover's pits captures and gains, where it is legal.
pub type Gains = [Option<Gained>; SIDE as usize];

/// What a move captures, and where the board that it leaves stands.
#[derive(Clone, Copy)]
struct Left {
    captured: u8,
    stones: u8,
    rank: u32,
}

/// What the move from a pit leaves, if it is legal.
fn left_by(board: &PackedBoard, pit: u8) -> Option<Left>
    ensures some { IfSome result (IsLeft board.now pit) }
    ensures none { IsNone result → IsLegal board.now pit → ⊥ }
{
    if !board.legal(pit) {
        return None;
    }
    let moved = board.play(pit);
    Some(Left {
        captured: moved.captured,
        stones: moved.board.stones(),
        rank: moved.board.rank(),
    })
}

/// What a move captures and gains that leaves a board of this value.
fn gain_of(captured: u8, value: i8) -> Gained
    ensures captured { result.captured ≡ captured }
    ensures value { result.value ≡ pos captured -ℤ value }
{
    Gained {
        captured,
        value: i16::from(captured) - i16::from(value),
    }
}

/// What the move from a pit captures and gains that leaves this, if it is legal. Condition: the board's level is
/// there.
fn gained_with(levels: Levels<'_>, left: Option<Left>) -> Option<Gained>
    requires { IfSome left (λ left. left.stones < length (images_of levels) × left.rank < size_of left.stones) }
    ensures { (board : List ℕ) (pit : ℕ) → IfSome left (IsLeft board pit) → (IsNone left → IsLegal board pit → ⊥) → result ≡ gained_by (images_of levels.entry) board pit }
{
    let Some(left) = left else {
        return None;
    };
    let value = value_at(levels, left.stones, left.rank);
    Some(gain_of(left.captured, value))
}

/// What each move of the board captures and gains. Condition: the board's level is there.
///
/// The values lie far apart in memory. All places are found before any is looked at, so that the look-ups wait
/// together.
pub fn gains_of(levels: Levels<'_>, board: &PackedBoard) -> Gains
    requires { sum board.now < length (images_of levels) }
    ensures { result ≡ gains_in (images_of levels.entry) board.now }
{
    let left = [
        left_by(board, 0),
        left_by(board, 1),
        left_by(board, 2),
        left_by(board, 3),
        left_by(board, 4),
        left_by(board, 5),
    ];
    [
        gained_with(levels, left[0]),
        gained_with(levels, left[1]),
        gained_with(levels, left[2]),
        gained_with(levels, left[3]),
        gained_with(levels, left[4]),
        gained_with(levels, left[5]),
    ]
}

/// Whether there is a move, and it gains this value.
fn gains(gained: Option<Gained>, value: i8) -> bool
    ensures { result ≡ gains value gained }
{
    match gained {
        None => false,
        Some(gained) => gained.value == i16::from(value),
    }
}

/// How many of the moves gain this value.
pub fn moves_gaining(moves: &Gains, value: i8) -> u8
    ensures { result ≡ moves_gaining value moves.now }
{
    let mut count = 0u8;
    for pit in 0..SIDE {
        if gains(moves[pit as usize], value) {
            count += 1;
        }
    }
    count
}

/// The one of two moves that captures more; of those that capture as many, the one that gains more.
fn greedier(most: Gained, other: Option<Gained>) -> Gained
    ensures { result ≡ greedier most other }
{
    let Some(other) = other else {
        return most;
    };
    if most.captured < other.captured {
        return other;
    }
    if other.captured == most.captured && most.value < other.value {
        return other;
    }
    most
}

/// The move that captures most; of those that capture as many, the one that gains most. If no move captures,
/// it captures 0.
fn greediest(moves: &Gains) -> Gained
    ensures { result ≡ greediest moves.now }
{
    let mut most = Gained {
        captured: 0,
        value: 0,
    };
    for pit in 0..SIDE {
        most = greedier(most, moves[pit as usize]);
    }
    most
}

/// What the mover throws away of this value by the move that captures most: 0 if no move captures.
pub fn trap_by(moves: &Gains, value: i8) -> i64
    ensures lost { result ≡ lost_by value (greediest moves.now) }
    ensures least { IsNumber result }
{
    let most = greediest(moves);
    if most.captured == 0 {
        return 0;
    }
    i64::from(value) - i64::from(most.value)
}

/// What the board would be worth to the opponent, if the opponent were to move. Condition: its level is there.
pub fn other_value(levels: Levels<'_>, board: &PackedBoard) -> i8
    requires { sum board.now < length (images_of levels) }
    ensures { result ≡ other_value (images_of levels.entry) board.now }
{
    value_on(levels, &board.turned())
}

/// Whether a board with this many legal moves is zugzwang: one is legal, and the value is less than what the
/// board would be worth to the mover if the opponent had to move, to whom it has then the other value.
pub fn is_zugzwang(moves: u8, value: i8, other: i8) -> bool
    ensures { result ≡ is_zugzwang moves value other }
{
    moves > 0 && i16::from(value) < -i16::from(other)
}

/// How many stones less: the mover loses them by having to move. It is 0 if the board is not zugzwang.
pub fn lost_by_moving(moves: u8, value: i8, other: i8) -> i64
    ensures lost { result ≡ lost_by_moving moves value other }
    ensures least { IsNumber result }
{
    if !is_zugzwang(moves, value, other) {
        return 0;
    }
    -i64::from(other) - i64::from(value)
}
