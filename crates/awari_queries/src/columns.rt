//! Numbers that are known of each board, by name.

ghost use Rattle.std.specs.Prelude.{◌≡◌, IfErr, IfOk, IfSome, IsNone};
ghost use Rattle.awari_queries.specs.Columns.{AsksForPair, HasNoPair, IsCountedName, IsPairOf, name_of, option_of, sentence_of};

/// A number that is known of each board.
#[derive(Clone, Copy, Debug, PartialEq, Eq)]
pub enum Column {
    /// Its rank among the boards of its level.
    Rank,
    /// What it is worth to the mover.
    Value,
    /// How many plies the play takes by the plans.
    Distance,
    /// The pit of the plan, or -1 for none.
    Plan,
    /// The stones that the plan's move captures, or -1 for no plan.
    Captures,
    /// The stones of the largest capture among the legal moves, or -1 if no move captures.
    Greedy,
    /// How many moves are legal.
    Moves,
    /// How many of these gain what the board is worth.
    Keep,
    /// The stones that are thrown away by whoever captures the most; 0 if no move captures.
    Trap,
    /// What it would be worth to the opponent, if the opponent were to move.
    Other,
    /// The stones that the mover loses by having to move; 0 if the board is not zugzwang.
    Waits,
}

impl Column {
    /// The word that names it.
    pub fn name(self) -> &'static str
        ensures { result.now ≡ name_of self }
    {
        match self {
            Column::Rank => "rank",
            Column::Value => "value",
            Column::Distance => "distance",
            Column::Plan => "plan",
            Column::Captures => "captures",
            Column::Greedy => "greedy",
            Column::Moves => "moves",
            Column::Keep => "keep",
            Column::Trap => "trap",
            Column::Other => "other",
            Column::Waits => "waits",
        }
    }
}

/// Why boards are not sorted or counted by what is asked for.
#[derive(Clone, Copy, Debug, PartialEq, Eq)]
pub enum NoColumn {
    /// The word of `--sort` names no column.
    Sort,
    /// The word of `--by` has not two names of columns with a comma between them, or one is the rank.
    By,
    /// It has the name of one column twice.
    Twice,
    /// Columns are asked for, but no level.
    Level,
}

impl NoColumn {
    /// The option, as it is written.
    pub fn option(self) -> &'static str
        ensures { result.now ≡ option_of self }
    {
        match self {
            NoColumn::Sort => "--sort",
            NoColumn::By | NoColumn::Twice | NoColumn::Level => "--by",
        }
    }

    /// What is wrong, in one sentence.
    pub fn sentence(self) -> &'static str
        ensures { result.now ≡ sentence_of self }
    {
        match self {
            NoColumn::Sort => {
                "A column is rank, value, distance, plan, captures, greedy, moves, keep, trap, other or waits"
            }
            NoColumn::By => {
                "Columns are two of value, distance, plan, captures, greedy, moves, keep, trap, other and waits, with a comma between"
            }
            NoColumn::Twice => "Both columns are the same",
            NoColumn::Level => "LEVEL is missing",
        }
    }
}

/// The column that the text names.
pub(crate) fn column_of(text: &str) -> Option<Column>
    ensures some { IfSome result (λ column. name_of column ≡ text.now) }
    ensures none { IsNone result → (column : Column) → name_of column ≡ text.now → ⊥ }
{
    match text {
        "rank" => Some(Column::Rank),
        "value" => Some(Column::Value),
        "distance" => Some(Column::Distance),
        "plan" => Some(Column::Plan),
        "captures" => Some(Column::Captures),
        "greedy" => Some(Column::Greedy),
        "moves" => Some(Column::Moves),
        "keep" => Some(Column::Keep),
        "trap" => Some(Column::Trap),
        "other" => Some(Column::Other),
        "waits" => Some(Column::Waits),
        _ => None,
    }
}

/// Two columns by which boards are counted.
#[derive(Clone, Copy, Debug, PartialEq, Eq)]
pub struct Pair {
    /// The one that stands first.
    pub first: Column,
    /// The other one.
    pub second: Column,
}

/// The column that the text names, but for the rank, which no two boards share.
fn counted_column(text: &str) -> Option<Column>
    ensures some { IfSome result (IsCountedName text.now) }
    ensures none { IsNone result → (column : Column) → IsCountedName text.now column → ⊥ }
{
    let column = column_of(text)?;
    if column == Column::Rank {
        return None;
    }
    Some(column)
}

/// The two columns of which a word has the names, with a comma between them, if neither is the rank.
fn named_pair(word: &str) -> Option<Pair>
    ensures some { IfSome result (IsPairOf word.now) }
    ensures none { IsNone result → (pair : Pair) → IsPairOf word.now pair → ⊥ }
{
    let (first, second) = word.split_once(',')?;
    let first = counted_column(first)?;
    let second = counted_column(second)?;
    Some(Pair { first, second })
}

/// The two columns of which a word has the names, with a comma between them. It is refused as 96 if it has
/// not, if one of them is the rank, or if both are the same.
pub fn asked_pair(word: &str) -> Result<Pair, NoColumn>
    ensures asked { IfOk result (AsksForPair word.now) }
    ensures none { IfErr result (HasNoPair word.now) }
{
    let Some(pair) = named_pair(word) else {
        return Err(NoColumn::By);
    };
    if pair.first == pair.second {
        return Err(NoColumn::Twice);
    }
    Ok(pair)
}
