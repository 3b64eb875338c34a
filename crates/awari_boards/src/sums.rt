//! The numbers of plays, which are added up while they fit.

ghost use Rattle.std.specs.Prelude.{◌≡◌, ◌+◌, ◌≤◌, ◌^◌, IfSome, IsNone};
ghost use Rattle.awari_boards.specs.Plays.{PlaysAreMost};

use std::fmt;

/// How many plays there are of some length. It is printed with the name of each number.
#[derive(Clone, Copy, Debug, PartialEq, Eq)]
pub struct PlayCounts {
    /// All of them.
    pub plays: u64,
    /// Those whose last ply captures.
    pub captures: u64,
    /// Those that lead to the end of play.
    pub ends: u64,
}

impl PlayCounts {
    /// No play.
    pub(crate) const NONE: PlayCounts = PlayCounts {
        plays: 0,
        captures: 0,
        ends: 0,
    };

    /// The sums of the numbers, if that of the plays fits. Condition: in both the plays are the greatest.
    pub(crate) fn plus(self, more: PlayCounts) -> Option<PlayCounts>
        requires own { PlaysAreMost self }
        requires more { PlaysAreMost more }
        ensures sums { IfSome result (λ sum. (sum.plays ≡ self.plays + more.plays) × (sum.captures ≡ self.captures + more.captures) × (sum.ends ≡ self.ends + more.ends)) }
        ensures none { IsNone result → 2 ^ 64 ≤ self.plays + more.plays }
    {
        let plays = self.plays.checked_add(more.plays)?;
        Some(PlayCounts {
            plays,
            captures: self.captures + more.captures,
            ends: self.ends + more.ends,
        })
    }
}

impl fmt::Display for PlayCounts {
    ghost use Rattle.std.specs.Prelude.{Some};
    ghost use Rattle.awari_boards.specs.Plays.{counts_text};

    ghost output = { λ counts. Some (counts_text counts) };

    fn fmt<W: fmt::Write>(&self, f: &mut fmt::Formatter<W>) -> fmt::Result {
        let PlayCounts {
            plays,
            captures,
            ends,
        } = *self;
        write!(f, "plays {plays} captures {captures} ends {ends}")
    }
}
