//! A level in one line, and a folder in one.

ghost use Rattle.std.specs.Prelude.{◌≡◌};
ghost use Rattle.awari_answers.specs.LevelLines.{IsToldOf, digest_text};

use arrayvec::ArrayString;
use awari_members::{Form, Line, Member, hex_digit};
use awari_rank::size;
use awari_table::{Counts, Level};
use std::fmt;

/// What is told of a level. It is printed as its line, without the line feed.
#[derive(Clone, Copy)]
pub struct LevelLine {
    /// The stones on each board.
    pub level: u8,
    /// How many boards there are.
    pub boards: u32,
    /// How many of them are won, even and lost.
    pub counts: Counts,
    /// The greatest distance.
    pub limit: u32,
}

impl LevelLine {
    ghost use Rattle.std.specs.Prelude.{◌≡◌, map};
    ghost use Rattle.awari_answers.specs.LevelLines.{level_members};
    ghost use Rattle.awari_members.specs.Members.{said};

    /// Its numbers, with their names.
    pub fn members(&self) -> [Member<'static>; 6]
        ensures { map said result ≡ level_members self.now }
    {
        [
            Member::number("level", u64::from(self.level)),
            Member::number("boards", u64::from(self.boards)),
            Member::number("won", u64::from(self.counts.won)),
            Member::number("even", u64::from(self.counts.even)),
            Member::number("lost", u64::from(self.counts.lost)),
            Member::number("limit", u64::from(self.limit)),
        ]
    }
}

impl fmt::Display for LevelLine {
    ghost use Rattle.std.specs.Prelude.{Some};
    ghost use Rattle.awari_answers.specs.LevelLines.{told_text};

    ghost output = { λ told. Some (told_text told) };

    fn fmt<W: fmt::Write>(&self, f: &mut fmt::Formatter<W>) -> fmt::Result {
        let members = self.members();
        let line = Line {
            members: &members,
            form: Form::Text,
        };
        write!(f, "{line}")
    }
}

/// What is told of the level. It takes no memory, and looks at each entry.
pub fn line_of_level(level: &Level) -> LevelLine
    ensures { IsToldOf level.now result }
{
    LevelLine {
        level: level.number(),
        boards: size(level.number()),
        counts: level.counts(),
        limit: level.limit(),
    }
}

/// The last line of a folder: how many levels it has, and the digest of the last one's file.
#[derive(Clone, Copy)]
pub struct Summary {
    /// How many levels the folder has.
    pub levels: usize,
    /// The digest of the last level's file, 32 zeros if the folder has no level.
    pub digest: [u8; 32],
}

impl fmt::Display for Summary {
    ghost use Rattle.std.specs.Prelude.{Some};
    ghost use Rattle.awari_answers.specs.LevelLines.{summary_text};

    ghost output = { λ summary. Some (summary_text summary) };

    fn fmt<W: fmt::Write>(&self, f: &mut fmt::Formatter<W>) -> fmt::Result {
        let digits = hex_of(&self.digest);
        write!(f, "levels {} digest {digits}", self.levels)
    }
}

/// The digest in hexadecimal. It takes no memory.
pub fn hex_of(digest: &[u8; 32]) -> ArrayString<64>
    ensures { result.bytes ≡ digest_text digest.now }
{
    let mut text = ArrayString::new();
    for byte in digest {
        text.push(char::from(hex_digit(*byte / 16)));
        text.push(char::from(hex_digit(*byte % 16)));
    }
    text
}
