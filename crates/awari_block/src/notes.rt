//! What a settled board tells the boards whose quiet moves lead to it.

/// Whether the mover of the board that a note's move leads to wins or loses.
#[derive(Clone, Copy, Debug, Default, PartialEq, Eq)]
pub enum Kind {
    /// The mover of the board that the move leads to wins the gain.
    #[default]
    Won,
    /// The mover of that board loses it.
    Lost,
}

/// Tells a board that its quiet move from `pit` leads to a settled board. It says whether that one is
/// won or lost, how much is won, and how far a capture or the end of play is. It takes twelve bytes, as
/// the greater fields come first.
#[derive(Clone, Copy, Debug, Default, PartialEq, Eq)]
pub struct Note {
    /// The rank of the board that the move is from.
    pub target: u32,
    /// The distance of the settled board, in plies.
    pub dist: u32,
    /// The stones on the boards of the level.
    pub level: u8,
    /// What the settled board gains or loses, in stones.
    pub gain: u8,
    /// The pit that the move plays.
    pub pit: u8,
    /// Whether the mover of the settled board wins or loses.
    pub kind: Kind,
}
