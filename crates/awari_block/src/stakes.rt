//! What is open in a level while it is built.

/// What is open: how many stones are played for, and how far from the end. It changes from gain to
/// gain and from wave to wave.
#[derive(Clone, Copy)]
pub struct Stake {
    /// The stones on the boards of the level.
    pub level: u8,
    /// The open gain in stones, one more than the level if none was opened yet.
    pub gain: u8,
    /// The open wave, by its distance in plies.
    pub wave: u32,
}
