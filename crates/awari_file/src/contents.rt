//! What stands in the file of a level.

use awari_table::Image;

/// What stands before the entries.
#[derive(Clone, Copy)]
pub struct Header {
    /// The version, which sets the highest level that the file may have.
    pub version: u16,
    /// The level, in stones.
    pub level: u8,
    /// The greatest distance, in plies.
    pub limit: u32,
    /// The digest that the file gives for the file of the level below, zeros for level 0.
    pub below: [u8; 32],
}

/// What was read from the file of a level. The file's form and digest are right; what it says of
/// boards is unchecked.
#[derive(Debug, Drop)]
pub struct Loaded {
    /// The version of the file: 2, or 1 for older tables, whose distances only had to fall.
    pub version: u16,
    /// The level, and what is said of its boards.
    pub image: Image,
    /// The digest that the file gives for the file of the level below, zeros for level 0.
    pub below: [u8; 32],
    /// The last 32 bytes of the file, which are the SHA-256 of all before them.
    pub digest: [u8; 32],
}
