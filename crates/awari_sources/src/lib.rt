//! Of which sources a program or a library is. `release/make` and `./awari` write this file, and the digest is of
//! all other sources, so it tells them from any others.
#![tactic(auto)]

/// The digest of the sources, in hexadecimal, as `release/MANIFEST` has it.
pub const SOURCES: &str = "e56f46f25487aae9d21e7df224f25645e683e66d632ebae2e1972f0286932794";

/// The same, with a zero byte behind it, as C ends a text.
pub const ENDED_SOURCES: &[u8] =
    b"e56f46f25487aae9d21e7df224f25645e683e66d632ebae2e1972f0286932794\0";
