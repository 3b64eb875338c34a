//! Levels for programs in other languages and for pages: a static library. C calls it by the header
//! `bindings/awari.h`, and `release/page/make` makes a module for WebAssembly of it.
//!
//! A [`Handle`] holds levels that were read from the bytes of their files and verified, or built here, so
//! what it says is right. It builds the next level a slice at a time, and answers for the others meanwhile.
//! `awari_probe_file` and `awari_probe_moves_files` look boards up in the bytes of files, where they lie; what
//! they say is right if these bytes were verified. What a caller owes is said in the header.
//!
//! A file may also be read and then verified in parts, by threads that the caller starts. Whatever they leave
//! out, `awari_accept` looks at.
//!
//! The check gives no export a `&` to a type that holds a box. So a look-up takes the levels out of its
//! handle and puts them back, and threads share levels by a handle each.
#![tactic(auto)]

mod answers;
mod boards;
mod building;
mod exports;
mod files;
mod handles;
mod held;
mod lines;
mod longest;
mod loose;
mod many;
mod reading;
mod storing;
mod telling;
mod texts;

pub use answers::{PlainEntry, PlainFault, PlainMove};
pub use boards::{awari_board, awari_legal, awari_parse, awari_play, awari_rank, awari_size};
pub use building::{awari_begin, awari_finish, awari_spread};
pub use exports::{
    awari_add_level, awari_close, awari_counts, awari_levels, awari_probe, awari_probe_moves,
    awari_probe_value, awari_share_with,
};
pub use files::{awari_check_file, awari_probe_file, awari_probe_moves_files};
pub use handles::Handle;
pub use held::Held;
pub use lines::awari_line;
pub use longest::awari_longest_line;
pub use many::awari_probe_many;
pub use reading::{awari_accept, awari_join_with, awari_look, awari_read_level};
pub use telling::{PlainCounts, PlainDraft};
pub use texts::{awari_source_text, awari_text_of, awari_version};
