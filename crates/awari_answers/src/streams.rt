//! The streams of a program.

/// What a program reads, what it prints, and where it tells what is wrong.
#[derive(Drop)]
pub struct Streams<R, W, E> {
    /// The text that `check` reads, and the requests to a service.
    pub input: R,
    /// Where the answers go.
    pub output: W,
    /// Where the texts of `clap` go, how far a build is, and remarks on an answer.
    pub errors: E,
}
