//! What a worker enters at the start of each of its sweeps.

/// What the workers of a round pass through at the start of each sweep, so that a test can watch
/// them. A gate that holds each sweep of a build holds the build for ever.
pub trait Gate {
    /// The worker of this owner begins a sweep.
    fn enter(&self, owner: u8);
}

/// The gate that does nothing.
pub struct Open;

impl Gate for Open {
    fn enter(&self, _owner: u8) {}
}
