//! What owners do, one at a time.

/// An event of a core.
#[derive(Clone, Copy, Debug, PartialEq, Eq)]
pub enum Event {
    /// The first fresh board of this owner is spread.
    Spread(u8),
    /// The first batch of the first owner's outbox for the second is put on the ring to it.
    Send(u8, u8),
    /// The first batch on the ring from the first owner is taken by the second.
    Take(u8, u8),
}
