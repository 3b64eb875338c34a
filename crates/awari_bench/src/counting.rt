//! What is counted of the calls.

/// What a round of a call adds up to.
#[derive(Clone, Copy)]
pub(crate) struct Counted {
    pub calls: u64,
    pub total: u64,
}

impl Counted {
    pub(crate) const NONE: Counted = Counted { calls: 0, total: 0 };

    pub(crate) fn add(&mut self, number: u64) {
        self.calls = self.calls.wrapping_add(1);
        self.total = self.total.wrapping_add(number);
    }
}
