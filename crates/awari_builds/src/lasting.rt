//! Whether a service lasts, as the thread that builds beside it hears it.

ghost use Rattle.std.specs.Prelude.{⊤};

use awari_heard::{Progress, Stage};
use rtrb::{Consumer, Producer, RingBuffer};
use std::alloc::{AllocError, Global};

/// What a service keeps as long as it lasts. Nothing is sent over it.
pub(crate) type Service = Producer<bool>;

/// Wants levels as long as a service lasts, which is until its `Service` is dropped.
#[derive(Drop)]
pub(crate) struct WhileServed {
    service: Consumer<bool>,
}

/// What a service keeps, and what wants levels until that is dropped. It takes memory for one ring.
pub(crate) fn lasting_service(alloc: Global) -> Result<(Service, WhileServed), AllocError> {
    let (kept, service) = RingBuffer::new(alloc, 1)?;
    Ok((kept, WhileServed { service }))
}

impl Progress for WhileServed {
    ghost use Rattle.std.specs.Prelude.{◌≡◌};

    ghost stops = { ⊤ };

    ghost hears = { λ old _ new. new ≡ old };

    fn hear(&mut self, _told: Stage) {}

    fn is_wanted(&mut self) -> bool {
        !self.service.is_abandoned()
    }
}
