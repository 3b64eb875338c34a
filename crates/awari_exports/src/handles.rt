//! What a program holds from one call to the next.

ghost use Rattle.std.specs.Prelude.{◌≡◌, true, false, Some, None, option_map};
ghost use Rattle.awari_exports.specs.Held.{HeldView};
ghost use Rattle.awari_exports.specs.Owned.{held_in};

use crate::held::Held;
use crate::loose::Loose;
use std::alloc::Global;
use std::marker::Model;
use std::mem::replace;
use std::ptr::null_mut;

/// Levels on the heap while it is open, and nothing while it is closed. All zeros are a handle that is
/// closed.
#[repr(C)]
#[derive(Drop)]
pub struct Handle {
    at: *mut u8,
    is_open: bool,
    pub ghost held: { HeldView },
}

impl Model for Handle {
    ghost use Rattle.awari_exports.specs.Held.{HeldView};
    ghost use Rattle.awari_exports.specs.Owned.{owned};

    ghost also_owns = { λ h. owned h.is_open h.at h.held };
}

// C gives a handle to another thread.
unsafe impl Send for Handle {}

impl Handle {
    ghost use Rattle.awari_exports.specs.Owned.{held_in};

    /// The handle that holds no levels.
    pub(crate) fn closed() -> Handle
        ensures { result.is_open ≡ false }
    {
        Handle {
            at: null_mut(),
            is_open: false,
        }
    }

    /// The handle that holds these levels.
    fn holding(loose: Loose<Held, Global>) -> Handle
        ensures { (result.is_open ≡ true) × (result.held ≡ loose.value) }
    {
        let Loose { at, alloc: _ } = loose;
        Handle {
            at: at as *mut u8,
            is_open: true,
        }
    }

    /// The levels that the handle holds, none while it is closed.
    fn into_loose(self, alloc: Global) -> Option<Loose<Held, Global>>
        ensures { option_map (λ l. l.value) result ≡ held_in self.is_open self.held }
    {
        let Handle { at, is_open } = self;
        if is_open {
            let at = at as *mut Held;
            Some(Loose { at, alloc })
        } else {
            None
        }
    }
}

/// Takes the levels out of the handle, which is closed then.
pub(crate) fn take(handle: &mut Handle, alloc: Global) -> Option<Box<Held>>
    ensures held { option_map (λ b. b.value) result ≡ held_in handle.old.is_open handle.old.held }
    ensures closed { handle.new.is_open ≡ false }
{
    let held = replace(handle, Handle::closed());
    let loose = held.into_loose(alloc)?;
    Some(loose.into_box())
}

/// Puts levels into a handle. What the handle held before is left where it is, so the handle is to
/// be closed.
pub(crate) fn put(handle: &mut Handle, held: Box<Held>)
    ensures open { handle.new.is_open ≡ true }
    ensures held { handle.new.held ≡ held.value }
{
    *handle = Handle::holding(Loose::of(held));
}
