//! Handles, which C programs hold.

ghost use Rattle.std.specs.Prelude.{◌≡◌, Option, Some, None, IsSome, MatchOption, true, false, is_some};

use crate::held::Held;
use crate::slot::HandleContent;
use loose::Loose;
use std::alloc::Global;
use std::mem;

/// What a C program holds of a session. C sets it to zeros before the first call, and changes nothing in it.
#[repr(C)]
pub struct Handle {
    pub(crate) slot: HandleContent,
    pub(crate) is_open: bool,
    ghost agrees: { is_some slot.value ≡ is_open },
}

pub fn empty(alloc: Global) -> Handle
    ensures { result.slot.value ≡ None }
{
    Handle {
        slot: HandleContent::empty(alloc),
        is_open: false,
    }
}

fn full(held: Box<Held>) -> Handle
    ensures { result.slot.value ≡ Some held.value }
{
    Handle {
        slot: HandleContent::of(Loose::of(held)),
        is_open: true,
    }
}

/// Takes the contents of a handle. The handle is empty until they are put back.
pub fn take(alloc: Global, handle: &mut Handle) -> Option<Box<Held>>
    ensures left { handle.new.slot.value ≡ None }
    ensures taken { MatchOption result (handle.old.slot.value ≡ None)
        (λ held. handle.old.slot.value ≡ Some held.value) }
{
    if !handle.is_open {
        return None;
    }
    let Handle { slot, is_open: _ } = mem::replace(handle, empty(alloc));
    Some(slot.into_loose().into_box())
}

/// Puts contents behind an empty handle.
pub fn put(handle: &mut Handle, held: Box<Held>)
    requires { handle.old.slot.value ≡ None }
    ensures { handle.new.slot.value ≡ Some held.value }
{
    let Handle { slot, is_open: _ } = mem::replace(handle, full(held));
    slot.forget();
}
