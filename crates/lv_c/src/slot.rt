//! A box as the pointer to it, or none.

ghost use Rattle.std.specs.Prelude.{◌≡◌, Option, Some, None, IsSome};
ghost use Rattle.lv_c.specs.declared.held.Held.{Held as HeldValue};
ghost use Rattle.lv_c.specs.HandleContent.{content_owns, held_coded};

use crate::held::Held;
use loose::Loose;
use std::alloc::Global;
use std::marker::Model;
use std::ptr::null_mut;

/// A box as the pointer to it, or none. The pointer is without a type, since one to a `Held` can't be passed to C. Its
/// functions are proved by hand, and only they make or read the pointer.
#[repr(C)]
pub struct HandleContent {
    at: *mut (),
    alloc: Global,
    pub ghost value: { Option HeldValue } by { held_coded },
}

impl Model for HandleContent {
    ghost also_owns = { λ s. content_owns s.alloc s.at s.value };
}

impl HandleContent {
    pub fn empty(alloc: Global) -> HandleContent
        ensures { result.value ≡ None }
    {
        HandleContent {
            at: null_mut(),
            alloc,
        }
    }

    pub fn of(loose: Loose<Held, Global>) -> HandleContent
        ensures { result.value ≡ Some loose.value }
    {
        let Loose { at, alloc } = loose;
        HandleContent {
            at: at as *mut (),
            alloc,
        }
    }

    pub fn into_loose(self) -> Loose<Held, Global>
        requires { IsSome self.value }
        ensures { self.value ≡ Some result.value }
    {
        let HandleContent { at, alloc } = self;
        Loose {
            at: at as *mut Held,
            alloc,
        }
    }

    /// Drops an empty slot, which owns nothing.
    pub fn forget(self)
        requires { self.value ≡ None }
    {
        let HandleContent { at: _, alloc: _ } = self;
    }
}
