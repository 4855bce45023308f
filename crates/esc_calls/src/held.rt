//! A block that C holds the pointer of.
ghost use Rattle.std.specs.Prelude.{◌≡◌, ◌≢◌, None, Option, Some};
ghost use Rattle.esc_calls.specs.declared.kept.Kept.{Kept};
ghost use Rattle.esc_calls.specs.Held.{held_owns, kept_coded};

use crate::kept::Kept;
use crate::parts::Parts;
use std::alloc::Global;
use std::marker::Model;
use std::ptr;

/// A block with the kept value, or none. Its drop forgets the block.
#[repr(C)]
#[derive(Drop)]
pub struct Held {
    at: *mut u8,
    pub ghost kept: { Option Kept } by { kept_coded },
}

impl Model for Held {
    ghost also_owns = { λ h. held_owns h.at h.kept };
}

impl Held {
    /// Returns a holder of no block.
    pub(crate) fn none() -> Held
        ensures { result.kept ≡ None }
    {
        Held {
            at: ptr::null_mut(),
        }
    }

    /// Returns the block of these parts.
    pub(crate) fn of_parts(parts: Parts<Kept, Global>) -> Held
        ensures { result.kept ≡ Some parts.value }
    {
        let Parts { ptr, alloc: _ } = parts;
        Held { at: ptr as *mut u8 }
    }

    /// Returns the parts of the block, if there is one.
    pub(crate) fn into_parts(self, alloc: Global) -> Parts<Kept, Global>
        requires { self.kept ≢ None }
        ensures { self.kept ≡ Some result.value }
    {
        let Held { at } = self;
        Parts {
            ptr: at as *mut Kept,
            alloc,
        }
    }
}
