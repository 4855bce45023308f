//! A stream in chunks, as C holds it.
ghost use Rattle.std.specs.Prelude.{◌≡◌, IfSome, None, Option, Some, false};
ghost use Rattle.esc_calls.specs.Held.{is_there};

use crate::held::Held;
use crate::kept::Kept;
use crate::parts::Parts;
use std::alloc::Global;
use std::mem;

/// A filter, a page, a normaliser or a sanitizer of a stream that comes in chunks, in the memory of
/// its caller.
#[repr(C)]
#[derive(Drop)]
pub struct InChunks {
    /// Says whether it has begun, and not ended.
    pub is_begun: bool,
    /// The state that it keeps.
    pub held: Held,
    ghost known: { is_begun ≡ is_there held.kept },
}

impl InChunks {
    /// Returns one that keeps this state.
    pub(crate) fn of(kept: Box<Kept>) -> InChunks
        ensures begun { result.held.kept ≡ Some kept.value }
    {
        InChunks {
            is_begun: true,
            held: Held::of_parts(Parts::of(kept)),
        }
    }

    /// Returns the state that it keeps, if it has begun.
    pub(crate) fn into_kept(self, alloc: Global) -> Option<Box<Kept>>
        ensures some { IfSome result (λ kept. self.held.kept ≡ Some kept.value) }
        ensures none { result ≡ None → self.held.kept ≡ None }
        ensures begun { self.is_begun ≡ is_there result }
    {
        let InChunks { is_begun, held } = self;
        if is_begun {
            Some(held.into_parts(alloc).into_box())
        } else {
            None
        }
    }

    /// Ends it, and returns the state that it kept, if it had begun.
    pub(crate) fn take(&mut self, alloc: Global) -> Option<Box<Kept>>
        ensures some { IfSome result (λ kept. self.old.held.kept ≡ Some kept.value) }
        ensures none { result ≡ None → self.old.held.kept ≡ None }
        ensures begun { self.old.is_begun ≡ is_there result }
        ensures ended { self.new.is_begun ≡ false }
    {
        let ended = InChunks {
            is_begun: false,
            held: Held::none(),
        };
        mem::replace(self, ended).into_kept(alloc)
    }
}
