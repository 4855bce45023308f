//! The hearers of a stream and of its text.
#![tactic(auto)]

ghost use Rattle.std.specs.Prelude.{◌≡◌, ◌++◌, ℕ, List, OnErr, OnOk};
ghost use Rattle.fallible_alloc.specs.Refusals.{Refused};
ghost use Rattle.esc_account.specs.Ways.{Way};

use std::alloc::{AllocError, Allocator};

/// Hears the bytes of a stream as they come, each time with the text that a filter wrote of them: a
/// [`LineLedger`](crate::LineLedger) or a [`Ledger`](crate::Ledger).
pub trait Tap<A: Allocator> {
    // it heard this stream, of which this text was written
    ghost heard: { Self → List ℕ → List ℕ → Type 0 };

    // the same of one that has ended
    ghost heard_all: { Self → List ℕ → List ℕ → Type 0 };

    // its settings, which stay
    ghost goes_by: { Self → Way };

    /// Hears bytes more, and the text that was written of them. `AllocError` says that a request
    /// for memory was refused.
    fn hear(&mut self, bytes: &[u8], text: &str) -> Result<(), AllocError>
        ensures heard { (s t : List ℕ) → heard self.old s t
            → OnOk result (heard self.new (s ++ bytes.now) (t ++ text.now)) }
        ensures keeps { goes_by self.new ≡ goes_by self.old }
        ensures refused { OnErr result (Refused A) };

    /// Hears that the stream has ended, and the text that was written at its end.
    fn hear_end(&mut self, text: &str) -> Result<(), AllocError>
        ensures ended { (s t : List ℕ) → heard self.old s t
            → OnOk result (heard_all self.new s (t ++ text.now)) }
        ensures keeps { goes_by self.new ≡ goes_by self.old }
        ensures refused { OnErr result (Refused A) };
}

// A lent tap.
impl<K: Tap<A>, A: Allocator> Tap<A> for &mut K {
    ghost heard = { λ k s t. K.heard k.now s t };

    ghost heard_all = { λ k s t. K.heard_all k.now s t };

    ghost goes_by = { λ k. K.goes_by k.now };

    fn hear(&mut self, bytes: &[u8], text: &str) -> Result<(), AllocError> {
        (**self).hear(bytes, text)
    }

    fn hear_end(&mut self, text: &str) -> Result<(), AllocError> {
        (**self).hear_end(text)
    }
}
