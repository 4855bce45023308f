//! The book in which the entries of an account are written.
#![tactic(auto)]

ghost use Rattle.std.specs.Prelude.{◌≡◌, ◌++◌, ◌∷◌, List, [], OnErr, OnOk};
ghost use Rattle.esc_account.specs.Entries.{Entry as Told, as_entry};
ghost use Rattle.fallible_alloc.specs.Refusals.{Refused};

use crate::entry::Entry;
use std::alloc::{AllocError, Allocator};

/// Takes the entries of an account, in order, but for those of segments that passed: a table of
/// them, or a writer of a line for each.
pub trait Book<A: Allocator> {
    // it was given these entries
    ghost was_given: { Self → List Told → Type 0 };

    /// Takes an entry. `AllocError` says that a request for memory was refused.
    fn enter(&mut self, made: Entry<'_>) -> Result<(), AllocError>
        ensures given { (es : List Told) → was_given self.old es
            → OnOk result (was_given self.new (es ++ as_entry made.entry ∷ [])) }
        ensures refused { OnErr result (Refused A) };
}

/// A book that keeps nothing, if the sums are enough.
#[derive(Clone, Copy, Debug)]
pub struct NoBook;

impl<A: Allocator> Book<A> for NoBook {
    ghost was_given = { λ _ _. Unit {0} };

    fn enter(&mut self, _made: Entry<'_>) -> Result<(), AllocError> {
        Ok(())
    }
}
