//! Filters that take a stream in chunks, and have the text of each.
ghost use Rattle.std.specs.Prelude.{◌≡◌, ◌++◌, ℕ, List, OnErr, OnOk};
ghost use Rattle.fallible_alloc.specs.Refusals.{Refused};

use std::alloc::{AllocError, Allocator};

/// Takes a stream in any chunks, and has the text that each adds, and the text that its end adds.
pub trait StreamFilter<A: Allocator> {
    // it gives the first texts for streams that go on, and the second for those that have ended,
    // and was fed this stream
    ghost gives: { Self → (List ℕ → List ℕ) → (List ℕ → List ℕ) → List ℕ → Type 0 };

    // the text that the bytes fed last added
    ghost added: { Self → List ℕ };

    // its stream has ended: it was this one, and this is the text of one that has ended
    ghost has_ended: { Self → (List ℕ → List ℕ) → List ℕ → Type 0 };

    /// Takes bytes more.
    fn feed(&mut self, bytes: &[u8]) -> Result<(), AllocError>
        ensures given { (m c : List ℕ → List ℕ) (s : List ℕ) → gives self.old m c s
            → OnOk result (gives self.new m c (s ++ bytes.now)
            × (m (s ++ bytes.now) ≡ m s ++ added self.new)) }
        ensures longer { (m c : List ℕ → List ℕ) (s : List ℕ) → gives self.old m c s
            → (t : List ℕ) × (m (s ++ bytes.now) ≡ m s ++ t) }
        ensures refused { (m c : List ℕ → List ℕ) (s : List ℕ) → gives self.old m c s
            → OnErr result (Refused A) };

    /// Ends the stream.
    fn finish(&mut self) -> Result<(), AllocError>
        ensures ended { (m c : List ℕ → List ℕ) (s : List ℕ) → gives self.old m c s
            → OnOk result (c s ≡ m s ++ added self.new) }
        ensures closed { (m c : List ℕ → List ℕ) (s : List ℕ) → gives self.old m c s
            → OnOk result (has_ended self.new c s) }
        ensures longer { (m c : List ℕ → List ℕ) (s : List ℕ) → gives self.old m c s
            → (t : List ℕ) × (c s ≡ m s ++ t) }
        ensures refused { (m c : List ℕ → List ℕ) (s : List ℕ) → gives self.old m c s
            → OnErr result (Refused A) };

    /// Returns the text that the last call added.
    fn output(&self) -> &str
        ensures { result.now ≡ added self.now };
}
