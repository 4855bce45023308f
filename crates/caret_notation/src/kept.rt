//! The bytes that are kept of a span that has not ended.
ghost use Rattle.std.specs.Prelude.{◌<◌, ◌+◌, ◌≡◌, ◌++◌, ◌↔◌, ℕ, List, [], length, nat_le, true, false, IsTrue, MatchOption, OnErr, OnOk};
ghost use Rattle.caret_notation.specs.Grown.{Grows, Keeps};
ghost use Rattle.caret_notation.specs.Visible.{rest_text, shown_text};
ghost use Rattle.fallible_alloc.specs.Refusals.{Refused};

use crate::marking::Marking;
use crate::shown::{push_runs, push_shown};
use crate::visible::push_stray;
use esc_frame::utf8::sequence::Pending;
use std::alloc::{AllocError, Allocator, Global};

/// The bytes of a span, as long as they are within a limit. A longer span was shown already, and
/// only the first bytes of a begun character are kept.
#[derive(Drop)]
pub(crate) struct Kept<A: Allocator = Global> {
    span: Vec<u8, A>,
    is_over: bool,
    begun: Pending,
}

impl<A: Allocator> Kept<A> {
    /// Returns an empty span. Takes no memory.
    pub fn new(alloc: A) -> Kept<A>
        ensures { (limit : ℕ) → Keeps limit [] result }
    {
        Kept {
            span: Vec::new(alloc),
            is_over: false,
            begun: Pending::Nothing,
        }
    }

    /// Returns whether no byte of a span has come.
    #[inline]
    pub fn is_empty(&self) -> bool
        ensures { (limit : ℕ) (r : List ℕ) → Keeps limit r self.now → IsTrue result ↔ (r ≡ []) }
    {
        !self.is_over && self.span.is_empty()
    }

    /// Takes more bytes. If the span is longer than the limit now they are shown at once.
    pub fn extend(
        &mut self,
        marking: Marking,
        limit: usize,
        bytes: &[u8],
        text: &mut Vec<u8, A>,
    ) -> Result<(), AllocError>
        ensures given { (r : List ℕ) → Keeps limit r self.old → OnOk result
            (Keeps limit (r ++ bytes.now) self.new
            × Grows text.old.items text.new.items (rest_text marking limit r)
            (rest_text marking limit (r ++ bytes.now))) }
        ensures refused { OnErr result (Refused A) }
    {
        if self.is_over {
            self.begun = push_runs(text, self.begun, bytes)?;
            return Ok(());
        }
        let length = self.span.len() + bytes.len();
        if length <= limit {
            return fallible_alloc::extend(&mut self.span, bytes);
        }
        self.overflow(marking, bytes, text)
    }

    // Takes bytes with which the span is longer than the limit.
    fn overflow(
        &mut self,
        marking: Marking,
        bytes: &[u8],
        text: &mut Vec<u8, A>,
    ) -> Result<(), AllocError>
        requires { self.old.is_over ≡ false }
        ensures given { (limit : ℕ) (r : List ℕ) → Keeps limit r self.old
            → limit < length r + length bytes.now → OnOk result
            (Keeps limit (r ++ bytes.now) self.new
            × Grows text.old.items text.new.items (rest_text marking limit r)
            (rest_text marking limit (r ++ bytes.now))) }
        ensures refused { OnErr result (Refused A) }
    {
        fallible_alloc::extend(text, marking.opening())?;
        let begun = push_runs(text, Pending::Nothing, &self.span)?;
        self.begun = push_runs(text, begun, bytes)?;
        self.is_over = true;
        self.span.clear();
        Ok(())
    }

    /// Returns the bytes, if the span is within the limit.
    pub fn span(&self) -> Option<&[u8]>
        ensures { (limit : ℕ) (r : List ℕ) → Keeps limit r self.now → MatchOption result
            (nat_le (length r) limit ≡ false)
            (λ p. (p.now ≡ r) × (nat_le (length r) limit ≡ true)) }
    {
        if self.is_over { None } else { Some(&self.span) }
    }

    /// Shows the part of the span that was not shown yet, in this way. Nothing is kept then.
    pub fn show(&mut self, marking: Marking, text: &mut Vec<u8, A>) -> Result<(), AllocError>
        ensures given { (limit : ℕ) (r : List ℕ) → Keeps limit r self.old → OnOk result
            (Keeps limit [] self.new
            × Grows text.old.items text.new.items (rest_text marking limit r)
            (shown_text marking r)) }
        ensures refused { OnErr result (Refused A) }
    {
        if self.is_over {
            push_stray(text, self.begun)?;
            fallible_alloc::extend(text, marking.closing())?;
            self.clear();
            return Ok(());
        }
        push_shown(text, marking, &self.span)?;
        self.clear();
        Ok(())
    }

    /// Writes the span, which is within the limit, as it came. Nothing is kept then.
    pub fn write(&mut self, text: &mut Vec<u8, A>) -> Result<(), AllocError>
        ensures given { (m : Marking) (limit : ℕ) (r : List ℕ) → Keeps limit r self.old
            → nat_le (length r) limit ≡ true → OnOk result (Keeps limit [] self.new
            × Grows text.old.items text.new.items (rest_text m limit r) r) }
        ensures refused { OnErr result (Refused A) }
    {
        fallible_alloc::extend(text, &self.span)?;
        self.clear();
        Ok(())
    }

    // Keeps nothing.
    fn clear(&mut self)
        ensures { (limit : ℕ) → Keeps limit [] self.new }
    {
        self.span.clear();
        self.is_over = false;
        self.begun = Pending::Nothing;
    }
}
