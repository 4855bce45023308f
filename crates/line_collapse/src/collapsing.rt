//! A filter, and the rest of the lines of its text.
ghost use Rattle.std.specs.Prelude.{ℕ, ◌≡◌, List, [], IfOk, OnErr, max};
ghost use Rattle.line_collapse.specs.Fed.{IsFed, HasConsumed, final_after, left_after};
ghost use Rattle.line_collapse.specs.Fed.{added_by as added_by_collapse};
ghost use Rattle.line_collapse.specs.Windows.{Size, window_size};
ghost use Rattle.fallible_alloc.specs.Refusals.{Refused};

use crate::collapse::LineCollapser;
use esc_filter::StreamFilter;
use std::alloc::{AllocError, Allocator, Global};

/// Feeds a stream to a filter, and gives the rest of the lines of the filter's text.
#[derive(Drop)]
pub struct Collapsing<F, A: Allocator = Global> {
    inner: F,
    collapse: LineCollapser<A>,
}

impl<F: StreamFilter<A> + Drop, A: Allocator + Copy> Collapsing<F, A> {
    /// Makes a filter of the lines that this filter leaves, which was fed nothing: the last `rows`
    /// rows, of `columns` columns at most, may be written again.
    pub fn new(
        alloc: A,
        inner: F,
        rows: usize,
        columns: usize,
    ) -> Result<Collapsing<F, A>, AllocError>
        ensures fed { IfOk result (λ f. (m c : List ℕ → List ℕ) → F.gives inner m c []
            → m [] ≡ [] → IsFed F.StreamFilter (window_size (max rows 1) columns) m c [] f) }
        ensures refused { OnErr result (Refused A) }
    {
        let collapse = LineCollapser::new(alloc, rows, columns)?;
        Ok(Collapsing { inner, collapse })
    }

    /// Joins this collapse to this filter; both were fed nothing. Takes no memory, so that no
    /// filter is lost for want of memory for a collapse.
    pub fn over(inner: F, collapse: LineCollapser<A>) -> Collapsing<F, A>
        ensures { (size : Size) (m c : List ℕ → List ℕ) → HasConsumed size [] collapse
            → F.gives inner m c [] → m [] ≡ [] → IsFed F.StreamFilter size m c [] result }
    {
        Collapsing { inner, collapse }
    }

    /// The filter.
    pub fn into_inner(self) -> F
        ensures { result ≡ self.inner }
    {
        let Collapsing { inner, collapse: _ } = self;
        inner
    }
}

impl<F: StreamFilter<A> + Drop, A: Allocator + Copy> StreamFilter<A> for Collapsing<F, A> {
    ghost gives = { λ f m c s. (size : Size) × (of_filter ended : List ℕ → List ℕ)
        × IsFed F.StreamFilter size of_filter ended s f
        × (m ≡ final_after A size of_filter) × (c ≡ left_after A size ended) };

    ghost added = { λ f. added_by_collapse f.collapse };

    ghost has_ended = { λ f _ s. (c : List ℕ → List ℕ) × F.has_ended f.inner c s };

    fn feed(&mut self, bytes: &[u8]) -> Result<(), AllocError> {
        self.inner.feed(bytes)?;
        self.collapse.feed(self.inner.output().as_bytes())
    }

    fn finish(&mut self) -> Result<(), AllocError> {
        self.inner.finish()?;
        self.collapse.feed_last(self.inner.output().as_bytes())
    }

    fn output(&self) -> &str {
        self.collapse.output()
    }
}
