//! A page of a filter, with each line in an element.
ghost use Rattle.std.specs.Prelude.{◌≡◌, ℕ, List, []};
ghost use Rattle.esc_decode.specs.Decodings.{OnlyAdds};
ghost use Rattle.esc_html.specs.Lining.{added_in};
ghost use Rattle.eschtml.specs.Lined.{FeedsLines, ended_in, going_in};

use esc_filter::StreamFilter;
use esc_html::LineWriter;
use std::alloc::{AllocError, Allocator, Global};

/// Feeds a stream to a filter whose text is a page, and makes elements of its lines.
#[derive(Drop)]
pub struct Lined<F, A: Allocator = Global> {
    filter: F,
    lines: LineWriter<A>,
}

impl<F: StreamFilter<A>, A: Allocator + Copy> Lined<F, A> {
    /// This filter, and lines, the first of which has this number. Takes no memory.
    pub fn new(alloc: A, first: u64, filter: F) -> Lined<F, A>
        ensures filter { result.filter ≡ filter }
        ensures begins { (m c : List ℕ → List ℕ) → F.gives filter m c [] → m [] ≡ []
            → OnlyAdds m c
            → FeedsLines F.StreamFilter result (going_in first m) (ended_in first c) [] }
    {
        Lined {
            filter,
            lines: LineWriter::new(alloc, first),
        }
    }
}

impl<F: StreamFilter<A>, A: Allocator + Copy> StreamFilter<A> for Lined<F, A> {
    ghost gives = { λ f m c s. FeedsLines F.StreamFilter f m c s };

    ghost added = { λ f. added_in f.lines };

    ghost has_ended = { λ _ _ _. Unit {0} };

    fn feed(&mut self, bytes: &[u8]) -> Result<(), AllocError> {
        self.filter.feed(bytes)?;
        self.lines.feed(self.filter.output())
    }

    fn finish(&mut self) -> Result<(), AllocError> {
        self.filter.finish()?;
        self.lines.finish(self.filter.output())
    }

    fn output(&self) -> &str {
        self.lines.output()
    }
}
