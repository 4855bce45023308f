//! A filter of the revealed text of a stream.
ghost use Rattle.std.specs.Prelude.{◌≡◌, ℕ, List, [], string_bytes};
ghost use Rattle.caret_notation.specs.Fed.{HasConsumed};
ghost use Rattle.caret_notation.specs.Through.{GivesThrough, OnlyAdds, through, through_whole};

use crate::reveal::Reveal;
use esc_filter::{Admit, StreamFilter};
use std::alloc::{AllocError, Allocator, Global};

/// Takes a stream, and gives a filter the text that a [`Reveal`] makes of it. So the filter writes
/// its own text of a stream, whatever the reveal does: nothing is written that it would not write.
#[derive(Drop)]
pub struct Revealing<F, P, A: Allocator = Global> {
    reveal: Reveal<P, A>,
    filter: F,
    // the text that the last call added
    text: String<A>,
}

impl<F: StreamFilter<A>, P: Admit<A>, A: Allocator + Copy> Revealing<F, P, A> {
    /// This filter of the text of this reveal; both are at the beginning of a stream. Takes no
    /// memory.
    pub fn new(alloc: A, reveal: Reveal<P, A>, filter: F) -> Revealing<F, P, A>
        ensures reveal { result.reveal ≡ reveal }
        ensures filter { result.filter ≡ filter }
        ensures empty { string_bytes result.text ≡ [] }
        ensures begins { (m c : List ℕ → List ℕ) → F.gives filter m c []
            → OnlyAdds F.StreamFilter m c
            → HasConsumed [] reveal → GivesThrough F.StreamFilter P.Admit result.reveal
            result.filter
            (through P.Admit reveal.rule m) (through_whole P.Admit reveal.rule c) [] }
    {
        Revealing {
            reveal,
            filter,
            text: String::new(alloc),
        }
    }
}

impl<F: StreamFilter<A>, P: Admit<A>, A: Allocator + Copy> StreamFilter<A> for Revealing<F, P, A> {
    ghost gives = { λ f m c s. GivesThrough F.StreamFilter P.Admit f.reveal f.filter m c s };

    ghost added = { λ f. string_bytes f.text };

    ghost has_ended = { λ f _ _. (c : List ℕ → List ℕ) × (s : List ℕ)
        × F.has_ended f.filter c s };

    fn feed(&mut self, bytes: &[u8]) -> Result<(), AllocError> {
        self.text.clear();
        self.reveal.feed(bytes)?;
        self.filter.feed(self.reveal.output())?;
        fallible_alloc::push_str(&mut self.text, self.filter.output())
    }

    fn finish(&mut self) -> Result<(), AllocError> {
        self.text.clear();
        self.reveal.finish()?;
        self.filter.feed(self.reveal.output())?;
        fallible_alloc::push_str(&mut self.text, self.filter.output())?;
        self.filter.finish()?;
        fallible_alloc::push_str(&mut self.text, self.filter.output())
    }

    fn output(&self) -> &str {
        self.text.as_str()
    }
}
