//! A filter of the text of another.
ghost use Rattle.std.specs.Prelude.{ℕ, ◌≡◌, List, [], string_bytes};
ghost use Rattle.esc_decode.specs.Decodings.{OnlyAdds};
ghost use Rattle.eschtml.specs.Piped.{Pipes, composition};

use esc_filter::StreamFilter;
use std::alloc::{AllocError, Allocator, Global};

/// Feeds a stream to a filter, and the text of that to a second.
#[derive(Drop)]
pub struct Piped<F, G, A: Allocator = Global> {
    first: F,
    /// The second filter.
    pub second: G,
    // the text that the last call added
    text: String<A>,
}

impl<F: StreamFilter<A>, G: StreamFilter<A>, A: Allocator> Piped<F, G, A> {
    /// These filters. Takes no memory.
    pub fn new(alloc: A, first: F, second: G) -> Piped<F, G, A>
        ensures filters { (result.first ≡ first) × (result.second ≡ second) }
        ensures begins { (m c n d : List ℕ → List ℕ) → F.gives first m c [] → m [] ≡ []
            → G.gives second n d [] → OnlyAdds n d
            → Pipes F.StreamFilter G.StreamFilter result.first result.second (composition n m)
            (composition d c) [] }
    {
        Piped {
            first,
            second,
            text: String::new(alloc),
        }
    }
}

impl<F: StreamFilter<A>, G: StreamFilter<A>, A: Allocator> StreamFilter<A> for Piped<F, G, A> {
    ghost gives = { λ f m c s. Pipes F.StreamFilter G.StreamFilter f.first f.second m c s };

    ghost added = { λ f. string_bytes f.text };

    ghost has_ended = { λ _ _ _. Unit {0} };

    fn feed(&mut self, bytes: &[u8]) -> Result<(), AllocError> {
        self.text.clear();
        match self.first.feed(bytes) {
            Ok(()) => {}
            Err(error) => return Err(error),
        }
        match self.second.feed(self.first.output().as_bytes()) {
            Ok(()) => fallible_alloc::push_str(&mut self.text, self.second.output()),
            Err(error) => Err(error),
        }
    }

    fn finish(&mut self) -> Result<(), AllocError> {
        self.text.clear();
        match self.first.finish() {
            Ok(()) => {}
            Err(error) => return Err(error),
        }
        match self.second.feed(self.first.output().as_bytes()) {
            Ok(()) => {}
            Err(error) => return Err(error),
        }
        match fallible_alloc::push_str(&mut self.text, self.second.output()) {
            Ok(()) => {}
            Err(error) => return Err(error),
        }
        match self.second.finish() {
            Ok(()) => fallible_alloc::push_str(&mut self.text, self.second.output()),
            Err(error) => Err(error),
        }
    }

    fn output(&self) -> &str {
        self.text.as_str()
    }
}
