//! One filter or another.

use esc_filter::StreamFilter;
use std::alloc::{AllocError, Allocator};

/// One filter or another, as a taker of a stream in chunks.
#[derive(Drop)]
pub enum Either<F, G> {
    /// The one.
    First(F),
    /// The other.
    Second(G),
}

impl<F: StreamFilter<A>, G: StreamFilter<A>, A: Allocator> StreamFilter<A> for Either<F, G> {
    ghost use Rattle.esc_sanitize.specs.Chains.{added_either, ended_either, gives_either};

    ghost gives = { λ f m c s. gives_either F.StreamFilter G.StreamFilter f m c s };

    ghost added = { λ f. added_either F.StreamFilter G.StreamFilter f };

    ghost has_ended = { λ f c s. ended_either F.StreamFilter G.StreamFilter f c s };

    fn feed(&mut self, bytes: &[u8]) -> Result<(), AllocError> {
        match self {
            Either::First(filter) => filter.feed(bytes),
            Either::Second(filter) => filter.feed(bytes),
        }
    }

    fn finish(&mut self) -> Result<(), AllocError> {
        match self {
            Either::First(filter) => filter.finish(),
            Either::Second(filter) => filter.finish(),
        }
    }

    fn output(&self) -> &str {
        match self {
            Either::First(filter) => filter.output(),
            Either::Second(filter) => filter.output(),
        }
    }
}
