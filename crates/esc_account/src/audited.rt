//! A filter, and an audience of its output.
#![tactic(auto)]

use crate::audience::Tap;
use esc_normal::StreamFilter;
use std::alloc::{AllocError, Allocator};

/// Feeds a stream to a filter, and tells an audience of it, and of the text that the filter has.
#[derive(Drop)]
pub struct Audited<F, K> {
    /// The filter.
    pub inner: F,
    /// The audience.
    pub audience: K,
}

impl<F: StreamFilter<A>, K: Tap<A>, A: Allocator> StreamFilter<A> for Audited<F, K> {
    ghost gives = { λ f m c s. F.gives f.inner m c s × K.heard f.audience s (m s) };

    ghost added = { λ f. F.added f.inner };

    ghost has_ended = { λ f c s. F.has_ended f.inner c s × K.heard_all f.audience s (c s) };

    fn feed(&mut self, bytes: &[u8]) -> Result<(), AllocError> {
        self.inner.feed(bytes)?;
        self.audience.hear(bytes, self.inner.output())
    }

    fn finish(&mut self) -> Result<(), AllocError> {
        self.inner.finish()?;
        self.audience.hear_end(self.inner.output())
    }

    fn output(&self) -> &str {
        self.inner.output()
    }
}
