//! Actions that a filter would not admit, shown in place.
//!
//! A filter that drops all that it does not admit loses the very parts for which people read a log.
//! [`Reveal`] rewrites a stream before it is filtered: each span of it that a policy does not
//! admit becomes visible text, in the notation of `less` and `cat -v`, and the rest stays as it
//! came.
//!
//! ```text
//! let mut reveal = Reveal::new(alloc, 65_536, Policy::Color, true);
//! reveal.feed(b"ok\x1b[6n\n")?;
//! reveal.output()      // b"ok^[[6n\n"
//! ```
#![tactic(auto)]

mod judge;
mod kept;
mod laws;
mod marking;
mod reveal;
mod revealing;
mod shown;
mod silent;
mod spelled;
mod text;
mod visible;

pub use laws::{
    escaped_reads_back, kept_is_written, read_back, shown_is_written, shows_characters,
    spans_are_all, spans_are_streams, spans_end_at_ground, unmarked_reads_back,
};
pub use marking::Marking;
pub use reveal::Reveal;
pub use revealing::Revealing;
pub use shown::push_visible;
