//! The filter of the program `escfilter`, for programs of one's own: a stream in chunks, line by
//! line or as one, in its encoding; bytes that do not pass left out or shown in place; lines that
//! are written again as a terminal leaves them; and the account of every byte of it.
//!
//! [`FilterOptions`] say how a stream is filtered, and a [`Sanitizer`] filters one, chunk by chunk.
//! [`sanitize_stream`] does so from a reader to a writer.
//!
//! ```text
//! let mut sanitizer = Sanitizer::new(alloc, FilterOptions::new(Policy::Color));
//! sanitizer.feed(b"\x1b]0;title\nok\x1b[1m bo")?;
//! sanitizer.output()        // "\nok\x1b[1m bo": an unended string takes no line away
//! sanitizer.feed(b"ld\n")?;
//! sanitizer.output()        // "ld\x1b[m\n"
//! sanitizer.finish()?;
//! sanitizer.account().sums.swallowed       // 9: the title that was not ended
//! ```
#![tactic(auto)]

mod auditor;
mod chain;
mod either;
mod hearing;
mod judging;
mod laws;
mod left;
mod options;
mod sanitizer;
mod staged;
mod stream;
mod told;

pub use auditor::Auditor;
pub use chain::{Sanitizing, sanitizing};
pub use judging::Judging;
pub use laws::writes_chunks;
pub use options::FilterOptions;
pub use sanitizer::Sanitizer;
pub use stream::{Sanitized, sanitize_stream};
