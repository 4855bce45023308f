//! This crate writes the text of a stream's meaning: [`normal_text`], [`normalise`] and
//! [`is_normal`]; the same as it comes, [`normalise_stream`], and chunk by chunk, [`Normaliser`];
//! and [`TextSink`], the sink that writes the actions that it takes.
//!
//! The parser of `esc_parse` gives its actions to the writer of `esc_write`, with no list of
//! actions in between. A [`StreamFilter`] takes a stream in chunks and has the text of each, as a
//! normaliser or a filter, and [`pump`] runs it from a reader to a writer. A part of
//! `escape_stream`.
//!
//! ```text
//! let mut normaliser = Normaliser::new(alloc, None);
//! normaliser.feed(b"\x1b]0;title\x07x")?;
//! normaliser.output()     // "\x1b]0;title\x1b\\x"
//! ```
#![tactic(auto)]

mod feeding;
mod filter_error;
mod filtering;
mod normalisation;
mod normalise_error;
mod normaliser;
mod spell;
mod streaming;
mod watched;

pub use feeding::StreamFilter;
pub use filter_error::FilterError;
pub use filtering::{MOST_READS, pump};
pub use normalisation::{is_normal, is_normal_limited, normal_text, normalise, normalise_limited};
pub use normalise_error::{NormaliseError, same_normalise_error};
pub use normaliser::Normaliser;
pub use spell::TextSink;
pub use streaming::normalise_stream;
pub use watched::Watched;
