//! A page of words about a stream that the stream cannot forge.
//!
//! The words of a [`Phrase`] are static texts and numbers, in which a `"` never is; text from the
//! stream is between quotes, escaped by a [`Quote`]. A [`Page`] is made of phrases, line by line.
//! So each of its characters is safe for a terminal, and a reader finds between quotes exactly the
//! quoted texts: the law [`quotes_are_found`] says so.
//!
//! ```text
//! let mut phrase = page.phrase();
//! phrase.add_quoted("text ", b"a\"\x1b");
//! page.push(&phrase);
//! page.end_line();       // text "a\"\x1b"
//! ```
#![tactic(auto)]

mod columns;
mod escaped;
mod hidden;
mod laws;
mod member;
mod name;
mod page;
mod phrase;
mod plain;
mod quote;
mod quoted;
mod room;
mod short_base64;

pub use laws::quotes_are_found;
pub use member::Member;
pub use name::{Key, Name};
pub use page::{Color, Page};
pub use phrase::Phrase;
pub use quote::Quote;
