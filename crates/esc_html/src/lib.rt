//! Streams as HTML that cannot come alive in a page (WHATWG HTML,
//! <https://html.spec.whatwg.org/multipage/parsing.html#tokenization>).
//!
//! [`HtmlWriter`] takes a stream in parts and gives the HTML of each: its characters, tabs and
//! lines, in spans of their looks and in links to safe addresses.
//!
//! ```text
//! let mut writer = HtmlWriter::new(alloc, 65_536, false);
//! writer.feed(b"\x1b[1;31m<b>")?;
//! writer.output()     // "<span class=\"es-bold es-fg-red\">&lt;b&gt;"
//! writer.finish()     // "</span>"
//! ```
//!
//! The output is the text of parts: runs of characters, spans whose classes are of a fixed list and
//! whose styles are colours by numbers, and links. The laws in [`laws`] say that a browser's
//! tokenizer reads from it these parts and nothing else, whatever the stream is, and that the page
//! shows exactly the characters of the stream with their looks and links.
#![tactic(auto)]

mod address;
mod address_parts;
mod bare;
mod breaks;
mod character;
mod colored;
mod escaping;
pub mod html_writer;
mod inline;
pub mod laws;
mod layout;
mod line_writer;
mod mark;
mod markup;
mod page;
mod page_look;
mod page_tags;
mod pair;
mod passing;
mod plain;
mod renditions;
mod shades;
mod shown;
mod tag;
mod tags;
mod writing;

pub use address::is_safe_address;
pub use esc_style::{Class, Color, Look, Style, palette};
pub use html_writer::HtmlWriter;
pub use layout::Layout;
pub use line_writer::LineWriter;
pub use shades::is_deep;
pub use shown::is_shown;
pub use writing::{close_link, close_span, open_link, open_span, push_text};
