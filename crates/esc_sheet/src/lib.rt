//! This crate writes the content of a screen as text: rows, with the sequences that make their
//! looks or without; an object of JSON; the cells in which two screens differ; and the lines that a
//! terminal leaves.
//!
//! A [`Sheet`] is such a text. Each of its characters shows as itself, or belongs to the character
//! before it, as in emoji, or ends a line, or is of a sequence that makes a look (SGR) or a link
//! (OSC 8). A character that hides or reorders text is spelled.
//!
//! ```text
//! let mut sheet = Sheet::new(alloc);
//! push_rows(&mut sheet, view)?;
//! sheet.as_str()      // "done\n"
//! ```
#![tactic(auto)]

mod differences;
mod json;
mod leading;
mod log;
mod rows;
mod sheet;
mod view;

pub use differences::push_differences;
pub use json::push_object;
pub use log::Log;
pub use rows::push_rows;
pub use sheet::Sheet;
pub use view::View;
