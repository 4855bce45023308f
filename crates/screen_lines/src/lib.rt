//! The text of a terminal's rows: their characters, line feeds, the sequences that make their
//! looks, and their links.
//!
//! [`Lines`] takes the rows that are scrolled off the screen of a terminal of `esc_terminal`, as
//! its sink [`Rows`](esc_terminal::Rows), and has their text.
//!
//! ```text
//! let (result, lines) = terminal.feed_into(bytes, Lines::new(alloc, Unicode::Join));
//! lines.as_str()    // "\u{1b}[0;31mred\u{1b}[0m\nplain"
//! ```
#![tactic(auto)]

mod cells;
mod going;
mod hidden;
mod ink;
pub mod laws;
mod leads;
pub mod lines;
mod run;
mod spelling;
pub mod state;

pub use hidden::are_hidden;
pub use lines::Lines;
pub use state::State;
