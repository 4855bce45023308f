//! Collapses lines that are written again, as progress bars do by carriage returns, backspaces,
//! erasures and movements of the cursor, to the rows that a terminal leaves of them: those that are
//! scrolled off its screen (crate `esc_terminal`), and at the end those that are left on it.
//!
//! [`LineCollapser`] takes text in chunks, as a filter wrote it, and gives the text of the rows
//! that are final. [`Collapsing`] is a filter and a collapse after it, and [`collapse_from`] reads
//! a stream to its end and writes the rest of the lines of its filter.
//!
//! ```text
//! let mut collapse = LineCollapser::new(alloc, 32, 512)?;
//! collapse.feed(b"10%\r100%\n")?;
//! collapse.output()   // "": the row may be written again
//! collapse.finish()?;
//! collapse.output()   // "100%\n"
//! ```
#![tactic(auto)]

mod amount;
pub mod collapse;
pub mod collapsing;
mod counting;
mod filtering;
mod laws;
mod lost;
mod printed;
mod seen;
mod taking;
mod tally;
pub mod window;

pub use collapse::LineCollapser;
pub use collapsing::Collapsing;
pub use filtering::collapse_from;
pub use laws::{leaves_color_text, leaves_plain_text};
pub use window::{COLUMNS, Window};
