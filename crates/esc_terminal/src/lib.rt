//! A terminal's screen from a stream of bytes: the effect of each value of the stream on an
//! [`esc_screen::Screen`], by the names of ECMA-48, of DEC's manual of the VT510 and of xterm's
//! "Control Sequences".
//!
//! ```text
//! let mut terminal = Terminal::new(alloc, 80, 24)?;
//! terminal.feed(b"\x1b[2J\x1b[H50%\rdo")?;
//! terminal.feed(b"ne")?;
//! terminal.row(0)         // the cells of "done" and 76 blank ones
//! ```
#![tactic(auto)]

mod chains;
mod counts;
mod keeping;
pub mod laws;
mod link_parts;
mod linked;
mod links;
mod looks;
mod receiving;
mod rectangles;
pub mod request;
pub mod row_text;
pub mod rows;
mod slots;
mod state;
pub mod steps;
pub mod styles;
pub mod terminal;

pub use request::Request;
pub use row_text::push_row;
pub use rows::Rows;
pub use styles::Styles;
pub use terminal::Terminal;
