//! The renditions that hold at the place that a stream has come to, and the control sequences that
//! make them.
//!
//! A [`Pen`] is how characters are written from here on. It keeps each rendition as the stream
//! named it: a colour of the palette stays one. It takes no memory.
//!
//! ```text
//! let mut pen = Pen::plain();
//! pen.select_all(Renditions::new(params));
//! pen.push_text(&mut text)?;       // "\x1b[1m\x1b[38;5;9m"
//! ```
#![tactic(auto)]

mod ink;
mod pen;
mod pen_text;

pub use ink::Ink;
pub use pen::Pen;
