//! Sixel images, as a part of `esc_image`: a [`SixelBuilder`] reads byte by byte the string that a
//! terminal is sent, and a [`Sixel`] has a size and is written. They follow VT330/VT340 Programmer
//! Reference Manual, volume 2, chapter 14 (<https://vt100.net/docs/vt3xx-gp/chapter14.html>):
//! `ESC P`, up to three parameters, `q`, and the data. Here two columns are drawn over three:
//!
//! ```text
//! let mut builder = SixelBuilder::new(alloc, &[]);
//! builder.push_run(b"~~~$~~")?;
//! builder.finish()?;
//! builder.sixel.dimensions()      // (3, 6)
//! ```
#![tactic(auto)]

mod appending;
pub mod builder;
mod class;
mod commands;
mod dimensions;
mod few_digits;
mod introducer;
pub mod laws;
mod parameters;
mod pixels;
pub mod sixel;
pub mod sixel_data;
mod write_data;
mod write_header;

pub use builder::SixelBuilder;
pub use sixel::Sixel;
pub use sixel_data::{SixelData, SixelValue};
