//! Values that the framing and the codecs share: texts, lists and boxes that contracts see as plain
//! values, the error of a reading that may fail, numbers, colours of three channels, base64, a text
//! cut at a byte, ASCII as a text, and a parameter of a control sequence's parameters.
//!
//! A list that takes memory of the allocator it owns: `let mut parameters =
//! Items::from_slice(alloc,
//! &[CsiParam::Integer(1)])?;` and `parameters.push(CsiParam::P(b';'))?;` hold `1` and `;`, and
//! print as such.
//!
//! A user of this library takes these names from `esc_below` or `escape_stream`.
#![tactic(auto)]

pub mod ascii;
pub mod base64_text;
pub mod boxed;
pub mod csi_param;
pub mod cut;
pub mod error;
pub mod items;
pub mod laws;
pub mod number;
pub mod rgb_color;
pub mod scalar;
pub mod text;

pub use boxed::Boxed;
pub use csi_param::CsiParam;
pub use error::Error;
pub use items::Items;
pub use rgb_color::RgbColor;
pub use text::Text;
