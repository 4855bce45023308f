//! The crates that the framing and the codecs of terminal escape sequences build on, under one
//! name: the values of `esc_values`, the control and escape sequences of `esc_sequences`, and the
//! hyperlinks of `esc_links`. Each of these names the standards that it follows.
//!
//! A program asks for bold characters by `ESC [ 1 m`:
//!
//! ```text
//! CSI::parse(alloc, &[CsiParam::Integer(1)], false, b'm')?
//! // one value, CSI::Sgr(Sgr::Intensity(Intensity::Bold)), which is written as "\x1b[1m"
//! ```
#![tactic(auto)]

pub mod laws;

pub use esc_links::{Hyperlink, Params, hyperlink, params};
pub use esc_sequences::{
    BorrowedSequence, CSI, Esc, EscCode, Intensity, Sgr, Underline, Unspecified, csi, esc,
    esc_code, intensity, sgr, underline, unspecified,
};
pub use esc_values::{
    Boxed, CsiParam, Error, Items, RgbColor, Text, base64_text, boxed, csi_param, cut, error,
    items, number, rgb_color, scalar, text,
};
