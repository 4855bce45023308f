//! This module defines colours of three channels.

/// A colour has channels of red, green and blue, each from 0 to 65535 (X11's `XParseColor`, "RGB
/// Device").
#[derive(Clone, Copy, Debug, PartialEq, Eq)]
pub struct Color16 {
    /// Red.
    pub red: u16,
    /// Green.
    pub green: u16,
    /// Blue.
    pub blue: u16,
}
