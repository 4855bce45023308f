//! Colours, as a stream names them.

use typed_functions::{AnsiColor, ColorSpec};

/// A colour of characters or of their background, as a rendition names it.
#[derive(Clone, Copy, Debug, PartialEq, Eq)]
pub enum Ink {
    /// A name: 30 to 37, 40 to 47, 90 to 97 and 100 to 107.
    Named(AnsiColor),
    /// An entry of the palette, intensities, or the terminal's own, by 38 and 39, or by 48 and 49.
    Other(ColorSpec),
}
