//! Colours that are not named.

use esc_values::RgbColor;

/// A colour of characters, of their background or of their underline, that has no name (xterm's
/// list, "Character Attributes (SGR)"; ISO 8613-6 for the parts of 38 and 48; kitty for 58,
/// <https://sw.kovidgoyal.net/kitty/underlines/>).
#[derive(Clone, Copy, Debug, PartialEq, Eq)]
pub enum ColorSpec {
    /// SGR 39, 49 and 59: the terminal's own.
    Default,
    /// `38;5;n` or `38:5:n`, and of 48 and 58: the entry n of the palette, from 0 to 255.
    PaletteIndex(u8),
    /// `38;2;r;g;b`, `38:2:r:g:b` or `38:2:s:r:g:b`, and the same for 48 and 58: the intensities of
    /// red, green and blue, each from 0 to 255. The colour space `s` may be empty, and up to three
    /// numbers of a tolerance may follow (ITU-T T.416, 13.1.8): as in terminals, neither says
    /// anything.
    TrueColor(RgbColor),
}
