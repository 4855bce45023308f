//! This module says how characters are underlined.

/// Says how characters are underlined (ECMA-48, 8.3.117, SGR: parameters 4, 21 and 24; the kinds
/// after `4:` as xterm and kitty read them, <https://sw.kovidgoyal.net/kitty/underlines/>).
#[derive(Clone, Copy, Debug, PartialEq, Eq)]
pub enum Underline {
    /// SGR 24 or `4:0`: no line.
    None,
    /// SGR 4 or `4:1`: one line.
    Single,
    /// SGR 21 or `4:2`: two lines.
    Double,
    /// `4:3`: a wavy line.
    Curly,
    /// `4:4`: a line of dots.
    Dotted,
    /// `4:5`: a line of dashes.
    Dashed,
}
