//! The colours that have names.
ghost use Rattle.std.specs.Prelude.{◌≡◌, ◌<◌};
ghost use Rattle.typed_functions.specs.Numbers.{ansi_color_at, ansi_color_number};

/// A colour that has a name: the eight of ECMA-48 (8.3.117, SGR: parameters 30 to 37 and 40 to 47),
/// and each of them bright (aixterm's, in xterm's list: 90 to 97 and 100 to 107).
#[derive(Clone, Copy, Debug, PartialEq, Eq)]
pub enum AnsiColor {
    /// SGR 30 and 40: black.
    Black,
    /// SGR 31 and 41: red.
    Red,
    /// SGR 32 and 42: green.
    Green,
    /// SGR 33 and 43: yellow.
    Yellow,
    /// SGR 34 and 44: blue.
    Blue,
    /// SGR 35 and 45: magenta.
    Magenta,
    /// SGR 36 and 46: cyan.
    Cyan,
    /// SGR 37 and 47: white.
    White,
    /// SGR 90 and 100: bright black.
    BrightBlack,
    /// SGR 91 and 101: bright red.
    BrightRed,
    /// SGR 92 and 102: bright green.
    BrightGreen,
    /// SGR 93 and 103: bright yellow.
    BrightYellow,
    /// SGR 94 and 104: bright blue.
    BrightBlue,
    /// SGR 95 and 105: bright magenta.
    BrightMagenta,
    /// SGR 96 and 106: bright cyan.
    BrightCyan,
    /// SGR 97 and 107: bright white.
    BrightWhite,
}

impl AnsiColor {
    /// Returns its place in the palette, from 0 to 15: the bright ones come after the others.
    #[inline]
    pub fn index(self) -> u8
        ensures index { result ≡ ansi_color_number self }
        ensures below { result < 16 }
    {
        self as u8
    }

    /// Returns the colour at a place from 0 to 15 of the palette; at any other, bright white.
    #[inline]
    pub fn at(index: u8) -> AnsiColor
        ensures { result ≡ ansi_color_at index }
    {
        match index {
            0 => AnsiColor::Black,
            1 => AnsiColor::Red,
            2 => AnsiColor::Green,
            3 => AnsiColor::Yellow,
            4 => AnsiColor::Blue,
            5 => AnsiColor::Magenta,
            6 => AnsiColor::Cyan,
            7 => AnsiColor::White,
            8 => AnsiColor::BrightBlack,
            9 => AnsiColor::BrightRed,
            10 => AnsiColor::BrightGreen,
            11 => AnsiColor::BrightYellow,
            12 => AnsiColor::BrightBlue,
            13 => AnsiColor::BrightMagenta,
            14 => AnsiColor::BrightCyan,
            _ => AnsiColor::BrightWhite,
        }
    }
}
