//! The classes of a span.
ghost use Rattle.std.specs.Prelude.{◌≡◌};
ghost use Rattle.esc_style.specs.Classes.{background_name, foreground_name, index_of, stem, underline_color_name};

use typed_functions::AnsiColor;

/// A class of a span: a rendition that characters have (ECMA-48, 8.3.117, SGR; the kinds of
/// underlines as xterm and kitty read them, <https://sw.kovidgoyal.net/kitty/underlines/>).
#[derive(Clone, Copy, Debug, PartialEq, Eq)]
pub enum Class {
    /// SGR 1.
    Bold,
    /// SGR 2.
    Faint,
    /// SGR 3.
    Italic,
    /// SGR 4 or `4:1`: one line.
    Underline,
    /// SGR 21 or `4:2`: two lines.
    DoubleUnderline,
    /// SGR `4:3`: a wavy line.
    CurlyUnderline,
    /// SGR `4:4`: a line of dots.
    DottedUnderline,
    /// SGR `4:5`: a line of dashes.
    DashedUnderline,
    /// SGR 5 or 6.
    Blink,
    /// SGR 7: foreground and background exchanged.
    Inverse,
    /// SGR 8.
    Concealed,
    /// SGR 9.
    Strikethrough,
    /// SGR 53.
    Overline,
    /// SGR 30 to 37 and 90 to 97: the colour of the characters.
    Foreground(AnsiColor),
    /// SGR 40 to 47 and 100 to 107: the colour of their background.
    Background(AnsiColor),
    /// `58;5;0` to `58;5;15`: the colour of the underline.
    UnderlineColor(AnsiColor),
    /// `38;5;16` to `38;5;255`: the colour of the characters, an entry of the palette.
    PaletteForeground(u8),
    /// `48;5;16` to `48;5;255`: that of their background.
    PaletteBackground(u8),
    /// `58;5;16` to `58;5;255`: that of the underline.
    PaletteUnderline(u8),
}

impl Class {
    /// Returns its name in an attribute `class`, up to its [`index`](Self::index).
    pub fn name(self) -> &'static str
        ensures { result.now ≡ stem self }
    {
        match self {
            Class::Bold => "bold",
            Class::Faint => "faint",
            Class::Italic => "italic",
            Class::Underline => "underline",
            Class::DoubleUnderline => "double-underline",
            Class::CurlyUnderline => "curly-underline",
            Class::DottedUnderline => "dotted-underline",
            Class::DashedUnderline => "dashed-underline",
            Class::Blink => "blink",
            Class::Inverse => "inverse",
            Class::Concealed => "concealed",
            Class::Strikethrough => "strikethrough",
            Class::Overline => "overline",
            Class::Foreground(color) => foreground_name(color),
            Class::Background(color) => background_name(color),
            Class::UnderlineColor(color) => underline_color_name(color),
            Class::PaletteForeground(_) => "fg-",
            Class::PaletteBackground(_) => "bg-",
            Class::PaletteUnderline(_) => "ul-",
        }
    }

    /// Returns the entry of the palette that its name ends in, in two or three digits.
    pub fn index(self) -> Option<u8>
        ensures { result ≡ index_of self }
    {
        match self {
            Class::PaletteForeground(index)
            | Class::PaletteBackground(index)
            | Class::PaletteUnderline(index) => Some(index),
            _ => None,
        }
    }
}

// Returns the class of a colour as foreground.
fn foreground_name(color: AnsiColor) -> &'static str
    ensures { result.now ≡ foreground_name color }
{
    match color {
        AnsiColor::Black => "fg-black",
        AnsiColor::Red => "fg-red",
        AnsiColor::Green => "fg-green",
        AnsiColor::Yellow => "fg-yellow",
        AnsiColor::Blue => "fg-blue",
        AnsiColor::Magenta => "fg-magenta",
        AnsiColor::Cyan => "fg-cyan",
        AnsiColor::White => "fg-white",
        AnsiColor::BrightBlack => "fg-bright-black",
        AnsiColor::BrightRed => "fg-bright-red",
        AnsiColor::BrightGreen => "fg-bright-green",
        AnsiColor::BrightYellow => "fg-bright-yellow",
        AnsiColor::BrightBlue => "fg-bright-blue",
        AnsiColor::BrightMagenta => "fg-bright-magenta",
        AnsiColor::BrightCyan => "fg-bright-cyan",
        AnsiColor::BrightWhite => "fg-bright-white",
    }
}

// Returns the class of a colour as background.
fn background_name(color: AnsiColor) -> &'static str
    ensures { result.now ≡ background_name color }
{
    match color {
        AnsiColor::Black => "bg-black",
        AnsiColor::Red => "bg-red",
        AnsiColor::Green => "bg-green",
        AnsiColor::Yellow => "bg-yellow",
        AnsiColor::Blue => "bg-blue",
        AnsiColor::Magenta => "bg-magenta",
        AnsiColor::Cyan => "bg-cyan",
        AnsiColor::White => "bg-white",
        AnsiColor::BrightBlack => "bg-bright-black",
        AnsiColor::BrightRed => "bg-bright-red",
        AnsiColor::BrightGreen => "bg-bright-green",
        AnsiColor::BrightYellow => "bg-bright-yellow",
        AnsiColor::BrightBlue => "bg-bright-blue",
        AnsiColor::BrightMagenta => "bg-bright-magenta",
        AnsiColor::BrightCyan => "bg-bright-cyan",
        AnsiColor::BrightWhite => "bg-bright-white",
    }
}

// Returns the class of a colour of an underline.
fn underline_color_name(color: AnsiColor) -> &'static str
    ensures { result.now ≡ underline_color_name color }
{
    match color {
        AnsiColor::Black => "ul-black",
        AnsiColor::Red => "ul-red",
        AnsiColor::Green => "ul-green",
        AnsiColor::Yellow => "ul-yellow",
        AnsiColor::Blue => "ul-blue",
        AnsiColor::Magenta => "ul-magenta",
        AnsiColor::Cyan => "ul-cyan",
        AnsiColor::White => "ul-white",
        AnsiColor::BrightBlack => "ul-bright-black",
        AnsiColor::BrightRed => "ul-bright-red",
        AnsiColor::BrightGreen => "ul-bright-green",
        AnsiColor::BrightYellow => "ul-bright-yellow",
        AnsiColor::BrightBlue => "ul-bright-blue",
        AnsiColor::BrightMagenta => "ul-bright-magenta",
        AnsiColor::BrightCyan => "ul-bright-cyan",
        AnsiColor::BrightWhite => "ul-bright-white",
    }
}
