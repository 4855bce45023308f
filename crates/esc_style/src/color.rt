//! Colours.
ghost use Rattle.std.specs.Prelude.{◌≡◌, ◌<◌};
ghost use Rattle.esc_style.specs.Colors.{color_at, color_code, color_of, hex_digit, level, palette};

use esc_values::RgbColor;
use typed_functions::{AnsiColor, ColorSpec};

/// A colour of characters, of their background, or of their underline.
#[derive(Clone, Copy, Debug, PartialEq, Eq)]
pub enum Color {
    /// The page's own.
    Default,
    /// One that has a name: the style sheet says which it is.
    Named(AnsiColor),
    /// An entry of the palette of 256 colours, from 16 on.
    Palette(u8),
    /// The intensities of red, green and blue.
    Direct(RgbColor),
}

impl Color {
    /// Returns the colour that a rendition asks for. The first 16 colours of the palette of 256 are
    /// those with names.
    pub fn of(color: ColorSpec) -> Color
        ensures { result ≡ color_of color }
    {
        match color {
            ColorSpec::Default => Color::Default,
            ColorSpec::PaletteIndex(index) => at(index),
            ColorSpec::TrueColor(color) => Color::Direct(color),
        }
    }
}

// Returns an entry of the palette.
fn at(index: u8) -> Color
    ensures { result ≡ color_at index }
{
    if index < 16 {
        Color::Named(AnsiColor::at(index))
    } else {
        Color::Palette(index)
    }
}

/// Returns the intensities of an entry of the palette, from 16 on, as xterm has them: 6 levels each
/// of red, green and blue (16 to 231), and 24 greys (232 to 255).
pub fn palette(index: u8) -> RgbColor
    ensures { result ≡ palette index }
{
    if index < 232 {
        let place = index.saturating_sub(16);
        RgbColor::new_8bpc(level(place / 36), level(place / 6 % 6), level(place % 6))
    } else {
        let grey = 8 + 10 * (index - 232);
        RgbColor::new_8bpc(grey, grey, grey)
    }
}

// Returns one of the six intensities of the cube.
fn level(step: u8) -> u8
    requires { step < 6 }
    ensures { result ≡ level step }
{
    if step == 0 { 0 } else { 55 + 40 * step }
}

// `#rrggbb;`.
pub(crate) fn color_code(color: RgbColor) -> [u8; 8]
    ensures { result ≡ color_code color }
{
    let (red, green, blue) = color.to_tuple_rgb8();
    [
        b'#',
        hex_digit(red / 16 % 16),
        hex_digit(red % 16),
        hex_digit(green / 16 % 16),
        hex_digit(green % 16),
        hex_digit(blue / 16 % 16),
        hex_digit(blue % 16),
        b';',
    ]
}

// Returns a hexadecimal digit.
fn hex_digit(number: u8) -> u8
    requires { number < 16 }
    ensures { result ≡ hex_digit number }
{
    if number < 10 {
        b'0' + number
    } else {
        b'a' - 10 + number
    }
}
