//! Colours without a style sheet.
ghost use Rattle.std.specs.Prelude.{◌≡◌, ◌≤◌, ◌*◌};
ghost use Rattle.esc_html.specs.Plain.{is_own};
ghost use Rattle.esc_html.specs.Shades.{ansi_rgb, around_rgb, around_text, dark_rgb, deep_rgb, gray_rgb, ground_rgb, is_black, is_dark, is_deep, is_white, light_rgb, named_around, named_text, plain_text, text_rgb};

use esc_style::{Color, palette};
use esc_values::RgbColor;
use typed_functions::AnsiColor;

/// The colour of text, by numbers, with this around it; the page's own has none.
pub(crate) fn text_rgb(inverse: bool, text: Color, around: Color) -> Option<RgbColor>
    ensures { result ≡ text_rgb inverse text around }
{
    match text {
        Color::Default => plain_text(inverse, &around),
        Color::Named(color) => Some(named_text(inverse, color, &around)),
        Color::Palette(index) => Some(palette(index)),
        Color::Direct(rgb) => Some(rgb),
    }
}

/// The colour around text, by numbers; the page's own has none.
pub(crate) fn around_rgb(text: Color, around: Color) -> Option<RgbColor>
    ensures { result ≡ around_rgb text around }
{
    match around {
        Color::Default => None,
        Color::Named(color) => Some(around_text(text, color)),
        Color::Palette(index) => Some(palette(index)),
        Color::Direct(rgb) => Some(rgb),
    }
}

// That of text that has none.
fn plain_text(inverse: bool, around: &Color) -> Option<RgbColor>
    ensures { result ≡ plain_text inverse around.now }
{
    if is_page(around) {
        None
    } else if is_dark(inverse, around) {
        Some(RgbColor::new_8bpc(0xff, 0xff, 0xff))
    } else {
        Some(RgbColor::new_8bpc(0x00, 0x00, 0x00))
    }
}

// That of text with a colour that has a name.
fn named_text(inverse: bool, color: AnsiColor, around: &Color) -> RgbColor
    ensures { result ≡ named_text inverse color around.now }
{
    if is_page(around) && !inverse {
        ansi_rgb(color)
    } else if is_dark(inverse, around) {
        light_rgb(color)
    } else {
        dark_rgb(color)
    }
}

// A ground with a name, around text.
fn around_text(text: Color, color: AnsiColor) -> RgbColor
    ensures { result ≡ around_text text color }
{
    match text {
        Color::Named(text) => named_around(text, color),
        Color::Default | Color::Palette(_) | Color::Direct(_) => ground_rgb(color),
    }
}

fn named_around(text: AnsiColor, color: AnsiColor) -> RgbColor
    ensures { result ≡ named_around text color }
{
    if is_black(text) {
        if is_black(color) {
            gray_rgb()
        } else {
            ground_rgb(color)
        }
    } else if is_white(text) {
        if is_white(color) {
            gray_rgb()
        } else {
            ground_rgb(color)
        }
    } else {
        deep_rgb(color)
    }
}

fn is_white(color: AnsiColor) -> bool
    ensures { result ≡ is_white color }
{
    match color {
        AnsiColor::White | AnsiColor::BrightWhite => true,
        _ => false,
    }
}

fn is_black(color: AnsiColor) -> bool
    ensures { result ≡ is_black color }
{
    match color {
        AnsiColor::Black => true,
        _ => false,
    }
}

// Whether the page's own is around text.
fn is_page(around: &Color) -> bool
    ensures { result ≡ is_own around.now }
{
    match around {
        Color::Default => true,
        Color::Named(_) | Color::Palette(_) | Color::Direct(_) => false,
    }
}

// Whether white can be read better than black on the ground of text.
fn is_dark(inverse: bool, around: &Color) -> bool
    ensures { result ≡ is_dark inverse around.now }
{
    match around {
        Color::Default => inverse,
        Color::Named(color) => !is_white(*color),
        Color::Palette(index) => is_deep(palette(*index)),
        Color::Direct(rgb) => is_deep(*rgb),
    }
}

/// Whether white can be read better on a colour than black: by its luminance, as the squares of its
/// intensities have it nearly. On each colour of the palette the better one has a contrast of at
/// least 4.59 to 1 (WCAG 2.2).
pub fn is_deep(color: RgbColor) -> bool
    ensures { result ≡ is_deep color }
{
    let (red, green, blue) = color.to_tuple_rgb8();
    3 * square(red) + 10 * square(green) + square(blue) < 184_801
}

fn square(intensity: u8) -> u32
    ensures value { result ≡ intensity * intensity }
    ensures bound { result ≤ 65025 }
{
    u32::from(intensity) * u32::from(intensity)
}

// The colours that have names, on the page.
pub(crate) fn ansi_rgb(color: AnsiColor) -> RgbColor
    ensures { result ≡ ansi_rgb color }
{
    match color {
        AnsiColor::Black => RgbColor::new_8bpc(0x24, 0x29, 0x2f),
        AnsiColor::Red => RgbColor::new_8bpc(0xb3, 0x26, 0x1e),
        AnsiColor::Green => RgbColor::new_8bpc(0x11, 0x63, 0x29),
        AnsiColor::Yellow => RgbColor::new_8bpc(0x7d, 0x4e, 0x00),
        AnsiColor::Blue => RgbColor::new_8bpc(0x05, 0x50, 0xae),
        AnsiColor::Magenta => RgbColor::new_8bpc(0x82, 0x50, 0xdf),
        AnsiColor::Cyan => RgbColor::new_8bpc(0x0b, 0x6b, 0x75),
        AnsiColor::White => RgbColor::new_8bpc(0x6e, 0x77, 0x81),
        AnsiColor::BrightBlack => RgbColor::new_8bpc(0x57, 0x60, 0x6a),
        AnsiColor::BrightRed => RgbColor::new_8bpc(0xcf, 0x22, 0x2e),
        AnsiColor::BrightGreen => RgbColor::new_8bpc(0x1a, 0x7f, 0x37),
        AnsiColor::BrightYellow => RgbColor::new_8bpc(0x9a, 0x67, 0x00),
        AnsiColor::BrightBlue => RgbColor::new_8bpc(0x09, 0x69, 0xda),
        AnsiColor::BrightMagenta => RgbColor::new_8bpc(0x9a, 0x3f, 0xd5),
        AnsiColor::BrightCyan => RgbColor::new_8bpc(0x1b, 0x7c, 0x83),
        AnsiColor::BrightWhite => RgbColor::new_8bpc(0x42, 0x4a, 0x53),
    }
}

// On a dark ground.
fn light_rgb(color: AnsiColor) -> RgbColor
    ensures { result ≡ light_rgb color }
{
    match color {
        AnsiColor::Black => RgbColor::new_8bpc(0x00, 0x00, 0x00),
        AnsiColor::Red => RgbColor::new_8bpc(0xff, 0x7b, 0x72),
        AnsiColor::Green => RgbColor::new_8bpc(0x3f, 0xb9, 0x50),
        AnsiColor::Yellow => RgbColor::new_8bpc(0xd2, 0x99, 0x22),
        AnsiColor::Blue => RgbColor::new_8bpc(0x58, 0xa6, 0xff),
        AnsiColor::Magenta => RgbColor::new_8bpc(0xbc, 0x8c, 0xff),
        AnsiColor::Cyan => RgbColor::new_8bpc(0x39, 0xc5, 0xcf),
        AnsiColor::White => RgbColor::new_8bpc(0xff, 0xff, 0xff),
        AnsiColor::BrightBlack => RgbColor::new_8bpc(0x98, 0xa1, 0xab),
        AnsiColor::BrightRed => RgbColor::new_8bpc(0xff, 0xa1, 0x98),
        AnsiColor::BrightGreen => RgbColor::new_8bpc(0x56, 0xd3, 0x64),
        AnsiColor::BrightYellow => RgbColor::new_8bpc(0xe3, 0xb3, 0x41),
        AnsiColor::BrightBlue => RgbColor::new_8bpc(0x79, 0xc0, 0xff),
        AnsiColor::BrightMagenta => RgbColor::new_8bpc(0xd2, 0xa8, 0xff),
        AnsiColor::BrightCyan => RgbColor::new_8bpc(0x56, 0xd4, 0xdd),
        AnsiColor::BrightWhite => RgbColor::new_8bpc(0xff, 0xff, 0xff),
    }
}

// On a light ground.
fn dark_rgb(color: AnsiColor) -> RgbColor
    ensures { result ≡ dark_rgb color }
{
    match color {
        AnsiColor::Black => RgbColor::new_8bpc(0x00, 0x00, 0x00),
        AnsiColor::White | AnsiColor::BrightWhite => RgbColor::new_8bpc(0xff, 0xff, 0xff),
        _ => ansi_rgb(color),
    }
}

// As grounds.
fn ground_rgb(color: AnsiColor) -> RgbColor
    ensures { result ≡ ground_rgb color }
{
    match color {
        AnsiColor::Black => RgbColor::new_8bpc(0x24, 0x29, 0x2f),
        AnsiColor::Red => RgbColor::new_8bpc(0xdd, 0x31, 0x3d),
        AnsiColor::Green => RgbColor::new_8bpc(0x25, 0x86, 0x40),
        AnsiColor::Yellow => RgbColor::new_8bpc(0x92, 0x71, 0x00),
        AnsiColor::Blue => RgbColor::new_8bpc(0x0a, 0x71, 0xeb),
        AnsiColor::Magenta => RgbColor::new_8bpc(0x89, 0x59, 0xe1),
        AnsiColor::Cyan => RgbColor::new_8bpc(0x1c, 0x82, 0x89),
        AnsiColor::White => RgbColor::new_8bpc(0xd0, 0xd7, 0xde),
        AnsiColor::BrightBlack => RgbColor::new_8bpc(0x6e, 0x76, 0x80),
        AnsiColor::BrightRed => RgbColor::new_8bpc(0xeb, 0x06, 0x0b),
        AnsiColor::BrightGreen => RgbColor::new_8bpc(0x17, 0x88, 0x17),
        AnsiColor::BrightYellow => RgbColor::new_8bpc(0x98, 0x6e, 0x1d),
        AnsiColor::BrightBlue => RgbColor::new_8bpc(0x26, 0x72, 0xe0),
        AnsiColor::BrightMagenta => RgbColor::new_8bpc(0xc6, 0x41, 0x91),
        AnsiColor::BrightCyan => RgbColor::new_8bpc(0x09, 0x81, 0x94),
        AnsiColor::BrightWhite => RgbColor::new_8bpc(0xea, 0xee, 0xf2),
    }
}

// As grounds of colours but black and white.
fn deep_rgb(color: AnsiColor) -> RgbColor
    ensures { result ≡ deep_rgb color }
{
    match color {
        AnsiColor::Black => RgbColor::new_8bpc(0x24, 0x29, 0x2f),
        AnsiColor::Red => RgbColor::new_8bpc(0x68, 0x11, 0x17),
        AnsiColor::Green => RgbColor::new_8bpc(0x10, 0x3c, 0x1c),
        AnsiColor::Yellow => RgbColor::new_8bpc(0x41, 0x32, 0x00),
        AnsiColor::Blue => RgbColor::new_8bpc(0x04, 0x33, 0x69),
        AnsiColor::Magenta => RgbColor::new_8bpc(0x3f, 0x18, 0x85),
        AnsiColor::Cyan => RgbColor::new_8bpc(0x0c, 0x3a, 0x3d),
        AnsiColor::White => RgbColor::new_8bpc(0xf6, 0xf8, 0xfa),
        AnsiColor::BrightBlack => RgbColor::new_8bpc(0x24, 0x29, 0x2f),
        AnsiColor::BrightRed => RgbColor::new_8bpc(0x6e, 0x03, 0x05),
        AnsiColor::BrightGreen => RgbColor::new_8bpc(0x0a, 0x3d, 0x0a),
        AnsiColor::BrightYellow => RgbColor::new_8bpc(0x43, 0x31, 0x0d),
        AnsiColor::BrightBlue => RgbColor::new_8bpc(0x0f, 0x33, 0x67),
        AnsiColor::BrightMagenta => RgbColor::new_8bpc(0x5b, 0x1b, 0x42),
        AnsiColor::BrightCyan => RgbColor::new_8bpc(0x04, 0x3a, 0x42),
        AnsiColor::BrightWhite => RgbColor::new_8bpc(0xf6, 0xf8, 0xfa),
    }
}

// The ground of white on white, and of black on black.
fn gray_rgb() -> RgbColor
    ensures { result ≡ gray_rgb }
{
    RgbColor::new_8bpc(0x6e, 0x76, 0x80)
}
