//! This module says whether two looks are the same.
ghost use Rattle.std.specs.Prelude.{◌≡◌, IsTrue};
ghost use Rattle.esc_style.specs.Looks.{plain_look};
ghost use Rattle.esc_sgr.specs.Sgr.{is_default, is_direct, is_entry, is_named, same_color, same_flags, same_look, underline_code};

use esc_sequences::Underline;
use esc_style::{Color, Look};
use esc_values::RgbColor;

/// Returns whether it is the look of the beginning.
#[inline]
pub fn is_first(look: &Look) -> bool
    ensures { IsTrue result → look.now ≡ plain_look }
{
    is_same(&Look::plain(), look)
}

/// Returns whether two looks are the same.
#[inline]
pub fn is_same(a: &Look, b: &Look) -> bool
    ensures { result ≡ same_look a.now b.now }
{
    underline_code(a.underline) == underline_code(b.underline)
        && has_same_flags(a, b)
        && is_same_color(a.foreground, b.foreground)
        && is_same_color(a.background, b.background)
        && is_same_color(a.underline_color, b.underline_color)
}

#[inline]
fn has_same_flags(a: &Look, b: &Look) -> bool
    ensures { result ≡ same_flags a.now b.now }
{
    a.bold == b.bold
        && a.faint == b.faint
        && a.italic == b.italic
        && a.blink == b.blink
        && a.inverse == b.inverse
        && a.concealed == b.concealed
        && a.strikethrough == b.strikethrough
        && a.overline == b.overline
}

#[inline]
fn is_same_color(a: Color, b: Color) -> bool
    ensures { result ≡ same_color a b }
{
    match a {
        Color::Default => is_default(b),
        Color::Named(a) => is_named(a.index(), b),
        Color::Palette(a) => is_entry(a, b),
        Color::Direct(a) => is_direct(a, b),
    }
}

fn is_default(color: Color) -> bool
    ensures { result ≡ is_default color }
{
    match color {
        Color::Default => true,
        Color::Named(_) | Color::Palette(_) | Color::Direct(_) => false,
    }
}

fn is_named(index: u8, color: Color) -> bool
    ensures { result ≡ is_named index color }
{
    match color {
        Color::Named(color) => index == color.index(),
        Color::Default | Color::Palette(_) | Color::Direct(_) => false,
    }
}

fn is_entry(index: u8, color: Color) -> bool
    ensures { result ≡ is_entry index color }
{
    match color {
        Color::Palette(own) => index == own,
        Color::Default | Color::Named(_) | Color::Direct(_) => false,
    }
}

fn is_direct(rgb: RgbColor, color: Color) -> bool
    ensures { result ≡ is_direct rgb color }
{
    match color {
        Color::Direct(color) => {
            let (red, green, blue) = color.to_tuple_rgb8();
            let (own_red, own_green, own_blue) = rgb.to_tuple_rgb8();
            own_red == red && own_green == green && own_blue == blue
        }
        Color::Default | Color::Named(_) | Color::Palette(_) => false,
    }
}

fn underline_code(underline: Underline) -> u8
    ensures { result ≡ underline_code underline }
{
    match underline {
        Underline::None => 0,
        Underline::Single => 1,
        Underline::Double => 2,
        Underline::Curly => 3,
        Underline::Dotted => 4,
        Underline::Dashed => 5,
    }
}
