//! The renditions that are one number.
ghost use Rattle.std.specs.Prelude.{◌≡◌, ◌≤◌, Some, None};
ghost use Rattle.typed_functions.specs.Numbers.{ansi_color_number, ansi_number, bright_color, decoration, number_of, number_rendition, color_rendition, switched_off, switched_on};

use crate::ansi_color::AnsiColor;
use crate::blink::Blink;
use crate::color_spec::ColorSpec;
use crate::font::Font;
use crate::frame::Frame;
use crate::ideogram::Ideogram;
use crate::rendition::Rendition;
use crate::vertical_align::VerticalAlign;
use esc_sequences::{Intensity, Underline};

// Returns the rendition of a number alone.
pub(crate) fn numbered(number: u8) -> Option<Rendition>
    ensures { result ≡ number_rendition number }
{
    match number {
        0..=9 => switched_on(number),
        10..=20 => Some(Rendition::Font(Font::at(number - 10))),
        21..=29 => switched_off(number),
        30..=49 => painted(number),
        50..=75 => decorated(number),
        _ => bright(number),
    }
}

// Returns the rendition of a number from 0 to 9.
fn switched_on(number: u8) -> Option<Rendition>
    ensures { result ≡ switched_on number }
{
    match number {
        0 => Some(Rendition::Reset),
        1 => Some(Rendition::Intensity(Intensity::Bold)),
        2 => Some(Rendition::Intensity(Intensity::Half)),
        3 => Some(Rendition::Italic(true)),
        4 => Some(Rendition::Underline(Underline::Single)),
        5 => Some(Rendition::Blink(Blink::Slow)),
        6 => Some(Rendition::Blink(Blink::Rapid)),
        7 => Some(Rendition::Inverse(true)),
        8 => Some(Rendition::Invisible(true)),
        9 => Some(Rendition::StrikeThrough(true)),
        _ => None,
    }
}

// Returns the rendition of a number from 21 to 29.
fn switched_off(number: u8) -> Option<Rendition>
    ensures { result ≡ switched_off number }
{
    match number {
        21 => Some(Rendition::Underline(Underline::Double)),
        22 => Some(Rendition::Intensity(Intensity::Normal)),
        23 => Some(Rendition::Italic(false)),
        24 => Some(Rendition::Underline(Underline::None)),
        25 => Some(Rendition::Blink(Blink::None)),
        26 => Some(Rendition::Proportional(true)),
        27 => Some(Rendition::Inverse(false)),
        28 => Some(Rendition::Invisible(false)),
        29 => Some(Rendition::StrikeThrough(false)),
        _ => None,
    }
}

// Returns the rendition of a number from 50 to 75.
fn decorated(number: u8) -> Option<Rendition>
    ensures { result ≡ decoration number }
{
    match number {
        50 => Some(Rendition::Proportional(false)),
        51 => Some(Rendition::Frame(Frame::Framed)),
        52 => Some(Rendition::Frame(Frame::Encircled)),
        53 => Some(Rendition::Overline(true)),
        54 => Some(Rendition::Frame(Frame::None)),
        55 => Some(Rendition::Overline(false)),
        59 => Some(Rendition::UnderlineColor(ColorSpec::Default)),
        60 => Some(Rendition::Ideogram(Ideogram::Underline)),
        61 => Some(Rendition::Ideogram(Ideogram::DoubleUnderline)),
        62 => Some(Rendition::Ideogram(Ideogram::Overline)),
        63 => Some(Rendition::Ideogram(Ideogram::DoubleOverline)),
        64 => Some(Rendition::Ideogram(Ideogram::StressMark)),
        65 => Some(Rendition::Ideogram(Ideogram::None)),
        73 => Some(Rendition::VerticalAlign(VerticalAlign::SuperScript)),
        74 => Some(Rendition::VerticalAlign(VerticalAlign::SubScript)),
        75 => Some(Rendition::VerticalAlign(VerticalAlign::BaseLine)),
        _ => None,
    }
}

// Returns the rendition of a number from 30 to 49 but 38 and 48, which more follows.
fn painted(number: u8) -> Option<Rendition>
    ensures { result ≡ color_rendition number }
{
    match number {
        30..=37 => Some(Rendition::AnsiForeground(AnsiColor::at(number - 30))),
        39 => Some(Rendition::Foreground(ColorSpec::Default)),
        40..=47 => Some(Rendition::AnsiBackground(AnsiColor::at(number - 40))),
        49 => Some(Rendition::Background(ColorSpec::Default)),
        _ => None,
    }
}

// Returns the rendition of a number from 90 to 107.
fn bright(number: u8) -> Option<Rendition>
    ensures { result ≡ bright_color number }
{
    match number {
        90..=97 => Some(Rendition::AnsiForeground(AnsiColor::at(number - 82))),
        100..=107 => Some(Rendition::AnsiBackground(AnsiColor::at(number - 92))),
        _ => None,
    }
}

// Returns the number that asks for a rendition, if one does.
pub(crate) fn number_of(rendition: Rendition) -> Option<u8>
    ensures { result ≡ number_of rendition }
{
    let number = match rendition {
        Rendition::Reset => 0,
        Rendition::Intensity(Intensity::Bold) => 1,
        Rendition::Intensity(Intensity::Half) => 2,
        Rendition::Italic(true) => 3,
        Rendition::Underline(Underline::Single) => 4,
        Rendition::Blink(Blink::Slow) => 5,
        Rendition::Blink(Blink::Rapid) => 6,
        Rendition::Inverse(true) => 7,
        Rendition::Invisible(true) => 8,
        Rendition::StrikeThrough(true) => 9,
        Rendition::Underline(Underline::Double) => 21,
        Rendition::Intensity(Intensity::Normal) => 22,
        Rendition::Italic(false) => 23,
        Rendition::Underline(Underline::None) => 24,
        Rendition::Blink(Blink::None) => 25,
        Rendition::Proportional(true) => 26,
        Rendition::Inverse(false) => 27,
        Rendition::Invisible(false) => 28,
        Rendition::StrikeThrough(false) => 29,
        Rendition::Proportional(false) => 50,
        Rendition::Frame(Frame::Framed) => 51,
        Rendition::Frame(Frame::Encircled) => 52,
        Rendition::Overline(true) => 53,
        Rendition::Frame(Frame::None) => 54,
        Rendition::Overline(false) => 55,
        Rendition::UnderlineColor(ColorSpec::Default) => 59,
        Rendition::Ideogram(Ideogram::Underline) => 60,
        Rendition::Ideogram(Ideogram::DoubleUnderline) => 61,
        Rendition::Ideogram(Ideogram::Overline) => 62,
        Rendition::Ideogram(Ideogram::DoubleOverline) => 63,
        Rendition::Ideogram(Ideogram::StressMark) => 64,
        Rendition::Ideogram(Ideogram::None) => 65,
        Rendition::VerticalAlign(VerticalAlign::SuperScript) => 73,
        Rendition::VerticalAlign(VerticalAlign::SubScript) => 74,
        Rendition::VerticalAlign(VerticalAlign::BaseLine) => 75,
        Rendition::Font(font) => 10 + font.number(),
        Rendition::AnsiForeground(color) => ansi_number(30, color),
        Rendition::AnsiBackground(color) => ansi_number(40, color),
        Rendition::Foreground(ColorSpec::Default) => 39,
        Rendition::Background(ColorSpec::Default) => 49,
        Rendition::Underline(_)
        | Rendition::Foreground(_)
        | Rendition::Background(_)
        | Rendition::UnderlineColor(_) => return None,
    };
    Some(number)
}

// Returns the number of a colour, from the number of black on: the bright ones are 60 more.
fn ansi_number(black: u8, color: AnsiColor) -> u8
    requires { black ≤ 40 }
    ensures { result ≡ ansi_number black (ansi_color_number color) }
{
    let index = color.index();
    if index <= 7 {
        black + index
    } else {
        black + 52 + index
    }
}
