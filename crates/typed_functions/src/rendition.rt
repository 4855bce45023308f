//! Renditions: how characters are shown from here on (ECMA-48, 8.3.117, SGR; xterm's list,
//! "Character Attributes (SGR)").
ghost use Rattle.std.specs.Prelude.{◌≡◌, Some, None};
ghost use Rattle.std.specs.Fmt.{DisplaysOnOk};
ghost use Rattle.esc_values.specs.Params.{csi_params_text};
ghost use Rattle.typed_functions.specs.Renditions.{is_target, more_entries, normal_params, on_target, rendition_of, underline_at, underline_number, underline_kind, with_more};

use crate::ansi_color::AnsiColor;
use crate::blink::Blink;
use crate::color_entries::{color_of, write_color};
use crate::color_spec::ColorSpec;
use crate::entries::{byte_after, byte_of, write_entries};
use crate::font::Font;
use crate::frame::Frame;
use crate::ideogram::Ideogram;
use crate::numbered::{number_of, numbered};
use crate::vertical_align::VerticalAlign;
use esc_sequences::{Intensity, Underline};
use esc_values::CsiParam;
use std::fmt;

/// The look of the next characters: one of the renditions that the control function Select Graphic
/// Rendition asks for.
#[derive(Clone, Copy, Debug, PartialEq, Eq)]
pub enum Rendition {
    /// 0, or nothing: each rendition as at first.
    Reset,
    /// 1, 2 or 22: how bright they are.
    Intensity(Intensity),
    /// 3 or 23: whether they are slanted. 23 ends Fraktur too.
    Italic(bool),
    /// 4, 21, 24 or `4:0` to `4:5`: how they are underlined.
    Underline(Underline),
    /// 5, 6 or 25: how they blink.
    Blink(Blink),
    /// 7 or 27: whether their colour and that of the background are exchanged.
    Inverse(bool),
    /// 8 or 28: whether they are hidden.
    Invisible(bool),
    /// 9 or 29: whether they are crossed out.
    StrikeThrough(bool),
    /// 10 to 20: their font.
    Font(Font),
    /// 26 or 50: whether they are as wide as each is.
    Proportional(bool),
    /// 30 to 37, or 90 to 97: their colour, by its name.
    AnsiForeground(AnsiColor),
    /// 40 to 47, or 100 to 107: the colour of the background, by its name.
    AnsiBackground(AnsiColor),
    /// 38 or 39: their colour.
    Foreground(ColorSpec),
    /// 48 or 49: the colour of the background.
    Background(ColorSpec),
    /// 58 or 59: the colour of their underline.
    UnderlineColor(ColorSpec),
    /// 51, 52 or 54: the frame round them.
    Frame(Frame),
    /// 53 or 55: whether they have a line above.
    Overline(bool),
    /// 60 to 65: how ideograms are marked.
    Ideogram(Ideogram),
    /// 73 to 75: how high they are placed.
    VerticalAlign(VerticalAlign),
}

impl Rendition {
    /// Returns the rendition of its entries, which are those between two `;`, or, for a colour
    /// after 38, 48 or 58, those up to the `;` after its last number. `None` if none is known.
    #[inline]
    pub fn of_entries(entries: &[CsiParam]) -> Option<Rendition>
        ensures { result ≡ rendition_of entries.now }
    {
        let Some((first, rest)) = entries.split_first() else {
            return Some(Rendition::Reset);
        };
        match byte_of(*first) {
            Some(number) => with_more(number, rest),
            None => None,
        }
    }
}

// Returns the rendition of a number and the entries after it.
fn with_more(number: u8, rest: &[CsiParam]) -> Option<Rendition>
    ensures { result ≡ with_more number rest.now }
{
    if rest.is_empty() {
        return numbered(number);
    }
    if number == 4 {
        return match underlined(rest) {
            Some(kind) => Some(Rendition::Underline(kind)),
            None => None,
        };
    }
    if !is_target(number) {
        return None;
    }
    match color_of(rest) {
        Some(color) => Some(on_target(number, color)),
        None => None,
    }
}

// Returns whether a colour follows this number.
#[inline]
pub(crate) fn is_target(number: u8) -> bool
    ensures { result ≡ is_target number }
{
    number == 38 || number == 48 || number == 58
}

// Returns the rendition of this colour after this number.
fn on_target(number: u8, color: ColorSpec) -> Rendition
    ensures { result ≡ on_target number color }
{
    if number == 38 {
        Rendition::Foreground(color)
    } else if number == 48 {
        Rendition::Background(color)
    } else {
        Rendition::UnderlineColor(color)
    }
}

// Returns the underline by the entries after 4.
fn underlined(entries: &[CsiParam]) -> Option<Underline>
    ensures { result ≡ underline_kind entries.now }
{
    let Some((kind, rest)) = byte_after(b':', entries) else {
        return None;
    };
    if rest.is_empty() {
        underline_at(kind)
    } else {
        None
    }
}

// Returns the kind of underline of this number after `4:`.
fn underline_at(number: u8) -> Option<Underline>
    ensures { result ≡ underline_at number }
{
    match number {
        0 => Some(Underline::None),
        1 => Some(Underline::Single),
        2 => Some(Underline::Double),
        3 => Some(Underline::Curly),
        4 => Some(Underline::Dotted),
        5 => Some(Underline::Dashed),
        _ => None,
    }
}

// Returns the number of a kind of underline after `4:`.
fn underline_number(kind: Underline) -> u8
    ensures { result ≡ underline_number kind }
{
    match kind {
        Underline::None => 0,
        Underline::Single => 1,
        Underline::Double => 2,
        Underline::Curly => 3,
        Underline::Dotted => 4,
        Underline::Dashed => 5,
    }
}

/// Writes the parameters that ask for it, in one normal spelling: one number, if one asks for it,
/// and 0 for a reset; `4:3` to `4:5`; `38;5;n` and `38;2;r;g;b`, and the same for 48; `58:5:n` and
/// `58:2:r:g:b`. Several renditions are written with `;` between them, after `ESC [` and before
/// `m`. If it returns `Ok`, all of it was written.
impl fmt::Display for Rendition {
    ghost output = { λ r. Some (csi_params_text (normal_params r)) };

    fn fmt<W: fmt::Write>(&self, f: &mut fmt::Formatter<W>) -> fmt::Result {
        match number_of(*self) {
            Some(number) => write_entries(&[CsiParam::Integer(number as i64)], f),
            None => write_more(*self, f),
        }
    }
}

// Writes one that has no number of its own.
fn write_more<W: fmt::Write>(rendition: Rendition, f: &mut fmt::Formatter<W>) -> fmt::Result
    ensures { DisplaysOnOk W.write_str_gives f.old result
        (Some (csi_params_text (more_entries rendition))) f.new }
{
    match rendition {
        Rendition::Underline(kind) => {
            let number = CsiParam::Integer(underline_number(kind) as i64);
            write_entries(&[CsiParam::Integer(4), CsiParam::P(b':'), number], f)
        }
        Rendition::Foreground(color) => write_color(38, b';', color, f),
        Rendition::Background(color) => write_color(48, b';', color, f),
        Rendition::UnderlineColor(color) => write_color(58, b':', color, f),
        _ => Ok(()),
    }
}
