//! Renditions: how characters are shown from here on (xterm's list, "Character Attributes (SGR)",
//! <https://invisible-island.net/xterm/ctlseqs/ctlseqs.html>).
ghost use Rattle.std.specs.Prelude.{◌≡◌, Some};
ghost use Rattle.esc_sequences.specs.Csis.{sgr_at, underline_sgr, rendition, sgr_text};

use crate::intensity::Intensity;
use crate::underline::Underline;
use esc_values::CsiParam;
use std::fmt;

/// Says how characters are shown from here on: one item of the control function Select Graphic
/// Rendition (ECMA-48, 8.3.117), which has the final byte `m`.
#[derive(Clone, Copy, Debug, PartialEq, Eq)]
pub enum Sgr {
    /// 0, or nothing: each rendition as at first.
    Reset,
    /// 1, 2 or 22: how bright they are.
    Intensity(Intensity),
    /// 3 or 23: whether they are slanted.
    Italic(bool),
    /// 4, 21, 24 or `4:0` to `4:5`: how they are underlined.
    Underline(Underline),
}

impl Sgr {
    // Returns the rendition of an item: the parameters between two `;`.
    #[inline]
    pub(crate) fn from_item(item: &[CsiParam]) -> Option<Sgr>
        ensures { result ≡ rendition item.now }
    {
        let Some((first, rest)) = item.split_first() else {
            return Some(Sgr::Reset);
        };
        let CsiParam::Integer(number) = *first else {
            return None;
        };
        let Some((second, rest)) = rest.split_first() else {
            return by_number(number);
        };
        let Some((third, rest)) = rest.split_first() else {
            return None;
        };
        if number == 4 && *second == CsiParam::P(b':') && rest.is_empty() {
            underline_of(*third)
        } else {
            None
        }
    }
}

// Returns the rendition of an item that is one number.
#[inline]
fn by_number(number: i64) -> Option<Sgr>
    ensures { result ≡ sgr_at number }
{
    match number {
        0 => Some(Sgr::Reset),
        1 => Some(Sgr::Intensity(Intensity::Bold)),
        2 => Some(Sgr::Intensity(Intensity::Half)),
        22 => Some(Sgr::Intensity(Intensity::Normal)),
        3 => Some(Sgr::Italic(true)),
        23 => Some(Sgr::Italic(false)),
        4 => Some(Sgr::Underline(Underline::Single)),
        21 => Some(Sgr::Underline(Underline::Double)),
        24 => Some(Sgr::Underline(Underline::None)),
        _ => None,
    }
}

// Returns the rendition of this parameter after `4:`.
fn underline_of(kind: CsiParam) -> Option<Sgr>
    ensures { result ≡ underline_sgr kind }
{
    match kind {
        CsiParam::Integer(0) => Some(Sgr::Underline(Underline::None)),
        CsiParam::Integer(1) => Some(Sgr::Underline(Underline::Single)),
        CsiParam::Integer(2) => Some(Sgr::Underline(Underline::Double)),
        CsiParam::Integer(3) => Some(Sgr::Underline(Underline::Curly)),
        CsiParam::Integer(4) => Some(Sgr::Underline(Underline::Dotted)),
        CsiParam::Integer(5) => Some(Sgr::Underline(Underline::Dashed)),
        _ => None,
    }
}

/// Writes the control sequence that selects it: `ESC [`, its number, and `m`. If it returns `Ok`,
/// all of it was written.
impl fmt::Display for Sgr {
    ghost output = { λ s. Some (sgr_text s) };

    fn fmt<W: fmt::Write>(&self, f: &mut fmt::Formatter<W>) -> fmt::Result {
        f.write_str(sequence(*self))
    }
}

// Returns the control sequence that selects it.
fn sequence(rendition: Sgr) -> &'static str
    ensures { result.now ≡ sgr_text rendition }
{
    match rendition {
        Sgr::Reset => "\x1b[0m",
        Sgr::Intensity(Intensity::Bold) => "\x1b[1m",
        Sgr::Intensity(Intensity::Half) => "\x1b[2m",
        Sgr::Intensity(Intensity::Normal) => "\x1b[22m",
        Sgr::Italic(true) => "\x1b[3m",
        Sgr::Italic(false) => "\x1b[23m",
        Sgr::Underline(Underline::None) => "\x1b[24m",
        Sgr::Underline(Underline::Single) => "\x1b[4m",
        Sgr::Underline(Underline::Double) => "\x1b[21m",
        Sgr::Underline(Underline::Curly) => "\x1b[4:3m",
        Sgr::Underline(Underline::Dotted) => "\x1b[4:4m",
        Sgr::Underline(Underline::Dashed) => "\x1b[4:5m",
    }
}
