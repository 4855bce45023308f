//! The class of a byte in sixel data.
ghost use Rattle.std.specs.Prelude.{◌≡◌};
ghost use Rattle.esc_sixel.specs.Classes.{class_of};

use crate::introducer::Introducer;

// The class of a byte.
#[derive(Clone, Copy, PartialEq, Eq)]
pub(crate) enum Class {
    // `$`.
    Return,
    // `-`.
    Line,
    // 3F to 7E, six pixels as their number.
    Pixels(u8),
    // `!`, `#` or `"`.
    Introduces(Introducer),
    // `0` to `9`, as its value.
    Digit(u8),
    // `;`.
    Separator,
    // Any other.
    Junk,
}

// Returns the class of this byte.
#[inline]
#[tactic(auto, unfolding(crate::specs::Classes::class_of))]
pub(crate) fn classify(b: u8) -> Class
    ensures { result ≡ class_of b }
{
    if b >= 0x3f {
        return if b < 0x7f {
            Class::Pixels(b - 0x3f)
        } else {
            Class::Junk
        };
    }
    if b >= b'0' && b <= b'9' {
        return Class::Digit(b - b'0');
    }
    match b {
        b'$' => Class::Return,
        b'-' => Class::Line,
        b'!' => Class::Introduces(Introducer::Repeat),
        b'#' => Class::Introduces(Introducer::Color),
        b'"' => Class::Introduces(Introducer::Raster),
        b';' => Class::Separator,
        _ => Class::Junk,
    }
}
