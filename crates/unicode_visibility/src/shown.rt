//! Characters that show as themselves.
ghost use Rattle.std.specs.Prelude.{◌≡◌};
ghost use Rattle.unicode_visibility.specs.Characters.{is_annotation, is_shown};

use crate::deceiving::is_deceiving;

/// Returns whether a character shows as itself: it is no control (C0, DEL or C1), it does not
/// deceive ([`is_deceiving`]), and it is none of U+FFF0 to U+FFFB, which are unassigned or mark
/// interlinear annotations.
#[inline]
pub fn is_shown(c: char) -> bool
    ensures { result ≡ is_shown c }
{
    let number = c as u32;
    if number <= 0x7e {
        return 0x20 <= number;
    }
    0xa0 <= number && !is_deceiving(c) && !is_annotation(number)
}

// Returns whether it is one of U+FFF0 to U+FFFB.
#[inline]
fn is_annotation(number: u32) -> bool
    ensures { result ≡ is_annotation number }
{
    0xfff0 <= number && number <= 0xfffb
}
