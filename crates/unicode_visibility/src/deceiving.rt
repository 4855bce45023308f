//! Characters that deceive.
ghost use Rattle.std.specs.Prelude.{◌≡◌, IsTrue, false};
ghost use Rattle.std.specs.List.{list_any};
ghost use Rattle.std.specs.Str.{chars};
ghost use Rattle.unicode_visibility.specs.Characters.{is_deceiving};

use crate::signs::may_deceive;
use ucd_derived::is_default_ignorable_code_point;
use ucd_props::is_bidi_control;

/// Returns whether a character can deceive the reader of a text: a terminal does not show it, it
/// changes the order in which the characters around it are shown, or it ends a line in some
/// programs and not in others. These are the characters with the property
/// Default_Ignorable_Code_Point or Bidi_Control of Unicode 18.0, variation selectors and joiners
/// among them, and U+2028 and U+2029, the separators of lines and of paragraphs.
#[inline]
pub fn is_deceiving(c: char) -> bool
    ensures { result ≡ is_deceiving c }
{
    if is_far(c as u32) {
        return false;
    }
    if is_default_ignorable_code_point(c) {
        return true;
    }
    if is_bidi_control(c) {
        return true;
    }
    c == '\u{2028}' || c == '\u{2029}'
}

// Returns whether it is in a long range of characters, none of which deceives.
#[inline]
fn is_far(number: u32) -> bool
    ensures { IsTrue result → is_deceiving number ≡ false }
{
    match number {
        0..=0xac
        | 0xae..=0x34e
        | 0x350..=0x61b
        | 0x2010..=0x2027
        | 0x2070..=0x3163
        | 0x3165..=0xfdff
        | 0x1d17b..=0xdffff => true,
        _ => false,
    }
}

/// Returns whether one of the characters of a text is. No character is decoded if the bytes of the
/// text say that there is none.
pub fn has_deceiving(text: &str) -> bool
    ensures { result ≡ list_any is_deceiving (chars text.now) }
{
    if may_deceive(text.as_bytes()) {
        text.chars().any(is_deceiving)
    } else {
        false
    }
}
