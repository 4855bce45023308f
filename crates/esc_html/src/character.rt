//! Characters that a page does not show as they are.
ghost use Rattle.std.specs.Prelude.{◌≡◌, true};
ghost use Rattle.std.specs.List.{list_all};
ghost use Rattle.std.specs.Str.{chars};
ghost use Rattle.esc_frame.specs.Scans.{is_text_byte};
ghost use Rattle.esc_html.specs.Characters.{is_character, is_low_byte, is_noncharacter, shown_as};

use std::str;

// U+FFFD in the place of a noncharacter, and any other character as it is.
pub(crate) fn shown_as(c: char) -> char
    ensures { result ≡ shown_as c }
{
    if is_noncharacter(c) { '\u{fffd}' } else { c }
}

// Whether it is a noncharacter (Unicode, 23.7).
pub(crate) fn is_noncharacter(c: char) -> bool
    ensures { result ≡ is_noncharacter c }
{
    ('\u{fdd0}' <= c && c <= '\u{fdef}') || 0xfffe <= c as u32 % 0x1_0000
}

// Whether none of them is a noncharacter.
pub(crate) fn are_characters(text: &str) -> bool
    ensures { result ≡ list_all is_character (chars text.now) }
{
    if are_low_bytes(text.as_bytes()) {
        return true;
    }
    is_each_character(text)
}

// Whether these bytes are of characters before U+F000, which most texts have alone.
fn are_low_bytes(text: &[u8]) -> bool
    ensures { result ≡ list_all is_low_byte text.now }
{
    text.iter().all(|byte| *byte < 0xef)
}

fn is_each_character(text: &str) -> bool
    ensures { result ≡ list_all is_character (chars text.now) }
{
    for c in text.chars() {
        if is_noncharacter(c) {
            return false;
        }
    }
    true
}

// ASCII as a text.
pub(crate) fn as_str(text: &[u8]) -> &str
    requires { list_all is_text_byte text.now ≡ true }
    ensures { result.now ≡ text.now }
{
    unsafe { str::from_utf8_unchecked(text) }
}
