//! Characters that deceive elsewhere, and belong to the character before them.
ghost use Rattle.std.specs.Prelude.{◌≡◌, Some};
ghost use Rattle.std.specs.Str.{chars};
ghost use Rattle.unicode_visibility.specs.Following.{belongs, has_stray, is_arabic_mark, is_cursive, is_stray, joins_emoji, joins_letters, last_of, may_follow};

use crate::deceiving::is_deceiving;
use crate::signs::may_deceive;
use ucd_derived::{is_alphabetic, is_grapheme_link};
use ucd_emoji::{is_emoji_modifier, is_emoji_variation_base, is_extended_pictographic};
use ucd_script::Script;

/// Returns whether a character that deceives ([`is_deceiving`]) belongs to the character before it,
/// as people write:
///
/// - a variation selector, U+FE0E or U+FE0F, after a character that it may follow by
///   `emoji-variation-sequences.txt` of UTS #51, which are the digits, `#` and `*` too;
/// - a joiner, U+200D, after a pictograph, a modifier of its colour or U+FE0F (UTS #51);
/// - a joiner or a non-joiner, U+200D or U+200C, after a letter of a script whose letters join or a
///   mark of Arabic on one, and after a virama (UAX #31, 2.3.1: the part of its rules A1, A2 and B
///   that the character before can tell).
///
/// No other character does: none that changes the direction of a text, and no tag (U+E0020 to
/// U+E007F), not those in a flag either. It is false for any character with none before it.
pub fn belongs(before: Option<char>, c: char) -> bool
    ensures { result ≡ belongs before c }
{
    match before {
        None => false,
        Some(before) => belongs_to(before, c),
    }
}

/// Returns whether a character that deceives may come there: it [`belongs`] to the character before
/// it, or no character comes directly before it and it is a mark of byte order, U+FEFF, with which
/// a text may begin.
pub fn may_follow(before: Option<char>, c: char) -> bool
    ensures { result ≡ may_follow before c }
{
    match before {
        None => c == '\u{feff}',
        Some(before) => belongs_to(before, c),
    }
}

// Returns whether the character belongs to the one before it.
fn belongs_to(before: char, c: char) -> bool
    ensures { result ≡ belongs (Some before) c }
{
    if '\u{fe0e}' <= c && c <= '\u{fe0f}' {
        is_emoji_variation_base(before)
    } else if c == '\u{200d}' {
        joins_emoji(before) || joins_letters(before)
    } else if c == '\u{200c}' {
        joins_letters(before)
    } else {
        false
    }
}

// Returns whether a joiner after the character makes one emoji of two.
fn joins_emoji(c: char) -> bool
    ensures { result ≡ joins_emoji c }
{
    is_extended_pictographic(c) || is_emoji_modifier(c) || c == '\u{fe0f}'
}

// Returns whether a joiner after the character says how letters are shown.
fn joins_letters(c: char) -> bool
    ensures { result ≡ joins_letters c }
{
    if is_cursive(Script::for_char(c)) {
        is_alphabetic(c)
    } else {
        is_arabic_mark(c) || is_grapheme_link(c)
    }
}

// Returns whether it is a mark on a letter of Arabic. Its script is that of the letter.
fn is_arabic_mark(c: char) -> bool
    ensures { result ≡ is_arabic_mark c }
{
    ('\u{64b}' <= c && c <= '\u{65f}') || c == '\u{670}'
}

// Returns whether it is a script whose letters join.
fn is_cursive(script: Script) -> bool
    ensures { result ≡ is_cursive script }
{
    matches!(
        script,
        Script::Adlam
            | Script::Arabic
            | Script::Chorasmian
            | Script::HanifiRohingya
            | Script::Mandaic
            | Script::Manichaean
            | Script::Mongolian
            | Script::Nko
            | Script::OldUyghur
            | Script::PhagsPa
            | Script::PsalterPahlavi
            | Script::Sogdian
            | Script::Syriac
    )
}

/// Returns whether a character deceives and may not come after this one, or first.
#[inline]
pub fn is_stray(before: Option<char>, c: char) -> bool
    ensures { result ≡ is_stray before c }
{
    is_deceiving(c) && !may_follow(before, c)
}

/// Returns whether one of the characters of a text, which comes after this character, is stray. No
/// character is decoded if the bytes of the text say that none deceives.
#[inline]
pub fn has_stray(before: Option<char>, text: &str) -> bool
    ensures { result ≡ has_stray before (chars text.now) }
{
    if may_deceive(text.as_bytes()) {
        is_some_stray(before, text)
    } else {
        false
    }
}

// Does the same for a text in which some may deceive.
fn is_some_stray(before: Option<char>, text: &str) -> bool
    ensures { result ≡ has_stray before (chars text.now) }
{
    let mut last = before;
    for c in text.chars() {
        if is_stray(last, c) {
            return true;
        }
        last = Some(c);
    }
    false
}

/// Returns the last character of a text, or the one before it if the text is empty.
#[inline]
pub fn last_char(before: Option<char>, text: &str) -> Option<char>
    ensures { result ≡ last_of before (chars text.now) }
{
    match text.chars().next_back() {
        Some(c) => Some(c),
        None => before,
    }
}
