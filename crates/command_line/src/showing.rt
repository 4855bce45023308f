//! Words that are safe to print.
ghost use Rattle.std.specs.Prelude.{◌≡◌, ◌<◌, List, Some, false, ℕ};
ghost use Rattle.std.specs.Fmt.{DisplaysOnOk, digit_glyph};
ghost use Rattle.command_line.specs.ShownWords.{IsShown, byte_shown, escaped_character, shown_character, word_shown};

use std::fmt;
use std::fmt::Display;
use unicode_visibility::is_shown;

/// A word of unknown origin, as an argument or the name of a file, for a line on a terminal: a
/// character that is shown is itself, and each other, and a backslash, is escaped, as `\u{1b}`; so
/// is a byte that is no part of UTF-8, as `\xe9`, which
/// [`program_words`](crate::program_words) marks by U+0000.
#[derive(Clone, Copy)]
pub struct Shown<'a>(pub &'a str);

impl<'a> Display for Shown<'a> {
    ghost output = { λ s. Some (word_shown s.0.now) };

    fn fmt<W: fmt::Write>(&self, f: &mut fmt::Formatter<W>) -> fmt::Result {
        let mut is_byte = false;
        for c in self.0.chars() {
            write_shown(is_byte, c, f)?;
            is_byte = c == '\0' && !is_byte;
        }
        Ok(())
    }
}

/// Each character of the text of a word shows as itself: so none of it is a control, or hides or
/// reorders text, whatever the word is.
pub fn words_are_shown()
    ensures { (w : List ℕ) → IsShown (word_shown w) }
{}

// Writes a character of a word, which stands for a byte if it is said so.
fn write_shown<W: fmt::Write>(is_byte: bool, c: char, f: &mut fmt::Formatter<W>) -> fmt::Result
    ensures { DisplaysOnOk W.write_str_gives f.old result (Some (shown_character is_byte c)) f.new }
{
    if is_byte {
        return write_byte(c as u32, f);
    }
    if c == '\0' {
        return Ok(());
    }
    if is_shown(c) && c != '\\' {
        return f.write_char(c);
    }
    write_escaped(c, f)
}

// Writes a character that is escaped.
fn write_escaped<W: fmt::Write>(c: char, f: &mut fmt::Formatter<W>) -> fmt::Result
    ensures { DisplaysOnOk W.write_str_gives f.old result (Some (escaped_character c)) f.new }
{
    match c {
        '\t' => f.write_str("\\t"),
        '\n' => f.write_str("\\n"),
        '\r' => f.write_str("\\r"),
        '\\' => f.write_str("\\\\"),
        _ => {
            let number = c as u32;
            write!(f, "\\u{{{number:x}}}")
        }
    }
}

// Writes a byte by its number.
fn write_byte<W: fmt::Write>(byte: u32, f: &mut fmt::Formatter<W>) -> fmt::Result
    ensures { DisplaysOnOk W.write_str_gives f.old result (Some (byte_shown byte)) f.new }
{
    let (high, low) = (digit(byte / 16 % 16), digit(byte % 16));
    write!(f, "\\x{high}{low}")
}

// Returns the digit of a number below 16.
fn digit(number: u32) -> char
    requires { number < 16 }
    ensures { result ≡ digit_glyph false number }
{
    if number < 10 {
        char::from(48 + number as u8)
    } else {
        char::from(87 + number as u8)
    }
}
