//! Lines that are written without a control.
ghost use Rattle.std.specs.Prelude.{◌≡◌, ◌<◌, ◌++◌, ◌∷◌, ◌/◌, ◌%◌, ℕ, List, [], IfOk, IsUtf8, OnOk, chars, codes, encode_utf8_all, string_bytes};
ghost use Rattle.std.specs.List.{flat_map};
ghost use Rattle.asciicast.specs.Recordings.{IsShownText, hex_digit, is_shown, is_shown_line, spelled_char, spelled_line};

use std::alloc::{AllocError, Allocator};

/// Returns whether no character of a line is a control.
pub fn is_shown_line(line: &str) -> bool
    ensures { result ≡ is_shown_line line.now }
{
    for c in line.chars() {
        if !is_shown(c) {
            return false;
        }
    }
    true
}

/// Returns a line with each control spelled. The error is that memory was refused.
pub fn spelled<A: Allocator>(alloc: A, line: &str) -> Result<String<A>, AllocError>
    ensures { IfOk result (λ t. string_bytes t
        ≡ encode_utf8_all (flat_map spelled_char (chars line.now))) }
{
    let mut text = String::new(alloc);
    for c in line.chars() {
        push_spelled(&mut text, c)?;
    }
    Ok(text)
}

/// A line that stays has no control, whatever came.
pub fn spelled_lines_show()
    ensures { (l : List ℕ) → IsUtf8 l → IsShownText (spelled_line l) }
{}

// Appends a character, or how it is spelled.
fn push_spelled<A: Allocator>(text: &mut String<A>, c: char) -> Result<(), AllocError>
    ensures { OnOk result (string_bytes text.new
        ≡ string_bytes text.old ++ encode_utf8_all (spelled_char c)) }
{
    if is_shown(c) {
        return text.push(c);
    }
    match c {
        '\r' => Ok(()),
        '\t' => text.push(' '),
        _ => push_number(text, c as u32),
    }
}

// Appends the number of a character, as a text of JSON has it.
fn push_number<A: Allocator>(text: &mut String<A>, number: u32) -> Result<(), AllocError>
    requires { number < 256 }
    ensures { OnOk result (string_bytes text.new ≡ string_bytes text.old ++ (codes "\\u00"
        ++ (hex_digit (number / 16) ∷ hex_digit (number % 16) ∷ []))) }
{
    text.push_str("\\u00")?;
    text.push(hex_digit(number / 16))?;
    text.push(hex_digit(number % 16))
}

// Returns a digit of a number in base 16.
fn hex_digit(number: u32) -> char
    requires { number < 16 }
    ensures value { result ≡ hex_digit number }
    ensures byte { result < 128 }
{
    let number = number as u8;
    if number < 10 {
        (b'0' + number) as char
    } else {
        (b'a' - 10 + number) as char
    }
}

// Returns whether a character is no control.
fn is_shown(c: char) -> bool
    ensures { result ≡ is_shown c }
{
    c >= ' ' && (c < '\u{7f}' || c > '\u{9f}')
}
