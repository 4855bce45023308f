//! Sequences as people write them.

use std::alloc::{AllocError, Global};

/// Returns the bytes that a word stands for, in the notations of shells and of programs that show
/// bytes: `\e` and `\E` for ESC, `\033` in octal digits, `\x1b` in hexadecimal ones, `\u001b`,
/// `\U0000001b` and `\u{1b}` for a character, `\a`, `\b`, `\f`, `\n`, `\r`, `\t` and `\v`, `\c[`
/// for a control, and so `^[`, but not right after ESC, which opens a privacy message with it. Any
/// other byte is itself, and so is one after `\`. A byte that is no part of UTF-8 is U+0000 in the
/// word, and the character of its number.
pub fn bytes_of(alloc: Global, word: &str) -> Result<Vec<u8>, AllocError> {
    let mut bytes = Vec::new(alloc);
    match take_all(word.as_bytes(), &mut bytes) {
        Ok(()) => Ok(bytes),
        Err(error) => Err(error),
    }
}

// Takes the bytes of a text.
fn take_all(text: &[u8], bytes: &mut Vec<u8>) -> Result<(), AllocError> {
    let mut rest = text;
    for _ in 0..u64::MAX {
        if rest.is_empty() {
            break;
        }
        rest = take(rest, bytes)?;
    }
    Ok(())
}

// Takes the byte that a text begins with, and returns the rest.
fn take<'t>(text: &'t [u8], bytes: &mut Vec<u8>) -> Result<&'t [u8], AllocError> {
    match text {
        [b'\\', rest @ ..] if !rest.is_empty() => take_escape(rest, bytes),
        [b'^', code @ 0x3f..=0x5f, rest @ ..] if bytes.last() != Some(&0x1b) => {
            bytes.push(*code ^ 0x40)?;
            Ok(rest)
        }
        [0, code @ 0x80..=0xff, rest @ ..] => take_byte(*code, rest, bytes),
        _ => take_itself(text, bytes),
    }
}

// Takes a byte as itself.
fn take_itself<'t>(text: &'t [u8], bytes: &mut Vec<u8>) -> Result<&'t [u8], AllocError> {
    match text {
        [first, rest @ ..] => {
            bytes.push(*first)?;
            Ok(rest)
        }
        [] => Ok(text),
    }
}

// Takes a byte that is no part of UTF-8: the character of its number has two bytes.
fn take_byte<'t>(first: u8, text: &'t [u8], bytes: &mut Vec<u8>) -> Result<&'t [u8], AllocError> {
    match text {
        [second, rest @ ..] => {
            bytes.push(first.wrapping_mul(64) | (*second & 0x3f))?;
            Ok(rest)
        }
        [] => Ok(text),
    }
}

// Takes the byte after a `\`.
fn take_escape<'t>(text: &'t [u8], bytes: &mut Vec<u8>) -> Result<&'t [u8], AllocError> {
    match text {
        [b'x', rest @ ..] => take_number(16, 2, text, rest, bytes),
        [b'0'..=b'7', ..] => take_number(8, 3, text, text, bytes),
        [b'u', b'{', rest @ ..] => take_braced(text, rest, bytes),
        [b'u', rest @ ..] => take_code(4, text, rest, bytes),
        [b'U', rest @ ..] => take_code(8, text, rest, bytes),
        [b'c', b'\\', b'\\', rest @ ..] => take_control(b'\\', rest, bytes),
        [b'c', code @ 0x20..=0x7e, rest @ ..] => take_control(*code, rest, bytes),
        [letter, rest @ ..] => {
            bytes.push(control_of(*letter))?;
            Ok(rest)
        }
        [] => Ok(text),
    }
}

// Takes the control of this character: of `?` it is DEL, of any other its last five bits.
fn take_control<'t>(code: u8, rest: &'t [u8], bytes: &mut Vec<u8>) -> Result<&'t [u8], AllocError> {
    bytes.push(if code == b'?' { 0x7f } else { code & 0x1f })?;
    Ok(rest)
}

// Returns the byte that a letter after a `\` stands for.
fn control_of(letter: u8) -> u8 {
    match letter {
        b'e' | b'E' => 0x1b,
        b'a' => 0x07,
        b'b' => 0x08,
        b'f' => 0x0c,
        b'n' => 0x0a,
        b'r' => 0x0d,
        b't' => 0x09,
        b'v' => 0x0b,
        _ => letter,
    }
}

// A number that a text begins with, and the rest.
#[derive(Clone, Copy)]
struct Counted<'t> {
    number: u32,
    // Says how many digits it has.
    count: usize,
    rest: &'t [u8],
}

// Returns the number of the digits, of this base and at most so many, that a text begins with.
fn number_of(base: u32, most: usize, text: &[u8]) -> Counted<'_> {
    let mut found = Counted {
        number: 0,
        count: 0,
        rest: text,
    };
    for _ in 0..most {
        let [first, rest @ ..] = found.rest else {
            break;
        };
        let Some(digit) = char::from(*first).to_digit(16) else {
            break;
        };
        if digit >= base {
            break;
        }
        found.number = found.number.saturating_mul(base).saturating_add(digit);
        found.count = found.count.saturating_add(1);
        found.rest = rest;
    }
    found
}

// Takes a byte by its number; the letter before it, if there is none.
fn take_number<'t>(
    base: u32,
    most: usize,
    text: &'t [u8],
    digits: &'t [u8],
    bytes: &mut Vec<u8>,
) -> Result<&'t [u8], AllocError> {
    let found = number_of(base, most, digits);
    if found.count == 0 {
        return take_itself(text, bytes);
    }
    bytes.push((found.number % 256) as u8)?;
    Ok(found.rest)
}

// Takes a character by its code.
fn take_code<'t>(
    most: usize,
    text: &'t [u8],
    digits: &'t [u8],
    bytes: &mut Vec<u8>,
) -> Result<&'t [u8], AllocError> {
    let found = number_of(16, most, digits);
    match char::from_u32(found.number) {
        Some(c) if found.count > 0 => {
            push_char(c, bytes)?;
            Ok(found.rest)
        }
        _ => take_itself(text, bytes),
    }
}

// Takes a character by its code between braces.
fn take_braced<'t>(
    text: &'t [u8],
    digits: &'t [u8],
    bytes: &mut Vec<u8>,
) -> Result<&'t [u8], AllocError> {
    let found = number_of(16, 6, digits);
    match (char::from_u32(found.number), found.rest) {
        (Some(c), [b'}', rest @ ..]) => {
            push_char(c, bytes)?;
            Ok(rest)
        }
        _ => take_itself(text, bytes),
    }
}

// Adds a character in UTF-8.
fn push_char(c: char, bytes: &mut Vec<u8>) -> Result<(), AllocError> {
    let mut text = [0u8; 4];
    bytes.extend_from_slice(c.encode_utf8(&mut text).as_bytes())
}
