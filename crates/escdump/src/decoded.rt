//! Texts in base64 and in hexadecimal digits, as bytes.

use crate::values::cut;
use dump_page::Phrase;
use std::alloc::AllocError;

/// Adds the bytes of a text in base64 (RFC 4648, 4), between quotes. A byte that is no digit of
/// base64 is passed over, as terminals do, and so is the rest of the last digits.
pub fn add_base64(text: &[u8], to: &mut Phrase) {
    let mut bytes = Vec::new(to.alloc());
    match push_base64(text, &mut bytes) {
        Ok(()) => to.add_quoted(" ", &bytes),
        Err(_) => to.refuse(),
    }
}

// Adds the bytes of a text in base64. The error is that memory was refused.
fn push_base64(text: &[u8], bytes: &mut Vec<u8>) -> Result<(), AllocError> {
    let mut bits: u32 = 0;
    let mut place: u8 = 0;
    for byte in text {
        if let Some(digit) = digit_of(*byte) {
            bits = (bits % 0x40000).wrapping_mul(64).wrapping_add(digit);
            place = if place == 3 {
                0
            } else {
                place.saturating_add(1)
            };
            if place != 1 {
                bytes.push(byte_of(bits, place))?;
            }
        }
    }
    Ok(())
}

// Returns the number of a digit of base64.
fn digit_of(byte: u8) -> Option<u32> {
    let number = match byte {
        b'A'..=b'Z' => byte - b'A',
        b'a'..=b'z' => byte - b'a' + 26,
        b'0'..=b'9' => byte - b'0' + 52,
        b'+' => 62,
        b'/' => 63,
        _ => return None,
    };
    Some(u32::from(number))
}

// Returns the byte that ends with the second, the third or the fourth digit of four.
fn byte_of(bits: u32, place: u8) -> u8 {
    let shifted = match place {
        2 => bits / 16,
        3 => bits / 4,
        _ => bits,
    };
    (shifted % 256) as u8
}

/// Adds the bytes of a text in hexadecimal digits, between quotes; any other text as it is.
pub fn add_hex_text(text: &[u8], to: &mut Phrase) {
    let mut bytes = Vec::new(to.alloc());
    match push_hex(text, &mut bytes) {
        Ok(true) => to.add_quoted(" ", &bytes),
        Ok(false) => to.add_quoted(" ", text),
        Err(_) => to.refuse(),
    }
}

// Adds the bytes of a text in hexadecimal digits, and returns whether it is one. The error is that
// memory was refused.
fn push_hex(text: &[u8], bytes: &mut Vec<u8>) -> Result<bool, AllocError> {
    let mut first: Option<u8> = None;
    for byte in text {
        let Some(digit) = hex_digit_of(*byte) else {
            return Ok(false);
        };
        first = match first {
            Some(high) => {
                bytes.push(high.wrapping_mul(16).wrapping_add(digit))?;
                None
            }
            None => Some(digit),
        };
    }
    Ok(first.is_none())
}

// Returns the number of a hexadecimal digit.
fn hex_digit_of(byte: u8) -> Option<u8> {
    match byte {
        b'0'..=b'9' => Some(byte - b'0'),
        b'a'..=b'f' => Some(byte - b'a' + 10),
        b'A'..=b'F' => Some(byte - b'A' + 10),
        _ => None,
    }
}

/// Adds a name, and its value after `=`, if it has one, both in hexadecimal digits.
pub fn add_hex_pair(text: &[u8], to: &mut Phrase) {
    let (name, value) = cut(text, b'=');
    add_hex_text(name, to);
    if let Some(value) = value {
        to.add(" =");
        add_hex_text(value, to);
    }
}
