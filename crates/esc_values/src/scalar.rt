//! This module says how texts of numbers and UTF-8 are read.
ghost use Rattle.std.specs.Prelude.{◌≡◌};
ghost use Rattle.std.specs.Option.{option_map};
ghost use Rattle.esc_values.specs.Scalars.{number_of, signed_of, utf8_of};

use crate::text::Text;
use std::alloc::Allocator;
use std::str;

/// Returns the number that these bytes write in decimal, if it fits: at least one ASCII digit, with
/// or without a `+` before them, and nothing else.
pub fn read_u8(bytes: &[u8]) -> Option<u8>
    ensures { result ≡ number_of 8 bytes.now }
{
    let Ok(text) = str::from_utf8(bytes) else {
        return None;
    };
    text.parse::<u8>().ok()
}

/// Returns the number that these bytes write in decimal, if it fits 32 bits: at least one ASCII
/// digit, with or without a `+` before them, and nothing else.
pub fn read_u32(bytes: &[u8]) -> Option<u32>
    ensures { result ≡ number_of 32 bytes.now }
{
    let Ok(text) = str::from_utf8(bytes) else {
        return None;
    };
    text.parse::<u32>().ok()
}

/// Returns the number that these bytes write in decimal, if it fits a `usize`, which has 64 bits:
/// at least one ASCII digit, with or without a `+` before them, and nothing else.
pub fn read_usize(bytes: &[u8]) -> Option<usize>
    ensures { result ≡ number_of 64 bytes.now }
{
    let Ok(text) = str::from_utf8(bytes) else {
        return None;
    };
    text.parse::<usize>().ok()
}

/// Returns the number that these bytes write in decimal, if it lies from -2^31 to 2^31 - 1: at
/// least one ASCII digit, with a `-`, a `+` or no sign before them, and nothing else.
pub fn read_i32(bytes: &[u8]) -> Option<i32>
    ensures { result ≡ signed_of 32 bytes.now }
{
    let Ok(text) = str::from_utf8(bytes) else {
        return None;
    };
    text.parse::<i32>().ok()
}

/// Returns the number that these bytes write in decimal, if it lies from -2^63 to 2^63 - 1: at
/// least one ASCII digit, with a `-`, a `+` or no sign before them, and nothing else.
pub fn read_i64(bytes: &[u8]) -> Option<i64>
    ensures { result ≡ signed_of 64 bytes.now }
{
    let Ok(text) = str::from_utf8(bytes) else {
        return None;
    };
    text.parse::<i64>().ok()
}

/// Returns these bytes as a text, if they are well-formed UTF-8 (Unicode, Table 3-7).
pub fn text_in(bytes: &[u8]) -> Option<&str>
    ensures { option_map (λ t. t.now) result ≡ utf8_of bytes.now }
{
    str::from_utf8(bytes).ok()
}

/// Returns the text of these bytes, if they are well-formed UTF-8 (Unicode, Table 3-7). They are
/// not copied.
pub fn text_of<A: Allocator>(bytes: Vec<u8, A>) -> Option<Text<A>>
    ensures { result ≡ utf8_of bytes.items }
{
    match String::from_utf8(bytes) {
        Ok(string) => Some(Text::from_string(string)),
        Err(_) => None,
    }
}
