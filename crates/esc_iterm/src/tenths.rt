//! This module defines tenths: numbers with one digit after the point.
ghost use Rattle.std.specs.Prelude.{◌≡◌, ◌<◌, IfSome, Some};
ghost use Rattle.esc_values.specs.Scalars.{number_in};
ghost use Rattle.esc_iterm.specs.Tenths.{tenth_of, tenths_in, tenths_of, tenths_text};

use esc_values::cut::cut;
use esc_values::scalar::read_u32;
use std::fmt;

/// Returns the tenths that these bytes write, if they fit: at least one ASCII digit, then
/// optionally a point and at most one digit after it, and nothing else. `12`, `12.` and `12.0` are
/// 120.
pub fn read_tenths(text: &[u8]) -> Option<u32>
    ensures { result ≡ tenths_of text.now }
{
    match cut(text, b'.') {
        Some((whole, tenth)) => read_slices(whole, tenth),
        None => read_slices(text, b""),
    }
}

// Returns the tenths of the digits before the point and after it.
fn read_slices(whole: &[u8], tenth: &[u8]) -> Option<u32>
    ensures { result ≡ tenths_in whole.now tenth.now }
{
    let Some(whole) = read_digits(whole) else {
        return None;
    };
    let Some(tenth) = read_tenth(tenth) else {
        return None;
    };
    let tenths = 10 * u64::from(whole) + u64::from(tenth);
    u32::try_from(tenths).ok()
}

// Returns the number of at least one digit, if it fits.
fn read_digits(digits: &[u8]) -> Option<u32>
    ensures { result ≡ number_in 32 digits.now }
{
    if digits.starts_with(b"+") {
        return None;
    }
    read_u32(digits)
}

// Returns the number of one digit, or 0 for none.
fn read_tenth(digits: &[u8]) -> Option<u32>
    ensures value { result ≡ tenth_of digits.now }
    ensures digit { IfSome result (λ d. d < 10) }
{
    let Some((digit, rest)) = digits.split_first() else {
        return Some(0);
    };
    if !rest.is_empty() || *digit < b'0' || *digit > b'9' {
        return None;
    }
    Some(u32::from(*digit - b'0'))
}

/// These are tenths, which print with one digit after the point.
#[derive(Clone, Copy)]
pub struct Tenths(pub u32);

impl fmt::Display for Tenths {
    ghost output = { λ n. Some (tenths_text n.0) };

    fn fmt<W: fmt::Write>(&self, f: &mut fmt::Formatter<W>) -> fmt::Result {
        let whole = self.0 / 10;
        let tenth = self.0 % 10;
        write!(f, "{whole}.{tenth}")
    }
}
