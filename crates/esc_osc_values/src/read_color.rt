//! This module reads colours.
ghost use Rattle.std.specs.Prelude.{◌≡◌, ◌<◌, ◌≤◌, ◌^◌, IfSome, length};
ghost use Rattle.esc_osc_values.specs.Colors.{hex_after, hex_of, channel_of, rgb_of, sharp_of, color_from, spec_of};

use crate::color_or_query::ColorOrQuery;
use crate::color16::Color16;
use esc_values::cut::cut;

// Reads a colour, or the question for one.
pub(crate) fn read_spec(bytes: &[u8]) -> Option<ColorOrQuery>
    ensures { result ≡ spec_of bytes.now }
{
    if bytes == b"?".as_slice() {
        return Some(ColorOrQuery::Query);
    }
    if let Some(rest) = bytes.strip_prefix(b"rgb:") {
        return read_rgb(rest);
    }
    if let Some(rest) = bytes.strip_prefix(b"#") {
        return read_sharp(rest);
    }
    None
}

// Reads channels with `/` between them.
fn read_rgb(bytes: &[u8]) -> Option<ColorOrQuery>
    ensures { result ≡ rgb_of bytes.now }
{
    let (red, rest) = cut(bytes, b'/')?;
    let (green, blue) = cut(rest, b'/')?;
    read_channels(red, green, blue)
}

// Reads six digits, two a channel.
fn read_sharp(bytes: &[u8]) -> Option<ColorOrQuery>
    ensures { result ≡ sharp_of bytes.now }
{
    if bytes.len() != 6 {
        return None;
    }
    read_channels(&bytes[..2], &bytes[2..4], &bytes[4..])
}

// Returns the colour of three channels.
fn read_channels(red: &[u8], green: &[u8], blue: &[u8]) -> Option<ColorOrQuery>
    ensures { result ≡ color_from red.now green.now blue.now }
{
    let red = read_channel(red)?;
    let green = read_channel(green)?;
    let blue = read_channel(blue)?;
    Some(ColorOrQuery::Color(Color16 { red, green, blue }))
}

// Reads one to four hexadecimal digits, scaled to 16 bits.
fn read_channel(digits: &[u8]) -> Option<u16>
    ensures { result ≡ channel_of digits.now }
{
    let most = match digits.len() {
        1 => 15,
        2 => 255,
        3 => 4095,
        4 => 65535,
        _ => return None,
    };
    let value = read_hex(digits)?;
    Some((65535 * value / most) as u16)
}

// Returns the number of up to four hexadecimal digits.
fn read_hex(digits: &[u8]) -> Option<u32>
    requires { length digits.now ≤ 4 }
    ensures value { result ≡ hex_after 0 digits.now }
    ensures below { IfSome result (λ v. v < 16 ^ length digits.now) }
{
    let mut value = 0;
    for digit in digits {
        let Some(d) = hex_digit(*digit) else {
            return None;
        };
        value = value * 16 + d;
    }
    Some(value)
}

// Returns the value of a hexadecimal digit, in either case.
fn hex_digit(digit: u8) -> Option<u32>
    ensures { result ≡ hex_of digit }
{
    match digit {
        b'0'..=b'9' => Some(u32::from(digit - b'0')),
        b'a'..=b'f' => Some(u32::from(digit - b'a') + 10),
        b'A'..=b'F' => Some(u32::from(digit - b'A') + 10),
        _ => None,
    }
}
