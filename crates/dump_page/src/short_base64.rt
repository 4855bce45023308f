//! Base64 of a few bytes (RFC 4648, 4).

/// The most bytes that are encoded so.
pub const MOST: usize = 24;

// Says how many characters they are.
const LENGTH: usize = 32;

/// Returns the characters of at most so many bytes, in the first places of this room, after which
/// it has
/// `=` alone.
pub fn encode(bytes: &[u8]) -> [u8; LENGTH] {
    let mut text = [b'='; LENGTH];
    for group in 0..8 {
        let (_, rest) = bytes.split_at((group * 3).min(bytes.len()));
        let (count, [first, second, third]) = first_three(rest);
        if count == 0 {
            break;
        }
        text[group * 4] = digit(first / 4);
        text[group * 4 + 1] = digit(first % 4 * 16 + second / 16);
        if count > 1 {
            text[group * 4 + 2] = digit(second % 16 * 4 + third / 64);
        }
        if count > 2 {
            text[group * 4 + 3] = digit(third % 64);
        }
    }
    text
}

// Returns how many of three bytes come first, and these.
fn first_three(bytes: &[u8]) -> (usize, [u8; 3]) {
    match bytes {
        [first, second, third, ..] => (3, [*first, *second, *third]),
        [first, second] => (2, [*first, *second, 0]),
        [first] => (1, [*first, 0, 0]),
        [] => (0, [0; 3]),
    }
}

// Returns the digit of a number below 64.
fn digit(number: u8) -> u8 {
    match number {
        0..=25 => b'A' + number,
        26..=51 => b'a' + (number - 26),
        52..=61 => b'0' + (number - 52),
        62 => b'+',
        _ => b'/',
    }
}

/// Returns how many characters so many bytes become.
pub fn length(count: usize) -> usize {
    (count.saturating_add(2) / 3).saturating_mul(4)
}
