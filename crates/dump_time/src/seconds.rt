//! Times in decimal.

// A decimal number as far as it was read: the number that its digits are, how many of them come
// after the point, and whether that came.
#[derive(Clone, Copy)]
struct Decimal {
    value: u64,
    places: i64,
    has_point: bool,
}

// No digit is added from here on: 18 are enough for the microseconds of 30,000 years.
const MANY: u64 = 100_000_000_000_000_000;

impl Decimal {
    // Adds a digit.
    fn add(&mut self, digit: u8) {
        if self.value >= MANY {
            if !self.has_point {
                self.places = self.places.saturating_sub(1);
            }
            return;
        }
        self.value = self
            .value
            .saturating_mul(10)
            .saturating_add(u64::from(digit));
        if self.has_point {
            self.places = self.places.saturating_add(1);
        }
    }

    // Returns how many millionths it is, times this power of 10, rounded down.
    fn micros(self, exponent: i64) -> u64 {
        let mut shift = exponent.saturating_add(6).saturating_sub(self.places);
        let mut value = self.value;
        for _ in 0..24 {
            if shift > 0 {
                value = value.saturating_mul(10);
                shift = shift.saturating_sub(1);
            } else if shift < 0 {
                value /= 10;
                shift = shift.saturating_add(1);
            }
        }
        value
    }
}

/// Returns the number of microseconds of so many seconds, rounded down: a number as JSON writes it
/// (RFC 8259, 6). A negative one is 0. None, if the text is no such number.
pub fn micros_in(text: &[u8]) -> Option<u64> {
    match text {
        [b'-', rest @ ..] => match decimal_in(rest) {
            Some(_) => Some(0),
            None => None,
        },
        _ => decimal_in(text),
    }
}

// Returns the microseconds of a number without a sign.
fn decimal_in(text: &[u8]) -> Option<u64> {
    let mut decimal = Decimal {
        value: 0,
        places: 0,
        has_point: false,
    };
    if !matches!(text, [b'0'..=b'9', ..]) {
        return None;
    }
    for at in 0..text.len() {
        match text[at] {
            b'0'..=b'9' => decimal.add(text[at].saturating_sub(b'0')),
            b'.' if !decimal.has_point => decimal.has_point = true,
            b'e' | b'E' => return micros_with(decimal, &text[at + 1..]),
            _ => return None,
        }
    }
    Some(decimal.micros(0))
}

// Returns the microseconds of a number with this exponent, as it is written.
fn micros_with(decimal: Decimal, exponent: &[u8]) -> Option<u64> {
    match exponent {
        [b'-', digits @ ..] => match count_in(digits) {
            Some(number) => Some(decimal.micros(exponent_of(number).saturating_neg())),
            None => None,
        },
        [b'+', digits @ ..] => match count_in(digits) {
            Some(number) => Some(decimal.micros(exponent_of(number))),
            None => None,
        },
        digits => match count_in(digits) {
            Some(number) => Some(decimal.micros(exponent_of(number))),
            None => None,
        },
    }
}

// Returns an exponent of this size; past a thousand all are one.
fn exponent_of(number: u64) -> i64 {
    i64::try_from(number.min(1000)).unwrap_or(1000)
}

/// Returns the number that these digits are in decimal; the greatest, if it is greater. None, if
/// one is no digit, or there are none.
pub fn count_in(text: &[u8]) -> Option<u64> {
    if text.is_empty() {
        return None;
    }
    let mut number: u64 = 0;
    for byte in text {
        if !byte.is_ascii_digit() {
            return None;
        }
        let digit = u64::from(byte.saturating_sub(b'0'));
        number = number.saturating_mul(10).saturating_add(digit);
    }
    Some(number)
}
