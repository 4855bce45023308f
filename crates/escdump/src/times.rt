//! Times in words.

use dump_page::Phrase;

/// Adds so many microseconds as seconds, with six digits after the point, after spaces if there are
/// fewer digits before it than this.
pub fn add_seconds(micros: u64, width: usize, to: &mut Phrase) {
    to.add_number(micros / 1_000_000, width, 0);
    to.add(".");
    let mut left = micros % 1_000_000;
    let mut unit: u64 = 100_000;
    for _ in 0..6 {
        to.add_digits(left / unit.max(1));
        left %= unit.max(1);
        unit /= 10;
    }
}
