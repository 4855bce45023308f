//! Writes texts and numbers of reports and events. Their file notes an error.

use crate::name::Key;
use std::io::Write;

/// Writes a text.
pub fn put<E: Write>(text: &str, faults: &mut E) {
    let _ = faults.write_all(text.as_bytes());
}

/// Writes a number after the text before it.
pub fn put_number<E: Write>(before: &str, number: u64, faults: &mut E) {
    put(before, faults);
    let _ = write!(faults, "{number}");
}

/// Writes a key.
pub fn put_key<E: Write>(key: Key, faults: &mut E) {
    match key {
        Key::Nothing => {}
        Key::Number(number) => put_number("", number, faults),
        Key::Bytes(bytes) => {
            for byte in bytes {
                if byte != 0 {
                    let c = char::from(byte);
                    let _ = write!(faults, "{c}");
                }
            }
        }
    }
}
