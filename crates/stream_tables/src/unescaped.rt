//! Texts with escapes for bytes.
use crate::fault::Fault;
use std::alloc::Global;

/// Returns the bytes that a text stands for: `\xNN` is the byte of two hexadecimal digits, `\\` is
/// `\`, and any other character is itself, in UTF-8.
pub fn unescaped(alloc: Global, text: &str) -> Result<Vec<u8>, Fault> {
    let mut bytes = Vec::new(alloc);
    match add(text, &mut bytes) {
        Ok(()) => Ok(bytes),
        Err(fault) => Err(fault),
    }
}

// Adds the bytes that a text stands for.
fn add(text: &str, bytes: &mut Vec<u8>) -> Result<(), Fault> {
    let mut reading = Escape::None;
    for byte in text.bytes() {
        let (read, next) = reading.take(byte)?;
        if let Some(byte) = read {
            bytes.push(byte)?;
        }
        reading = next;
    }
    match reading {
        Escape::None => Ok(()),
        _ => Err(Fault("an escape that is cut short")),
    }
}

// Says how much of an escape has been read.
#[derive(Clone, Copy)]
enum Escape {
    None,
    Begun,
    NoDigit,
    Digit(u8),
}

impl Escape {
    // Returns the byte that ends with this one, if one does, and the state of the reader then.
    fn take(self, byte: u8) -> Result<(Option<u8>, Escape), Fault> {
        match (self, byte) {
            (Escape::None, b'\\') => Ok((None, Escape::Begun)),
            (Escape::None, _) | (Escape::Begun, b'\\') => Ok((Some(byte), Escape::None)),
            (Escape::Begun, b'x') => Ok((None, Escape::NoDigit)),
            (Escape::Begun, _) => Err(Fault("a \\ that begins no escape")),
            (Escape::NoDigit, _) => Ok((None, Escape::Digit(digit(byte)?))),
            (Escape::Digit(high), _) => Ok((Some(high << 4 | digit(byte)?), Escape::None)),
        }
    }
}

// Returns the value of a hexadecimal digit.
fn digit(byte: u8) -> Result<u8, Fault> {
    match byte {
        b'0'..=b'9' => Ok(byte - b'0'),
        b'a'..=b'f' => Ok(byte - b'a' + 10),
        _ => Err(Fault("a \\x without two digits, 0 to 9 or a to f")),
    }
}
