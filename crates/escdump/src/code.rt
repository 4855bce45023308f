//! Numbers of operating system commands.

/// The number that the text of an operating system command begins with, up to a `;` or its end, as
/// it comes: so it is known also if the text is longer than the limit. Controls and bytes past 7F
/// inside a number are passed over, as terminals do, and zeros may come first.
#[derive(Clone, Copy, Drop)]
pub struct Code {
    number: u64,
    has_digit: bool,
    is_ended: bool,
}

impl Code {
    /// Returns a code to which nothing came.
    pub fn new() -> Code {
        Code {
            number: 0,
            has_digit: false,
            is_ended: false,
        }
    }

    /// Takes the bytes of the text that come next.
    pub fn take(&mut self, bytes: &[u8]) {
        for byte in bytes {
            if self.is_ended {
                return;
            }
            self.add(*byte);
        }
    }

    // Takes a byte.
    fn add(&mut self, byte: u8) {
        match byte {
            b'0'..=b'9' => {
                let digit = u64::from(byte.saturating_sub(b'0'));
                self.number = self.number.saturating_mul(10).saturating_add(digit);
                self.has_digit = true;
            }
            0x00..=0x1f | 0x80..=0xff => {}
            b';' => self.is_ended = true,
            _ => {
                self.has_digit = false;
                self.is_ended = true;
            }
        }
    }

    /// Returns the number, if there is one.
    pub fn number(&self) -> Option<u64> {
        if self.has_digit {
            Some(self.number)
        } else {
            None
        }
    }
}
