//! Controls that begin sequences and strings, as ESC and a letter or as controls of C1.

use esc_decode::{CodePage, Encoding, Mask};
use memchr::{memchr, memchr2};

pub(crate) const ESC: u8 = 0x1b;

// The first byte of the controls of C1 in UTF-8.
const LEAD: u8 = 0xc2;

// A byte that neither ends a sequence nor is a part of it, as a byte past ASCII.
const DEL: u8 = 0x7f;

/// The part that bytes begin with.
#[derive(Clone, Copy)]
pub(crate) enum Lead {
    /// So many bytes in which nothing begins.
    Text(usize),
    /// ESC and this byte, or the control of C1 that they mean, of so many bytes.
    Control(u8, usize),
    /// It is not known yet.
    More,
}

/// Returns the part that bytes of a stream in this encoding begin with, at the beginning of a
/// character.
pub(crate) fn lead_of(bytes: &[u8], encoding: Encoding) -> Lead {
    match bytes {
        [] | [ESC] => Lead::More,
        [ESC, letter, ..] if *letter != ESC => Lead::Control(*letter, 2),
        [ESC, ..] => Lead::Text(1),
        _ => match first_candidate(bytes, encoding) {
            Some(0) => lead_past_ascii(bytes, encoding),
            Some(at) => Lead::Text(at),
            None => Lead::Text(bytes.len()),
        },
    }
}

// Does the same for bytes, the first of which is not ASCII, and may be a control or the first of
// one.
fn lead_past_ascii(bytes: &[u8], encoding: Encoding) -> Lead {
    let in_utf8 = matches!(encoding, Encoding::Utf8 | Encoding::EightBit);
    match bytes {
        [LEAD] if in_utf8 => Lead::More,
        [LEAD, byte, ..] if in_utf8 && is_c1(*byte) => Lead::Control(letter_of(*byte), 2),
        [byte, ..] if is_c1(*byte) => Lead::Control(letter_of(*byte), 1),
        [byte, rest @ ..] if in_utf8 && *byte >= LEAD => character(*byte, rest),
        _ => Lead::Text(1),
    }
}

// Returns the character that begins with this byte, before these; or the part of it that is there.
fn character(first: u8, rest: &[u8]) -> Lead {
    let most = match first {
        0..=0xdf => 1,
        0xe0..=0xef => 2,
        _ => 3,
    };
    let mut count = 0usize;
    for byte in rest.get(..most).unwrap_or(rest) {
        if *byte < 0x80 || 0xbf < *byte {
            return Lead::Text(count.saturating_add(1));
        }
        count = count.saturating_add(1);
    }
    if count < most {
        Lead::More
    } else {
        Lead::Text(count.saturating_add(1))
    }
}

/// Returns the length of bytes of a stream in this encoding without a last character that is not
/// whole.
pub(crate) fn whole_length(bytes: &[u8], encoding: Encoding) -> usize {
    match encoding {
        Encoding::Utf8 | Encoding::EightBit => {}
        Encoding::CodePage(_) => return bytes.len(),
    }
    let mut rest = bytes;
    while let Some((last, before)) = rest.split_last() {
        let after = bytes.get(rest.len()..).unwrap_or(b"");
        if LEAD <= *last {
            return match character(*last, after) {
                Lead::More => before.len(),
                Lead::Text(_) | Lead::Control(_, _) => bytes.len(),
            };
        }
        if last.is_ascii() || after.len() >= 3 {
            return bytes.len();
        }
        rest = before;
    }
    bytes.len()
}

// Returns the place of the first byte that may begin a sequence or a string.
fn first_candidate(bytes: &[u8], encoding: Encoding) -> Option<usize> {
    match encoding {
        Encoding::Utf8 => memchr2(ESC, LEAD, bytes),
        Encoding::EightBit | Encoding::CodePage(CodePage::Latin1WithControls) => {
            first_of_any(bytes)
        }
        Encoding::CodePage(_) => memchr(ESC, bytes),
    }
}

// Returns the place of the first byte that is ESC or no ASCII.
fn first_of_any(bytes: &[u8]) -> Option<usize> {
    for (at, byte) in bytes.iter().enumerate() {
        if *byte == ESC || 0x80 <= *byte {
            return Some(at);
        }
    }
    None
}

/// Returns the number of bytes of the string terminator that comes first in a stream in this
/// encoding, or 0 if none does.
pub(crate) fn terminator_length(bytes: &[u8], encoding: Encoding) -> usize {
    match lead_of(bytes, encoding) {
        Lead::Control(b'\\', length) => length,
        _ => 0,
    }
}

/// Makes a stream one that the framing reads the same way, which reads all of it as UTF-8 with
/// controls of C1 as bytes: a byte past ASCII that is no part of such a control becomes DEL.
#[derive(Clone, Copy)]
pub(crate) struct Sieve {
    encoding: Encoding,
    mask: Mask,
    follows: u8,
}

impl Sieve {
    /// Returns the state at the beginning of a stream in this encoding.
    pub fn new(encoding: Encoding) -> Sieve {
        Sieve {
            encoding,
            mask: Mask::new(),
            follows: 0,
        }
    }

    /// Passes text.
    pub fn pass(&mut self, text: &[u8]) {
        let start = text.len().saturating_sub(3);
        for byte in text.get(start..).unwrap_or(text) {
            self.mask.take(*byte);
        }
    }

    /// Returns the byte that the next byte becomes.
    pub fn take(&mut self, byte: u8) -> u8 {
        let follows = self.follows;
        let masked = self.mask.take(byte);
        self.follows = byte;
        if byte.is_ascii() {
            return byte;
        }
        let is_in_control = byte == LEAD || (follows == LEAD && is_c1(byte));
        let stays = match self.encoding {
            Encoding::Utf8 => is_in_control,
            Encoding::EightBit => is_in_control || (is_c1(byte) && masked != byte),
            Encoding::CodePage(CodePage::Latin1WithControls) => is_c1(byte),
            Encoding::CodePage(_) => false,
        };
        if stays { byte } else { DEL }
    }
}

// Returns whether a byte is a control of C1.
fn is_c1(byte: u8) -> bool {
    0x80 <= byte && byte <= 0x9f
}

// Returns the byte that means the same after ESC (ECMA-35, 13.2.1).
fn letter_of(control: u8) -> u8 {
    control.saturating_sub(0x40)
}
