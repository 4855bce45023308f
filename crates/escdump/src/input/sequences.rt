//! Keys and the mouse as control sequences, and as sequences of SS3.

use crate::input::found::Found;
use crate::input::key_table::{modified_key, numbered_key, plain_key, ss3_key, sun_key};
use crate::input::pointer::{bytes_report, numbers_report, sgr_report};
use crate::input::sent::{CONTROL, Modifiers, Sent};

// The most parameters, in bytes, that are looked through.
const MOST: usize = 64;

const SHIFT: Modifiers = 1;

// Returns how many bytes come first that are parameters: digits, `:`, `;` and private prefixes.
fn parameters_run(bytes: &[u8]) -> usize {
    for at in 0..bytes.len() {
        if !matches!(bytes[at], 0x30..=0x3f) {
            return at;
        }
    }
    bytes.len()
}

/// Returns the input of `ESC [` and the bytes after it. They are counted without it.
pub fn csi_in(bytes: &[u8], is_last: bool) -> Found {
    let (params, after) = bytes.split_at(parameters_run(bytes).min(bytes.len()));
    match after {
        _ if params.len() > MOST => Found::Other,
        [] if is_last => Found::Other,
        [] => Found::More,
        [b'M', report @ ..] if params.is_empty() => bytes_report(report, is_last),
        [b'[', letter, ..] if params.is_empty() && matches!(*letter, b'A'..=b'E') => {
            Found::Input(2, Sent::Key(linux_key(*letter), 0))
        }
        [b'['] if params.is_empty() && !is_last => Found::More,
        [last, ..] => found_with(sequence_of(params, *last), params.len().saturating_add(1)),
    }
}

/// Returns the input of `ESC O` and the bytes after it. They are counted without it.
pub fn ss3_in(bytes: &[u8], is_last: bool) -> Found {
    let (params, after) = bytes.split_at(parameters_run(bytes).min(bytes.len()));
    match after {
        _ if params.len() > MOST => Found::Other,
        [] if is_last => Found::Other,
        [] => Found::More,
        [last, ..] if params.is_empty() => found_with(ss3_of(*last), 1),
        [last, ..] => found_with(modified(params, *last), params.len().saturating_add(1)),
    }
}

// This of so many bytes, if it is something.
fn found_with(sent: Option<Sent>, length: usize) -> Found {
    match sent {
        Some(sent) => Found::Input(length, sent),
        None => Found::Other,
    }
}

// Returns the function key of the Linux console of this letter.
fn linux_key(letter: u8) -> &'static str {
    match letter {
        b'A' => "F1",
        b'B' => "F2",
        b'C' => "F3",
        b'D' => "F4",
        _ => "F5",
    }
}

// Returns the key of a sequence of SS3 without parameters.
fn ss3_of(last: u8) -> Option<Sent> {
    match ss3_key(last) {
        "" => None,
        name => Some(Sent::Key(name, 0)),
    }
}

// Returns the input of a control sequence of these parameters and this final byte.
fn sequence_of(params: &[u8], last: u8) -> Option<Sent> {
    match (params, last) {
        ([], b'I') => Some(Sent::Focus(true)),
        ([], b'O') => Some(Sent::Focus(false)),
        (b"200", b'~') => Some(Sent::Paste(true)),
        (b"201", b'~') => Some(Sent::Paste(false)),
        ([b'<', numbers @ ..], b'M') => sgr_report(numbers, false),
        ([b'<', numbers @ ..], b'm') => sgr_report(numbers, true),
        (_, b'M') => numbers_report(params),
        ([], _) => plain_of(last),
        (_, b'~') => numbered(params),
        (_, b'^') => rxvt(params, CONTROL),
        (_, b'$') => rxvt(params, SHIFT),
        (_, b'@') => rxvt(params, CONTROL | SHIFT),
        (_, b'z') => sun(params),
        _ => modified(params, last),
    }
}

// Returns the key of a control sequence without parameters.
fn plain_of(last: u8) -> Option<Sent> {
    match plain_key(last) {
        "" => None,
        name => Some(Sent::Key(name, 0)),
    }
}

// Returns the key of a number, with modifiers after it.
fn numbered(params: &[u8]) -> Option<Sent> {
    let (number, rest) = number_in(params)?;
    let modifiers = modifiers_in(rest)?;
    key_of(numbered_key(number), modifiers)
}

// Returns the key of a number, as rxvt sends it with modifiers.
fn rxvt(params: &[u8], modifiers: Modifiers) -> Option<Sent> {
    match number_in(params)? {
        (number, []) => key_of(numbered_key(number), modifiers),
        _ => None,
    }
}

// Returns the key of a number of Sun's keyboards.
fn sun(params: &[u8]) -> Option<Sent> {
    match number_in(params)? {
        (number, []) => key_of(sun_key(number), 0),
        _ => None,
    }
}

// Returns the key of a letter, with modifiers: after `1;`, or alone, as some terminals send them.
fn modified(params: &[u8], last: u8) -> Option<Sent> {
    let modifiers = match params {
        [b'1', rest @ ..] if !rest.is_empty() => modifiers_in(rest)?,
        _ => match number_in(params)? {
            (number, []) => bits_of(number)?,
            _ => return None,
        },
    };
    key_of(modified_key(last), modifiers)
}

// Returns a key of this name, if it has one.
fn key_of(name: &'static str, modifiers: Modifiers) -> Option<Sent> {
    if name.is_empty() {
        None
    } else {
        Some(Sent::Key(name, modifiers))
    }
}

// Returns the modifiers after a `;`, or none of nothing. A text after a `:` is no key that is
// looked for.
fn modifiers_in(rest: &[u8]) -> Option<Modifiers> {
    match rest {
        [] => Some(0),
        [b';', digits @ ..] => match number_in(digits)? {
            (number, []) => bits_of(number),
            _ => None,
        },
        _ => None,
    }
}

// Returns the bits of modifiers that are counted from 1 on.
fn bits_of(number: u64) -> Option<Modifiers> {
    match u8::try_from(number) {
        Ok(number @ 1..=16) => Some(number.saturating_sub(1)),
        _ => None,
    }
}

/// Returns the number that a text begins with, of at most 9 digits, and the rest.
pub fn number_in(text: &[u8]) -> Option<(u64, &[u8])> {
    let mut number: u64 = 0;
    let mut count: usize = 0;
    for byte in text {
        if !byte.is_ascii_digit() || count == 9 {
            break;
        }
        let digit = u64::from(byte.saturating_sub(b'0'));
        number = number.saturating_mul(10).saturating_add(digit);
        count = count.saturating_add(1);
    }
    if count == 0 || count > text.len() {
        return None;
    }
    Some((number, &text[count..]))
}
