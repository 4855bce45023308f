//! Values of fields in words.

use crate::decoded::add_base64;
use crate::fields::add_label;
use crate::key_words::{add_bits, add_code, add_event, add_modifiers};
use dump_page::Phrase;

/// Returns the text up to a byte, and the text after that byte, if it has one.
pub fn cut(text: &[u8], byte: u8) -> (&[u8], Option<&[u8]>) {
    for at in 0..text.len() {
        if text[at] == byte {
            return (&text[..at], Some(&text[at + 1..]));
        }
    }
    (text, None)
}

/// Returns the first word of a name.
pub fn first_word(name: &str) -> &str {
    match name.split_once(' ') {
        Some((first, _)) => first,
        None => name,
    }
}

/// Returns the number that a text is in decimal, of at most 18 digits.
pub fn number_in(text: &[u8]) -> Option<i64> {
    match text {
        [b'-', digits @ ..] => match digits_in(digits) {
            Some(number) => Some(number.saturating_neg()),
            None => None,
        },
        _ => digits_in(text),
    }
}

// Returns the number of these digits.
fn digits_in(text: &[u8]) -> Option<i64> {
    if text.is_empty() || text.len() > 18 {
        return None;
    }
    let mut number: i64 = 0;
    for byte in text {
        if !byte.is_ascii_digit() {
            return None;
        }
        let digit = i64::from(byte.saturating_sub(b'0'));
        number = number.saturating_mul(10).saturating_add(digit);
    }
    Some(number)
}

/// Returns the words of a value: the text after its `~`.
pub fn words_in(values: &'static str, value: &[u8]) -> Option<&'static str> {
    for entry in values.split('/') {
        if let Some((key, words)) = entry.split_once('~') {
            if key.as_bytes() == value {
                return Some(words);
            }
        }
    }
    None
}

/// Adds a number, or any other text between quotes.
pub fn add_number(part: &[u8], to: &mut Phrase) {
    if part.is_empty() {
        return to.add(" left out");
    }
    match number_in(part) {
        Some(number) => to.add_integer(" ", number),
        None => to.add_quoted(" ", part),
    }
}

/// Adds a value by its words, or as it is.
pub fn add_value(label: &'static str, values: &'static str, part: &[u8], to: &mut Phrase) {
    add_label(label, to);
    match words_in(values, part) {
        Some(words) => to.add_word(words),
        None => add_number(part, to),
    }
}

/// Adds a colour, or that it is asked for.
pub fn add_color(part: &[u8], to: &mut Phrase) {
    if part == b"?".as_slice() {
        to.add(" is asked for");
    } else {
        to.add_quoted(" = ", part);
    }
}

/// Adds the character of a code.
pub fn add_character(part: &[u8], to: &mut Phrase) {
    match number_in(part) {
        Some(number) => {
            to.add(" ");
            add_code(number, to);
        }
        None => to.add_quoted(" ", part),
    }
}

/// Adds the words of bits, or the modifiers of a key and its event.
pub fn add_held(
    is_key: bool,
    label: &'static str,
    values: &'static str,
    part: &[u8],
    to: &mut Phrase,
) {
    let (first, event) = cut(part, b':');
    let Some(number) = number_in(first) else {
        add_label(label, to);
        return to.add_quoted(" ", part);
    };
    if is_key {
        add_modifiers(Some(number), to);
        return add_event(event, to);
    }
    add_label(label, to);
    to.add_integer(" ", number);
    if add_bits(values, " (", ", ", number, to) {
        to.add(")");
    }
}

/// Adds keys with values, with this byte between them.
pub fn add_pairs(separator: u8, values: &'static str, text: &[u8], to: &mut Phrase) {
    let mut rest = Some(text);
    for _ in 0..u64::MAX {
        let Some(text) = rest else {
            break;
        };
        let (pair, after) = cut(text, separator);
        add_pair(values, pair, to);
        rest = after;
    }
}

// Adds a key with its value.
fn add_pair(values: &'static str, pair: &[u8], to: &mut Phrase) {
    if pair.is_empty() {
        return;
    }
    add_label(",", to);
    if let Some(words) = words_in(values, pair) {
        return to.add_word(words);
    }
    match cut(pair, b'=') {
        (key, Some(value)) => match words_in(values, key) {
            Some(words) => add_keyed(words, value, to),
            None => to.add_quoted(" ", pair),
        },
        _ => to.add_quoted(" ", pair),
    }
}

// Adds the words of a key and its value, which is in base64 if the words begin with `$`.
fn add_keyed(words: &'static str, value: &[u8], to: &mut Phrase) {
    match words.strip_prefix('$') {
        Some(words) => {
            to.add_word(words);
            add_base64(value, to);
        }
        None => {
            to.add_word(words);
            add_number(value, to);
        }
    }
}

/// Adds keys with values, with `;` between them, and how much data comes after a `:`.
pub fn add_file(values: &'static str, text: &[u8], to: &mut Phrase) {
    let (keys, content) = cut(text, b':');
    add_pairs(b';', values, keys, to);
    if let Some(content) = content {
        add_label(", data of", to);
        add_count(content.len(), to);
        to.add(" bytes in base64");
    }
}

/// Adds how many there are.
pub fn add_count(count: usize, to: &mut Phrase) {
    to.add_integer(" ", i64::try_from(count).unwrap_or(i64::MAX));
}

/// Adds a name, and its value in base64 after a `=`.
pub fn add_variable(text: &[u8], to: &mut Phrase) {
    let (name, value) = cut(text, b'=');
    to.add_quoted(" ", name);
    if let Some(value) = value {
        to.add(" =");
        add_base64(value, to);
    }
}
