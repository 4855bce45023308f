//! Timing files of script(1), line by line.

use crate::seconds::{count_in, micros_in};
use memchr::memchr;

/// The entry of a line of a timing file (scriptreplay(1); script(1), "classic" and "advanced").
#[derive(Clone, Copy)]
pub enum Entry<'t> {
    /// The terminal got so many bytes after so many microseconds.
    Output(u64, u64),
    /// So many bytes were typed after so many microseconds.
    Input(u64, u64),
    /// So many bytes came after so many microseconds, in a file that has one direction alone.
    Either(u64, u64),
    /// Something else came after so many microseconds: a signal.
    Passed(u64),
    /// A header: its name, and its value.
    Header(&'t [u8], &'t [u8]),
    /// Nothing.
    Nothing,
    /// It is no line of a timing file.
    Wrong,
}

/// Returns the entry of a line: `delay count`, or `O delay count`, `I delay count`, `S delay ..` or
/// `H delay name ..`.
pub fn entry_in(line: &[u8]) -> Entry<'_> {
    match line {
        [] => Entry::Nothing,
        [b'O', b' ', rest @ ..] => match counted(rest) {
            Some((delay, count)) => Entry::Output(delay, count),
            None => Entry::Wrong,
        },
        [b'I', b' ', rest @ ..] => match counted(rest) {
            Some((delay, count)) => Entry::Input(delay, count),
            None => Entry::Wrong,
        },
        [b'S', b' ', rest @ ..] => match micros_in(word_of(rest).0) {
            Some(delay) => Entry::Passed(delay),
            None => Entry::Wrong,
        },
        [b'H', b' ', rest @ ..] => header(word_of(rest).1),
        _ => match counted(line) {
            Some((delay, count)) => Entry::Either(delay, count),
            None => Entry::Wrong,
        },
    }
}

// Returns a header of this text.
fn header(text: &[u8]) -> Entry<'_> {
    let (name, value) = word_of(text);
    Entry::Header(name, value)
}

// Returns a delay and a count.
fn counted(text: &[u8]) -> Option<(u64, u64)> {
    let (delay, count) = word_of(text);
    match (micros_in(delay), count_in(count)) {
        (Some(delay), Some(count)) => Some((delay, count)),
        _ => None,
    }
}

// Returns the first word of a text, and the rest after the space that ends it.
fn word_of(text: &[u8]) -> (&[u8], &[u8]) {
    match memchr(b' ', text) {
        Some(at) => (&text[..at], &text[at + 1..]),
        None => (text, &[]),
    }
}

/// Returns the first line of a text, without its line feed, and the rest.
pub fn line_of(text: &[u8]) -> (&[u8], &[u8]) {
    match memchr(b'\n', text) {
        Some(at) => (&text[..at], &text[at + 1..]),
        None => (text, &[]),
    }
}
