//! The input that bytes begin with.

use crate::input::controls::control_key;
use crate::input::sent::{ALT, Sent};
use crate::input::sequences::{csi_in, ss3_in};

/// The input that bytes begin with.
#[derive(Clone, Copy)]
pub enum Found {
    /// So many bytes, which mean this.
    Input(usize, Sent),
    /// Input that cannot be told before more bytes come.
    More,
    /// Something else: text, or a control sequence or a string.
    Other,
}

impl Found {
    // Does the same after so many bytes more, with these modifiers.
    fn after(self, count: usize, modifiers: u8) -> Found {
        match self {
            Found::Input(length, sent) => {
                Found::Input(length.saturating_add(count), sent.with(modifiers))
            }
            other => other,
        }
    }
}

/// Returns the input that these bytes begin with; more may come, or not if they are the last.
pub fn found_in(bytes: &[u8], is_last: bool) -> Found {
    match bytes {
        [] => Found::Other,
        [0x1b, rest @ ..] => escape_in(rest, is_last),
        [code, ..] => match control_key(*code) {
            Some(sent) => Found::Input(1, sent),
            None => Found::Other,
        },
    }
}

/// Returns the part that these bytes of a paste begin with: its end, or something else.
pub fn paste_end_in(bytes: &[u8], is_last: bool) -> Found {
    let end = b"\x1b[201~".as_slice();
    if bytes.starts_with(end) {
        Found::Input(end.len(), Sent::Paste(false))
    } else if !is_last && !bytes.is_empty() && end.starts_with(bytes) {
        Found::More
    } else {
        Found::Other
    }
}

// Returns the input of ESC and the bytes after it.
fn escape_in(rest: &[u8], is_last: bool) -> Found {
    let escape = Sent::Key("Escape", 0);
    match rest {
        [] if is_last => Found::Input(1, escape),
        [] => Found::More,
        [0x1b, inner @ ..] => match sequence_in(inner, is_last).after(2, ALT) {
            Found::Other => Found::Input(1, escape),
            Found::Input(length, Sent::Key(name, modifiers)) => {
                Found::Input(length, Sent::Key(name, modifiers))
            }
            Found::Input(_, _) => Found::Input(1, escape),
            Found::More => Found::More,
        },
        [b'[' | b'O', ..] => match sequence_in(rest, is_last) {
            Found::Other if rest.len() == 1 && is_last => alt_in(rest, is_last),
            found => found.after(1, 0),
        },
        [letter, after @ ..] => match opens_string(*letter, after, is_last) {
            Opens::String => Found::Other,
            Opens::More => Found::More,
            Opens::Nothing => alt_in(rest, is_last),
        },
    }
}

// Returns the input of a sequence of ESC [ or ESC O, without its ESC.
fn sequence_in(rest: &[u8], is_last: bool) -> Found {
    match rest {
        [] if !is_last => Found::More,
        [b'[', params @ ..] => csi_in(params, is_last).after(1, 0),
        [b'O', params @ ..] => ss3_in(params, is_last).after(1, 0),
        _ => Found::Other,
    }
}

// Says whether a letter after ESC opens a string that a terminal sends.
#[derive(Clone, Copy)]
enum Opens {
    String,
    Nothing,
    More,
}

// Returns whether a letter after ESC opens a string, by the next bytes: a DCS has parameters or an
// intermediate, an OSC a number or the letter of a report of a title, and an APC the G of images.
fn opens_string(letter: u8, after: &[u8], is_last: bool) -> Opens {
    if !matches!(letter, b'P' | b']' | b'_') {
        return Opens::Nothing;
    }
    let Some(next) = after.first() else {
        return if is_last { Opens::Nothing } else { Opens::More };
    };
    let opens = match letter {
        b'P' => matches!(*next, 0x20..=0x3f),
        b']' => matches!(*next, b'0'..=b'9' | b'l' | b'L'),
        _ => *next == b'G',
    };
    if opens { Opens::String } else { Opens::Nothing }
}

// Returns the input of a character after ESC: a key with Alt.
fn alt_in(rest: &[u8], is_last: bool) -> Found {
    let Some(first) = rest.first() else {
        return Found::Other;
    };
    if let Some(sent) = control_key(*first) {
        return Found::Input(2, sent.with(ALT));
    }
    if *first < 0x80 {
        return Found::Input(2, Sent::Typed(char::from(*first), ALT));
    }
    match first_char(rest) {
        Some(c) => Found::Input(c.len_utf8().saturating_add(1), Sent::Typed(c, ALT)),
        None if rest.len() < 4 && !is_last => Found::More,
        None => Found::Other,
    }
}

// Returns the character that some bytes begin with.
fn first_char(bytes: &[u8]) -> Option<char> {
    let chunk = bytes.utf8_chunks().next()?;
    chunk.valid().chars().next()
}
