//! Application program commands in words.

use crate::decoded::add_base64;
use crate::fields::add_fields;
use crate::values::{add_count, cut, first_word};
use dump_page::{Key, Name, Phrase};
use string_commands::{Row, StringKind, find};

/// Adds an application program command of these bytes in words.
pub fn add_application(text: &[u8], to: &mut Phrase) {
    match text {
        [first @ 0x20..=0x7e, rest @ ..] => {
            match find(StringKind::Apc, u32::from(*first), &[], rest) {
                Some(row) => add_row(row, rest, to),
                None => {
                    let name = Name("APC", "", Key::Bytes([0, 0, *first]));
                    to.begin_named(name, "application program command");
                    to.add_quoted(" ", text);
                }
            }
        }
        _ => {
            to.begin("APC", "", "application program command");
            to.add_quoted(" ", text);
        }
    }
}

// Adds a command that a row has, by its name.
fn add_row(row: Row, text: &[u8], to: &mut Phrase) {
    to.begin("APC", first_word(row.name), row.said);
    if row.told.key == u32::from(b'G') {
        add_image(row.fields, text, to);
    } else {
        add_fields(row.fields, Some(text), to);
    }
}

// Adds a command of kitty's graphics protocol, or a terminal's answer to one: its keys, and its
// data, which are in base64, but for an answer.
fn add_image(fields: &'static str, text: &[u8], to: &mut Phrase) {
    let (keys, data) = cut(text, b';');
    let is_answer = is_answer(data);
    if is_answer {
        to.add(", answer");
    }
    add_fields(fields, Some(keys), to);
    if has_key(keys, b"a=d") && !has_kind(keys) {
        to.add(", all that are visible");
    }
    match data {
        Some([]) | None => {}
        Some(data) if is_answer => to.add_quoted(": ", data),
        Some(data) => {
            if is_path(keys) {
                to.add(", name");
                add_base64(data, to);
            } else {
                to.add(", data of");
                add_count(data.len(), to);
                to.add(" bytes in base64");
            }
        }
    }
}

// Returns whether keys with `,` between them have this one.
fn has_key(keys: &[u8], wanted: &[u8]) -> bool {
    let mut rest = Some(keys);
    for _ in 0..u64::MAX {
        let Some(text) = rest else {
            break;
        };
        let (key, after) = cut(text, b',');
        if key == wanted {
            return true;
        }
        rest = after;
    }
    false
}

// Returns whether keys say which images are deleted, as `d=i`.
fn has_kind(keys: &[u8]) -> bool {
    let mut rest = Some(keys);
    for _ in 0..u64::MAX {
        let Some(text) = rest else {
            break;
        };
        let (key, after) = cut(text, b',');
        if let [b'd', b'=', ..] = key {
            return true;
        }
        rest = after;
    }
    false
}

// Returns whether the data are the name of a file or of shared memory.
fn is_path(keys: &[u8]) -> bool {
    has_key(keys, b"t=f") || has_key(keys, b"t=t") || has_key(keys, b"t=s")
}

// Returns whether the data are an answer of a terminal: `OK`, or an error and its words.
fn is_answer(data: Option<&[u8]>) -> bool {
    match data {
        Some(b"OK") => true,
        Some([b'E', rest @ ..]) => cut(rest, b':').1.is_some(),
        _ => false,
    }
}
