//! Operating system commands in words.

use crate::decoded::add_base64;
use crate::fields::add_fields;
use crate::values::{add_pairs, cut};
use dump_page::{Key, Name, Phrase};
use string_commands::{Begin, Row, StringKind, find};

// Returns the letter that a text begins with.
fn letter_of(text: &[u8]) -> Key {
    match text {
        [first, ..] if first.is_ascii_alphabetic() => Key::Bytes([0, 0, *first]),
        _ => Key::Nothing,
    }
}

/// Adds a command of this number, if it has one, in words. Its text may be whole, or only begin.
/// Its name is `OSC` and its number, or the letter that it has in place of one.
pub fn add_command(number: Option<u64>, text: &[u8], is_whole: bool, to: &mut Phrase) {
    let key = match number {
        Some(number) => Key::Number(number),
        None => letter_of(text),
    };
    let name = Name("OSC", "", key);
    let (_, rest) = cut(text, b';');
    match key {
        Key::Number(52) => add_clipboard(name, rest, is_whole, to),
        Key::Number(8) => add_link(name, rest, is_whole, to),
        Key::Number(number) => add_numbered(name, number, rest, is_whole, to),
        Key::Bytes(bytes) => add_lettered(name, bytes[2], text, to),
        Key::Nothing => {
            to.begin_named(name, "without a number");
            to.add_quoted(" ", text);
        }
    }
}

// Adds a command of this number. Only for a whole one it says the effect without a text.
fn add_numbered(name: Name, number: u64, rest: Option<&[u8]>, is_whole: bool, to: &mut Phrase) {
    match row_of(number, rest.unwrap_or(b"")) {
        Some(row) => add_row(name, row, rest, is_whole, to),
        None => {
            to.begin_named(name, "not known");
            if let Some(rest) = rest {
                to.add_quoted(" ", rest);
            }
        }
    }
}

// Returns the row of a command of this number.
fn row_of(number: u64, rest: &[u8]) -> Option<Row> {
    match u32::try_from(number) {
        Ok(number) => find(StringKind::Osc, number, &[], rest),
        Err(_) => None,
    }
}

// Adds the command of a row: its words, and the fields after the beginning that it has.
fn add_row(name: Name, row: Row, rest: Option<&[u8]>, is_whole: bool, to: &mut Phrase) {
    let fields = fields_after(row, rest);
    if row.alone.is_empty() || !is_empty(fields) {
        to.begin_named(name, row.said);
        add_fields(row.fields, fields, to);
    } else if is_whole {
        to.begin_named(name, row.alone);
    } else {
        to.begin_named(name, if row.start.is_empty() { "" } else { row.said });
    }
}

// Returns the rest of a text after the beginning that a row has, and the byte after that.
fn fields_after(row: Row, rest: Option<&[u8]>) -> Option<&[u8]> {
    match rest {
        Some(text) if row.told.begin == Begin::Part => {
            if row.start.len() < text.len() {
                Some(&text[row.start.len() + 1..])
            } else {
                None
            }
        }
        _ => rest,
    }
}

// Returns whether there is no text.
fn is_empty(text: Option<&[u8]>) -> bool {
    match text {
        Some(text) => text.is_empty(),
        None => true,
    }
}

// Commands of Sun's terminals, and of the Linux console, which have no end.
fn add_lettered(name: Name, letter: u8, text: &[u8], to: &mut Phrase) {
    let rest = match text {
        [_, rest @ ..] => rest,
        _ => text,
    };
    match find(StringKind::Letter, u32::from(letter), &[], rest) {
        Some(row) => {
            to.begin_named(name, row.said);
            if !rest.is_empty() {
                add_fields(row.fields, Some(rest), to);
            }
        }
        None => {
            to.begin_named(name, "without a number");
            if !text.is_empty() {
                to.add_quoted(" ", text);
            }
        }
    }
}

// Adds a link, or the end of one.
fn add_link(name: Name, rest: Option<&[u8]>, is_whole: bool, to: &mut Phrase) {
    let (params, address) = cut(rest.unwrap_or(b""), b';');
    let address = address.unwrap_or(b"");
    if address.is_empty() {
        to.begin_named(
            name,
            if is_whole {
                "hyperlink ends"
            } else {
                "hyperlink"
            },
        );
    } else {
        to.begin_named(name, "hyperlink");
        to.add_quoted(" ", address);
    }
    add_params(params, to);
}

// Adds the parameters of a link.
fn add_params(params: &[u8], to: &mut Phrase) {
    if !params.is_empty() {
        add_pairs(b':', "", params, to);
    }
}

// Adds the words for the clipboard: the text that is copied to it, or that it is asked for or
// cleared. The text is shown as the bytes that it stands for.
fn add_clipboard(name: Name, rest: Option<&[u8]>, is_whole: bool, to: &mut Phrase) {
    to.begin_named(name, "clipboard");
    let (selection, text) = cut(rest.unwrap_or(b""), b';');
    to.add_quoted(" ", selection);
    match text {
        Some([]) | None if !is_whole => {}
        Some(b"?") => to.add(" is asked for"),
        Some([]) | Some(b"!") | None => to.add(" is cleared"),
        Some(text) => {
            to.add(" is set to");
            add_base64(text, to);
        }
    }
}
