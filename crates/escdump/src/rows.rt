//! Rows of tables.

use crate::values::cut;

/// Returns the part of a row before its first `^`, and the parts after that; all of it and nothing,
/// if it has one part.
pub fn part_of(row: &'static str) -> (&'static str, &'static str) {
    match row.split_once('^') {
        Some(halves) => halves,
        None => (row, ""),
    }
}

/// Returns the parts after the key of the first row of a table that begins with this and fits a
/// text, and the rest of the text after the key. A row is a line: the beginning, the key, as
/// [`key_rest`] reads it, a description, the fields of the rest of the text, as
/// [`add_fields`](crate::fields::add_fields) reads them, and a name.
pub fn find_row<'t>(
    table: &'static str,
    head: &[u8],
    text: Option<&'t [u8]>,
) -> Option<(&'static str, Option<&'t [u8]>)> {
    for line in table.lines() {
        let (found, row) = part_of(line);
        if found.as_bytes() == head {
            let (key, row) = part_of(row);
            if let Some(rest) = key_rest(key, text) {
                return Some((row, rest));
            }
        }
    }
    None
}

/// Returns the rest of a text after a key, if it begins with that: after a `;` or a `=`, or
/// nothing. A key `-` is that of no text, `++` of one of three parts or more, one that ends with
/// `+` of a text that has more after it, and one that ends with `.` of a text that has not.
pub fn key_rest<'t>(key: &'static str, text: Option<&'t [u8]>) -> Option<Option<&'t [u8]>> {
    if key.is_empty() {
        return Some(text);
    }
    let Some(text) = text else {
        return if key == "-" { Some(None) } else { None };
    };
    if key == "-" {
        return if text.is_empty() { Some(None) } else { None };
    }
    if key == "++" {
        return if has_two(text) {
            Some(Some(text))
        } else {
            None
        };
    }
    if let Some(key) = key.strip_suffix('.') {
        return if text == key.as_bytes() {
            Some(None)
        } else {
            None
        };
    }
    match key.strip_suffix('+') {
        Some(key) => match after_key(key.as_bytes(), text) {
            Some(Some(rest)) if !rest.is_empty() => Some(Some(rest)),
            _ => None,
        },
        None => after_key(key.as_bytes(), text),
    }
}

// Returns whether a text has two `;` or more.
fn has_two(text: &[u8]) -> bool {
    match cut(text, b';') {
        (_, Some(rest)) => cut(rest, b';').1.is_some(),
        _ => false,
    }
}

// Returns the rest of a text after a key that it begins with.
fn after_key<'t>(key: &[u8], text: &'t [u8]) -> Option<Option<&'t [u8]>> {
    if text == key {
        return Some(None);
    }
    if text.len() < key.len() {
        return None;
    }
    let (found, rest) = text.split_at(key.len());
    match rest {
        [b';' | b'=', rest @ ..] if found == key => Some(Some(rest)),
        _ => None,
    }
}
