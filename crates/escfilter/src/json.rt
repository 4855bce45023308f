//! The losses of a stream, as JSON (RFC 8259).

use crate::name::{Key, Name};
use crate::report::{bytes_of, words_of};
use crate::rows::{Open, Rows};
use crate::saying::{put, put_number};
use esc_account::{Account, Fate, Place, Row, Sums};
use std::io::Write;

/// Writes a line on `faults`: an object that says of the stream of this name the same as
/// `tell_text`, and whether all of the stream was read.
pub fn tell_json<E: Write>(
    account: Account,
    rows: &Rows,
    name: &str,
    is_complete: bool,
    faults: &mut E,
) {
    put("{\"file\":", faults);
    put_text(name, faults);
    put_number(",\"bytes\":", bytes_of(account.sums), faults);
    put_sums(account.sums, faults);
    put_rows(rows.rows(), faults);
    put_open(rows.open(account), faults);
    put(",\"complete\":", faults);
    put(if is_complete { "true" } else { "false" }, faults);
    put("}\n", faults);
}

/// Writes a string: characters that a terminal does not show as themselves, a quote and a backslash
/// are escaped.
pub fn put_text<E: Write>(text: &str, faults: &mut E) {
    put("\"", faults);
    for c in text.chars() {
        put_char(c, faults);
    }
    put("\"", faults);
}

// Writes a character of a string.
fn put_char<E: Write>(c: char, faults: &mut E) {
    if c == '"' || c == '\\' || !command_line::is_shown(c) {
        put_escaped(c as u32, faults);
    } else {
        let _ = write!(faults, "{c}");
    }
}

// Writes the number of a character as JSON has it: past FFFF as two surrogates.
fn put_escaped<E: Write>(number: u32, faults: &mut E) {
    let past = number.saturating_sub(0x1_0000);
    if number < 0x1_0000 {
        put_unit(number, faults);
    } else {
        put_unit(0xd800 + past / 0x400, faults);
        put_unit(0xdc00 + past % 0x400, faults);
    }
}

// Writes a code unit by its number.
fn put_unit<E: Write>(unit: u32, faults: &mut E) {
    let _ = write!(faults, "\\u{unit:04x}");
}

/// Writes a place, after a comma.
pub fn put_place<E: Write>(place: Place, faults: &mut E) {
    put_number(",\"line\":", place.line.saturating_add(1), faults);
    put_number(",\"byte\":", place.byte, faults);
}

// Writes how many bytes had each fate.
fn put_sums<E: Write>(sums: Sums, faults: &mut E) {
    put(",\"sums\":{", faults);
    let mut is_first = true;
    for fate in &Fate::ALL {
        put_comma(is_first, faults);
        put_fate(*fate, faults);
        put_number(":", sums.of(*fate), faults);
        is_first = false;
    }
    put("}", faults);
}

/// Writes a fate, as a key has it.
pub fn put_fate<E: Write>(fate: Fate, faults: &mut E) {
    put_text(
        match fate {
            Fate::LeftOut => "left_out",
            _ => words_of(fate),
        },
        faults,
    );
}

// Writes what did not pass, by fate and name.
fn put_rows<E: Write>(rows: &[Row<Name>], faults: &mut E) {
    put(",\"rows\":[", faults);
    let mut is_first = true;
    for row in rows {
        put_comma(is_first, faults);
        put_row(row, faults);
        is_first = false;
    }
    put("]", faults);
}

// Writes a comma before what is not the first.
fn put_comma<E: Write>(is_first: bool, faults: &mut E) {
    if !is_first {
        put(",", faults);
    }
}

// Writes what had one fate under a name.
fn put_row<E: Write>(row: &Row<Name>, faults: &mut E) {
    put("{\"fate\":", faults);
    put_fate(row.fate, faults);
    put(",", faults);
    put_name(row.name, faults);
    put_number(",\"count\":", row.count, faults);
    put_number(",\"bytes\":", row.bytes, faults);
    put_place(row.first, faults);
    put("}", faults);
}

/// Writes the words of a name.
pub fn put_name<E: Write>(name: Name, faults: &mut E) {
    put("\"kind\":", faults);
    put_text(name.kind, faults);
    put(",\"name\":", faults);
    match name.key {
        Key::Nothing => put_text(name.name, faults),
        Key::Number(number) => {
            put_number("\"", number, faults);
            put("\"", faults);
        }
        Key::Bytes(bytes) => put_bytes(bytes, faults),
    }
    put(",\"words\":", faults);
    put_text(name.said(), faults);
}

// Writes the characters of these numbers but 0 as a string.
fn put_bytes<E: Write>(bytes: [u8; 3], faults: &mut E) {
    put("\"", faults);
    for byte in bytes {
        if byte != 0 {
            put_char(char::from(byte), faults);
        }
    }
    put("\"", faults);
}

// Writes what the end of the stream leaves open.
fn put_open<E: Write>(open: Option<Open>, faults: &mut E) {
    put(",\"open\":", faults);
    match open {
        Some(open) => {
            put("{", faults);
            put_name(open.name, faults);
            put_number(",\"bytes\":", open.bytes, faults);
            put_place(open.first, faults);
            put("}", faults);
        }
        None => put("null", faults),
    }
}
