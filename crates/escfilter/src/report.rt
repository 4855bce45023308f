//! The losses of a stream, in lines of text.

ghost use Rattle.std.specs.Prelude.{◌≡◌, ◌↔◌, false};
ghost use Rattle.escfilter.specs.Fates.{IsComplete};

use crate::PROGRAM;
use crate::failing::Failing;
use crate::name::Name;
use crate::rows::{Open, Rows};
use crate::saying::{put, put_key, put_number};
use command_line::Shown;
use esc_account::{Account, Fate, Place, Row, Sums};
use std::io::Write;

/// Writes lines on `faults` that name the stream: how many of its bytes had each fate; each kind of
/// loss by its name, with the place in the input of the first of it; and the sequence or string
/// that the end of the stream leaves open. If all of it passed, or was respelled, it writes
/// nothing.
pub fn tell_text<E: Write>(account: Account, rows: &Rows, name: &str, faults: &mut E)
    ensures silent { IsComplete account.sums → faults.new ≡ faults.old }
{
    if !has_omissions(account.sums) {
        return;
    }
    tell_sums(account.sums, name, faults);
    for row in rows.rows() {
        tell_row(row, name, faults);
    }
    if let Some(open) = rows.open(account) {
        tell_open(open, name, faults);
    }
    let _ = faults.flush();
}

/// Whether some bytes are not in the output, in any spelling.
pub fn has_omissions(sums: Sums) -> bool
    ensures { result ≡ false ↔ IsComplete sums }
{
    Failing::LESS.is_met(sums)
}

/// Returns the words for a fate.
pub fn words_of(fate: Fate) -> &'static str {
    match fate {
        Fate::Passed => "passed",
        Fate::Respelled => "respelled",
        Fate::Shown => "shown",
        Fate::Replaced => "replaced",
        Fate::LeftOut => "left out",
        Fate::Swallowed => "swallowed",
        Fate::Overwritten => "overwritten",
    }
}

/// How many bytes there are.
pub fn bytes_of(sums: Sums) -> u64 {
    match u64::try_from(sums.total()) {
        Ok(count) => count,
        Err(_) => u64::MAX,
    }
}

// Begins a line that names the stream.
fn begin<E: Write>(name: &str, faults: &mut E) {
    let _ = write!(faults, "{PROGRAM}: {}: ", Shown(name));
}

// How many bytes had each fate that any had.
fn tell_sums<E: Write>(sums: Sums, name: &str, faults: &mut E) {
    begin(name, faults);
    put_number("of ", bytes_of(sums), faults);
    put(" bytes", faults);
    let mut before = " ";
    for fate in &Fate::ALL {
        let count = sums.of(*fate);
        if count > 0 {
            put_number(before, count, faults);
            put(" ", faults);
            put(words_of(*fate), faults);
            before = ", ";
        }
    }
    put("\n", faults);
}

// Tells a row: the segments of one fate under a name.
fn tell_row<E: Write>(row: &Row<Name>, name: &str, faults: &mut E) {
    begin(name, faults);
    put(words_of(row.fate), faults);
    tell_name(row.name, faults);
    put_number(": ", row.count, faults);
    put(",", faults);
    tell_bytes(row.bytes, faults);
    put(", the first", faults);
    tell_place(row.first, faults);
    put("\n", faults);
}

// So many bytes.
fn tell_bytes<E: Write>(bytes: u64, faults: &mut E) {
    put_number(" ", bytes, faults);
    put(if bytes == 1 { " byte" } else { " bytes" }, faults);
}

// The words of a name.
fn tell_name<E: Write>(name: Name, faults: &mut E) {
    for word in &[name.kind, name.name, name.said()] {
        if !word.is_empty() {
            put(" ", faults);
            put(*word, faults);
        }
    }
    if name.has_key() {
        put(" ", faults);
        put_key(name.key, faults);
    }
}

// A place in the input.
fn tell_place<E: Write>(place: Place, faults: &mut E) {
    put_number(" on line ", place.line.saturating_add(1), faults);
    put_number(" at byte ", place.byte, faults);
}

// Tells the string or sequence that the end of the stream leaves open.
fn tell_open<E: Write>(open: Open, name: &str, faults: &mut E) {
    begin(name, faults);
    put("warning:", faults);
    tell_name(open.name, faults);
    put(" is open at the end, since it began", faults);
    tell_place(open.first, faults);
    put("\n", faults);
}
