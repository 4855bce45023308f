//! A control string, as a call writes it for its caller.
ghost use Rattle.std.specs.Prelude.{Option, ℕ};
ghost use Rattle.string_commands.specs.Rows.{Finds};
ghost use Rattle.esc_calls.specs.StringRows.{IsStringRow, SaysString};

use crate::output::put;
use string_commands::Row;

/// A control string, for its caller: a row of the table of `string_commands`, or zeros.
#[repr(C)]
#[derive(Clone, Copy)]
pub struct StringRow {
    /// Its name, and zeros after it.
    pub name: [u8; 40],
    /// Its description in words, and zeros after them.
    pub phrase: [u8; 80],
    /// The key that tells it apart: the number of an operating system command.
    pub key: usize,
    /// The place of its row, from 0 on.
    pub row: usize,
}

// Notes the string of a row, if there is one.
#[tactic(auto, using(crate::proofs::Strings::says_row, crate::proofs::Strings::says_none))]
pub(crate) fn note(found: Option<Row>, out: &mut StringRow) -> bool
    ensures { (o : Option ℕ) → Finds o found → SaysString o out.new result }
{
    match found {
        Some(row) => {
            put_row(row.name, row.words, row.told.key as usize, row.place, out);
            true
        }
        None => {
            put_row("", "", 0, 0, out);
            false
        }
    }
}

// Puts down a string of this name.
fn put_row(name: &str, words: &str, key: usize, row: usize, out: &mut StringRow)
    ensures { IsStringRow out.new name.now words.now key row }
{
    *out = StringRow {
        name: [0; 40],
        phrase: [0; 80],
        key,
        row,
    };
    let _ = put(name.as_bytes(), &mut out.name);
    let _ = put(words.as_bytes(), &mut out.phrase);
}
