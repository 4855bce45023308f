//! The names that lines have.

use crate::values::first_word;
use control_functions::{C0, ControlFunction, EscapeFunction};
use string_commands::row_at;

// The words that names begin with, and the names that no table of functions or strings has, a line
// each.
static OTHERS: &str = "\
CSI
OSC
ESC
DCS
APC
SOS
PM
ST
control
text
sequence
broken
stray
key
mouse
focus
paste
DOCS
G1DM4
G2DM4
G3DM4
G1DM6
G2DM6
G3DM6
VT52
sixel
DECRQKD
SCOBACKGROUND
SCOCURSOR
SCOFOREGROUND
win32
Linux";

// How a name is like a word.
#[derive(Clone, Copy)]
enum Likeness {
    // It is the word.
    Same,
    // It has the same letters, in whatever case.
    Letters,
    // It begins with these letters.
    Beginning,
}

/// Returns whether a line may have a name that begins with this word.
pub fn is_known(word: &str) -> bool {
    found(word, Likeness::Same).is_some()
}

/// Returns the name that has the letters of a word, in another case.
pub fn name_of_letters(word: &str) -> Option<&'static str> {
    found(word, Likeness::Letters)
}

/// Returns the first name that begins with the letters of a word, in whatever case.
pub fn name_begun(word: &str) -> Option<&'static str> {
    found(word, Likeness::Beginning)
}

// Returns the first name that is like a word.
fn found(word: &str, likeness: Likeness) -> Option<&'static str> {
    let name = other_name(word, likeness);
    if name.is_some() {
        return name;
    }
    let name = control_name(word, likeness);
    if name.is_some() {
        return name;
    }
    let name = string_name(word, likeness);
    if name.is_some() {
        return name;
    }
    let name = escape_name(word, likeness);
    if name.is_some() {
        return name;
    }
    sequence_name(word, likeness)
}

// Returns the first of the other names that is like a word.
fn other_name(word: &str, likeness: Likeness) -> Option<&'static str> {
    for name in OTHERS.lines() {
        if is_like(name, word, likeness) {
            return Some(name);
        }
    }
    None
}

// Returns the first name of a control that is like a word.
fn control_name(word: &str, likeness: Likeness) -> Option<&'static str> {
    for code in 0..0x80_u8 {
        match C0::of(code) {
            Some(control) if is_like(control.name(), word, likeness) => {
                return Some(control.name());
            }
            _ => {}
        }
    }
    None
}

// Returns the first name of a string that is like a word.
fn string_name(word: &str, likeness: Likeness) -> Option<&'static str> {
    for place in 0..usize::MAX {
        let Some(row) = row_at(place) else {
            break;
        };
        let name = first_word(row.name);
        if is_like(name, word, likeness) {
            return Some(name);
        }
    }
    None
}

// The bytes before the first private prefix and before the first intermediate: they stand for none.
const NO_PREFIX: u8 = 0x3b;

const NO_INTERMEDIATE: u8 = 0x1f;

// Returns a byte, if it is not the one that stands for none.
fn given(byte: u8, none: u8) -> Option<u8> {
    if byte == none { None } else { Some(byte) }
}

// Returns the first name of an escape sequence that is like a word.
fn escape_name(word: &str, likeness: Likeness) -> Option<&'static str> {
    for first in NO_INTERMEDIATE..0x30 {
        for last in 0x20..0x7f_u8 {
            match EscapeFunction::of_bytes(given(first, NO_INTERMEDIATE), last) {
                Some(function) if is_like(function.name(), word, likeness) => {
                    return Some(function.name());
                }
                _ => {}
            }
        }
    }
    None
}

// Returns the first name of a control sequence that is like a word.
fn sequence_name(word: &str, likeness: Likeness) -> Option<&'static str> {
    for first in NO_INTERMEDIATE..0x30 {
        for prefix in NO_PREFIX..0x40 {
            let marks = (given(prefix, NO_PREFIX), given(first, NO_INTERMEDIATE));
            let name = marked_name(marks, word, likeness);
            if name.is_some() {
                return name;
            }
        }
    }
    None
}

// Returns the first name of a control sequence with this private prefix and this intermediate that
// is like a word. Some final bytes name one function without parameters and another one with two.
fn marked_name(
    marks: (Option<u8>, Option<u8>),
    word: &str,
    likeness: Likeness,
) -> Option<&'static str> {
    let (prefix, intermediate) = marks;
    for last in 0x40..0x7f_u8 {
        for count in [0_usize, 2] {
            match ControlFunction::of_parts(prefix, intermediate, count, last) {
                Some(function) if is_like(function.name(), word, likeness) => {
                    return Some(function.name());
                }
                _ => {}
            }
        }
    }
    None
}

// Returns whether a name is like a word.
fn is_like(name: &str, word: &str, likeness: Likeness) -> bool {
    match likeness {
        Likeness::Same => name == word,
        Likeness::Letters => name.as_bytes().eq_ignore_ascii_case(word.as_bytes()),
        Likeness::Beginning => begins(name.as_bytes(), word.as_bytes()),
    }
}

// Returns whether a name begins with these letters, in whatever case.
fn begins(name: &[u8], letters: &[u8]) -> bool {
    match name.get(..letters.len()) {
        Some(begin) => begin.eq_ignore_ascii_case(letters),
        None => false,
    }
}
