//! The VT52 mode, in which escape sequences are those of the VT52 (xterm's list, "VT52 Mode",
//! <https://invisible-island.net/xterm/ctlseqs/ctlseqs.html>).

use crate::item::Item;
use crate::kind::Kind;
use crate::selection::numbers_of;
use crate::values::cut;
use dump_page::{Key, Name, Phrase};

/// Says whether a terminal is in its VT52 mode: from the reset of DECANM up to its next setting, or
/// to `ESC <`.
#[derive(Clone, Copy, Drop)]
pub struct Vt52 {
    /// Says whether it is.
    pub is_on: bool,
}

impl Vt52 {
    /// Returns a state to which nothing came.
    pub fn new() -> Vt52 {
        Vt52 { is_on: false }
    }

    /// Takes the item that comes next.
    pub fn take(&mut self, item: &Item) {
        match item.bytes() {
            [.., b'l'] if !self.is_on && is_of_mode(item) => self.is_on = true,
            [.., b'h'] if self.is_on && is_of_mode(item) => self.is_on = false,
            b"\x1b<" => self.is_on = false,
            _ => {}
        }
    }
}

// Returns whether an item that sets or resets modes has the private mode 2, which is DECANM.
fn is_of_mode(item: &Item) -> bool {
    if item.kind() != Kind::Csi || !matches!(item.body(), [b'?', ..]) {
        return false;
    }
    let mut rest = Some(numbers_of(item));
    for _ in 0..u64::MAX {
        let Some(text) = rest else {
            break;
        };
        let (part, more) = cut(text, b';');
        if part == b"2".as_slice() {
            return true;
        }
        rest = more;
    }
    false
}

/// The first part of some bytes, if a terminal is in its VT52 mode.
#[derive(Clone, Copy)]
pub enum Address {
    /// A cursor position, of four bytes.
    Whole,
    /// Bytes that may become one.
    Begun,
    /// A cursor position that the stream cuts.
    Cut,
    /// Something else.
    Other,
}

/// Returns whether a cursor position comes first: after `ESC Y` the line and the column, each as a
/// character past U+0020. If nothing comes after the bytes, one that is begun is cut.
pub fn address_in(bytes: &[u8], is_last: bool) -> Address {
    match bytes {
        [0x1b, b'Y', 0x20..=0x7e, 0x20..=0x7e, ..] => Address::Whole,
        [0x1b] | [0x1b, b'Y'] | [0x1b, b'Y', 0x20..=0x7e] if !is_last => Address::Begun,
        [0x1b, b'Y'] | [0x1b, b'Y', 0x20..=0x7e] => Address::Cut,
        _ => Address::Other,
    }
}

// A line for each sequence: its letter, a space and its description.
static WORDS: &str = "\
A cursor up
B cursor down
C cursor right
D cursor left
F graphics characters
G no graphics characters
H cursor to the first line and column
I reverse line feed
J erase to the end of the screen
K erase to the end of the line
Y cursor position
Z ask what the terminal is
= application keypad
> numeric keypad
< leave VT52 mode";

/// Adds an escape sequence of the VT52 with this letter after ESC, and these bytes after that;
/// returns whether it is one.
pub fn add_vt52(letter: u8, rest: &[u8], to: &mut Phrase) -> bool {
    let letters = [letter];
    for line in WORDS.lines() {
        match line.split_once(' ') {
            Some((key, words)) if key.as_bytes() == letters.as_slice() => {
                to.begin_named(Name("ESC", "VT52", Key::Bytes([0, 0, letter])), words);
                add_place(rest, to);
                return true;
            }
            _ => {}
        }
    }
    false
}

// Adds a line and a column, as far as they are there. The first of each is a space.
fn add_place(bytes: &[u8], to: &mut Phrase) {
    if let [line, rest @ ..] = bytes {
        to.add_integer(" line ", i64::from(line.saturating_sub(0x1f)));
        if let [column, ..] = rest {
            to.add_integer(", column ", i64::from(column.saturating_sub(0x1f)));
        }
    }
}
