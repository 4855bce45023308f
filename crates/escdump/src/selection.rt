//! This module says which lines are printed, by kinds and by names.

use crate::item::Item;
use crate::kind::{KINDS, Kind};
use crate::names::{is_known, name_begun, name_of_letters};
use crate::values::{cut, first_word, number_in};
use dump_page::{Key, Name};

/// A list of kinds and names, with `,` between them.
#[derive(Clone, Copy)]
pub struct Listed<'a> {
    // The bits of its kinds.
    kinds: u64,
    // The list; nothing if it has no names.
    names: &'a str,
}

impl<'a> Listed<'a> {
    /// All kinds.
    pub const ALL: Listed<'static> = Listed {
        kinds: u64::MAX,
        names: "",
    };

    /// No kind and no name.
    pub const NONE: Listed<'static> = Listed {
        kinds: 0,
        names: "",
    };

    /// Returns the list that a word is; or the first part of it that is neither a kind nor a name.
    /// The first word of a name is one that a line may have.
    pub fn of(list: &'a str) -> Result<Listed<'a>, &'a str> {
        let mut kinds = 0;
        let mut has_names = false;
        for part in list.split(',') {
            match bit_of(part) {
                Some(bit) => kinds |= bit,
                None if is_known(first_word(part)) => has_names = true,
                None => return Err(part),
            }
        }
        let names = if has_names { list } else { "" };
        Ok(Listed { kinds, names })
    }

    /// Returns whether it has names.
    pub fn has_names(self) -> bool {
        !self.names.is_empty()
    }

    /// Returns whether it has this kind.
    pub fn has_kind(self, kind: Kind) -> bool {
        self.kinds & kind.bit() != 0
    }

    /// Returns whether it has the kind or the name of an item, which has this name.
    pub fn has(self, item: &Item, name: Name) -> bool {
        if self.has_kind(item.kind()) {
            return true;
        }
        if !self.has_names() {
            return false;
        }
        for part in self.names.split(',') {
            if is_of(part, item, name) {
                return true;
            }
        }
        false
    }
}

// Returns the bit of the kind of this word.
fn bit_of(word: &str) -> Option<u64> {
    let mut bit: u64 = 1;
    for kind in KINDS {
        if *kind == word {
            return Some(bit);
        }
        bit = bit.wrapping_mul(2);
    }
    None
}

/// Returns the kind or the name that is near to a wrong one: the name with its letters; the kind
/// whose word begins with it, or the other way round; or the first name that begins with it.
pub fn near_kind(wrong: &str) -> Option<&'static str> {
    let word = first_word(wrong);
    if word.is_empty() {
        return None;
    }
    match name_of_letters(word) {
        Some(name) => Some(name),
        None => match kind_begun(word) {
            Some(kind) => Some(kind),
            None => name_begun(word),
        },
    }
}

// Returns the kind whose word begins with this one, or the other way round.
fn kind_begun(word: &str) -> Option<&'static str> {
    for kind in KINDS {
        if kind.starts_with(word) || word.starts_with(*kind) {
            return Some(*kind);
        }
    }
    None
}

// Returns whether a word names an item that has this name: by its kind, as `OSC`, by its name, with
// its kind or without, as `CSI SGR` or `SGR`, and after that by a parameter that it has.
fn is_of(word: &str, item: &Item, name: Name) -> bool {
    let Name(kind, own, key) = name;
    let after_kind = after(word, kind);
    if own.is_empty() {
        return match after_kind {
            Some(rest) => is_key(rest, key),
            None => false,
        };
    }
    match after_kind {
        Some("") => return true,
        Some(rest) if is_named(rest, own, item) => return true,
        _ => {}
    }
    is_named(word, own, item)
}

// Returns whether this is a name, or a name and a parameter of the item.
fn is_named(word: &str, own: &'static str, item: &Item) -> bool {
    match after(word, own) {
        Some("") => true,
        Some(rest) => has_parameter(item, rest),
        None => false,
    }
}

// Returns the rest of a word after this one and a space; nothing, if it is the whole.
fn after<'w>(word: &'w str, first: &'static str) -> Option<&'w str> {
    let rest = word.strip_prefix(first)?;
    if rest.is_empty() {
        return Some(rest);
    }
    match rest.strip_prefix(' ') {
        Some(rest) if !rest.is_empty() => Some(rest),
        _ => None,
    }
}

// Returns whether this is the kind of a key, or nothing.
fn is_key(word: &str, key: Key) -> bool {
    if word.is_empty() {
        return true;
    }
    match key {
        Key::Nothing => false,
        Key::Number(number) => is_number(word, number),
        Key::Bytes(bytes) => is_bytes(word.as_bytes(), bytes),
    }
}

// Returns whether a word is this number.
fn is_number(word: &str, number: u64) -> bool {
    match number_in(word.as_bytes()) {
        Some(found) => found >= 0 && found.unsigned_abs() == number,
        None => false,
    }
}

// Returns whether a word is these bytes, without those that are 0.
fn is_bytes(word: &[u8], bytes: [u8; 3]) -> bool {
    let mut rest = word;
    for byte in bytes {
        if byte == 0 {
            continue;
        }
        match rest {
            [first, more @ ..] if *first == byte => rest = more,
            _ => return false,
        }
    }
    rest.is_empty()
}

// Returns whether a control sequence has this parameter.
fn has_parameter(item: &Item, word: &str) -> bool {
    if item.kind() != Kind::Csi {
        return false;
    }
    let mut rest = Some(numbers_of(item));
    for _ in 0..u64::MAX {
        let Some(text) = rest else {
            break;
        };
        let (part, more) = cut(text, b';');
        if part == word.as_bytes() {
            return true;
        }
        rest = more;
    }
    false
}

/// Returns the parameters of a control sequence, without the private prefix before them, and with
/// the bytes after them.
pub fn numbers_of(item: &Item) -> &[u8] {
    without_prefix(item.body())
}

/// Returns the parameters of a control sequence without the private prefix before them.
pub fn without_prefix(body: &[u8]) -> &[u8] {
    match body {
        [0x3c..=0x3f, rest @ ..] => rest,
        _ => body,
    }
}
