//! Fields of a text in words, as the row of a table says.
//!
//! A row has a field a part, with `|` between them. Each is a letter, a `:`, the words before the
//! part, and, after a `?`, words for its values, with `/` between them and `~` within: so `n:,
//! status` is a number, and `v:?1~on/0~off` one of two. The fields after a `*` go on repeating. The
//! rest of the text after its fields is shown too.

use crate::decoded::{add_base64, add_hex_pair, add_hex_text};
use crate::values::{
    add_character, add_color, add_count, add_file, add_held, add_number, add_pairs, add_value,
    add_variable, cut,
};
use dump_page::Phrase;

// The kind of a field.
#[derive(Clone, Copy)]
enum Kind {
    // A number; any other text is quoted.
    Number,
    // The same for hundredths.
    Percent,
    // A text.
    Text,
    // All that is left, as a text.
    Rest,
    // One of the values that have words; any other is quoted.
    Value,
    // A colour, or `?` if it is asked for.
    Color,
    // A text in base64.
    Base64,
    // A text in hexadecimal digits.
    Hex,
    // A name and a value after `=`, both in hexadecimal digits.
    HexPair,
    // Keys with values, with `;` between them up to the end.
    Pairs,
    // The same with `:` between them, up to a `;`.
    ColonPairs,
    // The same with `,` between them, up to a `;`.
    CommaPairs,
    // The whole rest, for which only the length is said.
    Length,
    // Bits, with their words.
    Bits,
    // One more than the bits of modifiers, and the event of the key.
    Modifiers,
    // The code of a character.
    Character,
    // A name, and a value in base64 after `=`.
    Variable,
    // Keys with values, with `;` between them, and data after a `:`.
    File,
    // Nothing is said of it.
    Skipped,
    // It is no field.
    None,
}

// Returns the kind of this letter.
fn kind_of(letter: &str) -> Kind {
    let [letter] = letter.as_bytes() else {
        return Kind::None;
    };
    match *letter {
        b'n' => Kind::Number,
        b'%' => Kind::Percent,
        b't' => Kind::Text,
        b'r' => Kind::Rest,
        b'v' => Kind::Value,
        b'q' => Kind::Color,
        b'b' => Kind::Base64,
        b'x' => Kind::Hex,
        b'X' => Kind::HexPair,
        b'p' => Kind::Pairs,
        b'o' => Kind::ColonPairs,
        b'c' => Kind::CommaPairs,
        b'd' => Kind::Length,
        b'f' => Kind::Bits,
        b'm' => Kind::Modifiers,
        b'u' => Kind::Character,
        b'V' => Kind::Variable,
        b'F' => Kind::File,
        b's' => Kind::Skipped,
        _ => Kind::None,
    }
}

/// Adds the fields of a text in words, if there is one.
pub fn add_fields(fields: &'static str, text: Option<&[u8]>, to: &mut Phrase) {
    let (once, again) = match fields.split_once('*') {
        Some(halves) => halves,
        None => (fields, ""),
    };
    let mut rest = add_each(once, text, to);
    if !again.is_empty() {
        rest = add_again(again, rest, to);
    }
    match rest {
        Some(rest) if !rest.is_empty() => {
            add_label(", and", to);
            to.add_quoted(" ", rest);
        }
        _ => {}
    }
}

// Adds the fields again and again, and returns the text that they leave.
fn add_again<'t>(
    fields: &'static str,
    text: Option<&'t [u8]>,
    to: &mut Phrase,
) -> Option<&'t [u8]> {
    let mut rest = text;
    for _ in 0..u64::MAX {
        if rest.is_none() {
            break;
        }
        rest = add_each(fields, rest, to);
    }
    rest
}

// Adds each of the fields, and returns the text that they leave.
fn add_each<'t>(fields: &'static str, text: Option<&'t [u8]>, to: &mut Phrase) -> Option<&'t [u8]> {
    let mut rest = text;
    for field in fields.split('|') {
        if let Some(text) = rest {
            rest = add_field(field, text, to);
        }
    }
    rest
}

// Adds the field that a text begins with, and returns the rest.
fn add_field<'t>(field: &'static str, text: &'t [u8], to: &mut Phrase) -> Option<&'t [u8]> {
    let Some((letter, rest)) = field.split_once(':') else {
        return Some(text);
    };
    let (label, values) = match rest.split_once('?') {
        Some(halves) => halves,
        None => (rest, ""),
    };
    let kind = kind_of(letter);
    let (part, rest) = match kind {
        Kind::Rest | Kind::Pairs | Kind::Length | Kind::File => (text, None),
        _ => cut(text, b';'),
    };
    match separator_of(kind) {
        Some(separator) => add_pairs(separator, values, part, to),
        None => add_part(kind, label, values, part, to),
    }
    rest
}

// Returns the separator of the pairs of a field.
fn separator_of(kind: Kind) -> Option<u8> {
    match kind {
        Kind::Pairs => Some(b';'),
        Kind::ColonPairs => Some(b':'),
        Kind::CommaPairs => Some(b','),
        _ => None,
    }
}

// Adds a field of one part.
fn add_part(kind: Kind, label: &'static str, values: &'static str, part: &[u8], to: &mut Phrase) {
    match kind {
        Kind::Skipped => return,
        Kind::Value => return add_value(label, values, part, to),
        Kind::File => return add_file(values, part, to),
        Kind::Bits => return add_held(false, label, values, part, to),
        Kind::Modifiers => return add_held(true, label, values, part, to),
        _ => add_label(label, to),
    }
    match kind {
        Kind::Number => add_number(part, to),
        Kind::Percent => {
            add_number(part, to);
            to.add(" %");
        }
        Kind::Color => add_color(part, to),
        Kind::Base64 => add_base64(part, to),
        Kind::Hex => add_hex_text(part, to),
        Kind::HexPair => add_hex_pair(part, to),
        Kind::Length => add_count(part.len(), to),
        Kind::Character => add_character(part, to),
        Kind::Variable => add_variable(part, to),
        _ => to.add_quoted(" ", part),
    }
}

/// Adds words, without a comma that they begin with if no words are before them.
pub fn add_label(label: &'static str, to: &mut Phrase) {
    match label.strip_prefix(',') {
        Some(rest) if !to.has_words() => to.add(rest),
        _ => to.add(label),
    }
}
