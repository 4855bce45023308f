//! Colours of a colour space in words (ITU-T T.416, which is ISO 8613-6, 13.1.8): after 38, 48 or
//! 58, with `:` between them, come the kind of the colour, its colour space, its components, and
//! from the seventh part on how far it may be off, and in which space. 6, with an alpha, is of
//! WezTerm (<https://wezterm.org/escape-sequences.html>).

use crate::csi_words::add_entries;
use crate::entries::{number_at, part_at};
use dump_page::Phrase;
use esc_values::CsiParam;

// Kinds of colours: their numbers, with the words before each of their components, or the words of
// one that has none.
static KINDS: [(i64, &[&str]); 5] = [
    (0, &["defined by the terminal"]),
    (1, &["transparent"]),
    (3, &["cyan ", ", magenta ", ", yellow "]),
    (4, &["cyan ", ", magenta ", ", yellow ", ", black "]),
    (6, &["red ", ", green ", ", blue ", ", alpha "]),
];

// The places of the first component, of how far a colour may be off, and of the space of that.
const COMPONENT: usize = 3;

const TOLERANCE: usize = 7;

const TOLERANCE_SPACE: usize = 8;

// The places in a parameter after these are none of a colour.
const PARTS: usize = 9;

/// Adds the colour of a parameter by its parts, and the thing that has it; returns whether it is
/// one.
pub fn add_spaced(entries: &[CsiParam], to: &mut Phrase) -> bool {
    let target = match number_at(entries, 0) {
        Some(38) => "foreground ",
        Some(48) => "background ",
        Some(58) => "underline colour ",
        _ => return false,
    };
    match part_at(entries, 0, 1) {
        Some(2) => add_channels(target, entries, to),
        Some(kind) => add_kind(target, kind, entries, to),
        None => false,
    }
}

// Adds a colour of red, green and blue, if each has two hexadecimal digits.
fn add_channels(target: &'static str, entries: &[CsiParam], to: &mut Phrase) -> bool {
    match (
        channel(entries, 3),
        channel(entries, 4),
        channel(entries, 5),
    ) {
        (Some(red), Some(green), Some(blue)) => {
            to.add_all(&[target, "#"]);
            for channel in [red, green, blue] {
                to.add_hex(channel, b'a');
            }
            add_space(entries, to);
            true
        }
        _ => false,
    }
}

// Returns the channel that is this part.
fn channel(entries: &[CsiParam], part: usize) -> Option<u8> {
    match part_at(entries, 0, part) {
        Some(number) => u8::try_from(number).ok(),
        None => None,
    }
}

// Adds a colour of this kind.
fn add_kind(target: &'static str, kind: i64, entries: &[CsiParam], to: &mut Phrase) -> bool {
    for (number, words) in &KINDS {
        if *number == kind {
            return add_components(target, *words, entries, to);
        }
    }
    false
}

// Adds the components of a colour after these words, if each is given.
fn add_components(
    target: &'static str,
    words: &'static [&'static str],
    entries: &[CsiParam],
    to: &mut Phrase,
) -> bool {
    if words.len() == 1 {
        to.add(target);
        to.add_all(words);
        add_beyond(2, entries, to);
        return true;
    }
    for at in 0..words.len() {
        if part_at(entries, 0, COMPONENT.saturating_add(at)).is_none() {
            return false;
        }
    }
    to.add(target);
    for at in 0..words.len() {
        let component = part_at(entries, 0, COMPONENT.saturating_add(at));
        to.add_integer(words[at], component.unwrap_or(0));
    }
    add_space(entries, to);
    true
}

/// Adds the colour space of a colour that has one, and how far it may be off.
pub fn add_space(entries: &[CsiParam], to: &mut Phrase) {
    match part_at(entries, 0, 1) {
        Some(2 | 3 | 4 | 6) if part_at(entries, 0, 5).is_some() => {}
        _ => return,
    }
    if let Some(space) = part_at(entries, 0, 2) {
        to.add_integer(" in colour space ", space);
    }
    if let Some(tolerance) = part_at(entries, 0, TOLERANCE) {
        to.add_integer(", tolerance ", tolerance);
    }
    match part_at(entries, 0, TOLERANCE_SPACE) {
        Some(0) => to.add(" in CIELUV"),
        Some(1) => to.add(" in CIELAB"),
        Some(space) => to.add_integer(" in colour space ", space),
        None => {}
    }
    add_beyond(PARTS, entries, to);
}

// Adds the whole parameter, if it has a part at this place: nobody gives a meaning to that part.
fn add_beyond(place: usize, entries: &[CsiParam], to: &mut Phrase) {
    if part_at(entries, 0, place).is_some() {
        to.add(", of");
        add_entries(entries, to);
    }
}
