//! The faults of a word, by what it may be meant for.

use crate::nearness::{nearest_name, nearest_word};
use crate::reading::{bits_of, name_and_value};
use crate::table::{Known, Takes};
use crate::wrong::{A_SIZE, Wrong};

/// Returns the fault of a word that names no option.
pub(crate) fn unknown<'a>(known: &[Known], word: &'a str) -> Wrong<'a> {
    let (name, _) = name_and_value(word);
    Wrong::Name(name, nearest_name(known, name))
}

/// Returns the fault of an option that takes a value, and after which no word follows.
pub(crate) fn without_value<'a>(option: &Known) -> Wrong<'a> {
    let called = match option.takes {
        Takes::OneOf(called, _) | Takes::SomeOf(called, _) => called,
        _ => A_SIZE,
    };
    Wrong::Nothing(option.name, called)
}

/// Returns the fault of an option with a value that it does not take.
pub(crate) fn wrong_value<'a>(option: &Known, value: &'a str) -> Wrong<'a> {
    match option.takes {
        Takes::Nothing => Wrong::Something(option.name),
        Takes::Size => Wrong::Size(option.name, value),
        Takes::OneOf(called, words) | Takes::Maybe(called, words) => {
            Wrong::Value(option.name, called, value, nearest_word(words, value))
        }
        Takes::SomeOf(called, words) => wrong_part(option.name, called, words, value),
        Takes::MaybeSome(called, words) => {
            if value.is_empty() {
                Wrong::Value(option.name, called, value, None)
            } else {
                wrong_part(option.name, called, words, value)
            }
        }
    }
}

// Returns the fault of an option of this name which takes some of these words, which are called so:
// the first part of the value that is none of them.
fn wrong_part<'a>(
    name: &'static str,
    called: &'static str,
    words: &'static [&'static str],
    value: &'a str,
) -> Wrong<'a> {
    let part = match bits_of(words, value) {
        Ok(_) => value,
        Err(part) => part,
    };
    Wrong::Value(name, called, part, nearest_word(words, part))
}
