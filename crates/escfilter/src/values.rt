//! Values of options for which the table of options has no words.

use crate::failing::FAILING;
use command_line::{Apart, Given, Wrong};
use esc_filter::is_scheme;

const DEFAULT_ROWS: usize = 32;

const MOST_ROWS: usize = 4096;

const MOST_COLUMNS: usize = 16_384;

/// Returns the first wrong value of an option whose values the table does not name.
pub fn wrong_value<'a>(options: &[Given<'a>]) -> Option<Wrong<'a>> {
    match (wrong_scheme(options), wrong_number(options)) {
        (Some(scheme), _) => Some(Wrong::Value("--links", "scheme", scheme, None)),
        (None, wrong) => wrong,
    }
}

// The first word that `--links` is given as a scheme and is none.
fn wrong_scheme<'a>(options: &[Given<'a>]) -> Option<&'a str> {
    for given in options {
        if given.name != "--links" {
            continue;
        }
        for scheme in given.word.split(',') {
            if !is_scheme(scheme) {
                return Some(scheme);
            }
        }
    }
    None
}

// The first word that is given as a number of rows or columns and is none.
fn wrong_number<'a>(options: &[Given<'a>]) -> Option<Wrong<'a>> {
    for given in options {
        let word = given.word;
        match given.name {
            "--collapse" if rows_of(word).is_none() => {
                return Some(Wrong::Value("--collapse", "number of rows", word, None));
            }
            "--columns" if columns_of(word).is_none() => {
                return Some(Wrong::Value("--columns", "number of columns", word, None));
            }
            _ => {}
        }
    }
    None
}

/// Returns the first word after an option that could take it, but takes only the word after `=`.
pub fn apart_of<'a>(options: &[Given<'a>]) -> Option<Apart<'a>> {
    for given in options {
        if could_take(given.name, given.next) {
            return Some(Apart {
                option: given.name,
                word: given.next,
            });
        }
    }
    None
}

// Whether an option of this name could take this word. A suffix is one that looks so.
fn could_take(name: &str, word: &str) -> bool {
    match name {
        "--report" => word == "text" || word == "json",
        "--show" => word == "escaped" || word == "color",
        "--fail" => are_kinds(word),
        "--collapse" => !word.is_empty() && rows_of(word).is_some(),
        "--in-place" => word.starts_with('.'),
        _ => false,
    }
}

// Whether these are kinds of failures, with `,` between them.
fn are_kinds(words: &str) -> bool {
    for word in words.split(',') {
        if !is_kind(word) {
            return false;
        }
    }
    true
}

// Whether it is a kind of failures.
fn is_kind(word: &str) -> bool {
    for kind in FAILING {
        if *kind == word {
            return true;
        }
    }
    false
}

/// Returns the number of rows that a word names; if it is empty, the default.
pub fn rows_of(word: &str) -> Option<usize> {
    if word.is_empty() {
        return Some(DEFAULT_ROWS);
    }
    number_of(word, MOST_ROWS)
}

/// How many columns a word names.
pub fn columns_of(word: &str) -> Option<usize> {
    number_of(word, MOST_COLUMNS)
}

// The number that a word names, where it is from 1 to this one.
fn number_of(word: &str, most: usize) -> Option<usize> {
    match word.parse::<usize>() {
        Ok(number) if 0 < number && number <= most => Some(number),
        _ => None,
    }
}
