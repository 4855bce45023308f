//! Objects of JSON (RFC 8259), a line each.

use crate::item::Item;
use crate::kind::Kind;
use crate::selection::without_prefix;
use crate::times::add_seconds;
use crate::values::cut;
use crate::words::Words;
use dump_page::{Member, Page, Phrase};
use std::str;

/// Adds the object of an item with these words, of the file of this name, if it is named.
pub fn add_object(
    item: &Item,
    words: &mut Words,
    is_finished: bool,
    file: Option<&str>,
    page: &mut Page,
) {
    let kind = item.kind();
    let object = page.words();
    match file {
        Some(file) => {
            object.add_member(Member::File);
            object.add_string("", file);
            object.add_member(Member::NextPlace);
        }
        None => object.add_member(Member::Place),
    }
    add_head(item, kind, is_finished, object);
    add_name(words, object);
    if kind != Kind::Text {
        object.add_member(Member::Words);
        add_said(words.phrase.as_str(), object);
    }
    if kind == Kind::Csi || kind.is_string() {
        object.add_member(Member::Fields);
        if let Some(body) = fields_of(kind, item) {
            add_fields(kind, body, &mut words.scratch, object);
        }
        object.add("]");
    }
    add_bytes(item, &mut words.scratch, object);
    object.add("}");
}

// Adds the place, the time, the length, the kind, whether it is finished, whether it is cut, and
// the words before the name.
fn add_head(item: &Item, kind: Kind, is_finished: bool, object: &mut Phrase) {
    object.add_digits(item.place);
    if let Some(time) = item.time {
        object.add_string(",", "time");
        object.add(":");
        add_seconds(time, 0, object);
    }
    object.add_member(Member::Length);
    object.add_digits(item.length);
    object.add_member(Member::Kind);
    object.add_string("", kind.word());
    if is_finished && !item.is_cut() {
        return object.add_member(Member::WholeName);
    }
    object.add_member(Member::Finished);
    object.add(bool_words(is_finished));
    object.add_member(Member::Cut);
    object.add(bool_words(item.is_cut()));
    object.add_member(Member::Name);
}

// Returns whether something is so, in JSON.
fn bool_words(is_so: bool) -> &'static str {
    if is_so { "true" } else { "false" }
}

// Adds the name: as the words have it, if that is it.
fn add_name(words: &mut Words, object: &mut Phrase) {
    if words.string.is_none() && object.add_plain_string(words.phrase.name_bytes()) {
        return;
    }
    let name = words.name();
    words.scratch.restart(usize::MAX);
    words.scratch.add_name(name);
    add_text(&words.scratch, object);
}

// Adds the words, and the texts that they have between quotes.
fn add_said(words: &str, object: &mut Phrase) {
    if !object.add_plain_string(words.as_bytes()) {
        object.add_string("", words);
        add_values(words.as_bytes(), object);
    }
}

// Adds the text of a phrase as a string.
fn add_text(phrase: &Phrase, object: &mut Phrase) {
    object.add_string("", phrase.as_str());
    if phrase.is_refused() {
        object.refuse();
    }
}

// Adds the texts that words have between quotes, as they are there, if they have any.
fn add_values(words: &[u8], object: &mut Phrase) {
    let mut rest = words;
    let mut is_next = false;
    for _ in 0..u64::MAX {
        let (_, Some(inside)) = cut(rest, b'"') else {
            break;
        };
        let (text, after) = inside.split_at(quoted_length(inside).min(inside.len()));
        if !is_next {
            object.add_string(",", "values");
            object.add(":");
        }
        object.add_string(
            if is_next { "," } else { "[" },
            str::from_utf8(text).unwrap_or(""),
        );
        is_next = true;
        match after {
            [_, more @ ..] => rest = more,
            [] => break,
        }
    }
    if is_next {
        object.add("]");
    }
}

// Returns how many bytes come before the `"` that ends a text: the first that no `\` escapes.
fn quoted_length(bytes: &[u8]) -> usize {
    let mut is_escaped = false;
    for at in 0..bytes.len() {
        match bytes[at] {
            b'"' if !is_escaped => return at,
            b'\\' => is_escaped = !is_escaped,
            _ => is_escaped = false,
        }
    }
    bytes.len()
}

// Returns the bytes that have the fields, if there is one: of a control sequence that is cut those
// before the last `;`, since the parameter after that may go on, unless an intermediate is there.
fn fields_of(kind: Kind, item: &Item) -> Option<&[u8]> {
    let body = item.body();
    if kind != Kind::Csi || !item.is_cut() {
        return Some(body);
    }
    let mut whole: Option<&[u8]> = None;
    for at in 0..body.len() {
        match body[at] {
            0x20..=0x2f => return Some(body),
            b';' => whole = Some(&body[..at]),
            _ => {}
        }
    }
    whole
}

// Adds the fields of a control sequence, which have digits and colons alone, or of a string: the
// texts between `;`.
fn add_fields(kind: Kind, body: &[u8], phrase: &mut Phrase, object: &mut Phrase) {
    if kind == Kind::Csi {
        let numbers = without_prefix(body);
        if digit_run(numbers) == numbers.len() {
            return add_numbers(numbers, object);
        }
    }
    phrase.restart(usize::MAX);
    if kind == Kind::Csi {
        add_digits(body, phrase);
    } else {
        phrase.add_bytes(body, usize::MAX);
    }
    if phrase.is_refused() {
        object.refuse();
    }
    let mut is_next = false;
    for field in phrase.as_str().split(';') {
        object.add_string(if is_next { "," } else { "" }, field);
        is_next = true;
    }
}

// Adds the fields of these bytes, which are digits, `:` and `;`.
fn add_numbers(numbers: &[u8], object: &mut Phrase) {
    let mut rest = Some(numbers);
    let mut is_next = false;
    for _ in 0..u64::MAX {
        let Some(text) = rest else {
            break;
        };
        let (field, more) = cut(text, b';');
        if is_next {
            object.add(",");
        }
        let _ = object.add_plain_string(field);
        is_next = true;
        rest = more;
    }
}

// Adds the bytes 30 to 3B alone: digits, `:` and `;`.
fn add_digits(bytes: &[u8], phrase: &mut Phrase) {
    let mut rest = bytes;
    for _ in 0..u64::MAX {
        if rest.is_empty() {
            break;
        }
        let (run, after) = rest.split_at(digit_run(rest).min(rest.len()));
        phrase.add_bytes(run, usize::MAX);
        rest = match after {
            [_, more @ ..] => more,
            [] => after,
        };
    }
}

// Returns how many of these bytes come first.
fn digit_run(bytes: &[u8]) -> usize {
    for at in 0..bytes.len() {
        if !matches!(bytes[at], b'0'..=b';') {
            return at;
        }
    }
    bytes.len()
}

// Adds the bytes that are kept, escaped and in base64.
fn add_bytes(item: &Item, scratch: &mut Phrase, object: &mut Phrase) {
    object.add_member(Member::Bytes);
    if !object.add_plain_string(item.bytes()) {
        scratch.restart(usize::MAX);
        scratch.add_bytes(item.bytes(), usize::MAX);
        add_text(scratch, object);
    }
    object.add_member(Member::Base64);
    object.add_base64(item.bytes());
}
