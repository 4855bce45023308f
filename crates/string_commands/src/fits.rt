//! This module says whether a string begins as a row says.
ghost use Rattle.std.specs.Prelude.{◌≡◌, true};
ghost use Rattle.string_commands.specs.Rows.{begins_so, ends_key, ends_part, has_key, has_part, is_key, is_only};

use crate::begin::Begin;
use crate::entry::Entry;

/// Returns whether a string with these parameters, and this text after its key, begins as an entry
/// says, and with this start.
pub(crate) fn begins_so(entry: &Entry, start: &[u8], params: &[i64], text: &[u8]) -> bool
    ensures { result ≡ begins_so entry.now start.now params.now text.now }
{
    match entry.begin {
        Begin::Anything => true,
        Begin::Part => has_part(start, text),
        Begin::Bytes => text.starts_with(start),
        Begin::Parameter => is_only(entry.number, params),
        Begin::Key => has_key(start, text),
    }
}

// Returns whether a text begins with this part.
fn has_part(part: &[u8], text: &[u8]) -> bool
    ensures { result ≡ has_part part.now text.now }
{
    if text.starts_with(part) {
        ends_part(&text[part.len()..])
    } else {
        false
    }
}

// Returns whether a part ends before this text.
fn ends_part(text: &[u8]) -> bool
    ensures { result ≡ ends_part text.now }
{
    match text {
        [] => true,
        [byte, ..] => *byte == b';' || *byte == b'=',
    }
}

// Returns whether this is the one parameter.
fn is_only(number: i64, params: &[i64]) -> bool
    ensures { result ≡ is_only number params.now }
{
    match params {
        [only] => *only == number,
        _ => false,
    }
}

// Returns whether this is one of the keys of a text.
fn has_key(key: &[u8], text: &[u8]) -> bool
    ensures { result ≡ has_key true key.now text.now }
{
    let mut here = true;
    for at in 0..text.len() {
        if here && is_key(key, &text[at..]) {
            return true;
        }
        if text[at] == b';' {
            return false;
        }
        here = text[at] == b',';
    }
    false
}

// Returns whether this is the key that a text begins with.
fn is_key(key: &[u8], text: &[u8]) -> bool
    ensures { result ≡ is_key key.now text.now }
{
    if text.starts_with(key) {
        ends_key(&text[key.len()..])
    } else {
        false
    }
}

// Returns whether a key ends before this text.
fn ends_key(text: &[u8]) -> bool
    ensures { result ≡ ends_key text.now }
{
    match text {
        [] => true,
        [byte, ..] => *byte == b',' || *byte == b';',
    }
}
