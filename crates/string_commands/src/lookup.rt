//! The rows of the table.
ghost use Rattle.std.specs.Prelude.{◌≡◌, ◌<◌, IfSome, length, map};
ghost use Rattle.string_commands.specs.Rows.{Finds, first_fit, first_named, fits, place_named, place_of, rank};

use crate::entry::Entry;
use crate::fits::begins_so;
use crate::row::Row;
use crate::string_kind::StringKind;
use crate::table::{row_in, search, search_names};

/// Returns the row of a string of this kind, this key, these parameters and this text after its
/// key, as [`Entry`] has them: the first that fits.
pub fn find(kind: StringKind, key: u32, params: &[i64], text: &[u8]) -> Option<Row>
    ensures { Finds (place_of kind key params.now text.now) result }
{
    match search(kind, key, params, text) {
        Some(place) => Some(row_in(place)),
        None => None,
    }
}

/// Returns the row of this name.
pub fn named(name: &[u8]) -> Option<Row>
    ensures { Finds (place_named name.now) result }
{
    match search_names(name) {
        Some(place) => Some(row_in(place)),
        None => None,
    }
}

/// Returns the place of the first of these entries, with these starts, that a string has.
pub(crate) fn first_fit(
    entries: &[Entry],
    starts: &[&'static str],
    kind: StringKind,
    key: u32,
    params: &[i64],
    text: &[u8],
) -> Option<usize>
    requires { length entries.now ≡ length starts.now }
    ensures place { result
        ≡ first_fit kind key params.now text.now entries.now (map (λ s. s.now) starts.now) 0 }
    ensures below { IfSome result (λ i. i < length entries.now) }
{
    for at in 0..entries.len() {
        if fits(kind, key, params, text, &entries[at], starts[at].as_bytes()) {
            return Some(at);
        }
    }
    None
}

// Returns whether a string has this entry, with this start.
fn fits(
    kind: StringKind,
    key: u32,
    params: &[i64],
    text: &[u8],
    entry: &Entry,
    start: &[u8],
) -> bool
    ensures { result ≡ fits kind key params.now text.now entry.now start.now }
{
    if entry.key == key {
        rank(entry.kind) == rank(kind) && begins_so(entry, start, params, text)
    } else {
        false
    }
}

// Returns the number of a kind.
fn rank(kind: StringKind) -> u8
    ensures { result ≡ rank kind }
{
    match kind {
        StringKind::Osc => 0,
        StringKind::Letter => 1,
        StringKind::Dcs => 2,
        StringKind::Apc => 3,
    }
}

/// Returns the place of the first of these names that is this one.
pub(crate) fn first_named(names: &[&'static str], name: &[u8]) -> Option<usize>
    ensures place { result ≡ first_named name.now (map (λ n. n.now) names.now) 0 }
    ensures below { IfSome result (λ i. i < length names.now) }
{
    for at in 0..names.len() {
        if names[at].as_bytes() == name {
            return Some(at);
        }
    }
    None
}
