//! The iterator over renditions.
ghost use Rattle.std.specs.Prelude.{◌≡◌, ◌≤◌, ◌+◌, ◌==◌, length, drop, if◌then◌else◌, Some, None};
ghost use Rattle.std.specs.Option.{option_map};
ghost use Rattle.typed_functions.specs.Selections.{color_separators, first_len, renditions_left, len_before, more_separators, selections, separators};

use crate::entries::{byte_of, is_byte};
use crate::rendition::{Rendition, is_target};
use crate::selection::Selection;
use esc_values::CsiParam;
use std::iter::FusedIterator;

/// The renditions of the parameters of a control sequence SGR, in order. It takes no memory.
///
/// The entries between two `;` are one rendition, and no entry there is a reset (ECMA-48, 5.4.2).
/// After 38, 48 or 58 and `;` a colour goes on: with 5 and one number, or with 2 and three. Nobody
/// can say where a colour of any other kind ends, so the whole rest is one item without a
/// rendition. An item keeps its entries: those of all items, with `;` between them, are the
/// parameters.
#[derive(Clone, Copy, Debug)]
pub struct Renditions<'a> {
    rest: Option<&'a [CsiParam]>,
}

impl<'a> Renditions<'a> {
    /// Returns the renditions of these parameters.
    pub fn new(params: &'a [CsiParam]) -> Self
        ensures { renditions_left result ≡ selections params.now }
    {
        Renditions { rest: Some(params) }
    }
}

impl<'a> Iterator for Renditions<'a> {
    ghost use Rattle.std.specs.Iterator.{YieldsFirstBy, item_count};
    ghost use Rattle.typed_functions.specs.Selections.{renditions_left, seen_item};

    type Item = Selection<'a>;

    ghost next_gives = { YieldsFirstBy seen_item renditions_left };

    ghost remaining = { item_count renditions_left };

    fn next(&mut self) -> Option<Selection<'a>> {
        let Some(entries) = self.rest else {
            return None;
        };
        let len = first_len(entries);
        let first = &entries[..len];
        self.rest = after(entries, len);
        Some(Selection {
            rendition: Rendition::of_entries(first),
            entries: first,
        })
    }
}

impl<'a> FusedIterator for Renditions<'a> {}

// Returns the rest after so many entries and a `;`, if there is more.
pub(crate) fn after(entries: &[CsiParam], len: usize) -> Option<&[CsiParam]>
    requires { len ≤ length entries.now }
    ensures { option_map (λ x. x.now) result
        ≡ if len == length entries.now then None else Some (drop (len + 1) entries.now) }
{
    if len == entries.len() {
        None
    } else {
        Some(&entries[len + 1..])
    }
}

// Returns how many entries the first rendition has.
fn first_len(entries: &[CsiParam]) -> usize
    ensures len { result ≡ first_len entries.now }
    ensures few { result ≤ length entries.now }
{
    len_before(separators(entries), entries)
}

// Returns the number of entries before the `;` after so many others, or in all if there is none.
pub(crate) fn len_before(count: usize, entries: &[CsiParam]) -> usize
    ensures len { result ≡ len_before count entries.now }
    ensures few { result ≤ length entries.now }
{
    let mut left = count;
    let mut len = 0;
    while len < entries.len() {
        if is_byte(b';', entries[len]) {
            if left == 0 {
                return len;
            }
            left -= 1;
        }
        len += 1;
    }
    len
}

// Returns how many `;` the entries of the first rendition have.
fn separators(entries: &[CsiParam]) -> usize
    ensures { result ≡ separators entries.now }
{
    let Some((first, rest)) = entries.split_first() else {
        return 0;
    };
    match byte_of(*first) {
        Some(number) => {
            if is_target(number) {
                more_separators(rest)
            } else {
                0
            }
        }
        None => 0,
    }
}

// Returns the number of separators after 38, 48 or 58.
fn more_separators(rest: &[CsiParam]) -> usize
    ensures { result ≡ more_separators rest.now }
{
    let Some((mark, rest)) = rest.split_first() else {
        return 0;
    };
    if is_byte(b';', *mark) {
        color_separators(rest)
    } else {
        0
    }
}

// Returns the number of separators of a colour: of its kind and its numbers.
fn color_separators(rest: &[CsiParam]) -> usize
    ensures { result ≡ color_separators rest.now }
{
    let Some((kind, more)) = rest.split_first() else {
        return 1;
    };
    match byte_of(*kind) {
        Some(5) => 2,
        Some(2) => 4,
        _ => more.len() + 2,
    }
}
