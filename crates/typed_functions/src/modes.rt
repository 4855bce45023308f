//! The iterator over modes.
ghost use Rattle.std.specs.Prelude.{◌≡◌};
ghost use Rattle.typed_functions.specs.Selections.{mode_number, mode_numbers, modes_left};

use crate::mode_number::ModeNumber;
use crate::renditions::{after, len_before};
use esc_values::CsiParam;
use std::iter::FusedIterator;

/// The modes of the parameters of a control sequence, or its choices of tab stops, in order. It
/// takes no memory. An item keeps its entries: those of all items, with `;` between them, are the
/// parameters.
#[derive(Clone, Copy, Debug)]
pub struct Modes<'a> {
    rest: Option<&'a [CsiParam]>,
}

impl<'a> Modes<'a> {
    // Returns the modes of these parameters, which have no private prefix.
    pub(crate) fn new(params: &'a [CsiParam]) -> Self
        ensures { modes_left result ≡ mode_numbers params.now }
    {
        Modes { rest: Some(params) }
    }
}

impl<'a> Iterator for Modes<'a> {
    ghost use Rattle.std.specs.Iterator.{YieldsFirstBy, item_count};
    ghost use Rattle.typed_functions.specs.Selections.{mode_seen, modes_left};

    type Item = ModeNumber<'a>;

    ghost next_gives = { YieldsFirstBy mode_seen modes_left };

    ghost remaining = { item_count modes_left };

    fn next(&mut self) -> Option<ModeNumber<'a>> {
        let Some(entries) = self.rest else {
            return None;
        };
        let len = len_before(0, entries);
        let first = &entries[..len];
        self.rest = after(entries, len);
        Some(ModeNumber {
            number: mode_number(first),
            entries: first,
        })
    }
}

impl<'a> FusedIterator for Modes<'a> {}

// Returns the number of a parameter, if it is one.
fn mode_number(entries: &[CsiParam]) -> Option<u64>
    ensures { result ≡ mode_number entries.now }
{
    let Some((first, rest)) = entries.split_first() else {
        return None;
    };
    if !rest.is_empty() {
        return None;
    }
    match *first {
        CsiParam::Integer(number) => match u64::try_from(number) {
            Ok(number) => Some(number),
            Err(_) => None,
        },
        CsiParam::P(_) => None,
    }
}
