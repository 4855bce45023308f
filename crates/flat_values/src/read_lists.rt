//! This module reads lists from rows, an item a row. An error is that memory was refused.
ghost use Rattle.std.specs.Prelude.{◌≡◌, IfOk, OnErr, map};
ghost use Rattle.flat_values.specs.Fields.{text_of};
ghost use Rattle.flat_values.specs.Found.{byte_of, held_form, string_of};
ghost use Rattle.fallible_alloc.specs.Refusals.{Refused};

use crate::said::Said;
use esc_values::{Items, Text};
use std::alloc::{AllocError, Global};

// A row says an item.
pub(crate) trait Read {
    ghost use Rattle.flat_values.specs.Fields.{Value};

    ghost read: { Value → Self };

    // Reads the item of this row.
    fn of(alloc: Global, field: &Said<'_>) -> Result<Self, AllocError>
        ensures ok { IfOk result (λ v. v ≡ read field.now.1) }
        ensures refused { OnErr result (Refused Global) };
}

// A part of any bytes is an item.
impl Read for Items<u8> {
    ghost read = { text_of };

    fn of(alloc: Global, field: &Said<'_>) -> Result<Items<u8>, AllocError> {
        Items::from_slice(alloc, field.bytes())
    }
}

// A text is an item.
impl Read for Text {
    ghost read = { string_of held_form };

    fn of(alloc: Global, field: &Said<'_>) -> Result<Text, AllocError> {
        field.string(alloc)
    }
}

// A place of the palette is an item.
impl Read for u8 {
    ghost read = { byte_of held_form };

    fn of(_alloc: Global, field: &Said<'_>) -> Result<u8, AllocError> {
        Ok(field.byte())
    }
}

// Reads the items of these rows.
pub(crate) fn items<T: Read + Drop>(
    alloc: Global,
    fields: &[Said<'_>],
) -> Result<Items<T>, AllocError>
    ensures ok { IfOk result (λ v. v ≡ map (λ s. T.read s.1) fields.now) }
    ensures refused { OnErr result (Refused Global) }
{
    let mut items = Items::new(alloc);
    for field in fields {
        items.push(T::of(alloc, field)?)?;
    }
    Ok(items)
}
