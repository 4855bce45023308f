//! This module reads rows that may be absent. An error is that memory was refused.
ghost use Rattle.std.specs.Prelude.{◌≡◌, IfOk, OnErr};
ghost use Rattle.std.specs.Option.{option_map};
ghost use Rattle.flat_values.specs.Found.{held_form, named_value, past};
ghost use Rattle.flat_values.specs.FoundPrompts.{text_in};
ghost use Rattle.fallible_alloc.specs.Refusals.{Refused};

use crate::field_name::FieldName;
use crate::said::Said;
use esc_values::Text;
use std::alloc::{AllocError, Global};

// Returns the first row, if it has this name.
pub(crate) fn named<'b, 'a>(name: FieldName, fields: &'b [Said<'a>]) -> Option<&'b Said<'a>>
    ensures { option_map (λ s. s.now.1) result ≡ named_value name fields.now }
{
    match fields {
        [field, ..] => if field.is(name) { Some(field) } else { None },
        [] => None,
    }
}

// Returns the rows after the first, if it has this name; else all.
pub(crate) fn past<'b, 'a>(name: FieldName, fields: &'b [Said<'a>]) -> &'b [Said<'a>]
    ensures { result.now ≡ past name fields.now }
{
    match fields {
        [field, rest @ ..] => if field.is(name) { rest } else { fields },
        [] => fields,
    }
}

// Reads the text of the first row, if it has this name.
pub(crate) fn text(
    alloc: Global,
    name: FieldName,
    fields: &[Said<'_>],
) -> Result<Option<Text>, AllocError>
    ensures ok { IfOk result (λ t. t ≡ text_in held_form name fields.now) }
    ensures refused { OnErr result (Refused Global) }
{
    match named(name, fields) {
        Some(field) => Ok(Some(field.string(alloc)?)),
        None => Ok(None),
    }
}
