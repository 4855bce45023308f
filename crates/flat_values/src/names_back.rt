//! This module reads the names of a termcap query from fields.
ghost use Rattle.std.specs.Prelude.{◌≡◌, ◌↔◌, ℕ, List, IfOk, IfSome, IsTrue, None, OnErr};
ghost use Rattle.flat_values.specs.Fields.{table_values};
ghost use Rattle.flat_values.specs.Found.{held_form};
ghost use Rattle.flat_values.specs.FoundNames.{HasNames, names_in};
ghost use Rattle.flat_values.specs.Held.{AreTexts, types};
ghost use Rattle.fallible_alloc.specs.Refusals.{Refused};

use crate::field_row::FieldRow;
use crate::fields::Fields;
use crate::read_back::{are_those, kept};
use crate::read_lists::items;
use crate::said::said_by;
use esc_values::{Items, Text};
use std::alloc::{AllocError, Global};

/// Returns the names of a termcap query that have these fields: rows, and their texts one after
/// another, as [`Fields::of_names`] has them. None if no names have them. The error is that memory
/// was refused.
pub fn names_of(
    alloc: Global,
    rows: &[FieldRow],
    text: &[u8],
) -> Result<Option<Items<Text>>, AllocError>
    ensures has { IfOk result (λ o. IfSome o (λ ns. HasNames (rows.now, text.now) ns)) }
    ensures none { IfOk result (λ o. o ≡ None → (ns : List (List ℕ)) → AreTexts types ns
        → HasNames (rows.now, text.now) ns → ⊥) }
    ensures refused { OnErr result (Refused Global) }
{
    let names = names_said(alloc, rows, text)?;
    let has = has_names(alloc, names.as_slice(), rows, text);
    kept(names, has)
}

// Returns the names that they say.
fn names_said(alloc: Global, rows: &[FieldRow], text: &[u8]) -> Result<Items<Text>, AllocError>
    ensures ok { IfOk result (λ ns. ns ≡ names_in held_form (table_values (rows.now, text.now))) }
    ensures refused { OnErr result (Refused Global) }
{
    let fields = said_by(alloc, rows, text)?;
    items(alloc, fields.as_slice())
}

// Returns whether names have these fields.
fn has_names(
    alloc: Global,
    names: &[Text],
    rows: &[FieldRow],
    text: &[u8],
) -> Result<bool, AllocError>
    ensures has { IfOk result (λ b. IsTrue b ↔ HasNames (rows.now, text.now) names.now) }
    ensures refused { OnErr result (Refused Global) }
{
    let fields = Fields::of_names(alloc, names)?;
    Ok(are_those(&fields, rows, text))
}
