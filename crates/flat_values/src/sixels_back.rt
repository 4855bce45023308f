//! This module reads sixel data from rows.
ghost use Rattle.std.specs.Prelude.{◌≡◌, IfOk, IfSome, List, None, OnErr, map};
ghost use Rattle.flat_values.specs.Sixels.{sixel_row};
ghost use Rattle.esc_sixel.specs.declared.sixel_data.SixelData.{SixelData};
ghost use Rattle.fallible_alloc.specs.Refusals.{Refused};

use crate::sixel_row::SixelRow;
use esc_sixel::SixelData as Part;
use esc_values::Items;
use std::alloc::{AllocError, Global};

/// Returns the sixel items that have these rows, as [`SixelRow::of`] has them. None if a row is
/// that of no item. The error is that memory was refused.
pub fn sixel_items_of(alloc: Global, rows: &[SixelRow]) -> Result<Option<Items<Part>>, AllocError>
    ensures has { IfOk result (λ o. IfSome o (λ ds. map sixel_row ds ≡ rows.now)) }
    ensures none { IfOk result (λ o. o ≡ None → (ds : List SixelData)
        → map sixel_row ds ≡ rows.now → ⊥) }
    ensures refused { OnErr result (Refused Global) }
{
    let mut items = Items::new(alloc);
    for row in rows {
        match row.item() {
            Some(item) => items.push(item)?,
            None => return Ok(None),
        }
    }
    Ok(Some(items))
}
