//! This module reads the kitty image of a kind and fields.
ghost use Rattle.std.specs.Prelude.{◌≡◌, ◌↔◌, IfOk, IfSome, IsTrue, None, OnErr, Some};
ghost use Rattle.flat_values.specs.Fields.{table_values};
ghost use Rattle.flat_values.specs.Found.{held_form};
ghost use Rattle.flat_values.specs.FoundImages.{image_form_at, image_in, kept_some};
ghost use Rattle.flat_values.specs.HeldImages.{HasImage, IsHeldImage};
ghost use Rattle.esc_kitty.specs.declared.image.KittyImage.{KittyImage};
ghost use Rattle.fallible_alloc.specs.Refusals.{Refused};

use crate::field_row::FieldRow;
use crate::fields::Fields;
use crate::image_forms::image_form_at;
use crate::image_kind::ImageKind;
use crate::read_back::are_those;
use crate::read_image::image;
use crate::said::said_by;
use esc_kitty::KittyImage as Image;
use std::alloc::{AllocError, Global};

/// Returns the kitty image of a kind, by its number, with these fields: rows, and their texts one
/// after another, as [`Fields::of_image`] has them. None if no image has this kind and these
/// fields. The error is that memory was refused.
pub fn image_of(
    alloc: Global,
    kind: u32,
    rows: &[FieldRow],
    text: &[u8],
) -> Result<Option<Image>, AllocError>
    ensures has { IfOk result (λ o. IfSome o (λ i. HasImage kind (rows.now, text.now) (Some i))) }
    ensures none { IfOk result (λ o. o ≡ None → (i : KittyImage Global) → IsHeldImage i
        → HasImage kind (rows.now, text.now) (Some i) → ⊥) }
    ensures refused { OnErr result (Refused Global) }
{
    let image = image_said(alloc, kind, rows, text)?;
    let has = has_image(alloc, &image, kind, rows, text);
    kept_some(image, has)
}

// Returns the image that they say.
fn image_said(
    alloc: Global,
    kind: u32,
    rows: &[FieldRow],
    text: &[u8],
) -> Result<Option<Image>, AllocError>
    ensures ok { IfOk result (λ i.
        i ≡ image_in held_form (image_form_at kind) (table_values (rows.now, text.now))) }
    ensures refused { OnErr result (Refused Global) }
{
    let fields = said_by(alloc, rows, text)?;
    image(alloc, image_form_at(kind), fields.as_slice())
}

// Returns a value, if there is one and it is kept.
fn kept_some<T: Drop>(
    value: Option<T>,
    is_kept: Result<bool, AllocError>,
) -> Result<Option<T>, AllocError>
    ensures { result ≡ kept_some value is_kept }
{
    match is_kept {
        Ok(true) => Ok(value),
        Ok(false) => Ok(None),
        Err(error) => Err(error),
    }
}

/// Returns whether a kitty image, or none, has this kind, by its number, and these fields. The
/// error is that memory was refused.
pub fn has_image(
    alloc: Global,
    image: &Option<Image>,
    kind: u32,
    rows: &[FieldRow],
    text: &[u8],
) -> Result<bool, AllocError>
    ensures has { IfOk result (λ b. IsTrue b ↔ HasImage kind (rows.now, text.now) image.now) }
    ensures refused { OnErr result (Refused Global) }
{
    let fields = Fields::of_image(alloc, image)?;
    let same_kind = ImageKind::of(image).number() == kind;
    Ok(same_kind && are_those(&fields, rows, text))
}
