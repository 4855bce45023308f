//! The image of kitty's that the text of an APC is, as fields.
ghost use Rattle.std.specs.Prelude.{◌≡◌, IfOk, OnErr};
ghost use Rattle.flat_values.specs.Fields.{table_of};
ghost use Rattle.flat_values.specs.Images.{fields_of_image};
ghost use Rattle.esc_calls.specs.ImageValues.{IsImage, IsImageOf, image_table};
ghost use Rattle.esc_calls.specs.Reads.{Reads};
ghost use Rattle.fallible_alloc.specs.Refusals.{Refused};

use crate::image_value::ImageValue;
use crate::output::put_read;
use esc_kitty::KittyImage;
use flat_values::{FieldRow, Fields, ImageKind};
use std::alloc::{AllocError, Global};

/// Does the work of `escape_stream_read_kitty` of `escape_c`.
pub fn read_kitty(
    alloc: Global,
    text: &[u8],
    value: &mut ImageValue,
    fields: &mut [FieldRow],
    out: &mut [u8],
) -> u32
    ensures { Reads (IsImage text.now) (image_table text.now) result
        (value.old, fields.old, out.old) (value.new, fields.new, out.new) }
{
    put_read(read(alloc, text), value, fields, out)
}

// Returns the image, and its fields.
fn read(alloc: Global, text: &[u8]) -> Result<(ImageValue, Fields), AllocError>
    ensures value { IfOk result (λ r. IsImage text.now r.0) }
    ensures fields { IfOk result (λ r. r.1 ≡ image_table text.now) }
    ensures refused { OnErr result (Refused Global) }
{
    let image = KittyImage::parse_apc(alloc, text)?;
    told(alloc, &image)
}

// Returns the value of an image, and its fields.
fn told(alloc: Global, image: &Option<KittyImage>) -> Result<(ImageValue, Fields), AllocError>
    ensures value { IfOk result (λ r. IsImageOf image.now r.0) }
    ensures fields { IfOk result (λ r. r.1 ≡ table_of (fields_of_image image.now)) }
    ensures refused { OnErr result (Refused Global) }
{
    let fields = Fields::of_image(alloc, image)?;
    let value = ImageValue {
        kind: ImageKind::of(image).number(),
        field_count: fields.rows().len(),
        text_length: fields.text().len(),
    };
    Ok((value, fields))
}
