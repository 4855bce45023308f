//! The sixel image that parameters and data are, as rows.
ghost use Rattle.std.specs.Prelude.{◌≡◌, ◌≢◌, IfOk, OnErr, map};
ghost use Rattle.flat_values.specs.Sixels.{sixel_row};
ghost use Rattle.esc_calls.specs.Output.{put_into};
ghost use Rattle.esc_calls.specs.SixelValues.{IsSixel, sixel_in, sixel_rows};
ghost use Rattle.fallible_alloc.specs.Refusals.{Refused};

use crate::sixel_value::SixelValue;
use crate::{DONE, NO_MEMORY};
use esc_sixel::{Sixel, SixelBuilder, SixelData};
use flat_values::SixelRow;
use std::alloc::{AllocError, Global};

/// Does the work of `escape_stream_read_sixel` of `escape_c`.
pub fn read_sixel(
    alloc: Global,
    params: &[i64],
    text: &[u8],
    value: &mut SixelValue,
    rows: &mut [SixelRow],
) -> u32
    ensures value { result ≡ DONE → IsSixel (sixel_in params.now text.now) value.new }
    ensures written { result ≡ DONE
        → rows.new ≡ put_into (sixel_rows params.now text.now) rows.old }
    ensures refused { result ≢ DONE → (result ≡ NO_MEMORY) × (value.new ≡ value.old)
        × (rows.new ≡ rows.old) }
    ensures memory { result ≡ NO_MEMORY → Refused Global }
{
    match read(alloc, params, text) {
        Ok(sixel) => {
            note(&sixel, value);
            put_items(sixel.content.as_slice(), rows);
            DONE
        }
        Err(_) => NO_MEMORY,
    }
}

// Returns the image.
fn read(alloc: Global, params: &[i64], text: &[u8]) -> Result<Sixel, AllocError>
    ensures ok { IfOk result (λ s. s ≡ sixel_in params.now text.now) }
    ensures refused { OnErr result (Refused Global) }
{
    let mut builder = SixelBuilder::new(alloc, params);
    builder.push_run(text)?;
    builder.finish()?;
    Ok(builder.sixel)
}

// Notes an image, but for its data.
fn note(sixel: &Sixel, value: &mut SixelValue)
    ensures { IsSixel sixel.now value.new }
{
    let (width, height) = sixel.dimensions();
    *value = SixelValue {
        pan: sixel.pan,
        pad: sixel.pad,
        grid_size: sixel.horizontal_grid_size.unwrap_or(0),
        pixel_width: sixel.pixel_width.unwrap_or(0),
        pixel_height: sixel.pixel_height.unwrap_or(0),
        width,
        height,
        has_grid_size: sixel.horizontal_grid_size.is_some(),
        has_pixel_width: sixel.pixel_width.is_some(),
        has_pixel_height: sixel.pixel_height.is_some(),
        background_is_transparent: sixel.background_is_transparent,
        item_count: sixel.content.as_slice().len(),
    };
}

// Writes the rows of as many items as there is room for, and leaves the other places as they are.
fn put_items(items: &[SixelData], rows: &mut [SixelRow])
    ensures { rows.new ≡ put_into (map sixel_row items.now) rows.old }
{
    let fitting = items.len().min(rows.len());
    let mut at = 0;
    while at < fitting {
        rows[at] = SixelRow::of(&items[at]);
        at += 1;
    }
}
