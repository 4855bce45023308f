//! The text of the sixel image that a value and rows say.
ghost use Rattle.std.specs.Prelude.{◌≡◌, ◌↔◌, pos, IfErr, IfOk, IfSome, IsTrue, None, OnErr};
ghost use Rattle.std.specs.Global.{Global};
ghost use Rattle.esc_sixel.specs.declared.sixel.Sixel.{Sixel as Image};
ghost use Rattle.esc_calls.specs.Output.{Writes};
ghost use Rattle.esc_calls.specs.SixelValues.{IsHeader};
ghost use Rattle.esc_calls.specs.Written.{status_of};
ghost use Rattle.esc_calls.specs.WrittenSixels.{AreGiven, HasSixel, IsGiven, IsRefusal, IsText, optional};
ghost use Rattle.fallible_alloc.specs.Refusals.{Refused};

use crate::output::put_text;
use crate::refusal::Refusal;
use crate::shown::{display, ended};
use crate::sixel_value::SixelValue;
use crate::sixel_writable::is_writable;
use esc_sixel::{Sixel, SixelData};
use esc_values::{Items, Text};
use flat_values::{SixelRow, sixel_items_of};
use std::alloc::{AllocError, Global};

/// Does the work of `escape_stream_write_sixel` of `escape_c`.
pub fn write_sixel(
    alloc: Global,
    value: &SixelValue,
    rows: &[SixelRow],
    out: &mut [u8],
    needed: &mut usize,
) -> u32
    ensures { Writes (IsText value.now rows.now) (IsRefusal value.now rows.now)
        result (out.old, needed.old) (out.new, needed.new) }
{
    put_text(written(alloc, value, rows), out, needed)
}

// Returns the text of the image, if it reads back as it.
fn written(alloc: Global, value: &SixelValue, rows: &[SixelRow]) -> Result<Text, Refusal>
    ensures text { IfOk result (IsText value.now rows.now) }
    ensures refused { IfErr result (λ e. IsRefusal value.now rows.now (status_of e)) }
{
    let Some(sixel) = image_of(alloc, value, rows)? else {
        return Err(Refusal::NoCommand);
    };
    if !is_writable(&sixel) {
        return Err(Refusal::NotWritable);
    }
    Ok(ended(display(alloc, &sixel)?)?)
}

// Returns the image that has this value and these rows, if there is one.
fn image_of(
    alloc: Global,
    value: &SixelValue,
    rows: &[SixelRow],
) -> Result<Option<Sixel>, AllocError>
    ensures has { IfOk result (λ o. IfSome o (HasSixel value.now rows.now)) }
    ensures none { IfOk result (λ o. o ≡ None → (s : Image Global) → HasSixel value.now rows.now s
        → ⊥) }
    ensures refused { OnErr result (Refused Global) }
{
    if !are_given(value) {
        return Ok(None);
    }
    match sixel_items_of(alloc, rows)? {
        Some(content) => Ok(Some(image(value, content))),
        None => Ok(None),
    }
}

// Returns whether each absent number is 0.
fn are_given(value: &SixelValue) -> bool
    ensures { IsTrue result ↔ AreGiven value.now }
{
    is_grid(value.has_grid_size, value.grid_size)
        && is_size(value.has_pixel_width, value.pixel_width)
        && is_size(value.has_pixel_height, value.pixel_height)
}

// Returns whether a horizontal grid size is there, or is 0.
fn is_grid(is_there: bool, number: i64) -> bool
    ensures { IsTrue result ↔ IsGiven (pos 0) is_there number }
{
    is_there || number == 0
}

// Returns whether a size is there, or is 0.
fn is_size(is_there: bool, number: u32) -> bool
    ensures { IsTrue result ↔ IsGiven 0 is_there number }
{
    is_there || number == 0
}

// Returns the image of a value that has this data.
fn image(value: &SixelValue, content: Items<SixelData>) -> Sixel
    ensures content { result.content ≡ content }
    ensures header { AreGiven value.now → IsHeader result value.now }
{
    Sixel {
        pan: value.pan,
        pad: value.pad,
        pixel_width: size(value.has_pixel_width, value.pixel_width),
        pixel_height: size(value.has_pixel_height, value.pixel_height),
        background_is_transparent: value.background_is_transparent,
        horizontal_grid_size: grid(value.has_grid_size, value.grid_size),
        content,
    }
}

// Returns a horizontal grid size, if it is there.
fn grid(is_there: bool, number: i64) -> Option<i64>
    ensures { result ≡ optional is_there number }
{
    if is_there { Some(number) } else { None }
}

// Returns a size, if it is there.
fn size(is_there: bool, number: u32) -> Option<u32>
    ensures { result ≡ optional is_there number }
{
    if is_there { Some(number) } else { None }
}
