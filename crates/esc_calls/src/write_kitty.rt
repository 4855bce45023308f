//! The text of the kitty image that a kind and fields say.
ghost use Rattle.std.specs.Prelude.{◌≡◌, ◌↔◌, IfErr, IfOk, IsTrue, OnErr, Some, drop, true};
ghost use Rattle.std.specs.List.{list_all};
ghost use Rattle.flat_values.specs.HeldImages.{HasImage};
ghost use Rattle.esc_kitty.specs.Texts.{image_text};
ghost use Rattle.esc_kitty.specs.Writable.{is_kept};
ghost use Rattle.esc_kitty.specs.declared.image.KittyImage.{KittyImage};
ghost use Rattle.esc_calls.specs.ImageValues.{image_read};
ghost use Rattle.esc_calls.specs.Output.{Writes};
ghost use Rattle.esc_calls.specs.Written.{status_of};
ghost use Rattle.esc_calls.specs.WrittenImages.{IsRefusal, IsText};
ghost use Rattle.fallible_alloc.specs.Refusals.{Refused};

use crate::output::put_text;
use crate::refusal::Refusal;
use crate::shown::{displayed, ended};
use esc_kitty::KittyImage as Image;
use esc_values::Text;
use flat_values::{FieldRow, has_image, image_of};
use std::alloc::{AllocError, Global};

/// Does the work of `escape_stream_write_kitty` of `escape_c`.
pub fn write_kitty(
    alloc: Global,
    kind: u32,
    fields: &[FieldRow],
    text: &[u8],
    out: &mut [u8],
    needed: &mut usize,
) -> u32
    ensures { Writes (IsText kind (fields.now, text.now)) (IsRefusal kind (fields.now, text.now))
        result (out.old, needed.old) (out.new, needed.new) }
{
    put_text(written(alloc, kind, fields, text), out, needed)
}

// Returns the text of the image, if it reads back as it.
fn written(alloc: Global, kind: u32, fields: &[FieldRow], text: &[u8]) -> Result<Text, Refusal>
    ensures text { IfOk result (IsText kind (fields.now, text.now)) }
    ensures refused { IfErr result (λ e. IsRefusal kind (fields.now, text.now) (status_of e)) }
{
    let written = text_of(alloc, kind, fields, text)?;
    if !is_back(alloc, body_in(written.as_bytes()), kind, fields, text)? {
        return Err(Refusal::NotWritable);
    }
    Ok(ended(written)?)
}

// Returns the text of the image, without its end.
fn text_of(alloc: Global, kind: u32, fields: &[FieldRow], text: &[u8]) -> Result<Text, Refusal>
    ensures text { IfOk result (λ t. (i : KittyImage Global)
        × HasImage kind (fields.now, text.now) (Some i) × (t ≡ image_text i)) }
    ensures refused { IfErr result (λ e. IsRefusal kind (fields.now, text.now) (status_of e)) }
{
    match image_of(alloc, kind, fields, text) {
        Ok(Some(image)) => displayed(alloc, image),
        Ok(None) => Err(Refusal::NoCommand),
        Err(_) => Err(Refusal::NoMemory),
    }
}

// Returns the rest after `ESC _`.
fn body_in(text: &[u8]) -> &[u8]
    ensures { result.now ≡ drop 2 text.now }
{
    &text[text.len().min(2)..]
}

// Returns whether a byte is one that an application program command keeps.
fn is_kept(byte: &u8) -> bool
    ensures { result ≡ is_kept byte.now }
{
    0x20 <= *byte && *byte <= 0x7f
}

// Returns whether each is one.
fn are_kept(bytes: &[u8]) -> bool
    ensures { result ≡ list_all is_kept bytes.now }
{
    bytes.iter().all(is_kept)
}

// Returns whether a body is of such bytes, and is an image of this kind that has these fields.
fn is_back(
    alloc: Global,
    body: &[u8],
    kind: u32,
    fields: &[FieldRow],
    text: &[u8],
) -> Result<bool, AllocError>
    ensures back { IfOk result (λ b. IsTrue b ↔ ((list_all is_kept body.now ≡ true)
        × HasImage kind (fields.now, text.now) (image_read body.now))) }
    ensures refused { OnErr result (Refused Global) }
{
    if !are_kept(body) {
        return Ok(false);
    }
    let read = Image::parse_apc(alloc, body)?;
    has_image(alloc, &read, kind, fields, text)
}
