//! This module reads an image that is sent to the terminal.
ghost use Rattle.std.specs.Prelude.{◌≡◌, IfOk, OnErr};
ghost use Rattle.fallible_alloc.specs.Refusals.{Refused};
ghost use Rattle.esc_kitty.specs.Keys.{values};
ghost use Rattle.std.specs.Option.{option_map};
ghost use Rattle.esc_values.specs.Base64.{base64_text_of};
ghost use Rattle.esc_values.specs.Scalars.{utf8_of};
ghost use Rattle.esc_kitty.specs.Images.{content_by, content_of, transmit_of};
ghost use Rattle.esc_kitty.specs.Media.{named_content};
ghost use Rattle.esc_kitty.specs.declared.content.KittyImageData.TheVariants.{Direct};

use crate::compression::KittyImageCompression;
use crate::content::KittyImageData;
use crate::format::KittyImageFormat;
use crate::keys::{Pair, flag, number, value};
use crate::transmit::KittyImageTransmit;
use esc_values::Text;
use esc_values::base64_text::read_base64_text;
use esc_values::scalar::text_in;
use std::alloc::{AllocError, Allocator};

// Reads the image of these keys and this payload, if they are one.
pub(crate) fn read_transmit<A: Allocator>(
    alloc: A,
    pairs: &[Pair<'_>],
    payload: &[u8],
) -> Result<Option<KittyImageTransmit<A>>, AllocError>
    ensures ok { IfOk result (λ o. o ≡ transmit_of (values pairs.now) payload.now) }
    ensures refused { OnErr result (Refused A) }
{
    let Some(format) = KittyImageFormat::read(value(pairs, b'f')) else {
        return Ok(None);
    };
    let Some(compression) = KittyImageCompression::read(value(pairs, b'o')) else {
        return Ok(None);
    };
    let Some(more_data_follows) = flag(pairs, b'm') else {
        return Ok(None);
    };
    let Some(content) = read_content(alloc, pairs, payload)? else {
        return Ok(None);
    };
    Ok(Some(KittyImageTransmit {
        format,
        content,
        width: number(pairs, b's'),
        height: number(pairs, b'v'),
        image_id: number(pairs, b'i'),
        image_number: number(pairs, b'I'),
        compression,
        more_data_follows,
    }))
}

// Reads the content of the image, if the keys and the payload have one.
fn read_content<A: Allocator>(
    alloc: A,
    pairs: &[Pair<'_>],
    payload: &[u8],
) -> Result<Option<KittyImageData<A>>, AllocError>
    ensures ok { IfOk result (λ o. o ≡ content_of (values pairs.now) payload.now) }
    ensures refused { OnErr result (Refused A) }
{
    let medium = value(pairs, b't').unwrap_or("d");
    let size = number(pairs, b'S');
    let offset = number(pairs, b'O');
    read_content_by(alloc, medium, size, offset, payload)
}

// Reads the content of the image, by the value of `t`.
fn read_content_by<A: Allocator>(
    alloc: A,
    medium: &str,
    data_size: Option<u32>,
    data_offset: Option<u32>,
    payload: &[u8],
) -> Result<Option<KittyImageData<A>>, AllocError>
    ensures ok { IfOk result (λ o. o ≡ content_by medium.now data_size data_offset payload.now) }
    ensures refused { OnErr result (Refused A) }
{
    match medium {
        "d" => read_direct(alloc, payload),
        "f" => read_named(alloc, Medium::File, data_size, data_offset, payload),
        "t" => read_named(
            alloc,
            Medium::TemporaryFile,
            data_size,
            data_offset,
            payload,
        ),
        "s" => read_named(alloc, Medium::SharedMem, data_size, data_offset, payload),
        _ => Ok(None),
    }
}

// Reads the payload as it is, if it is a text.
fn read_direct<A: Allocator>(
    alloc: A,
    payload: &[u8],
) -> Result<Option<KittyImageData<A>>, AllocError>
    ensures ok { IfOk result (λ o. o ≡ option_map Direct (utf8_of payload.now)) }
    ensures refused { OnErr result (Refused A) }
{
    let Some(text) = text_in(payload) else {
        return Ok(None);
    };
    Ok(Some(KittyImageData::Direct(Text::from_str(alloc, text)?)))
}

// Reads the name in the payload, if the payload is the base64 of a text.
fn read_named<A: Allocator>(
    alloc: A,
    medium: Medium,
    data_size: Option<u32>,
    data_offset: Option<u32>,
    payload: &[u8],
) -> Result<Option<KittyImageData<A>>, AllocError>
    ensures ok { IfOk result (λ o. o
        ≡ option_map (λ t. named_content medium t data_size data_offset)
        (base64_text_of payload.now)) }
    ensures refused { OnErr result (Refused A) }
{
    match read_base64_text(alloc, payload)? {
        Some(name) => Ok(Some(medium.named(name, data_size, data_offset))),
        None => Ok(None),
    }
}

// A payload may name one of these.
#[derive(Clone, Copy)]
enum Medium {
    File,
    TemporaryFile,
    SharedMem,
}

impl Medium {
    // Returns the content with this name.
    fn named<A: Allocator>(
        self,
        name: Text<A>,
        data_size: Option<u32>,
        data_offset: Option<u32>,
    ) -> KittyImageData<A>
        ensures { result ≡ named_content self name data_size data_offset }
    {
        match self {
            Medium::File => KittyImageData::File {
                path: name,
                data_size,
                data_offset,
            },
            Medium::TemporaryFile => KittyImageData::TemporaryFile {
                path: name,
                data_size,
                data_offset,
            },
            Medium::SharedMem => KittyImageData::SharedMem {
                name,
                data_size,
                data_offset,
            },
        }
    }
}
