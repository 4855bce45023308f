//! Commands of a stream that have an image.

use crate::picture::Picture;
use crate::png::png_of;
use crate::sixels::sixel_png;
use esc_kitty::{
    KittyImage, KittyImageCompression, KittyImageData, KittyImageFormat, KittyImageTransmit,
};
use esc_values::base64_text::read_base64;
use memchr::memchr;
use std::alloc::{AllocError, Global};

/// Why an image is left out that a command shows.
#[derive(Clone, Copy)]
pub(crate) enum Loss {
    /// It has more bytes than the limit.
    Large,
    /// It is none that a page may have, or has too many pixels.
    Other,
}

/// The kind of a command.
#[derive(Drop)]
pub(crate) enum Command {
    /// It shows this image.
    Shows(Picture),
    /// A part of an image; more parts follow.
    Part,
    /// It shows an image that is left out.
    Lost(Loss),
    /// Another.
    Other,
}

/// The image of kitty that is unfinished: its kind, and its bytes so far.
#[derive(Drop)]
pub(crate) struct Unfinished {
    format: KittyImageFormat,
    width: u32,
    height: u32,
    bytes: Vec<u8>,
}

/// Returns the command that shows an image, if there is one.
pub(crate) fn shown(picture: Option<Picture>) -> Command {
    match picture {
        Some(picture) => Command::Shows(picture),
        None => Command::Lost(Loss::Other),
    }
}

/// Returns the kind of a command that cannot be read, if it was to show an image or not.
pub(crate) fn unread(shows: bool) -> Command {
    if shows {
        Command::Lost(Loss::Other)
    } else {
        Command::Other
    }
}

/// Returns the kind of a command of sixels with this text between its opener and its end.
pub(crate) fn sixel_command(alloc: Global, text: &[u8]) -> Result<Command, AllocError> {
    let length = header_length(text).min(text.len());
    let (header, data) = text.split_at(length);
    match sixel_png(alloc, header, data.get(1..).unwrap_or(b""))? {
        Some(png) => Ok(shown(Picture::unnamed(alloc, png))),
        None => Ok(Command::Lost(Loss::Other)),
    }
}

/// Returns how many bytes the parameters of a device control string have.
pub(crate) fn header_length(text: &[u8]) -> usize {
    let mut length = 0usize;
    for byte in text {
        if !byte.is_ascii_digit() && *byte != b';' {
            return length;
        }
        length = length.saturating_add(1);
    }
    length
}

/// Returns whether a command of kitty shows an image, or is a part of one that does: the keys
/// before the first `;` are in this much of it.
pub(crate) fn shows_image(text: &[u8], is_part: bool) -> bool {
    is_part || has_key(text.get(1..).unwrap_or(b""), b';', b',', b"a=T")
}

/// Returns whether a command of kitty with this text after its opener, which is of this kind, goes
/// on with an image that is unfinished.
pub(crate) fn continues_image(text: &[u8], command: &Command) -> bool {
    !matches!(command, Command::Other) && !shows_image(text, false)
}

/// Returns whether a text has a key with this value before its end, in a list.
pub(crate) fn has_key(text: &[u8], end: u8, comma: u8, key: &'static [u8]) -> bool {
    let mut rest = text
        .get(..memchr(end, text).unwrap_or(text.len()))
        .unwrap_or(text);
    for _ in 0..text.len() {
        let Some(at) = memchr(comma, rest) else {
            break;
        };
        if rest.get(..at).unwrap_or(b"") == key {
            return true;
        }
        rest = rest.get(at.saturating_add(1)..).unwrap_or(b"");
    }
    rest == key
}

/// Returns the kind of a command of kitty with this text after its opener, if this image is
/// unfinished. Parts of it come in more commands, up to one that says no more follow.
pub(crate) fn image_command(
    alloc: Global,
    unfinished: &mut Option<Unfinished>,
    limit: usize,
    text: &[u8],
) -> Result<Command, AllocError> {
    let before = unfinished.take();
    if !is_plain(text) {
        return Ok(Command::Other);
    }
    match (KittyImage::parse_apc(alloc, text)?, before) {
        (Some(KittyImage::TransmitDataAndDisplay { transmit, .. }), _) => {
            let Some(image) = begun(alloc, &transmit) else {
                return Ok(Command::Lost(Loss::Other));
            };
            take_part(alloc, unfinished, limit, image, &transmit)
        }
        (Some(KittyImage::TransmitData { transmit, .. }), Some(image)) => {
            take_part(alloc, unfinished, limit, image, &transmit)
        }
        (None, _) => Ok(unread(shows_image(text, false))),
        _ => Ok(Command::Other),
    }
}

// Returns the image that a command begins, if it is not compressed and lies in the stream.
fn begun(alloc: Global, transmit: &KittyImageTransmit) -> Option<Unfinished> {
    if transmit.compression != KittyImageCompression::None {
        return None;
    }
    Some(Unfinished {
        format: transmit.format.unwrap_or(KittyImageFormat::Rgba),
        width: transmit.width.unwrap_or(0),
        height: transmit.height.unwrap_or(0),
        bytes: Vec::new(alloc),
    })
}

// Adds the part of an image that a command has.
fn take_part(
    alloc: Global,
    unfinished: &mut Option<Unfinished>,
    limit: usize,
    mut image: Unfinished,
    transmit: &KittyImageTransmit,
) -> Result<Command, AllocError> {
    let KittyImageData::Direct(text) = &transmit.content else {
        return Ok(Command::Lost(Loss::Other));
    };
    let Some(bytes) = read_base64(alloc, text.as_str().as_bytes())? else {
        return Ok(Command::Lost(Loss::Other));
    };
    if limit.saturating_sub(image.bytes.len()) < bytes.len() {
        return Ok(Command::Lost(Loss::Large));
    }
    fallible_alloc::extend(&mut image.bytes, &bytes)?;
    if transmit.more_data_follows {
        *unfinished = Some(image);
        return Ok(Command::Part);
    }
    finished(alloc, image)
}

// Returns the image, which is all there.
fn finished(alloc: Global, image: Unfinished) -> Result<Command, AllocError> {
    let Unfinished {
        format,
        width,
        height,
        bytes,
    } = image;
    let is_opaque = match format {
        KittyImageFormat::Png => return Ok(shown(Picture::unnamed(alloc, bytes))),
        KittyImageFormat::Rgb => true,
        KittyImageFormat::Rgba => false,
    };
    match png_of(alloc, width, height, is_opaque, &bytes)? {
        Some(png) => Ok(shown(Picture::unnamed(alloc, png))),
        None => Ok(Command::Lost(Loss::Other)),
    }
}

/// Returns whether a command has no control, as CAN, which ends it, and no byte past ASCII.
pub(crate) fn is_plain(text: &[u8]) -> bool {
    for byte in text {
        if *byte < b' ' || b'~' < *byte {
            return false;
        }
    }
    true
}
