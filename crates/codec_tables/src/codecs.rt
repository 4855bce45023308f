//! Codecs of commands and images.
use esc_iterm::file_data::ITermFileData;
use esc_kitty::{
    KittyImage, KittyImageCompression, KittyImageData, KittyImageTransmit, KittyImageVerbosity,
};
use esc_links::Hyperlink;
use esc_prompts::FinalTermSemanticPrompt;
use esc_values::Items;
use esc_values::base64_text::{read_base64, read_base64_text};
use failing_alloc::Refusing;
use std::alloc::{AllocError, Allocator, Global};
use std::fmt::{Debug, Display};

/// Returns the Debug text of a value.
pub fn emitted<T: Debug + Drop>(alloc: Global, value: T) -> Result<String, AllocError> {
    format!(in alloc; "{value:?}")
}

// Returns the Debug text and the text of a value, if there was memory for it.
fn displayed<T: Debug + Display + Drop>(
    alloc: Global,
    value: Result<T, AllocError>,
) -> Result<String, AllocError> {
    match value {
        Ok(value) => format!(in alloc; "{value:?} {value}"),
        Err(error) => Err(error),
    }
}

// Returns the text of the value that an application program command's data means, `none` if there
// is no value, and `as it came` if the text is this data.
fn written<T: Display + Drop>(
    alloc: Global,
    value: Result<Option<T>, AllocError>,
    data: &[u8],
) -> Result<String, AllocError> {
    match value {
        Ok(Some(value)) => compared(alloc, format!(in alloc; "{value}"), data),
        Ok(None) => String::from_str(alloc, "none"),
        Err(error) => Err(error),
    }
}

/// Returns the Debug text and the text of the link to an address.
pub fn link<A: Allocator + Copy>(
    alloc: Global,
    heap: A,
    address: &str,
) -> Result<String, AllocError> {
    displayed(alloc, Hyperlink::new(heap, address))
}

/// Returns those of the link to the address `x` with this `id`.
pub fn link_with_id<A: Allocator + Copy>(
    alloc: Global,
    heap: A,
    id: &str,
) -> Result<String, AllocError> {
    displayed(alloc, Hyperlink::new_with_id(heap, "x", id))
}

/// Returns the text of the image that an application program command means, `none` if it means
/// none, and `as it came` if the text is this data.
pub fn image<A: Allocator + Copy>(
    alloc: Global,
    heap: A,
    command: &[u8],
    data: &[u8],
) -> Result<String, AllocError> {
    written(alloc, KittyImage::parse_apc(heap, command), data)
}

/// Returns the Debug text and the text of an image of these bytes, without keys.
pub fn bytes_image<A: Allocator>(
    alloc: Global,
    heap: A,
    bytes: &[u8],
) -> Result<String, AllocError> {
    displayed(alloc, image_of(heap, bytes))
}

fn compared(
    alloc: Global,
    text: Result<String, AllocError>,
    data: &[u8],
) -> Result<String, AllocError> {
    match text {
        Ok(text) if text.as_bytes().strip_prefix(b"\x1b_".as_slice()) == Some(data) => {
            String::from_str(alloc, "as it came")
        }
        other => other,
    }
}

/// Returns the result of a call with the parts between `;`.
pub fn of_parts(
    call: &str,
    alloc: Global,
    heap: &Refusing<Global>,
    text: &[u8],
) -> Result<String, AllocError> {
    match parts_of(alloc, text, b';') {
        Ok(parts) => of_slices(call, alloc, heap, &parts),
        Err(error) => Err(error),
    }
}

fn of_slices<A: Allocator + Copy>(
    call: &str,
    alloc: Global,
    heap: A,
    parts: &[&[u8]],
) -> Result<String, AllocError> {
    match call {
        "prompt-of" => emitted(alloc, FinalTermSemanticPrompt::parse(heap, parts)),
        "file-of" => emitted(alloc, ITermFileData::parse(heap, parts)),
        _ => emitted(alloc, Hyperlink::parse(heap, parts)),
    }
}

/// Returns the parts of a text between this byte; no text has no parts.
pub fn parts_of(alloc: Global, text: &[u8], mark: u8) -> Result<Vec<&[u8]>, AllocError> {
    let mut parts = Vec::new(alloc);
    match add_parts(&mut parts, text, mark) {
        Ok(()) => Ok(parts),
        Err(error) => Err(error),
    }
}

fn add_parts<'a>(parts: &mut Vec<&'a [u8]>, text: &'a [u8], mark: u8) -> Result<(), AllocError> {
    if !text.is_empty() {
        for part in text.split(|b| *b == mark) {
            parts.push(part)?;
        }
    }
    Ok(())
}

/// Returns the bytes that a text in base64 means, and the text of these.
pub fn base64(alloc: Global, heap: &Refusing<Global>, text: &[u8]) -> Result<String, AllocError> {
    both(alloc, read_base64(heap, text), read_base64_text(heap, text))
}

// Returns the Debug texts of two values, if there was memory for both.
fn both<T: Debug + Drop, U: Debug + Drop>(
    alloc: Global,
    one: Result<T, AllocError>,
    other: Result<U, AllocError>,
) -> Result<String, AllocError> {
    match (one, other) {
        (Ok(one), Ok(other)) => format!(in alloc; "{one:?} {other:?}"),
        _ => Err(AllocError),
    }
}

fn image_of<A: Allocator>(alloc: A, bytes: &[u8]) -> Result<KittyImage<A>, AllocError> {
    match Items::from_slice(alloc, bytes) {
        Ok(bytes) => Ok(transmitted(KittyImageData::DirectBin(bytes))),
        Err(error) => Err(error),
    }
}

fn transmitted<A: Allocator>(content: KittyImageData<A>) -> KittyImage<A> {
    KittyImage::TransmitData {
        transmit: KittyImageTransmit {
            format: None,
            content,
            width: None,
            height: None,
            image_id: None,
            image_number: None,
            compression: KittyImageCompression::None,
            more_data_follows: false,
        },
        verbosity: KittyImageVerbosity::Verbose,
    }
}
