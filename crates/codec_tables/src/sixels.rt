//! Sixel images.
use esc_sixel::{Sixel, SixelBuilder, SixelData};
use std::alloc::{AllocError, Allocator, Global};
use std::fmt::Display;

/// Returns the Debug text of the data of an image, its text, and its size.
pub fn drawn<A: Allocator>(alloc: Global, heap: A, data: &[u8]) -> Result<String, AllocError> {
    match image_of(heap, data) {
        Ok(sixel) => {
            let (width, height) = sixel.dimensions();
            format!(in alloc; "{:?} {sixel} ({width}, {height})", sixel.content)
        }
        Err(error) => Err(error),
    }
}

// Returns the image of this data, which is taken at once.
fn image_of<A: Allocator>(heap: A, data: &[u8]) -> Result<Sixel<A>, AllocError> {
    let mut builder = SixelBuilder::new(heap, &[]);
    let taken = builder.push_run(data);
    let ended = builder.finish();
    match (taken, ended) {
        (Ok(()), Ok(())) => Ok(builder.sixel),
        _ => Err(AllocError),
    }
}

/// Returns how many chunks of data the image of these bytes has, and whether its text has more
/// bytes. The bytes are taken one by one.
pub fn count_of<A: Allocator>(alloc: Global, heap: A, data: &[u8]) -> Result<String, AllocError> {
    let mut builder = SixelBuilder::new(heap, &[]);
    let mut is_taken = true;
    for byte in data {
        is_taken &= builder.push(*byte).is_ok();
    }
    is_taken &= builder.finish().is_ok();
    if is_taken {
        counted(alloc, &builder.sixel)
    } else {
        Err(AllocError)
    }
}

fn counted<A: Allocator>(alloc: Global, sixel: &Sixel<A>) -> Result<String, AllocError> {
    let count = sixel.content.len();
    match format!(in alloc; "{sixel}") {
        Ok(text) => format!(in alloc; "{count}, written in more: {}", text.len() > count),
        Err(error) => Err(error),
    }
}

/// Returns whether there is a text of an image, of this value of six pixels, or of three of it if
/// `!` is before it, of the image with it last, and of the image with a new line after it.
pub fn written_with<A: Allocator>(
    alloc: Global,
    heap: A,
    value: &[u8],
) -> Result<String, AllocError> {
    match image_of(heap, b"~-!3~") {
        Ok(sixel) => with_value(alloc, sixel, value_of(value)),
        Err(error) => Err(error),
    }
}

fn value_of(value: &[u8]) -> SixelData {
    match value {
        [b'!', content] => SixelData::Repeat {
            repeat_count: 3,
            content: *content,
        },
        [content] => SixelData::Data(*content),
        _ => SixelData::NewLine,
    }
}

fn with_value<A: Allocator>(
    alloc: Global,
    mut sixel: Sixel<A>,
    data: SixelData,
) -> Result<String, AllocError> {
    let (before, alone) = (is_written(alloc, &sixel), is_written(alloc, &data));
    let is_last = sixel.content.push(data).is_ok();
    let last = is_written(alloc, &sixel);
    let is_amid = sixel.content.push(SixelData::NewLine).is_ok();
    let amid = is_written(alloc, &sixel);
    if is_last && is_amid {
        format!(in alloc; "{before} {alone} {last} {amid}")
    } else {
        Err(AllocError)
    }
}

fn is_written<T: Display>(alloc: Global, value: &T) -> bool {
    format!(in alloc; "{value}").is_ok()
}
