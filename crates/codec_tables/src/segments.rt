//! The segments of streams.
use esc_segments::{Segment, SegmentKind, Segments};
use std::alloc::{AllocError, Global};

/// Lists the kind and the length of each segment, and says whether it is unfinished.
pub fn listed(alloc: Global, stream: &[u8]) -> Result<String, AllocError> {
    let mut text = String::new(alloc);
    match list(&mut text, stream) {
        Ok(()) if text.is_empty() => String::from_str(alloc, "none"),
        Ok(()) => Ok(text),
        Err(error) => Err(error),
    }
}

fn list(text: &mut String, stream: &[u8]) -> Result<(), AllocError> {
    for segment in Segments::new(stream) {
        let note = if segment.finished { "" } else { ", unfinished" };
        let len = segment.bytes.len();
        write!(text, "{:?} {len}{note}. ", segment.kind)?;
    }
    Ok(())
}

// Returns the first segment, which outlives the iterator.
fn first_of(stream: &[u8]) -> Option<Segment<'_>> {
    Segments::new(stream).next()
}

/// Returns the kind of the first segment, how many there are of it, and how many bytes these have
/// together.
pub fn counted(alloc: Global, stream: &[u8]) -> Result<String, AllocError> {
    match first_of(stream) {
        Some(first) => {
            let kind = first.kind;
            let (count, bytes) = measured(stream, kind);
            format!(in alloc; "{kind:?} {count} {bytes}")
        }
        None => String::from_str(alloc, "none"),
    }
}

fn measured(stream: &[u8], kind: SegmentKind) -> (usize, usize) {
    let (mut count, mut bytes) = (0usize, 0usize);
    for segment in Segments::new(stream) {
        if segment.kind == kind {
            count = count.saturating_add(1);
            bytes = bytes.saturating_add(segment.bytes.len());
        }
    }
    (count, bytes)
}
