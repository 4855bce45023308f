//! Streams as pages.
use esc_html::HtmlWriter;
use std::alloc::{AllocError, Allocator, Global};

/// Returns the HTML of a stream, with the tags that close it.
pub fn page<A: Allocator + Copy>(
    alloc: Global,
    heap: A,
    stream: &[u8],
    per_line: bool,
) -> Result<String, AllocError> {
    let mut writer = HtmlWriter::new(heap, 4096, per_line);
    written_by(&mut writer, alloc, stream)
}

fn written_by<A: Allocator + Copy>(
    writer: &mut HtmlWriter<A>,
    alloc: Global,
    stream: &[u8],
) -> Result<String, AllocError> {
    match writer.feed(stream) {
        Ok(()) => format!(in alloc; "{}{}", writer.output(), writer.finish()),
        Err(_) => Err(AllocError),
    }
}
