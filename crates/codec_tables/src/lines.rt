//! The final lines.
use line_collapse::LineCollapser;
use std::alloc::{AllocError, Allocator, Global};

// A filter that keeps final lines.
trait Collapsing: Drop {
    // Appends the text of the rows of a stream that became final, and then of those that were left.
    fn add_left(&mut self, stream: &[u8], text: &mut String) -> Result<(), AllocError>;
}

impl<A: Allocator + Copy> Collapsing for LineCollapser<A> {
    fn add_left(&mut self, stream: &[u8], text: &mut String) -> Result<(), AllocError> {
        for input_chunk in stream.chunks(3) {
            self.feed(input_chunk)?;
            text.push_str(self.output())?;
        }
        self.finish()?;
        text.push_str(self.output())
    }
}

/// Returns the final lines of a stream, if so many rows of so many columns may be written again:
/// the text of the rows that became final, and then of those that were left.
pub fn left<A: Allocator + Copy>(
    alloc: Global,
    heap: A,
    stream: &[u8],
    (rows, columns): (usize, usize),
) -> Result<String, AllocError> {
    let mut text = String::new(alloc);
    match add_made(LineCollapser::new(heap, rows, columns), stream, &mut text) {
        Ok(()) => Ok(text),
        Err(error) => Err(error),
    }
}

// Appends the final lines by a filter, if there is one. A filter of any type is dropped then, so
// that no proof goes over its screen.
fn add_made<C: Collapsing>(
    made: Result<C, AllocError>,
    stream: &[u8],
    text: &mut String,
) -> Result<(), AllocError> {
    match made {
        Ok(mut filter) => filter.add_left(stream, text),
        Err(error) => Err(error),
    }
}
