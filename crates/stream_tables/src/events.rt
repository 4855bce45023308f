//! The events of a stream, byte by byte and whole, and the strings that take no memory.
use crate::recorder::Recorder;
use escape_stream::{ParseError, Segments, VTParser, segment_events};
use failing_alloc::Refusing;
use std::alloc::Global;

// More requests for memory than any of the streams makes.
const MOST_REQUESTS: u64 = 1000;

// Returns whether these are the events of the stream, byte by byte, and the parser is at ground
// before and after.
fn is_read_by_bytes(alloc: Global, stream: &[u8], events: &str) -> bool {
    let mut parser = VTParser::new(alloc);
    let mut recorder = Recorder::new(alloc);
    let mut is_right = parser.is_ground();
    for byte in stream {
        is_right &= parser.parse_byte(*byte, &mut recorder).is_ok();
    }
    is_right & parser.is_ground() & recorder.has(events)
}

// Returns whether these are the events of the stream that comes whole. The first request for memory
// is refused if it may take none.
fn is_read_whole(alloc: Global, stream: &[u8], events: &str, takes_memory: bool) -> bool {
    let heap = Refusing::new(alloc);
    heap.refuse_at(u64::from(!takes_memory));
    let mut recorder = Recorder::new(alloc);
    let is_read = VTParser::new(&heap).parse(stream, &mut recorder).is_ok();
    is_read & recorder.has(events) & !heap.has_refused()
}

// Returns whether these are the events of its segments, if the first request for memory is refused,
// then the second one, and so on: all of them, or, if a refusal ends the reading, a prefix.
fn is_read_by_segments(alloc: Global, stream: &[u8], events: &str) -> bool {
    let heap = Refusing::new(alloc);
    for at in 1..MOST_REQUESTS {
        heap.refuse_at(at);
        let is_right = is_prefix_read(alloc, &heap, stream, events);
        if !is_right || !heap.has_refused() {
            return is_right;
        }
    }
    false
}

// Returns whether all of these events are read, or a prefix if memory is refused.
fn is_prefix_read(alloc: Global, heap: &Refusing<Global>, stream: &[u8], events: &str) -> bool {
    let mut recorder = Recorder::new(alloc);
    if is_read(heap, stream, &mut recorder) {
        recorder.has(events)
    } else {
        heap.has_refused() && events.starts_with(recorder.events.as_str())
    }
}

// Gives the events of the segments of a stream, one segment after another, until memory is refused.
// Returns whether none was.
fn is_read(heap: &Refusing<Global>, stream: &[u8], recorder: &mut Recorder) -> bool {
    let mut is_read = true;
    for segment in Segments::new(stream) {
        is_read = is_read && segment_events(heap, &segment, recorder).is_ok();
    }
    is_read
}

/// Returns whether these are the events of the stream, in whatever way it comes. It may take no
/// memory as a whole if `takes_memory` is false.
pub fn has_events(alloc: Global, stream: &[u8], events: &str, takes_memory: bool) -> bool {
    is_read_by_bytes(alloc, stream, events)
        && is_read_by_segments(alloc, stream, events)
        && is_read_whole(alloc, stream, events, takes_memory)
}

// Returns whether each call of a parser that is refused memory fails, nothing is recorded, and the
// parser is not at ground then.
fn has_failed(alloc: Global, heap: &Refusing<Global>) -> bool {
    let mut parser = VTParser::new(heap);
    let mut recorder = Recorder::new(alloc);
    let mut is_right = parser.parse(b"\x1b]2;t", &mut recorder) == Err(ParseError::Memory);
    is_right &= parser.parse_byte(b'a', &mut recorder) == Err(ParseError::Failed);
    is_right &= parser.parse(b"", &mut recorder) == Err(ParseError::Failed);
    is_right & !parser.is_ground() & recorder.has("")
}

/// Returns whether a parser that was refused memory is not at ground.
pub fn is_failed(alloc: Global) -> bool {
    let heap = Refusing::new(alloc);
    heap.refuse_at(1);
    has_failed(alloc, &heap)
}
