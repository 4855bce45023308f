//! Ways to read a stream, each of which gives a list of actions.
use crate::gathered::{Gathered, is_same};
use escape_stream::{Action, ParseError, Parser, Segments, parse_chunks, read_segment};
use std::alloc::{AllocError, Allocator, Global};

/// A way to read a stream.
#[derive(Clone, Copy)]
pub enum Reading {
    /// `parse_as_vec` of all.
    Whole,
    /// `parse_chunks` of two chunks, cut at this place.
    Cut(usize),
    /// `parse_chunks` of the two halves.
    Halves,
    /// `parse_as_vec` of each byte.
    Bytes,
    /// `parse_first_as_vec` of the rest, until it finds nothing.
    Prefixes,
    /// `read_segment` of each segment.
    Segments,
}

impl Reading {
    /// Reads a stream.
    pub fn read<A: Allocator + Copy>(
        self,
        alloc: A,
        stream: &[u8],
    ) -> Result<Vec<Action<A>, A>, ParseError> {
        match self {
            Reading::Whole => Parser::new(alloc).parse_as_vec(stream),
            Reading::Cut(at) => cut(alloc, stream, at),
            Reading::Halves => cut(alloc, stream, stream.len() / 2),
            Reading::Bytes => by_bytes(alloc, stream),
            Reading::Prefixes => by_prefixes(alloc, stream),
            Reading::Segments => by_segments(alloc, stream),
        }
    }
}

fn cut<A: Allocator + Copy>(
    alloc: A,
    stream: &[u8],
    at: usize,
) -> Result<Vec<Action<A>, A>, ParseError> {
    let (begins, ends) = stream.split_at(at.min(stream.len()));
    parse_chunks(alloc, &[begins, ends])
}

fn by_bytes<A: Allocator + Copy>(alloc: A, stream: &[u8]) -> Result<Vec<Action<A>, A>, ParseError> {
    let mut parser = Parser::new(alloc);
    let mut gathered = Gathered::new(alloc);
    for byte in stream {
        gathered.add(parser.parse_as_vec(&[*byte]));
    }
    gathered.ended()
}

fn by_prefixes<A: Allocator + Copy>(
    alloc: A,
    stream: &[u8],
) -> Result<Vec<Action<A>, A>, ParseError> {
    let mut parser = Parser::new(alloc);
    let mut gathered = Gathered::new(alloc);
    let mut rest = stream;
    for _ in 0..=stream.len() {
        let len = gathered.add_prefix(parser.parse_first_as_vec(rest));
        rest = rest.get(len..).unwrap_or(b"");
    }
    gathered.ended()
}

fn by_segments<A: Allocator + Copy>(
    alloc: A,
    stream: &[u8],
) -> Result<Vec<Action<A>, A>, ParseError> {
    let mut gathered = Gathered::new(alloc);
    for segment in Segments::new(stream) {
        gathered.add(parsed(read_segment(alloc, &segment)));
    }
    gathered.ended()
}

// Returns the result that a parser would return.
fn parsed<T: Drop>(read: Result<T, AllocError>) -> Result<T, ParseError> {
    match read {
        Ok(read) => Ok(read),
        Err(_) => Err(ParseError::Memory),
    }
}

/// Returns the actions that a closure is given of a stream that comes byte by byte.
pub fn by_calls(alloc: Global, stream: &[u8]) -> Result<Vec<Action>, ParseError> {
    let mut parser = Parser::new(alloc);
    let mut gathered = Gathered::new(alloc);
    for byte in stream {
        let ending = parser.parse(&[*byte], |action| gathered.push(action));
        gathered.check(ending);
    }
    gathered.ended()
}

// The bytes that may come after others: nothing, or a byte that ends an unfinished segment, opens a
// string or belongs to neither.
const NEXT: [&[u8]; 8] = [
    b"", b"\x18", b"\x1a", b"\x1b", b"\x9c", b"\x9b", b"\x90", b"\xff",
];

/// Returns whether a parser hands out the actions of the segments, of these bytes and of these with
/// one byte after them, whole and byte by byte.
pub fn is_read_alike(alloc: Global, bytes: &[u8]) -> bool {
    let mut is_right = true;
    for next in NEXT {
        is_right = is_right && is_alike_before(alloc, bytes, next);
    }
    is_right
}

// Does the same for these bytes with those that come next.
fn is_alike_before(alloc: Global, bytes: &[u8], next: &[u8]) -> bool {
    match joined(alloc, bytes, next) {
        Ok(stream) => {
            is_alike(alloc, &stream, Reading::Whole) & is_alike(alloc, &stream, Reading::Bytes)
        }
        Err(_) => false,
    }
}

fn joined(alloc: Global, bytes: &[u8], next: &[u8]) -> Result<Vec<u8>, AllocError> {
    let mut stream = Vec::from_slice(alloc, bytes)?;
    stream.extend_from_slice(next)?;
    Ok(stream)
}

/// Returns whether a stream has the actions of its segments, read in this way.
pub fn is_alike(alloc: Global, stream: &[u8], reading: Reading) -> bool {
    is_same(
        Reading::Segments.read(alloc, stream),
        reading.read(alloc, stream),
    )
}
