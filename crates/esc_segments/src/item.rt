//! Segments of bytes.
#![tactic(auto)]

use crate::kind::SegmentKind;

/// A segment of some bytes, as [`Segments`](crate::Segments) gives it. It borrows the bytes, not
/// the iterator.
#[derive(Clone, Copy, PartialEq, Eq, Debug)]
pub struct Segment<'a> {
    /// The kind of the segment.
    pub kind: SegmentKind,
    /// Its bytes, at their place in the input. They are never empty.
    pub bytes: &'a [u8],
    /// Says whether it is finished: it ends by itself, or the bytes after it in the input end it.
    /// All but the last segment of the input are finished.
    pub finished: bool,
}
