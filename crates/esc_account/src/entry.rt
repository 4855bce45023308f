//! The entries of an account.
#![tactic(auto)]

use crate::fate::Fate;
use esc_segments::Segment;

/// A segment in an account.
#[derive(Clone, Copy, PartialEq, Eq, Debug)]
pub struct Entry<'a> {
    /// The segment.
    pub segment: Segment<'a>,
    /// The fate of the segment.
    pub fate: Fate,
    /// How many bytes of the stream come before it.
    pub place: u64,
    /// How many line feeds are among these.
    pub line: u64,
    /// Whether it is the terminator of the string directly before it, whose way it goes.
    pub is_end: bool,
}
