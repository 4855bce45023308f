//! The input of the measures.

use escape_stream::Action;

/// A stream, and its actions.
#[derive(Clone, Copy)]
pub struct Input<'a> {
    /// The bytes of the stream.
    pub bytes: &'a [u8],
    /// Its actions; none if they are not wanted.
    pub actions: &'a [Action],
}
