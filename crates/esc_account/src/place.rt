//! Places in a stream.

/// A place in a stream.
#[derive(Clone, Copy, PartialEq, Eq, Debug)]
pub struct Place {
    /// How many bytes come before it.
    pub byte: u64,
    /// How many line feeds are among these.
    pub line: u64,
}
