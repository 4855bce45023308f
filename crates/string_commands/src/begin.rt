//! The beginnings that tell the rows of one key apart.

/// The beginning of a string after its key.
#[derive(Clone, Copy, PartialEq, Eq)]
pub enum Begin {
    /// Anything.
    Anything,
    /// A part, at whose end is a `;`, a `=` or the end of the text.
    Part,
    /// Bytes that the data begin with.
    Bytes,
    /// A parameter, and no other.
    Parameter,
    /// A key among those with `,` between them, up to a `;`.
    Key,
}
