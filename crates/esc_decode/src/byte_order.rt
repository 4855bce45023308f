//! The order of the bytes of a unit.

/// Which byte of a unit of UTF-16 comes first.
#[derive(Clone, Copy)]
pub enum ByteOrder {
    /// The lower one.
    Little,
    /// The higher one.
    Big,
    /// As a byte order mark says, which is left out; the lower one if the stream has none.
    Marked,
}
