//! Frames round characters.

/// The frame round characters (ECMA-48, 8.3.117, SGR: parameters 51, 52 and 54).
#[derive(Clone, Copy, Debug, PartialEq, Eq)]
pub enum Frame {
    /// SGR 54: nothing.
    None,
    /// SGR 51: a frame.
    Framed,
    /// SGR 52: a circle.
    Encircled,
}
