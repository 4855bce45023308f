//! Kinds of control strings.

/// The kind that tells a control string apart.
#[derive(Clone, Copy, PartialEq, Eq)]
pub enum StringKind {
    /// An operating system command that begins with a number.
    Osc,
    /// An operating system command that begins with a letter.
    Letter,
    /// A device control string, by its private prefix, its intermediates and its final byte.
    Dcs,
    /// An application program command, by its first byte.
    Apc,
}
