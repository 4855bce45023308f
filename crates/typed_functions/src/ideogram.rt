//! Marks of ideograms.

/// Says how ideograms are marked (ECMA-48, 8.3.117, SGR: parameters 60 to 65).
#[derive(Clone, Copy, Debug, PartialEq, Eq)]
pub enum Ideogram {
    /// SGR 60: a line below, or on the right side.
    Underline,
    /// SGR 61: two lines below, or on the right side.
    DoubleUnderline,
    /// SGR 62: a line above, or on the left side.
    Overline,
    /// SGR 63: two lines above, or on the left side.
    DoubleOverline,
    /// SGR 64: a stress mark.
    StressMark,
    /// SGR 65: none of these.
    None,
}
