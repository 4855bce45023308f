//! This module says how high characters are placed.

/// Says how high characters are placed (mintty's wiki, and ISO 8613-6: SGR 73 to 75).
#[derive(Clone, Copy, Debug, PartialEq, Eq)]
pub enum VerticalAlign {
    /// SGR 75: on the line.
    BaseLine,
    /// SGR 73: raised, and smaller.
    SuperScript,
    /// SGR 74: lowered, and smaller.
    SubScript,
}
