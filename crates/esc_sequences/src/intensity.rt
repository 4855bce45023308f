//! This module says how bright characters are shown.

/// Says how bright characters are shown (ECMA-48, 8.3.117, SGR: parameters 1, 2 and 22).
#[derive(Clone, Copy, Debug, PartialEq, Eq)]
pub enum Intensity {
    /// SGR 22: neither bold nor faint.
    Normal,
    /// SGR 1: bold or brighter.
    Bold,
    /// SGR 2: faint.
    Half,
}
