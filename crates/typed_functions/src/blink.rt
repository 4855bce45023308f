//! This module says how characters blink.

/// Says how characters blink (ECMA-48, 8.3.117, SGR: parameters 5, 6 and 25).
#[derive(Clone, Copy, Debug, PartialEq, Eq)]
pub enum Blink {
    /// SGR 25: steady.
    None,
    /// SGR 5: less than 150 times a minute.
    Slow,
    /// SGR 6: 150 times a minute or more.
    Rapid,
}
