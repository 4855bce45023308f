//! Speeds.

use std::fmt;

/// A speed, in tenths of a MB/s.
#[derive(Clone, Copy)]
pub struct Speed {
    tenths: u128,
}

impl Speed {
    /// Returns the speed of so many bytes in so many nanoseconds.
    pub fn of(bytes: usize, nanoseconds: u64) -> Speed {
        Speed {
            tenths: (bytes as u128) * 10_000 / u128::from(nanoseconds.max(1)),
        }
    }
}

impl fmt::Display for Speed {
    fn fmt<W: fmt::Write>(&self, f: &mut fmt::Formatter<W>) -> fmt::Result {
        write!(f, "{}.{}", self.tenths / 10, self.tenths % 10)
    }
}
