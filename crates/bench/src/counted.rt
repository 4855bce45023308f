//! The counts of a pass.

use crate::count::Count;
use std::fmt;

/// The counts of a pass.
#[derive(Clone, Copy)]
pub enum Counted {
    /// Events.
    Events(Count),
    /// Actions, and the sum of their characters.
    Actions(u64, u64),
    /// Borrowed actions, and the sum of the bytes of their texts.
    Borrowed(u64, u64),
    /// Images and queries, and the sum of their sizes.
    Images(u64, u64),
    /// Bytes of text.
    Bytes(usize),
}

impl fmt::Display for Counted {
    fn fmt<W: fmt::Write>(&self, f: &mut fmt::Formatter<W>) -> fmt::Result {
        match self {
            Counted::Events(count) => write!(f, "{count}"),
            Counted::Actions(number, total) => write!(f, "{number} actions, total {total}"),
            Counted::Borrowed(number, total) => {
                write!(f, "{number} borrowed actions, total {total}")
            }
            Counted::Images(number, total) => write!(f, "{number} images, total {total}"),
            Counted::Bytes(number) => write!(f, "{number} bytes"),
        }
    }
}
