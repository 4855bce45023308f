//! Why a recording is not read to its end.

use std::fmt;
use std::fmt::{Display, Formatter};

/// Why a recording is not read to its end.
#[derive(Clone, Copy)]
pub enum TimeError {
    /// The line of this number is no line of a recording of asciinema.
    Line(u64),
    /// The line of this number of a timing file is none that script(1) writes.
    Entry(u64),
    /// The typescript has fewer bytes than its timing file counts.
    Short,
    /// A request for memory was refused.
    Memory,
}

impl Display for TimeError {
    fn fmt<W: fmt::Write>(&self, f: &mut Formatter<W>) -> fmt::Result {
        match *self {
            TimeError::Line(number) => write!(f, "line {number} is no line of a recording"),
            TimeError::Entry(number) => write!(f, "line {number} of its timing is no entry"),
            TimeError::Memory => f.write_str("out of memory"),
            TimeError::Short => f.write_str("it ends before its timing does"),
        }
    }
}
