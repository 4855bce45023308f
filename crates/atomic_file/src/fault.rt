//! Why a file is not written.

use command_line::{Reason, Shown};
use std::alloc::AllocError;
use std::fmt::Display;
use std::{fmt, io};

/// Why a file cannot be written, or why a new one does not take its place.
#[derive(Clone, Copy)]
pub enum FileFault<'a> {
    /// The system refuses a call, or memory.
    Refused(Reason),
    /// It is no regular file, and a new file takes the place of such a one alone.
    NotRegular,
    /// Its name is not UTF-8.
    NoText,
    /// The old file is to be kept under its name with this suffix, and there is such a file.
    IsThere(&'a str),
    /// The old file is to be kept under another name, which the system refuses to give it.
    NotKept(Reason),
}

// Linux's number of EISDIR.
const IS_A_DIRECTORY: i32 = 21;

impl<'a> FileFault<'a> {
    // Returns the fault that the name is that of a folder.
    pub(crate) fn folder() -> FileFault<'a> {
        FileFault::from(io::Error::from_raw_os_error(IS_A_DIRECTORY))
    }
}

impl<'a> From<io::Error> for FileFault<'a> {
    fn from(error: io::Error) -> FileFault<'a> {
        FileFault::Refused(Reason::of(&error))
    }
}

impl<'a> From<AllocError> for FileFault<'a> {
    fn from(error: AllocError) -> FileFault<'a> {
        FileFault::from(io::Error::from(error))
    }
}

impl<'a> Display for FileFault<'a> {
    fn fmt<W: fmt::Write>(&self, f: &mut fmt::Formatter<W>) -> fmt::Result {
        match *self {
            FileFault::Refused(reason) => reason.fmt(f),
            FileFault::NotRegular => f.write_str("not a regular file"),
            FileFault::NoText => f.write_str("its name is not UTF-8"),
            FileFault::IsThere(suffix) => {
                let suffix = Shown(suffix);
                write!(f, "a file of this name with {suffix} exists already")
            }
            FileFault::NotKept(reason) => write!(f, "what was there cannot be kept: {reason}"),
        }
    }
}
