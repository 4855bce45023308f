//! Why a read, a write or a call on a file fails.

use std::fmt::Display;
use std::io::ErrorKind;
use std::{fmt, io};

// The words of the errors that calls on files and streams give, by Linux's numbers.
static WORDS: [(i32, &str); 33] = [
    (1, "Operation not permitted"),
    (2, "No such file or directory"),
    (4, "Interrupted system call"),
    (5, "Input/output error"),
    (6, "No such device or address"),
    (9, "Bad file descriptor"),
    (11, "Resource temporarily unavailable"),
    (12, "Cannot allocate memory"),
    (13, "Permission denied"),
    (16, "Device or resource busy"),
    (17, "File exists"),
    (18, "Invalid cross-device link"),
    (19, "No such device"),
    (20, "Not a directory"),
    (21, "Is a directory"),
    (22, "Invalid argument"),
    (23, "Too many open files in system"),
    (24, "Too many open files"),
    (26, "Text file busy"),
    (27, "File too large"),
    (28, "No space left on device"),
    (29, "Illegal seek"),
    (30, "Read-only file system"),
    (31, "Too many links"),
    (32, "Broken pipe"),
    (36, "File name too long"),
    (38, "Function not implemented"),
    (40, "Too many levels of symbolic links"),
    (95, "Operation not supported"),
    (107, "Transport endpoint is not connected"),
    (116, "Stale file handle"),
    (117, "Structure needs cleaning"),
    (122, "Disk quota exceeded"),
];

/// Why a read, a write or a call on a file fails. An error of the system prints as POSIX words it,
/// as `No such file or directory`.
#[derive(Clone, Copy)]
pub struct Reason {
    // The system's number of the error, if it is one of the system.
    number: Option<i32>,
    kind: ErrorKind,
}

impl Reason {
    /// Returns the reason that this error gives.
    pub fn of(error: &io::Error) -> Reason {
        Reason {
            number: error.raw_os_error(),
            kind: error.kind(),
        }
    }

    /// Returns whether it is that nobody reads the output any more.
    pub fn is_closed(self) -> bool {
        self.kind == ErrorKind::BrokenPipe
    }
}

impl Display for Reason {
    fn fmt<W: fmt::Write>(&self, f: &mut fmt::Formatter<W>) -> fmt::Result {
        match self.number {
            Some(number) => write_number(number, f),
            None => self.kind.fmt(f),
        }
    }
}

// Writes the name of the system's error of this number.
fn write_number<W: fmt::Write>(number: i32, f: &mut fmt::Formatter<W>) -> fmt::Result {
    match words_of(number) {
        Some(words) => f.write_str(words),
        None => io::Error::from_raw_os_error(number).fmt(f),
    }
}

// Returns the words of the system's error of this number, if it is in the table.
fn words_of(number: i32) -> Option<&'static str> {
    for (known, words) in &WORDS {
        if *known == number {
            return Some(*words);
        }
    }
    None
}
