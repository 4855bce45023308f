//! Calls of `ErrorCapture` of `command_line`: which call it makes again, and which error comes
//! back.
use crate::scripted::{Scripted, with_errors};
use command_line::ErrorCapture;
use std::alloc::{AllocError, Global};
use std::io;
use std::io::{Read, Write};

/// Returns what a call comes to if the calls below it end with these errors, a letter each, and how
/// many calls below it are made.
pub fn captured(call: &str, alloc: Global, errors: &[u8]) -> Result<String, AllocError> {
    let mut capture = ErrorCapture::new(with_errors(errors));
    match call {
        "read-through" => {
            let outcome = capture.read(&mut [0u8; 4]);
            told(alloc, &outcome, capture)
        }
        "write-through" => {
            let outcome = capture.write(b"ab");
            told(alloc, &outcome, capture)
        }
        _ => flushed(alloc, capture),
    }
}

// Returns how many bytes a call took, or the kind of its error; and how many calls that came to.
fn told(
    alloc: Global,
    outcome: &io::Result<usize>,
    capture: ErrorCapture<Scripted<'_>>,
) -> Result<String, AllocError> {
    let calls = capture.into_inner().calls;
    match outcome {
        Ok(count) => format!(in alloc; "{count} of {calls}"),
        Err(error) => {
            let kind = error.kind();
            format!(in alloc; "{kind:?} of {calls}")
        }
    }
}

// Flushes, and returns whether that failed, and whether it is noted that nobody reads.
fn flushed(alloc: Global, mut capture: ErrorCapture<Scripted<'_>>) -> Result<String, AllocError> {
    let is_error = capture.flush().is_err();
    let is_closed = match capture.reason() {
        Some(reason) => reason.is_closed(),
        None => false,
    };
    let flushes = capture.into_inner().flushes;
    format!(in alloc; "{is_error} {is_closed} of {flushes}")
}
