//! Reads the timing file of a typescript.

use crate::PROGRAM;
use command_line::{Ended, ErrorCapture, Place, Work, ended_by};
use esc_filter::FilterError;
use std::alloc::Global;
use std::io::{Read, Write};

/// The bytes of a timing file.
#[derive(Drop)]
pub struct Timing<E> {
    bytes: Vec<u8>,
    // the writer of error messages
    faults: E,
}

impl<E: Write> Timing<E> {
    /// No bytes yet. Takes no memory.
    pub fn new(alloc: Global, faults: E) -> Timing<E> {
        Timing {
            bytes: Vec::new(alloc),
            faults,
        }
    }

    /// The bytes.
    pub fn bytes(&self) -> &[u8] {
        &self.bytes
    }
}

impl<E: Write> Work for Timing<E> {
    fn take<R: Read + Drop>(&mut self, name: &str, input: R) -> Ended {
        let mut reader = ErrorCapture::new(input);
        let outcome = read_all(&mut reader, &mut self.bytes);
        let reason = reader.reason();
        ended_by(
            PROGRAM,
            outcome,
            Place::Input(name),
            reason,
            &mut self.faults,
        )
    }
}

// Reads to the end, and adds the bytes.
fn read_all<R: Read>(input: &mut R, bytes: &mut Vec<u8>) -> Result<(), FilterError> {
    let mut chunk = [0u8; 4096];
    for _ in 0..u64::MAX {
        match input.read(&mut chunk) {
            Ok(0) => return Ok(()),
            Ok(count) => {
                let read = chunk.get(..count).unwrap_or(b"");
                if bytes.extend_from_slice(read).is_err() {
                    return Err(FilterError::Memory);
                }
            }
            Err(_) => return Err(FilterError::Read),
        }
    }
    Ok(())
}
