//! A file that is read whole.

use crate::run::{Fault, ended, read_some};
use command_line::{Ended, Work};
use std::alloc::Global;
use std::io::{Read, Write};

/// Keeps the bytes of a file.
#[derive(Drop)]
pub struct Whole<E> {
    bytes: Vec<u8>,
    // The output for faults.
    faults: E,
}

impl<E: Write> Whole<E> {
    /// Returns an empty text. Takes no memory.
    pub fn new(alloc: Global, faults: E) -> Whole<E> {
        Whole {
            bytes: Vec::new(alloc),
            faults,
        }
    }

    /// Returns the bytes.
    pub fn bytes(&self) -> &[u8] {
        &self.bytes
    }
}

impl<E: Write> Work for Whole<E> {
    fn take<R: Read + Drop>(&mut self, name: &str, mut input: R) -> Ended {
        let done = read_all(&mut input, &mut self.bytes);
        ended(done, name, &mut self.faults)
    }
}

// Reads to the end, and adds the bytes that are read.
fn read_all<R: Read>(input: &mut R, bytes: &mut Vec<u8>) -> Result<(), Fault> {
    let mut chunk = [0u8; 4096];
    for _ in 0..u64::MAX {
        let count = read_some(input, &mut chunk)?;
        if count == 0 {
            break;
        }
        if bytes.extend_from_slice(&chunk[..count]).is_err() {
            return Err(Fault::Memory);
        }
    }
    Ok(())
}
