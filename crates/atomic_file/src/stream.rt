//! A stream that is written as it comes.

use std::fs::File;
use std::io;
use std::io::{Stderr, Stdout, Write};

/// A stream that is written as it comes.
#[derive(Drop)]
pub enum Stream {
    /// Standard output.
    Output(Stdout),
    /// Standard error.
    Error(Stderr),
    /// A file that was opened by its name.
    Opened(File),
}

impl Write for Stream {
    fn write(&mut self, buf: &[u8]) -> io::Result<usize> {
        match self {
            Stream::Output(output) => output.write(buf),
            Stream::Error(error) => error.write(buf),
            Stream::Opened(file) => file.write(buf),
        }
    }

    fn flush(&mut self) -> io::Result<()> {
        match self {
            Stream::Output(output) => output.flush(),
            Stream::Error(error) => error.flush(),
            Stream::Opened(file) => file.flush(),
        }
    }
}
