//! Filters recordings of asciinema, line by line.

use crate::options::Options;
use crate::recording::{Cut, Fault, MEMORY, Recording, write};
use asciicast::CastError;
use esc_filter::StreamFilter;
use esc_normal::Watched;
use memchr::memchr;
use std::alloc::Global;
use std::io::Write;
use std::str;

// A line has at most this many times the bytes of the limit.
const TIMES: usize = 16;

/// A filter of a recording of asciinema, which comes in chunks. `F` filters the stream of its
/// texts.
#[derive(Drop)]
pub struct Lines<F> {
    recording: asciicast::Recording<F>,
    // the unfinished line
    line: Vec<u8>,
    // the most bytes of a line
    most: usize,
    // the number of lines so far
    count: u64,
}

impl<F: StreamFilter<Global>> Lines<F> {
    /// The beginning of a recording, for a new filter by these options. Takes no memory.
    pub fn new(alloc: Global, feeding: F, options: Options<'_>) -> Lines<F> {
        let recording = asciicast::Recording::new(alloc, feeding);
        Lines {
            recording: recording.dropping_input(options.drops_input),
            line: Vec::new(alloc),
            most: options.filter.limit.saturating_mul(TIMES),
            count: 0,
        }
    }

    /// The filter of the whole recording.
    pub fn into_feeding(self) -> F {
        let Lines {
            recording,
            line: _,
            most: _,
            count: _,
        } = self;
        recording.into_feeding()
    }

    // Adds bytes to the unfinished line.
    fn grow(&mut self, bytes: &[u8]) -> Result<(), Fault> {
        if bytes.len() > self.most.saturating_sub(self.line.len()) {
            return Err(Fault::Long(self.count.saturating_add(1), self.most));
        }
        match self.line.extend_from_slice(bytes) {
            Ok(()) => Ok(()),
            Err(_) => Err(MEMORY),
        }
    }

    // Ends the line, and writes its new form.
    fn end_line<W: Write>(&mut self, writer: &mut Watched<W>) -> Result<(), Fault> {
        self.count = self.count.saturating_add(1);
        let Ok(line) = str::from_utf8(&self.line) else {
            return Err(Fault::Line(self.count));
        };
        match self.recording.take_line(line) {
            Ok(()) => {}
            Err(CastError::NoEvent) => return Err(Fault::Line(self.count)),
            Err(CastError::Memory) => return Err(MEMORY),
        }
        self.line.clear();
        write(writer, self.recording.text())
    }

    // Ends a last line without a line feed. It returns the cut if the line is no line of a
    // recording.
    fn end_last<W: Write>(&mut self, writer: &mut Watched<W>) -> Result<Option<Cut>, Fault> {
        if self.line.is_empty() {
            return Ok(None);
        }
        match self.end_line(writer) {
            Ok(()) => Ok(None),
            Err(Fault::Line(number)) if number > 1 => Ok(Some(Cut::Line(number))),
            Err(fault) => Err(fault),
        }
    }
}

impl<F: StreamFilter<Global>> Recording for Lines<F> {
    fn take<W: Write>(&mut self, bytes: &[u8], writer: &mut Watched<W>) -> Result<(), Fault> {
        let mut rest = bytes;
        while let Some(at) = memchr(b'\n', rest) {
            self.grow(&rest[..at])?;
            self.end_line(writer)?;
            rest = &rest[at + 1..];
        }
        self.grow(rest)
    }

    fn end<W: Write>(&mut self, writer: &mut Watched<W>) -> Result<Option<Cut>, Fault> {
        let cut = self.end_last(writer)?;
        match self.recording.finish() {
            Ok(()) => write(writer, self.recording.text())?,
            Err(_) => return Err(MEMORY),
        }
        Ok(cut)
    }
}
