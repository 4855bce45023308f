//! Filters a typescript by its timing.

use crate::recording::{Cut, Fault, MEMORY, Recording, write};
use dump_time::{Run, TimeError};
use esc_filter::StreamFilter;
use esc_normal::Watched;
use std::alloc::Global;
use std::io::Write;

/// Reads the timing of a typescript, and writes the timing of its output.
pub trait Timed: Drop {
    /// Takes bytes of the first line, and writes the line at its end.
    fn take_first<W: Write>(&mut self, bytes: &[u8], writer: &mut Watched<W>) -> Result<(), Fault>;

    /// Returns the bytes that come next, and came at one time; none, if all of these are taken, or
    /// no entry of the timing is left.
    fn next<'b>(&mut self, bytes: &'b [u8]) -> Result<Option<Run<'b>>, TimeError>;

    /// Adds an entry to the new timing: this number of bytes, at this time.
    fn tell(&mut self, time: u64, count: usize);

    /// Writes the held entries of the new timing.
    fn flush(&mut self);

    /// Ends the timing. The error is that bytes of it are missing, or that it is malformed.
    fn finish(&mut self) -> Result<(), TimeError>;
}

/// Filters a typescript, which comes in chunks. `F` filters the stream of its output, and `T` reads
/// its timing.
#[derive(Drop)]
pub struct Scripted<F, T> {
    feeding: F,
    timing: T,
    // the time of the last output
    time: u64,
}

impl<F: StreamFilter<Global>, T: Timed> Scripted<F, T> {
    /// The beginning of a typescript, for a new filter.
    pub fn new(feeding: F, timing: T) -> Scripted<F, T> {
        Scripted {
            feeding,
            timing,
            time: 0,
        }
    }

    /// The timing of the whole typescript, and the filter.
    pub fn into_parts(self) -> (T, F) {
        let Scripted {
            feeding,
            timing,
            time: _,
        } = self;
        (timing, feeding)
    }

    // Filters output of this time, and writes the result.
    fn hear<W: Write>(
        &mut self,
        time: u64,
        text: &[u8],
        writer: &mut Watched<W>,
    ) -> Result<(), Fault> {
        self.time = time;
        match self.feeding.feed(text) {
            Ok(()) => self.write_added(writer),
            Err(_) => Err(MEMORY),
        }
    }

    // Writes the output of the last bytes, with an entry in the new timing.
    fn write_added<W: Write>(&mut self, writer: &mut Watched<W>) -> Result<(), Fault> {
        let added = self.feeding.output();
        let count = added.len();
        write(writer, added.as_bytes())?;
        if count > 0 {
            self.timing.tell(self.time, count);
        }
        Ok(())
    }
}

impl<F: StreamFilter<Global>, T: Timed> Recording for Scripted<F, T> {
    fn take<W: Write>(&mut self, bytes: &[u8], writer: &mut Watched<W>) -> Result<(), Fault> {
        self.timing.take_first(bytes, writer)?;
        let mut rest = bytes;
        for _ in 0..u64::MAX {
            let run = match self.timing.next(rest) {
                Ok(Some(run)) => run,
                Ok(None) => break,
                Err(error) => return Err(Fault::Timing(error)),
            };
            if run.is_asked {
                self.hear(run.time, run.text, writer)?;
            }
            rest = run.rest;
        }
        self.timing.flush();
        Ok(())
    }

    fn end<W: Write>(&mut self, writer: &mut Watched<W>) -> Result<Option<Cut>, Fault> {
        let cut = match self.timing.finish() {
            Ok(()) => None,
            Err(TimeError::Short) => Some(Cut::Timing),
            Err(error) => return Err(Fault::Timing(error)),
        };
        match self.feeding.finish() {
            Ok(()) => self.write_added(writer)?,
            Err(_) => return Err(MEMORY),
        }
        self.timing.flush();
        Ok(cut)
    }
}
