//! Filters a recording from a reader to the output.

use dump_time::TimeError;
use esc_filter::FilterError;
use esc_normal::Watched;
use std::alloc::Global;
use std::fmt;
use std::fmt::{Display, Formatter};
use std::io::{Read, Write};

/// A filter of a recording in one format, which comes in chunks.
pub trait Recording {
    /// Takes more bytes, and writes their output.
    fn take<W: Write>(&mut self, bytes: &[u8], writer: &mut Watched<W>) -> Result<(), Fault>;

    /// Ends the recording, and writes the output of its end. It returns the place of a cut.
    fn end<W: Write>(&mut self, writer: &mut Watched<W>) -> Result<Option<Cut>, Fault>;
}

/// The error that stopped the filtering of a recording.
#[derive(Clone, Copy)]
pub enum Fault {
    /// An error that a stream has too.
    Stream(FilterError),
    /// The line with this number is no line of a recording of asciinema.
    Line(u64),
    /// The line with this number has more bytes than the second number.
    Long(u64, usize),
    /// The frame with this number is no frame of ttyrec.
    Frame(u64),
    /// The timing file of a typescript is malformed.
    Timing(TimeError),
}

impl Fault {
    /// Whether a write failed.
    pub fn is_of_output(self) -> bool {
        match self {
            Fault::Stream(FilterError::Write) => true,
            _ => false,
        }
    }
}

impl Display for Fault {
    fn fmt<W: fmt::Write>(&self, f: &mut Formatter<W>) -> fmt::Result {
        match self {
            Fault::Stream(error) => error.fmt(f),
            Fault::Line(number) => write!(f, "line {number} is no line of a recording"),
            Fault::Long(number, most) => write!(f, "line {number} has more than {most} bytes"),
            Fault::Frame(number) => write!(f, "frame {number} is no frame of ttyrec"),
            Fault::Timing(error) => error.fmt(f),
        }
    }
}

/// The place in which a recording is cut. All before it is filtered and written.
#[derive(Clone, Copy)]
pub enum Cut {
    /// In the line with this number, which is left out.
    Line(u64),
    /// In the frame with this number, whose beginning is filtered.
    Frame(u64),
    /// Before the end of its timing.
    Timing,
}

impl Display for Cut {
    fn fmt<W: fmt::Write>(&self, f: &mut Formatter<W>) -> fmt::Result {
        match self {
            Cut::Line(number) => write!(f, "it is cut in line {number}, which is left out"),
            Cut::Frame(number) => write!(f, "it is cut in frame {number}"),
            Cut::Timing => f.write_str("it ends before its timing does"),
        }
    }
}

/// Reads a recording to its end, and writes the output as it reads. It returns the place of a cut.
pub fn filter_recording<T: Recording, R: Read, W: Write>(
    alloc: Global,
    recording: &mut T,
    reader: &mut Watched<R>,
    writer: &mut Watched<W>,
) -> Result<Option<Cut>, Fault> {
    match fallible_alloc::read_buffer(alloc) {
        Ok(mut chunk) => filter_all(recording, reader, writer, chunk.as_mut_slice()),
        Err(_) => Err(MEMORY),
    }
}

// Reads to the end into this buffer, and writes the output.
fn filter_all<T: Recording, R: Read, W: Write>(
    recording: &mut T,
    reader: &mut Watched<R>,
    writer: &mut Watched<W>,
    chunk: &mut [u8],
) -> Result<Option<Cut>, Fault> {
    take_all(recording, reader, writer, chunk)?;
    let cut = recording.end(writer)?;
    flush(writer)?;
    Ok(cut)
}

// Reads to the end into this buffer, and writes the output, without that of the end.
fn take_all<T: Recording, R: Read, W: Write>(
    recording: &mut T,
    reader: &mut Watched<R>,
    writer: &mut Watched<W>,
    chunk: &mut [u8],
) -> Result<(), Fault> {
    for _ in 0..u64::MAX {
        match reader.read(chunk) {
            Ok(0) => return Ok(()),
            Ok(n) => {
                recording.take(&chunk[..n], writer)?;
                flush(writer)?;
            }
            Err(_) => return Err(Fault::Stream(FilterError::Read)),
        }
    }
    Ok(())
}

/// Writes all of the bytes.
pub fn write<W: Write>(writer: &mut Watched<W>, bytes: &[u8]) -> Result<(), Fault> {
    if writer.write_whole(bytes) {
        Ok(())
    } else {
        Err(Fault::Stream(FilterError::Write))
    }
}

/// The fault of refused memory.
pub const MEMORY: Fault = Fault::Stream(FilterError::Memory);

fn flush<W: Write>(writer: &mut Watched<W>) -> Result<(), Fault> {
    match writer.flush() {
        Ok(()) => Ok(()),
        Err(_) => Err(Fault::Stream(FilterError::Write)),
    }
}
