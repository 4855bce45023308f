//! Normal forms, by readers and writers that are slow, full, or fail.
use escape_stream::{NormaliseError, Watched, is_normal, normalise};
use failing_alloc::byte_reader::ByteReader;
use failing_alloc::fixed_writer::FixedWriter;
use std::alloc::Global;

pub const STREAM: &[u8] = b"\x1b]0;a\x07b";

pub const TEXT: &[u8] = b"\x1b]0;a\x1b\\b";

/// Returns a reader of these bytes, one a call, which fails at this call.
pub fn reader(stream: &[u8], fails_at: usize) -> Watched<ByteReader<'_>> {
    Watched::new(ByteReader {
        rest: stream,
        calls: 0,
        fails_at,
    })
}

/// Returns a writer of so much room, which takes so many bytes a call, and fails at this call.
pub fn writer(room: usize, step: usize, fails_at: usize) -> Watched<FixedWriter> {
    Watched::new(FixedWriter::new(room, step, fails_at))
}

// Returns whether normalising ends so: with this fault, after so many bytes of the text were
// written. Without a fault all is read; if nothing is to be written, the writer is not called.
fn ends(
    alloc: Global,
    mut from: Watched<ByteReader<'_>>,
    mut to: Watched<FixedWriter>,
    fault: Option<NormaliseError>,
    written: usize,
) -> bool {
    let result = normalise(alloc, &mut from, &mut to);
    let is_read_fault = fault == Some(NormaliseError::Read);
    let is_write_fault = fault == Some(NormaliseError::Write);
    let mut is_right = result.err() == fault;
    is_right &= from.failed() == is_read_fault;
    is_right &= to.failed() == is_write_fault;
    is_right &= fault.is_some() | from.into_inner().rest.is_empty();
    let held = to.into_inner();
    is_right &= held.holds(TEXT.get(..written).unwrap_or(STREAM));
    is_right & ((held.calls > 0) == (is_write_fault | (written > 0)))
}

/// Returns whether it ends rightly if a read or a write fails.
pub fn are_faults_told(alloc: Global) -> bool {
    let read = Some(NormaliseError::Read);
    let write = Some(NormaliseError::Write);
    let mut is_right = true;
    for at in 1..9usize {
        is_right &= ends(alloc, reader(STREAM, at), writer(64, 64, 0), read, 0);
        is_right &= ends(alloc, reader(STREAM, 0), writer(64, 1, at), write, at - 1);
    }
    is_right
}

/// Returns whether it ends rightly with a writer that has room, with a full one, and with nothing
/// to write.
pub fn is_room_used(alloc: Global) -> bool {
    let write = Some(NormaliseError::Write);
    let mut is_right = ends(alloc, reader(STREAM, 0), writer(64, 1, 0), None, TEXT.len());
    is_right &= ends(alloc, reader(STREAM, 0), writer(3, 3, 0), write, 3);
    is_right & ends(alloc, reader(b"", 0), writer(0, 1, 1), None, 0)
}

// Returns whether `is_normal` ends so with a reader that fails at this call.
fn judges(alloc: Global, stream: &[u8], at: usize, wanted: Result<bool, NormaliseError>) -> bool {
    let mut from = reader(stream, at);
    let mut is_right = is_normal(alloc, &mut from) == wanted;
    is_right &= from.failed() == wanted.is_err();
    is_right & (wanted.is_err() | from.into_inner().rest.is_empty())
}

// Returns whether this is the normal form of a stream.
fn is_form(alloc: Global, stream: &[u8], form: &[u8]) -> bool {
    let mut to = Watched::new(Vec::new(alloc));
    let result = normalise(alloc, &mut Watched::new(stream), &mut to);
    result.is_ok() & (to.into_inner().as_slice() == form)
}

/// Returns whether a text is told from its normal form. A byte of data over 9F is written as two
/// bytes, which are read as two: the normal form of that stream is not normal.
pub fn is_form_told(alloc: Global) -> bool {
    let form = b"\x1bPp\xc3\xa2\x1b\\";
    let mut is_right = judges(alloc, STREAM, 0, Ok(false)) & judges(alloc, TEXT, 0, Ok(true));
    is_right &= is_form(alloc, b"\x1bPp\xe2\x1b\\", form);
    is_right &= judges(alloc, form, 0, Ok(false));
    for at in 1..9usize {
        is_right &= judges(alloc, STREAM, at, Err(NormaliseError::Read));
    }
    is_right
}
