//! Normal forms that are written as the stream is read: by readers and writers that are slow, full,
//! or fail, and with each request for memory refused in turn.
use crate::normalising::{STREAM, TEXT, reader, writer};
use escape_stream::{FilterError, Watched, normalise_stream};
use failing_alloc::Refusing;
use failing_alloc::fixed_writer::FixedWriter;
use std::alloc::Global;
use std::io;
use std::io::{ErrorKind, Write};

// Returns whether the stream ends so, if each call of the reader gives one byte of it and this call
// fails: with this fault, after so many bytes of the text were written.
fn ends(
    alloc: Global,
    fails_at: usize,
    mut to: Watched<FixedWriter>,
    fault: Option<FilterError>,
    written: usize,
) -> bool {
    let mut from = reader(STREAM, fails_at);
    let result = normalise_stream(alloc, &mut from, &mut to, None);
    let is_held = to.into_inner().holds(TEXT.get(..written).unwrap_or(STREAM));
    (result.err() == fault) & is_held
}

/// Returns whether it ends rightly if a read or a write fails, and if the writer is full. The
/// string ends at the sixth byte, and is written before the seventh is read.
pub fn are_stream_faults_told(alloc: Global) -> bool {
    let read = Some(FilterError::Read);
    let write = Some(FilterError::Write);
    let mut is_right = true;
    for at in 1..9usize {
        let before = if at < 7 { 0 } else { at };
        is_right &= ends(alloc, at, writer(64, 64, 0), read, before);
        is_right &= ends(alloc, 0, writer(64, 1, at), write, at - 1);
    }
    is_right &= ends(alloc, 0, writer(3, 3, 0), write, 3);
    is_right & ends(alloc, 0, writer(64, 1, 0), None, TEXT.len())
}

// Takes all that is written, and cannot be flushed.
#[derive(Drop)]
struct Unflushed;

impl Write for Unflushed {
    fn write(&mut self, buf: &[u8]) -> io::Result<usize> {
        Ok(buf.len())
    }

    fn flush(&mut self) -> io::Result<()> {
        Err(io::Error::from(ErrorKind::Other))
    }
}

/// Returns whether a flush that fails is a write fault.
pub fn is_flush_told(alloc: Global) -> bool {
    let mut to = Watched::new(Unflushed);
    let result = normalise_stream(alloc, &mut Watched::new(STREAM), &mut to, None);
    (result == Err(FilterError::Write)) & to.failed()
}

// Returns whether the stream ends as it has to if this request is refused: with the fault, or if it
// has fewer requests without one.
fn is_refused_at(heap: &Refusing<Global>, at: u64) -> bool {
    heap.refuse_at(at);
    let mut to = writer(64, 1, 0);
    let result = normalise_stream(heap, &mut reader(STREAM, 0), &mut to, None);
    let held = to.into_inner();
    if heap.has_refused() {
        let prefix = TEXT.get(..held.len).unwrap_or(STREAM);
        (result == Err(FilterError::Memory)) & held.holds(prefix)
    } else {
        result.is_ok() & held.holds(TEXT)
    }
}

/// Returns whether it ends rightly if each of its requests for memory is refused in turn. There are
/// some, and fewer than a hundred.
pub fn are_refusals_told(alloc: Global) -> bool {
    let heap = Refusing::new(alloc);
    let mut is_right = true;
    for at in 1..100u64 {
        is_right &= is_refused_at(&heap, at);
        if !heap.has_refused() {
            return is_right && at > 1;
        }
    }
    false
}
