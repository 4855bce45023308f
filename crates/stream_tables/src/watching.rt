//! Calls through `Watched`, which passes each on once, as it is.
use crate::normalising::{STREAM, writer};
use escape_stream::{NormaliseError, Watched, normalise};
use failing_alloc::byte_reader::ByteReader;
use failing_alloc::fixed_writer::FixedWriter;
use std::alloc::Global;
use std::io;
use std::io::{ErrorKind, Read, Write};

// Returns the kind of the error that comes back, if one does.
fn kind_of<T: Drop>(outcome: io::Result<T>) -> Option<ErrorKind> {
    match outcome {
        Ok(_) => None,
        Err(error) => Some(error.kind()),
    }
}

// Returns the kind of error that a call of a reader returns, if it does, and whether it has failed
// then.
fn after_call<R: Read>(from: &mut Watched<R>) -> (Option<ErrorKind>, bool) {
    let kind = kind_of(from.read(&mut [0u8; 4]));
    (kind, from.failed())
}

// Returns whether two bytes of a stream are read, and the others are left.
fn is_read_on() -> bool {
    let mut from = Watched::new(STREAM);
    let mut prefix = [0u8; 2];
    let mut is_right = from.read_exact(&mut prefix).is_ok();
    is_right &= !from.failed();
    is_right &= from.into_inner().len() == 5;
    is_right & (prefix.as_slice() == b"\x1b]".as_slice())
}

// Returns whether the error of a read comes back as it is, and is remembered.
fn is_remembered<R: Read>(from: &mut Watched<R>, kind: ErrorKind) -> bool {
    let is_first = after_call(from) == (Some(kind), true);
    is_first & (after_call(from) == (None, true))
}

fn failing_reader() -> Watched<ByteReader<'static>> {
    Watched::new(ByteReader {
        rest: STREAM,
        calls: 0,
        fails_at: 2,
    })
}

/// Returns whether the calls of a reader are passed on, and its error is remembered.
pub fn is_reader_passed_on() -> bool {
    let mut from = failing_reader();
    let is_first = after_call(&mut from) == (None, false);
    is_first & is_read_on() & is_remembered(&mut from, ErrorKind::Other)
}

// Reads of a stream, the first of which is interrupted.
#[derive(Drop)]
struct Interrupted<'a> {
    rest: &'a [u8],
    is_over: bool,
}

impl Read for Interrupted<'_> {
    fn read(&mut self, buf: &mut [u8]) -> io::Result<usize> {
        if self.is_over {
            return self.rest.read(buf);
        }
        self.is_over = true;
        Err(io::Error::from(ErrorKind::Interrupted))
    }
}

fn interrupted_reader() -> Watched<Interrupted<'static>> {
    Watched::new(Interrupted {
        rest: STREAM,
        is_over: false,
    })
}

// Returns whether an interrupted read is not made again by `normalise`, which writes nothing then.
fn is_read_fault(alloc: Global) -> bool {
    let mut from = interrupted_reader();
    let mut to = writer(64, 64, 0);
    let result = normalise(alloc, &mut from, &mut to);
    let is_unwritten = to.into_inner().calls == 0;
    (result == Err(NormaliseError::Read)) & from.failed() & is_unwritten
}

/// Returns whether an interrupted read is remembered, and is a read fault.
pub fn is_interruption_told(alloc: Global) -> bool {
    is_remembered(&mut interrupted_reader(), ErrorKind::Interrupted) & is_read_fault(alloc)
}

// Returns whether a writer is given the bytes that are written, and flushed.
fn is_passed_on() -> bool {
    let mut to = writer(64, 64, 0);
    let mut is_right = to.write_all(b"ab").is_ok();
    is_right &= to.flush().is_ok();
    is_right &= !to.failed();
    let held = to.into_inner();
    is_right & (held.flushes == 1) & held.holds(b"ab")
}

// Returns whether a full writer is remembered, once it has taken nothing of the bytes that it was
// given.
fn is_full_remembered() -> bool {
    let mut to = writer(1, 64, 0);
    let mut is_right = is_taken(&mut to, b"", 0);
    is_right &= !to.failed();
    is_right &= is_taken(&mut to, b"ab", 1);
    is_right &= !to.failed();
    is_right &= is_taken(&mut to, b"b", 0);
    is_right & to.failed()
}

// Returns whether a write takes so many bytes.
fn is_taken(to: &mut Watched<FixedWriter>, bytes: &[u8], count: usize) -> bool {
    match to.write(bytes) {
        Ok(taken) => taken == count,
        Err(_) => false,
    }
}

/// Returns whether the calls of a writer are passed on, and a full one is remembered.
pub fn is_writer_passed_on() -> bool {
    is_passed_on() & is_full_remembered()
}

// Takes one byte, and fails with this kind of error from then on.
#[derive(Drop)]
struct Broken {
    taken: usize,
    kind: ErrorKind,
}

impl Write for Broken {
    fn write(&mut self, buf: &[u8]) -> io::Result<usize> {
        if self.taken > 0 || buf.is_empty() {
            return Err(io::Error::from(self.kind));
        }
        self.taken = 1;
        Ok(1)
    }

    fn flush(&mut self) -> io::Result<()> {
        Err(io::Error::from(self.kind))
    }
}

fn broken_writer(kind: ErrorKind) -> Watched<Broken> {
    Watched::new(Broken { taken: 0, kind })
}

// Returns whether errors of this kind come back from each call of a writer.
fn comes_back(kind: ErrorKind) -> bool {
    let mut flushed = broken_writer(kind);
    let mut is_right = kind_of(flushed.flush()) == Some(kind);
    is_right &= flushed.failed();
    let mut whole = broken_writer(kind);
    is_right &= kind_of(whole.write_all(b"ab")) == Some(kind);
    is_right & whole.failed() & comes_back_of_a_write(kind)
}

// Returns whether one comes back from the second write, and none from the first.
fn comes_back_of_a_write(kind: ErrorKind) -> bool {
    let mut written = broken_writer(kind);
    let mut is_right = kind_of(written.write(b"ab")).is_none();
    is_right &= !written.failed();
    is_right &= kind_of(written.write(b"b")) == Some(kind);
    is_right & written.failed()
}

/// Returns whether the errors of a writer come back.
pub fn are_errors_passed_on() -> bool {
    comes_back(ErrorKind::BrokenPipe) & comes_back(ErrorKind::TimedOut)
}

const WORD: &[u8] = b"abcd";

// Returns whether a writer that failed at this call holds the bytes that it took before, and was
// not called again.
fn is_prefix_held(to: Watched<FixedWriter>, at: usize) -> bool {
    let has_failed = to.failed();
    let held = to.into_inner();
    let is_prefix = held.holds(WORD.get(..at.saturating_sub(1)).unwrap_or(STREAM));
    has_failed & is_prefix & (held.calls == at)
}

/// Returns whether a writer that fails holds a prefix of the bytes that it was to be given.
pub fn is_prefix_kept() -> bool {
    let mut is_right = true;
    for at in 1..5usize {
        let (mut whole, mut all) = (writer(64, 1, at), writer(64, 1, at));
        is_right &= !whole.write_whole(WORD);
        is_right &= all.write_all(WORD).is_err();
        is_right &= is_prefix_held(whole, at) & is_prefix_held(all, at);
    }
    is_right
}
