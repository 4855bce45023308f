//! Readers and writers that note why a call failed.
ghost use Rattle.std.specs.Prelude.{◌≡◌, ◌≢◌, IfErr, IsErr, false, true};
ghost use Rattle.std.specs.Io.{ReadsAtMost, WritesAtMost};
ghost use Rattle.std.specs.Io.KnownBytes.{ReadConsumes, WriteAppends};
ghost use Rattle.std.specs.IoError.{error_kind};

use crate::reason::Reason;
use std::io;
use std::io::{ErrorKind, Read, Write};

/// A reader or a writer around another, which notes the reason of the last error. A call that a
/// signal interrupts is made again, so it is no error.
#[derive(Drop)]
pub struct ErrorCapture<T> {
    inner: T,
    reason: Option<Reason>,
}

impl<T> ErrorCapture<T> {
    /// Returns a reader or a writer around `inner`, none of whose calls has failed.
    pub fn new(inner: T) -> ErrorCapture<T> {
        ErrorCapture {
            inner,
            reason: None,
        }
    }

    /// Returns the reason of the last error.
    pub fn reason(&self) -> Option<Reason> {
        self.reason
    }

    /// Returns the inner reader or writer.
    pub fn into_inner(self) -> T {
        let ErrorCapture { inner, reason: _ } = self;
        inner
    }
}

impl<R: Read> Read for ErrorCapture<R> {
    ghost remaining = { λ n. R.remaining n.inner };

    fn read(&mut self, buf: &mut [u8]) -> io::Result<usize>
        ensures bound { ReadsAtMost result buf.new }
        ensures bytes { ReadConsumes (R.remaining self.old.inner) (R.remaining self.new.inner)
            result buf.new }
        ensures retried { IfErr result (λ e. error_kind e ≢ ErrorKind.Interrupted) }
    {
        let result = uninterrupted_read(&mut self.inner, buf);
        note(&mut self.reason, &result);
        result
    }
}

impl<W: Write> Write for ErrorCapture<W> {
    ghost contents = { λ n. W.contents n.inner };

    fn write(&mut self, buf: &[u8]) -> io::Result<usize>
        ensures bound { WritesAtMost result buf.now }
        ensures bytes { WriteAppends (W.contents self.old.inner) (W.contents self.new.inner) result
            buf.now }
        ensures retried { IfErr result (λ e. error_kind e ≢ ErrorKind.Interrupted) }
    {
        let result = uninterrupted_write(&mut self.inner, buf);
        note(&mut self.reason, &result);
        result
    }

    fn flush(&mut self) -> io::Result<()> {
        let result = self.inner.flush();
        note(&mut self.reason, &result);
        result
    }
}

// Makes one read, and makes it again if a signal interrupted it.
fn uninterrupted_read<R: Read>(reader: &mut R, buf: &mut [u8]) -> io::Result<usize>
    ensures bound { ReadsAtMost result buf.new }
    ensures bytes { ReadConsumes (R.remaining reader.old) (R.remaining reader.new) result buf.new }
    ensures retried { IfErr result (λ e. error_kind e ≢ ErrorKind.Interrupted) }
{
    for _ in 0..u64::MAX {
        let outcome = reader.read(buf);
        if !is_interrupted(&outcome) {
            return outcome;
        }
    }
    Err(io::Error::from(ErrorKind::TimedOut))
}

// Makes one write, and makes it again if a signal interrupted it.
fn uninterrupted_write<W: Write>(writer: &mut W, buf: &[u8]) -> io::Result<usize>
    ensures bound { WritesAtMost result buf.now }
    ensures bytes { WriteAppends (W.contents writer.old) (W.contents writer.new) result buf.now }
    ensures retried { IfErr result (λ e. error_kind e ≢ ErrorKind.Interrupted) }
{
    for _ in 0..u64::MAX {
        let outcome = writer.write(buf);
        if !is_interrupted(&outcome) {
            return outcome;
        }
    }
    Err(io::Error::from(ErrorKind::TimedOut))
}

// Returns whether a call with this outcome was interrupted by a signal.
fn is_interrupted<V>(outcome: &io::Result<V>) -> bool
    ensures failed { result ≡ true → IsErr outcome.now }
    ensures other { result ≡ false → IfErr outcome.now (λ e. error_kind e ≢ ErrorKind.Interrupted) }
{
    match outcome {
        Ok(_) => false,
        Err(error) => error.kind() == ErrorKind::Interrupted,
    }
}

// Notes the reason, if the outcome is an error.
fn note<V>(reason: &mut Option<Reason>, outcome: &io::Result<V>) {
    if let Err(error) = outcome {
        *reason = Some(Reason::of(error));
    }
}
